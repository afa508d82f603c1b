//! Types whose contents are all of their value.

mod composites;
mod scalars;

ghost use Rattle.ipld_de.specs.Faithful.{EqualByContents};

use crate::deserialize::Deserialize;

/// A type whose contents are all of its value: two values are equal by `==` if and only if their
/// contents are equal.
///
/// [`Deserialize`] and [`Lawful`](crate::Lawful) describe a type by its contents, which a custom
/// type chooses. This law ties them to the values: a type whose contents leave out a number does
/// not have it. Every type of this crate that is read has the law.
///
/// The law of a type over other types needs only the laws of its parts. Like
/// [`Lawful`](crate::Lawful), the law does not have a function.
pub trait Faithful: Deserialize + PartialEq {
    // the law that two values are equal if and only if their contents are
    ghost equal_by_contents: { EqualByContents Self.eq Self.contents };
}
