//! Custom types that describe once how they are written and read.

ghost use Rattle.ipld_de.specs.Known.{Known};

/// A custom type that describes once how its values are written and read: by the list of its
/// fields, or of its variants.
///
/// The ghost items of [`Serialize`], [`Deserialize`](crate::Deserialize) and
/// [`Lawful`](crate::Lawful) are then parts of the description. So nothing is stated twice, and the
/// law is proved for every list.
pub trait Described {
    // how the values are written and read, and their law
    ghost known: { Known Self };
}

/// Expands to the body of `serialize` of a struct.
///
/// `serialize_struct!(alloc, serializer, self => Photo { title, taken as "takenAt" })` writes the
/// fields in this order. It writes a field under its name, or under the key after `as`. A struct
/// without fields is `Photo {}`.
#[macro_export]
macro_rules! serialize_struct {
    ($alloc:expr, $serializer:expr, $value:expr => $name:ident {}) => {
        $serializer.serialize_struct($alloc, stringify!($name), 0)?.end()
    };
    ($alloc:expr, $serializer:expr, $value:expr => $name:ident { $($field:ident $(as $key:literal)?),+ $(,)? }) => {{
        let mut map = $serializer.serialize_struct($alloc, stringify!($name), 0)?;
        $(map.serialize_field($crate::key_of!($field $($key)?), &$value.$field)?;)+
        map.end()
    }};
}

/// Expands to the body of `write_image` of a struct.
///
/// `write_struct!(alloc, writer, self => Photo { title, taken as "takenAt" })` writes the fields
/// that `serialize_struct!` puts into a tree. It does not make the tree, and writes in the order of
/// the writer. A struct without fields is `Photo {}`.
#[macro_export]
macro_rules! write_struct {
    ($alloc:expr, $writer:expr, $value:expr => $name:ident { $($field:ident $(as $key:literal)?),* $(,)? }) => {{
        let $name { $($field),* } = $value;
        ipld_ser::write_fields($alloc, $writer, &$crate::nested_values!($(($field $($key)?)),*))
    }};
}

/// Expands to the body of `deserialize` of a struct.
///
/// `deserialize_struct!(alloc, value => Photo { title, taken as "takenAt": optional })` reads the
/// fields by [`read_struct`](crate::read_struct). It reads a field from its name, or from the key
/// after `as`. A field marked `optional` is an `Option`, which is `None` if its name is missing. A
/// struct without fields is `Photo {}`.
#[macro_export]
macro_rules! deserialize_struct {
    ($alloc:expr, $value:expr => $name:ident {}) => {{
        $crate::read_struct::<()>($alloc, $value, stringify!($name), &[])?;
        Ok($name {})
    }};
    // No `?`: the borrow checker rejects it for fields that have a CID and own no memory.
    ($alloc:expr, $value:expr => $name:ident { $($field:ident $(as $key:literal)? $(: $note:ident)?),+ $(,)? }) => {
        match $crate::read_struct::<$crate::nested_fields!($($field $(: $note)?),+)>(
            $alloc,
            $value,
            stringify!($name),
            &[$($crate::key_of!($field $($key)?)),+],
        ) {
            Ok($crate::nested!($($field),+)) => Ok($name { $($field),+ }),
            Err(error) => Err(error),
        }
    };
}

/// Expands to the body of `read_image` of a struct.
///
/// `read_struct_image!(alloc, reader, levels => Photo { title, taken as "takenAt": optional })`
/// reads the fields by [`read_struct_image`](crate::read_struct_image). It reads them like
/// `deserialize_struct!` reads them from a tree. The struct must have at least one field.
#[macro_export]
macro_rules! read_struct_image {
    // No `?`, as in `deserialize_struct!`.
    ($alloc:expr, $reader:expr, $levels:expr => $name:ident { $($field:ident $(as $key:literal)? $(: $note:ident)?),+ $(,)? }) => {
        match $crate::read_struct_image::<$crate::nested_fields!($($field $(: $note)?),+), _>(
            $alloc,
            $reader,
            $levels,
            &[$($crate::key_of!($field $($key)?)),+],
        ) {
            Ok($crate::nested!($($field),+)) => Ok($name { $($field),+ }),
            Err(error) => Err(error),
        }
    };
}

/// Expands to the arm of a variant with named fields in `serialize` of an enum.
///
/// In `serialize_variant!(alloc, serializer => Rectangle { width, height })` the names are the
/// borrowed fields. The value of the arm is the return value of the function. `width as "w"` writes
/// a field under that key.
#[macro_export]
macro_rules! serialize_variant {
    ($alloc:expr, $serializer:expr => $variant:ident { $($field:ident $(as $key:literal)?),* $(,)? }) => {
        $serializer.serialize_variant_fields(
            $alloc,
            stringify!($variant),
            $crate::nested_values!($(($field $($key)?)),*),
        )
    };
}

/// Expands to the arm of a variant with named fields in `deserialize` of an enum:
/// `deserialize_variant!(alloc, content => Shape::Rectangle { width, height })`.
///
/// A field marked `optional` is an `Option`, which is `None` if its name is missing. `width as "w"`
/// is read from that key.
#[macro_export]
macro_rules! deserialize_variant {
    ($alloc:expr, $content:expr => $name:ident::$variant:ident {}) => {{
        $content.struct_fields::<()>($alloc, &[])?;
        Ok($name::$variant {})
    }};
    // No `?`, as in `deserialize_struct!`.
    ($alloc:expr, $content:expr => $name:ident::$variant:ident { $($field:ident $(as $key:literal)? $(: $note:ident)?),+ $(,)? }) => {
        match $content.struct_fields::<$crate::nested_fields!($($field $(: $note)?),+)>($alloc, &[$($crate::key_of!($field $($key)?)),+]) {
            Ok($crate::nested!($($field),+)) => Ok($name::$variant { $($field),+ }),
            Err(error) => Err(error),
        }
    };
}

/// Expands to the key of a field: its name, or the string after it.
#[macro_export]
macro_rules! key_of {
    ($field:ident) => { stringify!($field) };
    ($field:ident $key:literal) => { $key };
}

/// Expands to the names in nested pairs, like [`Fields`](crate::Fields).
#[macro_export]
macro_rules! nested {
    ($first:ident) => { $first };
    ($first:ident, $($others:ident),+) => { ($first, $crate::nested!($($others),+)) };
}

/// Expands to the borrowed values with their keys, in nested pairs like
/// [`SerializeFields`](ipld_ser::SerializeFields).
#[macro_export]
macro_rules! nested_values {
    () => { () };
    (($first:ident $($key:literal)?) $(, $others:tt)*) => {
        (($crate::key_of!($first $($key)?), $first), $crate::nested_values!($($others),*))
    };
}

/// Expands to the [`Fields`](crate::Fields) type of these names. The types of the fields are
/// inferred from their use.
#[macro_export]
macro_rules! nested_fields {
    ($first:ident) => { $crate::Field<_> };
    ($first:ident: optional) => { $crate::OptionalField<_> };
    ($first:ident, $($others:tt)+) => { ($crate::Field<_>, $crate::nested_fields!($($others)+)) };
    ($first:ident: optional, $($others:tt)+) => { ($crate::OptionalField<_>, $crate::nested_fields!($($others)+)) };
}
