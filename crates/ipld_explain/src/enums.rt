//! Enums, explained.

ghost use Rattle.std.specs.Prelude.{◌≡◌, ◌⊎◌, ℕ, List, [], Option, false, length, option_map, option_and_then, IfOk, IfSome, string_bytes};
ghost use Rattle.ipld_de.specs.Cursors.{content_of};
ghost use Rattle.ipld_de.specs.Enums.{enum_reading, EnumReadError};
ghost use Rattle.ipld_de.specs.Fields.{strings, struct_reading, StructReadError};
ghost use Rattle.ipld_ser.specs.Names.{AreDistinct};
ghost use Rattle.ipld_de.specs.Reading.{ContentError};
ghost use Rattle.ipld_ser.specs.declared.error.SerdeError as error;
ghost use Rattle.ipld_ser.specs.declared.error.SerdeError.TheVariants.{VariantContent};
ghost use Rattle.ipld_tree.specs.Tree.{Tree};
ghost use Rattle.ipld_tree.specs.TreeOf.{tree_of};
ghost use Rattle.ipld_explain.specs.Failures.{Failure, failure_of, value, Explains};
ghost use Rattle.ipld_explain.specs.Fields.{StructFails};
ghost use Rattle.ipld_explain.specs.Enums.{Names, names_of, first_reads, FirstError, FirstFails, FirstNamed, no_reading, UnknownError, UnknownFails, NoneNamed, unit_reading, UnitError, UnitFails, ContentFails, EnumFails, ExplainsVariant, ExplainsContent};

use crate::explain::Explain;
use crate::explanation::{Expected, Explanation, Segment};
use crate::structs::{ExplainFields, explain_struct};
use ipld_de::{Deserializer, VariantDeserializer};
use ipld_ser::SerdeError;
use ipld_tree::{Ipld, IpldKind};
use std::alloc::{AllocError, Global};
use std::marker::PhantomData;

/// The content of a variant of an enum, as it is explained: [`NoContent`], [`Holds`] or
/// [`HasFields`].
///
/// Its function is meant for [`explain_enum`].
pub trait ExplainContent {
    // the model of the content
    ghost Contents: { Type 0 };

    // the number of its named fields
    ghost count: { ℕ };

    // the reading of the content, for these names of the fields
    ghost reads: { List (List ℕ) → Option Tree → Option Contents };

    // the error if it isn't read
    ghost read_error: { List (List ℕ) → Option Tree → error.SerdeError → Type 0 };

    // the failure if it isn't read, seen from the enum, by the names of the fields and of the
    // variant
    ghost fails: { List (List ℕ) → List ℕ → Option Tree → Failure → Type 0 };

    /// Explains why the content of the variant of this name isn't read. The path begins at the
    /// enum. Returns `None` if the content is read.
    ///
    /// # Errors
    ///
    /// `AllocError` if an allocation fails.
    fn explain_content(
        alloc: Global,
        name: String,
        content: Option<Ipld>,
        fields: &[&str],
    ) -> Result<Option<Explanation>, AllocError>
        requires count { length fields.now ≡ count }
        requires distinct { AreDistinct (strings fields.now) }
        ensures why { IfOk result (λ o. ExplainsContent (reads (strings fields.now))
            (fails (strings fields.now)) (string_bytes name) (option_map tree_of content)
            (option_map failure_of o)) }
        ensures error { IfOk result (λ o. IfSome o (λ explanation. read_error (strings fields.now)
            (option_map tree_of content) explanation.error)) };
}

/// A variant that holds nothing, such as `Started`.
pub struct NoContent;

/// A variant that holds a value, such as `Said(String)`, or a tuple of several values.
pub struct Holds<T: Explain> {
    held: PhantomData<T>,
}

/// A variant with named fields, such as `Moved { from: i64, to: i64 }`.
pub struct HasFields<F: ExplainFields> {
    fields: PhantomData<F>,
}

impl ExplainContent for NoContent {
    ghost Contents = { Unit {0} };

    ghost count = { 0 };

    ghost reads = { λ _ content. unit_reading content };

    ghost read_error = { λ _. UnitError };

    ghost fails = { λ _. UnitFails };

    fn explain_content(
        alloc: Global,
        name: String,
        content: Option<Ipld>,
        _fields: &[&str],
    ) -> Result<Option<Explanation>, AllocError> {
        match content {
            None => Ok(None),
            Some(content) => match <()>::explain(alloc, content)? {
                None => Ok(None),
                Some(explanation) => Ok(Some(explanation.within_segment(Segment::Key(name))?)),
            },
        }
    }
}

impl<T: Explain> ExplainContent for Holds<T> {
    ghost Contents = { T.Contents };

    ghost count = { 0 };

    ghost reads = { λ _ content. option_and_then T.reads content };

    ghost read_error = { λ _. ContentError VariantContent T.read_error };

    ghost fails = { λ _. ContentFails T.fails };

    fn explain_content(
        alloc: Global,
        name: String,
        content: Option<Ipld>,
        _fields: &[&str],
    ) -> Result<Option<Explanation>, AllocError> {
        match content {
            None => Ok(Some(variant_needs_content(alloc))),
            Some(content) => match T::explain(alloc, content)? {
                None => Ok(None),
                Some(explanation) => Ok(Some(explanation.within_segment(Segment::Key(name))?)),
            },
        }
    }
}

impl<F: ExplainFields> ExplainContent for HasFields<F> {
    ghost Contents = { F.Contents };

    ghost count = { length F.fields };

    ghost reads = { λ fields content. option_and_then (struct_reading (F.named_reads fields)) content };

    ghost read_error = { λ fields. ContentError VariantContent (StructReadError false F.parts fields) };

    ghost fails = { λ fields. ContentFails (StructFails false F.fields fields) };

    fn explain_content(
        alloc: Global,
        name: String,
        content: Option<Ipld>,
        fields: &[&str],
    ) -> Result<Option<Explanation>, AllocError> {
        match content {
            None => Ok(Some(variant_needs_content(alloc))),
            Some(content) => match explain_struct::<F>(alloc, content, fields)? {
                None => Ok(None),
                Some(explanation) => Ok(Some(explanation.within_segment(Segment::Key(name))?)),
            },
        }
    }
}

// Creates the explanation of a string that is the name of a variant with content.
fn variant_needs_content(alloc: Global) -> Explanation
    ensures path { (failure_of result).path ≡ [] }
    ensures found { result.found ≡ IpldKind.String }
    ensures expected { result.expected ≡ Expected.Map }
    ensures error { result.error ≡ SerdeError.VariantContent }
    ensures wrong { (failure_of result).wrong ≡ value }
{
    Explanation::at_value(
        alloc,
        IpldKind::String,
        Expected::Map,
        SerdeError::VariantContent,
    )
}

/// The variants of an enum, as they are explained: `()` for no variants, or a pair of the first
/// variant's content and the variants after it.
///
/// Its function is meant for [`explain_enum`].
pub trait ExplainVariants {
    // the content of one of the variants
    ghost Contents: { Type 0 };

    // the reading of a variant of this name and this content
    ghost reads: { Names → List ℕ → Option Tree → Option Contents };

    // the error if it isn't read
    ghost read_error: { Names → List ℕ → Option Tree → error.SerdeError → Type 0 };

    // the failure if it isn't read, seen from the enum
    ghost fails: { Names → List ℕ → Option Tree → Failure → Type 0 };

    // these are the names of the variants and of their fields
    ghost named: { Names → Type 0 };

    /// Explains why a variant of this name and this content isn't read. The path begins at the
    /// enum. Returns `None` if the variant is read.
    ///
    /// # Errors
    ///
    /// `AllocError` if an allocation fails.
    fn explain_variant(
        alloc: Global,
        name: String,
        content: Option<Ipld>,
        names: &[(&str, &[&str])],
    ) -> Result<Option<Explanation>, AllocError>
        requires { named (names_of names.now) }
        ensures why { IfOk result (λ o. ExplainsVariant (reads (names_of names.now))
            (fails (names_of names.now)) (string_bytes name) (option_map tree_of content)
            (option_map failure_of o)) }
        ensures error { IfOk result (λ o. IfSome o (λ explanation. read_error (names_of names.now)
            (string_bytes name) (option_map tree_of content) explanation.error)) };
}

impl ExplainVariants for () {
    ghost Contents = { ⊥ };

    ghost reads = { no_reading };

    ghost read_error = { UnknownError };

    ghost fails = { UnknownFails };

    ghost named = { NoneNamed };

    fn explain_variant(
        alloc: Global,
        name: String,
        content: Option<Ipld>,
        _names: &[(&str, &[&str])],
    ) -> Result<Option<Explanation>, AllocError> {
        let found = match content {
            None => IpldKind::String,
            Some(content) => {
                content.discard();
                IpldKind::Map
            }
        };
        Ok(Some(Explanation::unknown_variant(alloc, found, name)))
    }
}

impl<C: ExplainContent, V: ExplainVariants> ExplainVariants for (C, V) {
    ghost Contents = { C.Contents ⊎ V.Contents };

    ghost reads = { first_reads C.reads V.reads };

    ghost read_error = { FirstError C.read_error V.read_error };

    ghost fails = { FirstFails C.fails V.fails };

    ghost named = { FirstNamed C.count V.named };

    fn explain_variant(
        alloc: Global,
        name: String,
        content: Option<Ipld>,
        names: &[(&str, &[&str])],
    ) -> Result<Option<Explanation>, AllocError> {
        match names {
            [(first, fields), others @ ..] => {
                if name.as_str() == *first {
                    C::explain_content(alloc, name, content, fields)
                } else {
                    V::explain_variant(alloc, name, content, others)
                }
            }
            [] => Ok(None),
        }
    }
}

// Returns the content of a variant, if it has content.
fn take_content(alloc: Global, content: VariantDeserializer) -> Result<Option<Ipld>, AllocError>
    ensures { IfOk result (λ o. option_map tree_of o ≡ content_of content) }
{
    match content.newtype_variant::<Ipld>(alloc) {
        Ok(content) => Ok(Some(content)),
        Err(SerdeError::VariantContent) => Ok(None),
        Err(_) => Err(AllocError),
    }
}

/// Explains where and why an enum of these variants isn't read from the tree. `names` are the names
/// of the variants, each with the names of its fields.
///
/// The tree itself is at fault if it is neither a String nor a Map of one entry, if no variant has
/// its name, or if it lacks the content of its variant. Otherwise a value in the content is at
/// fault, and its path begins with the variant's name.
///
/// # Errors
///
/// `AllocError` if an allocation fails.
pub fn explain_enum<V: ExplainVariants>(
    alloc: Global,
    value: Ipld,
    names: &[(&str, &[&str])],
) -> Result<Option<Explanation>, AllocError>
    requires { V.named (names_of names.now) }
    ensures why { IfOk result (λ o. Explains (enum_reading (V.reads (names_of names.now)))
        (EnumFails (V.fails (names_of names.now))) (tree_of value) (option_map failure_of o)) }
    ensures error { IfOk result (λ o. IfSome o (λ explanation.
        EnumReadError (V.read_error (names_of names.now)) (tree_of value) explanation.error)) }
{
    let found = value.kind();
    match value.deserialize_enum("", &[]) {
        Ok(variant) => {
            let (name, content) = variant.variant();
            let content = take_content(alloc, content)?;
            V::explain_variant(alloc, name, content, names)
        }
        Err(error) => Ok(Some(Explanation::at_value(alloc, found, Expected::Variant, error))),
    }
}
