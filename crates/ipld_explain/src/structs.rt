//! Structs that are read from a map by the names of their fields, explained.

ghost use Rattle.std.specs.Prelude.{◌≡◌, ◌≤◌, ◌-◌, ◌∷◌, [], ℕ, List, length, Option, Some, is_some, is_none, true, false, option_map, IfOk, IfSome, IfNone};
ghost use Rattle.ipld_de.specs.Cursors.{entries_left};
ghost use Rattle.ipld_de.specs.Fields.{strings, struct_reading, only_fields, RejectsAt, StructReadError, reads_fields};
ghost use Rattle.ipld_de.specs.Fields as reading;
ghost use Rattle.ipld_ser.specs.Names.{AreDistinct};
ghost use Rattle.ipld_tree.specs.Index.{value_at};
ghost use Rattle.ipld_tree.specs.IsWhole.{Ascends};
ghost use Rattle.ipld_tree.specs.Tree.{Members, entries};
ghost use Rattle.ipld_tree.specs.TreeOf.{tree_of};
ghost use Rattle.ipld_explain.specs.Failures.{failure_of, Explains};
ghost use Rattle.ipld_explain.specs.Fields.{Part, part, ExplainsAt, ExplainsEntries, RejectsEntries, all_will_do, first_missing, StructFails};
ghost use Rattle.ipld_explain.specs.Lemmas.Deciding.{first_decides, each_decides};

use crate::cursors::next_entry;
use crate::explain::Explain;
use crate::explanation::{Expected, Explanation, Segment};
use ipld_de::{Deserialize, Deserializer, Field, Fields, IfMissing, MapDeserializer, position_of};
use ipld_tree::Ipld;
use std::alloc::{AllocError, Global};

/// The fields of a struct whose types explain why they don't read a tree: a [`Field`], an
/// [`OptionalField`](ipld_de::OptionalField), or a pair of one of these and the fields after it.
///
/// Its functions are meant for [`explain_struct`].
pub trait ExplainFields: Fields {
    // The fields in their order. For each field: whether its name is required, which trees it
    // reads, and how it fails.
    ghost fields: { List {1} Part };

    /// Explains why the field at this index doesn't read the tree. Returns `None` if it reads the
    /// tree.
    ///
    /// # Errors
    ///
    /// `AllocError` if an allocation fails.
    fn explain_at(
        alloc: Global,
        index: usize,
        value: Ipld,
    ) -> Result<Option<Explanation>, AllocError>
        requires { index ≤ length fields - 1 }
        ensures why { IfOk result (λ found. ExplainsAt fields index (tree_of value)
            (option_map failure_of found)) }
        ensures error { IfOk result (λ found. IfSome found (λ explanation.
            RejectsAt Self.parts index (tree_of value) explanation.error)) }
        ensures accepted { IfOk result (λ found. IfNone found (reading.accepts_at Self.parts index
            (tree_of value) ≡ true)) };

    /// Returns the first required name that the map lacks, in the order of the fields.
    fn missing_name<'a>(names: &[&'a str], map: &Ipld) -> Option<&'a str>
        ensures { (ms : Members) → tree_of map.now ≡ entries ms
            → option_map (λ name. name.now) result ≡ first_missing fields (strings names.now) ms };

    // the law that the fields are read if and only if each name has an accepted value, or is
    // optional and missing
    ghost decides: { (names : List (List ℕ)) (ms : Members) → is_some (Self.named_reads names ms) ≡ all_will_do fields names ms };
}

// Returns whether the map lacks the name.
fn is_missing(map: &Ipld, name: &str) -> bool
    ensures { (ms : Members) → tree_of map.now ≡ entries ms
        → result ≡ is_none (value_at name.now ms) }
{
    match map.get(name) {
        Ok(Some(_)) => false,
        _ => true,
    }
}

// Returns whether the name of a field is required.
fn is_required<T: Deserialize, M: IfMissing<T>>() -> bool
    ensures { result ≡ is_none M.missing }
{
    M::if_missing().is_err()
}

impl<T: Explain, M: IfMissing<T>> ExplainFields for Field<T, M> {
    ghost fields = { part (is_none M.missing) T.reads T.fails ∷ [] };

    fn explain_at(
        alloc: Global,
        _index: usize,
        value: Ipld,
    ) -> Result<Option<Explanation>, AllocError> {
        T::explain(alloc, value)
    }

    fn missing_name<'a>(names: &[&'a str], map: &Ipld) -> Option<&'a str> {
        match names {
            [name, ..] if is_required::<T, M>() && is_missing(map, name) => Some(*name),
            _ => None,
        }
    }

    ghost decides = { first_decides T.contents T.reads T.fails M.missing };
}

impl<T: Explain, M: IfMissing<T>, F: ExplainFields> ExplainFields for (Field<T, M>, F) {
    ghost fields = { part (is_none M.missing) T.reads T.fails ∷ F.fields };

    fn explain_at(
        alloc: Global,
        index: usize,
        value: Ipld,
    ) -> Result<Option<Explanation>, AllocError> {
        if index == 0 {
            T::explain(alloc, value)
        } else {
            F::explain_at(alloc, index - 1, value)
        }
    }

    fn missing_name<'a>(names: &[&'a str], map: &Ipld) -> Option<&'a str> {
        match names {
            [name, others @ ..] => {
                if is_required::<T, M>() && is_missing(map, name) {
                    Some(*name)
                } else {
                    F::missing_name(others, map)
                }
            }
            [] => None,
        }
    }

    ghost decides = { λ names ms. each_decides T.contents T.reads T.fails M.missing F.named_reads F.fields names ms (λ more. F.decides more ms) };
}

/// Explains where and why a struct of these fields isn't read from the tree by
/// [`read_struct`](ipld_de::read_struct), under these names.
///
/// The value at fault is the first, in byte order of the keys, that its field doesn't read. If all
/// fields read their values, the first missing name is at fault. The error is that of
/// `read_struct`.
///
/// # Errors
///
/// `AllocError` if an allocation fails.
pub fn explain_struct<F: ExplainFields>(
    alloc: Global,
    value: Ipld,
    names: &[&str],
) -> Result<Option<Explanation>, AllocError>
    requires count { length names.now ≡ length F.fields }
    requires distinct { AreDistinct (strings names.now) }
    ensures why { IfOk result (λ found. Explains
        (struct_reading (F.named_reads (strings names.now))) (StructFails false F.fields
        (strings names.now)) (tree_of value) (option_map failure_of found)) }
    ensures error { IfOk result (λ found. IfSome found (λ explanation. StructReadError false F.parts
        (strings names.now) (tree_of value) explanation.error)) }
{
    explain_fields::<F>(alloc, value, names, false)
}

/// Explains where and why a struct of these fields isn't read from the tree by
/// [`read_strict_struct`](ipld_de::read_strict_struct), under these names.
///
/// The value at fault is the first, in byte order of the keys, whose key is not one of the names or
/// that its field doesn't read. If all keys and values are accepted, the first missing name is at
/// fault. The error is that of `read_strict_struct`.
///
/// # Errors
///
/// `AllocError` if an allocation fails.
pub fn explain_strict_struct<F: ExplainFields>(
    alloc: Global,
    value: Ipld,
    names: &[&str],
) -> Result<Option<Explanation>, AllocError>
    requires count { length names.now ≡ length F.fields }
    requires distinct { AreDistinct (strings names.now) }
    ensures why { IfOk result (λ found. Explains (struct_reading (only_fields (strings names.now)
        (F.named_reads (strings names.now)))) (StructFails true F.fields (strings names.now))
        (tree_of value) (option_map failure_of found)) }
    ensures error { IfOk result (λ found. IfSome found (λ explanation. StructReadError true F.parts
        (strings names.now) (tree_of value) explanation.error)) }
{
    explain_fields::<F>(alloc, value, names, true)
}

// Explains why a struct isn't read. If `strict`, a map with other names isn't read either.
fn explain_fields<F: ExplainFields>(
    alloc: Global,
    value: Ipld,
    names: &[&str],
    strict: bool,
) -> Result<Option<Explanation>, AllocError>
    requires count { length names.now ≡ length F.fields }
    requires distinct { AreDistinct (strings names.now) }
    ensures why { IfOk result (λ found. Explains
        (struct_reading (reads_fields strict (strings names.now)
        (F.named_reads (strings names.now)))) (StructFails strict F.fields (strings names.now))
        (tree_of value) (option_map failure_of found)) }
    ensures error { IfOk result (λ found. IfSome found (λ explanation.
        StructReadError strict F.parts (strings names.now) (tree_of value) explanation.error)) }
{
    let found = value.kind();
    let missing = F::missing_name(names, &value);
    match value.deserialize_map() {
        Ok(map) => match explain_entries::<F>(alloc, map, names, strict)? {
            Some(explanation) => Ok(Some(explanation)),
            None => match missing {
                Some(name) => Ok(Some(Explanation::missing_field(alloc, name)?)),
                None => Ok(None),
            },
        },
        Err(error) => Ok(Some(Explanation::at_value(alloc, found, Expected::Map, error))),
    }
}

// Explains the first value, in the order of the keys, whose key is not allowed or that its field
// doesn't read.
fn explain_entries<F: ExplainFields>(
    alloc: Global,
    mut map: MapDeserializer,
    names: &[&str],
    strict: bool,
) -> Result<Option<Explanation>, AllocError>
    requires count { length names.now ≡ length F.fields }
    requires distinct { AreDistinct (strings names.now) }
    requires ascends { Ascends (entries_left map) }
    ensures why { IfOk result (λ found. ExplainsEntries strict F.fields (strings names.now)
        (entries_left map) (option_map failure_of found)) }
    ensures error { IfOk result (λ found. RejectsEntries strict F.parts (strings names.now)
        (entries_left map) (option_map (λ explanation. explanation.error) found)) }
{
    while let Some((key, value)) = next_entry(alloc, &mut map)? {
        let Some(index) = position_of(names, key.as_str()) else {
            let found = value.kind();
            value.discard();
            if strict {
                let unknown = Explanation::unknown_field(alloc, found);
                return Ok(Some(unknown.within_segment(Segment::Key(key))?));
            }
            continue;
        };
        if let Some(explanation) = F::explain_at(alloc, index, value)? {
            return Ok(Some(explanation.within_segment(Segment::Key(key))?));
        }
    }
    Ok(None)
}
