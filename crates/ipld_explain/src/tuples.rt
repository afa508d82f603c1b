//! Tuples of up to ten items, explained.

ghost use Rattle.std.specs.Prelude.{◌≡◌, ◌+◌, [], ◌∷◌, List, Option, length, option_map, IfOk, IfSome};
ghost use Rattle.ipld_de.specs.Composites.{read_end, read_part, tuple_reading, PartError, LeftoverError, TupleReadError};
ghost use Rattle.ipld_de.specs.Cursors.{left};
ghost use Rattle.ipld_de.specs.Forms.{count_items};
ghost use Rattle.ipld_ser.specs.declared.error.SerdeError as error;
ghost use Rattle.ipld_tree.specs.Tree.{Items};
ghost use Rattle.ipld_tree.specs.TreeOf.{tree_of};
ghost use Rattle.ipld_explain.specs.Failures.{failure_of, Explains};
ghost use Rattle.ipld_explain.specs.Tuples.{Part, part, TupleFails, ExplainsParts};

use crate::cursors::next_item;
use crate::explain::Explain;
use crate::explanation::{Expected, Explanation, Segment};
use ipld_de::{Deserializer, SeqDeserializer};
use ipld_ser::SerdeError;
use ipld_tree::Ipld;
use std::alloc::{AllocError, Global};

// The parts of a tuple, in nested pairs: `(A, (B, ()))`.
trait Parts: Sized {
    ghost Contents: { Type 0 };

    // the reading of the remaining items, as the last of a tuple
    ghost reads: { Items → Option Contents };

    ghost read_error: { Items → error.SerdeError → Type 0 };

    // how each part is read and fails
    ghost parts: { List {1} Part };

    // Explains where and why they don't read the remaining items, of which the first has this
    // index. The tuple has `expected` items, and the list has `found` items.
    fn explain_parts(
        alloc: Global,
        items: SeqDeserializer,
        index: usize,
        expected: usize,
        found: usize,
    ) -> Result<Option<Explanation>, AllocError>
        requires { index + count_items (left items) ≡ found }
        ensures why { IfOk result (λ o. ExplainsParts reads parts expected found index (left items)
            (option_map failure_of o)) }
        ensures error { IfOk result (λ o. IfSome o (λ explanation.
            read_error (left items) explanation.error)) };
}

impl Parts for () {
    ghost Contents = { Unit {0} };

    ghost reads = { read_end };

    ghost read_error = { LeftoverError };

    ghost parts = { [] };

    fn explain_parts(
        alloc: Global,
        items: SeqDeserializer,
        _index: usize,
        expected: usize,
        found: usize,
    ) -> Result<Option<Explanation>, AllocError> {
        match items.end() {
            Ok(()) => Ok(None),
            Err(error) => Ok(Some(Explanation::wrong_length(alloc, expected, found, error))),
        }
    }
}

impl<T: Explain, P: Parts> Parts for (T, P) {
    ghost Contents = { T.Contents × P.Contents };

    ghost reads = { read_part T.reads P.reads };

    ghost read_error = { PartError T.reads T.read_error P.read_error };

    ghost parts = { part T.reads T.fails ∷ P.parts };

    fn explain_parts(
        alloc: Global,
        mut items: SeqDeserializer,
        index: usize,
        expected: usize,
        found: usize,
    ) -> Result<Option<Explanation>, AllocError> {
        let Some(item) = next_item(alloc, &mut items)? else {
            let error = SerdeError::WrongLength;
            return Ok(Some(Explanation::wrong_length(alloc, expected, found, error)));
        };
        if let Some(explanation) = T::explain(alloc, item)? {
            return Ok(Some(explanation.within_segment(Segment::Index(index))?));
        }
        P::explain_parts(alloc, items, index + 1, expected, found)
    }
}

// Explains where and why a tuple of these parts isn't read. There are `expected` parts.
fn explain_tuple<P: Parts>(
    alloc: Global,
    value: Ipld,
    expected: usize,
) -> Result<Option<Explanation>, AllocError>
    requires { expected ≡ length P.parts }
    ensures why { IfOk result (λ o. Explains (tuple_reading P.reads) (TupleFails P.parts)
        (tree_of value) (option_map failure_of o)) }
    ensures error { IfOk result (λ o. IfSome o (λ explanation. TupleReadError P.read_error
        (tree_of value) explanation.error)) }
{
    let kind = value.kind();
    match value.deserialize_seq() {
        Ok(items) => {
            let found = items.remaining();
            P::explain_parts(alloc, items, 0, expected, found)
        }
        Err(error) => Ok(Some(Explanation::at_value(alloc, kind, Expected::List, error))),
    }
}

/// A List of exactly one item. The first item that isn't read is at fault, or otherwise the number
/// of items.
impl<A: Explain> Explain for (A,) {
    ghost fails = { TupleFails (part A.reads A.fails ∷ []) };

    fn explain(alloc: Global, value: Ipld) -> Result<Option<Explanation>, AllocError> {
        explain_tuple::<(A, ())>(alloc, value, 1)
    }
}

/// A List of exactly two items. The first item that isn't read is at fault, or otherwise the number
/// of items.
impl<A: Explain, B: Explain> Explain for (A, B) {
    ghost fails = { TupleFails (part A.reads A.fails ∷ part B.reads B.fails ∷ []) };

    fn explain(alloc: Global, value: Ipld) -> Result<Option<Explanation>, AllocError> {
        explain_tuple::<(A, (B, ()))>(alloc, value, 2)
    }
}

/// A List of exactly three items. The first item that isn't read is at fault, or otherwise the
/// number of items.
impl<A: Explain, B: Explain, C: Explain> Explain for (A, B, C) {
    ghost fails = { TupleFails (part A.reads A.fails ∷ part B.reads B.fails ∷ part C.reads C.fails ∷ []) };

    fn explain(alloc: Global, value: Ipld) -> Result<Option<Explanation>, AllocError> {
        explain_tuple::<(A, (B, (C, ())))>(alloc, value, 3)
    }
}

/// A List of exactly four items. The first item that isn't read is at fault, or otherwise the
/// number of items.
impl<A: Explain, B: Explain, C: Explain, D: Explain> Explain for (A, B, C, D) {
    ghost fails = { TupleFails (part A.reads A.fails ∷ part B.reads B.fails ∷ part C.reads C.fails ∷ part D.reads D.fails ∷ []) };

    fn explain(alloc: Global, value: Ipld) -> Result<Option<Explanation>, AllocError> {
        explain_tuple::<(A, (B, (C, (D, ()))))>(alloc, value, 4)
    }
}

/// A List of exactly five items. The first item that isn't read is at fault, or otherwise the
/// number of items.
impl<A: Explain, B: Explain, C: Explain, D: Explain, E: Explain> Explain for (A, B, C, D, E) {
    ghost fails = { TupleFails (part A.reads A.fails ∷ part B.reads B.fails ∷ part C.reads C.fails ∷ part D.reads D.fails ∷ part E.reads E.fails ∷ []) };

    fn explain(alloc: Global, value: Ipld) -> Result<Option<Explanation>, AllocError> {
        explain_tuple::<(A, (B, (C, (D, (E, ())))))>(alloc, value, 5)
    }
}

/// A List of exactly six items. The first item that isn't read is at fault, or otherwise the number
/// of items.
impl<A: Explain, B: Explain, C: Explain, D: Explain, E: Explain, F: Explain> Explain
    for (A, B, C, D, E, F) {
    ghost fails = { TupleFails (part A.reads A.fails ∷ part B.reads B.fails ∷ part C.reads C.fails ∷ part D.reads D.fails ∷ part E.reads E.fails ∷ part F.reads F.fails ∷ []) };

    fn explain(alloc: Global, value: Ipld) -> Result<Option<Explanation>, AllocError> {
        explain_tuple::<(A, (B, (C, (D, (E, (F, ()))))))>(alloc, value, 6)
    }
}

/// A List of exactly seven items. The first item that isn't read is at fault, or otherwise the
/// number of items.
impl<A: Explain, B: Explain, C: Explain, D: Explain, E: Explain, F: Explain, G: Explain> Explain
    for (A, B, C, D, E, F, G) {
    ghost fails = { TupleFails (part A.reads A.fails ∷ part B.reads B.fails ∷ part C.reads C.fails ∷ part D.reads D.fails ∷ part E.reads E.fails ∷ part F.reads F.fails ∷ part G.reads G.fails ∷ []) };

    fn explain(alloc: Global, value: Ipld) -> Result<Option<Explanation>, AllocError> {
        explain_tuple::<(A, (B, (C, (D, (E, (F, (G, ())))))))>(alloc, value, 7)
    }
}

/// A List of exactly eight items. The first item that isn't read is at fault, or otherwise the
/// number of items.
impl<
    A: Explain,
    B: Explain,
    C: Explain,
    D: Explain,
    E: Explain,
    F: Explain,
    G: Explain,
    H: Explain,
> Explain for (A, B, C, D, E, F, G, H) {
    ghost fails = { TupleFails (part A.reads A.fails ∷ part B.reads B.fails ∷ part C.reads C.fails ∷ part D.reads D.fails ∷ part E.reads E.fails ∷ part F.reads F.fails ∷ part G.reads G.fails ∷ part H.reads H.fails ∷ []) };

    fn explain(alloc: Global, value: Ipld) -> Result<Option<Explanation>, AllocError> {
        explain_tuple::<(A, (B, (C, (D, (E, (F, (G, (H, ()))))))))>(alloc, value, 8)
    }
}

/// A List of exactly nine items. The first item that isn't read is at fault, or otherwise the
/// number of items.
impl<
    A: Explain,
    B: Explain,
    C: Explain,
    D: Explain,
    E: Explain,
    F: Explain,
    G: Explain,
    H: Explain,
    I: Explain,
> Explain for (A, B, C, D, E, F, G, H, I) {
    ghost fails = { TupleFails (part A.reads A.fails ∷ part B.reads B.fails ∷ part C.reads C.fails ∷ part D.reads D.fails ∷ part E.reads E.fails ∷ part F.reads F.fails ∷ part G.reads G.fails ∷ part H.reads H.fails ∷ part I.reads I.fails ∷ []) };

    fn explain(alloc: Global, value: Ipld) -> Result<Option<Explanation>, AllocError> {
        explain_tuple::<(A, (B, (C, (D, (E, (F, (G, (H, (I, ())))))))))>(alloc, value, 9)
    }
}

/// A List of exactly ten items. The first item that isn't read is at fault, or otherwise the number
/// of items.
impl<
    A: Explain,
    B: Explain,
    C: Explain,
    D: Explain,
    E: Explain,
    F: Explain,
    G: Explain,
    H: Explain,
    I: Explain,
    J: Explain,
> Explain for (A, B, C, D, E, F, G, H, I, J) {
    ghost fails = { TupleFails (part A.reads A.fails ∷ part B.reads B.fails ∷ part C.reads C.fails ∷ part D.reads D.fails ∷ part E.reads E.fails ∷ part F.reads F.fails ∷ part G.reads G.fails ∷ part H.reads H.fails ∷ part I.reads I.fails ∷ part J.reads J.fails ∷ []) };

    fn explain(alloc: Global, value: Ipld) -> Result<Option<Explanation>, AllocError> {
        explain_tuple::<(A, (B, (C, (D, (E, (F, (G, (H, (I, (J, ()))))))))))>(alloc, value, 10)
    }
}
