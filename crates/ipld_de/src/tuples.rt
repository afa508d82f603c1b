//! The reading of tuples of up to ten parts.

ghost use Rattle.std.specs.Prelude.{◌≡◌, ◌≢◌, ℕ, suc, Option, Some, IfOk, IfErr};
ghost use Rattle.ipld_de.specs.Composites.{read_end, read_part, tuple_reading, PartError, LeftoverError, TupleReadError};
ghost use Rattle.ipld_de.specs.Cursors.{left, read_first, FirstError, after_item};
ghost use Rattle.ipld_de.specs.ImageReader.{BeginsRead, BeginPartsRead};
ghost use Rattle.ipld_ser.specs.Image.{RejectsAs};
ghost use Rattle.ipld_ser.specs.declared.error.SerdeError as error;
ghost use Rattle.ipld_tree.specs.Tree.{Items};

use crate::deserialize::Deserialize;
use crate::deserializer::Deserializer;
use crate::image_reader::{ImageReader, Unread};
use crate::part::{Part, read_part};
use crate::sequence::SeqDeserializer;
use ipld_ser::SerdeError;
use ipld_tree::Ipld;
use std::alloc::Global;

// The parts of a tuple, in nested pairs: `(a, (b, ()))`.
trait Parts: Sized + Drop {
    ghost Contents: { Type 0 };

    ghost contents: { Self → Contents };

    // the reading of the parts from the items that are left, as the last parts of a tuple
    ghost reads: { Items → Option Contents };

    ghost read_error: { Items → error.SerdeError → Type 0 };

    // the number of parts
    ghost count: { ℕ };

    // Reads the items that are left.
    fn read(alloc: Global, items: SeqDeserializer) -> Result<Self, SerdeError>
        ensures ok { IfOk result (λ v. reads (left items) ≡ Some (contents v)) }
        ensures err { IfErr result (λ e. RejectsAs (reads (left items)) (read_error (left items)) e) };

    // Reads `count` items part by part.
    fn read_each<R: ImageReader>(
        alloc: Global,
        reader: &mut R,
        levels: usize,
    ) -> Result<Self, Unread>
        ensures ok { IfOk result (λ v. BeginPartsRead (R.Begins levels) reads count (contents v)
            (R.contents reader.old) (R.contents reader.new)) }
        ensures never_missing { IfErr result (λ e. e ≢ Unread.MissingField) };

    // Calls `discard` for every part.
    fn discard_all(self);
}

impl Parts for () {
    ghost Contents = { Unit {0} };

    ghost contents = { λ v. v };

    ghost reads = { read_end };

    ghost read_error = { LeftoverError };

    ghost count = { 0 };

    #[inline(always)]
    fn read(_alloc: Global, items: SeqDeserializer) -> Result<(), SerdeError> {
        items.end()
    }

    #[inline(always)]
    fn read_each<R: ImageReader>(
        _alloc: Global,
        _reader: &mut R,
        _levels: usize,
    ) -> Result<(), Unread> {
        Ok(())
    }

    #[inline(always)]
    fn discard_all(self) {}
}

impl<T: Deserialize, P: Parts> Parts for (T, P) {
    ghost Contents = { T.Contents × P.Contents };

    ghost contents = { λ v. (T.contents v.0, P.contents v.1) };

    ghost reads = { read_part T.reads P.reads };

    ghost read_error = { PartError T.reads T.read_error P.read_error };

    ghost count = { suc P.count };

    #[inline(always)]
    fn read(alloc: Global, mut items: SeqDeserializer) -> Result<(T, P), SerdeError> {
        let first = Part::new(next_part(alloc, &mut items)?);
        let others = P::read(alloc, items)?;
        Ok((first.into_value(), others))
    }

    #[inline(always)]
    fn read_each<R: ImageReader>(
        alloc: Global,
        reader: &mut R,
        levels: usize,
    ) -> Result<(T, P), Unread> {
        let first = Part::new(read_part(alloc, reader, levels)?);
        let others = P::read_each(alloc, reader, levels)?;
        Ok((first.into_value(), others))
    }

    #[inline(always)]
    fn discard_all(self) {
        let (first, others) = self;
        first.discard();
        others.discard_all();
    }
}

// Reads the next item of a tuple.
#[inline(always)]
fn next_part<T: Deserialize>(alloc: Global, items: &mut SeqDeserializer) -> Result<T, SerdeError>
    ensures ok { IfOk result (λ v. read_first T.reads (left items.old) ≡ Some (T.contents v)) }
    ensures err { IfErr result (λ e. RejectsAs (read_first T.reads (left items.old))
        (FirstError T.read_error (left items.old)) e) }
    ensures gone { left items.new ≡ after_item (left items.old) }
{
    items.next_element(alloc)?.ok_or(SerdeError::WrongLength)
}

// Reads a List of `count` items part by part, as a tuple.
#[inline(always)]
fn read_tuple_image<P: Parts, R: ImageReader>(
    alloc: Global,
    reader: &mut R,
    levels: usize,
    count: usize,
) -> Result<P, Unread>
    requires { count ≡ P.count }
    ensures ok { IfOk result (λ v. BeginsRead (R.Begins levels) (tuple_reading P.reads)
        (P.contents v) (R.contents reader.old) (R.contents reader.new)) }
    ensures never_missing { IfErr result (λ e. e ≢ Unread.MissingField) }
{
    let Some(inner) = levels.checked_sub(1) else {
        return Err(Unread::Rejected);
    };
    let found = reader.begin_list()?;
    if found != count {
        return Err(Unread::Rejected);
    }
    P::read_each(alloc, reader, inner)
}

/// A List of exactly one item. A missing item is [`SerdeError::WrongLength`], and leftover items
/// are [`SerdeError::Leftover`].
impl<A: Deserialize> Deserialize for (A,) {
    ghost Contents = { A.Contents × Unit {0} };

    ghost contents = { λ v. (A.contents v.0, tt) };

    ghost reads = { tuple_reading (read_part A.reads read_end) };

    ghost read_error = { TupleReadError (PartError A.reads A.read_error LeftoverError) };

    #[inline(always)]
    fn deserialize(alloc: Global, value: Ipld) -> Result<(A,), SerdeError> {
        let (only, ()) = Parts::read(alloc, value.deserialize_tuple(1)?)?;
        Ok((only,))
    }

    #[inline(always)]
    fn read_image<R: ImageReader>(
        alloc: Global,
        reader: &mut R,
        levels: usize,
    ) -> Result<(A,), Unread> {
        let (only, ()) = read_tuple_image(alloc, reader, levels, 1)?;
        Ok((only,))
    }

    #[inline(always)]
    fn discard(self) {
        let (only,) = self;
        (only, ()).discard_all();
    }
}

/// A List of exactly two items, which are read in order. A missing item is
/// [`SerdeError::WrongLength`], and leftover items are [`SerdeError::Leftover`].
impl<A: Deserialize, B: Deserialize> Deserialize for (A, B) {
    ghost Contents = { A.Contents × (B.Contents × Unit {0}) };

    ghost contents = { λ v. (A.contents v.0, (B.contents v.1, tt)) };

    ghost reads = { tuple_reading (read_part A.reads (read_part B.reads read_end)) };

    ghost read_error = { TupleReadError (PartError A.reads A.read_error (PartError B.reads B.read_error LeftoverError)) };

    #[inline(always)]
    fn deserialize(alloc: Global, value: Ipld) -> Result<(A, B), SerdeError> {
        let (first, (second, ())) = Parts::read(alloc, value.deserialize_tuple(2)?)?;
        Ok((first, second))
    }

    #[inline(always)]
    fn read_image<R: ImageReader>(
        alloc: Global,
        reader: &mut R,
        levels: usize,
    ) -> Result<(A, B), Unread> {
        let (first, (second, ())) = read_tuple_image(alloc, reader, levels, 2)?;
        Ok((first, second))
    }

    #[inline(always)]
    fn discard(self) {
        let (first, second) = self;
        (first, (second, ())).discard_all();
    }
}

/// A List of exactly three items, which are read in order. A missing item is
/// [`SerdeError::WrongLength`], and leftover items are [`SerdeError::Leftover`].
impl<A: Deserialize, B: Deserialize, C: Deserialize> Deserialize for (A, B, C) {
    ghost Contents = { A.Contents × (B.Contents × (C.Contents × Unit {0})) };

    ghost contents = { λ v. (A.contents v.0, (B.contents v.1, (C.contents v.2, tt))) };

    ghost reads = { tuple_reading (read_part A.reads (read_part B.reads (read_part C.reads read_end))) };

    ghost read_error = { TupleReadError (PartError A.reads A.read_error (PartError B.reads B.read_error (PartError C.reads C.read_error LeftoverError))) };

    #[inline(always)]
    fn deserialize(alloc: Global, value: Ipld) -> Result<(A, B, C), SerdeError> {
        let (first, (second, (third, ()))) = Parts::read(alloc, value.deserialize_tuple(3)?)?;
        Ok((first, second, third))
    }

    #[inline(always)]
    fn read_image<R: ImageReader>(
        alloc: Global,
        reader: &mut R,
        levels: usize,
    ) -> Result<(A, B, C), Unread> {
        let (first, (second, (third, ()))) = read_tuple_image(alloc, reader, levels, 3)?;
        Ok((first, second, third))
    }

    #[inline(always)]
    fn discard(self) {
        let (first, second, third) = self;
        (first, (second, (third, ()))).discard_all();
    }
}

/// A List of exactly four items, which are read in order. A missing item is
/// [`SerdeError::WrongLength`], and leftover items are [`SerdeError::Leftover`].
impl<A: Deserialize, B: Deserialize, C: Deserialize, D: Deserialize> Deserialize for (A, B, C, D) {
    ghost Contents = { A.Contents × (B.Contents × (C.Contents × (D.Contents × Unit {0}))) };

    ghost contents = { λ v. (A.contents v.0, (B.contents v.1, (C.contents v.2, (D.contents v.3, tt)))) };

    ghost reads = { tuple_reading (read_part A.reads (read_part B.reads (read_part C.reads (read_part D.reads read_end)))) };

    ghost read_error = { TupleReadError (PartError A.reads A.read_error (PartError B.reads B.read_error (PartError C.reads C.read_error (PartError D.reads D.read_error LeftoverError)))) };

    #[inline(always)]
    fn deserialize(alloc: Global, value: Ipld) -> Result<(A, B, C, D), SerdeError> {
        let (first, (second, (third, (fourth, ())))) = Parts::read(
            alloc,
            value.deserialize_tuple(4)?,
        )?;
        Ok((first, second, third, fourth))
    }

    #[inline(always)]
    fn read_image<R: ImageReader>(
        alloc: Global,
        reader: &mut R,
        levels: usize,
    ) -> Result<(A, B, C, D), Unread> {
        let (first, (second, (third, (fourth, ())))) = read_tuple_image(alloc, reader, levels, 4)?;
        Ok((first, second, third, fourth))
    }

    #[inline(always)]
    fn discard(self) {
        let (first, second, third, fourth) = self;
        (first, (second, (third, (fourth, ())))).discard_all();
    }
}

/// A List of exactly five items, which are read in order. A missing item is
/// [`SerdeError::WrongLength`], and leftover items are [`SerdeError::Leftover`].
impl<A: Deserialize, B: Deserialize, C: Deserialize, D: Deserialize, E: Deserialize> Deserialize
    for (A, B, C, D, E) {
    ghost Contents = { A.Contents × (B.Contents × (C.Contents × (D.Contents × (E.Contents × Unit {0})))) };

    ghost contents = { λ v. (A.contents v.0, (B.contents v.1, (C.contents v.2, (D.contents v.3, (E.contents v.4, tt))))) };

    ghost reads = { tuple_reading (read_part A.reads (read_part B.reads (read_part C.reads (read_part D.reads (read_part E.reads read_end))))) };

    ghost read_error = { TupleReadError (PartError A.reads A.read_error (PartError B.reads B.read_error (PartError C.reads C.read_error (PartError D.reads D.read_error (PartError E.reads E.read_error LeftoverError))))) };

    #[inline(always)]
    fn deserialize(alloc: Global, value: Ipld) -> Result<(A, B, C, D, E), SerdeError> {
        let (first, (second, (third, (fourth, (fifth, ()))))) = Parts::read(
            alloc,
            value.deserialize_tuple(5)?,
        )?;
        Ok((first, second, third, fourth, fifth))
    }

    #[inline(always)]
    fn read_image<R: ImageReader>(
        alloc: Global,
        reader: &mut R,
        levels: usize,
    ) -> Result<(A, B, C, D, E), Unread> {
        let (first, (second, (third, (fourth, (fifth, ()))))) = read_tuple_image(
            alloc, reader, levels, 5,
        )?;
        Ok((first, second, third, fourth, fifth))
    }

    #[inline(always)]
    fn discard(self) {
        let (first, second, third, fourth, fifth) = self;
        (first, (second, (third, (fourth, (fifth, ()))))).discard_all();
    }
}

/// A List of exactly six items, which are read in order. A missing item is
/// [`SerdeError::WrongLength`], and leftover items are [`SerdeError::Leftover`].
impl<
    A: Deserialize,
    B: Deserialize,
    C: Deserialize,
    D: Deserialize,
    E: Deserialize,
    F: Deserialize,
> Deserialize for (A, B, C, D, E, F) {
    ghost Contents = { A.Contents × (B.Contents × (C.Contents × (D.Contents × (E.Contents × (F.Contents × Unit {0}))))) };

    ghost contents = { λ v. (A.contents v.0, (B.contents v.1, (C.contents v.2, (D.contents v.3, (E.contents v.4, (F.contents v.5, tt)))))) };

    ghost reads = { tuple_reading (read_part A.reads (read_part B.reads (read_part C.reads (read_part D.reads (read_part E.reads (read_part F.reads read_end)))))) };

    ghost read_error = { TupleReadError (PartError A.reads A.read_error (PartError B.reads B.read_error (PartError C.reads C.read_error (PartError D.reads D.read_error (PartError E.reads E.read_error (PartError F.reads F.read_error LeftoverError)))))) };

    #[inline(always)]
    fn deserialize(alloc: Global, value: Ipld) -> Result<(A, B, C, D, E, F), SerdeError> {
        let (first, (second, (third, (fourth, (fifth, (sixth, ())))))) = Parts::read(
            alloc,
            value.deserialize_tuple(6)?,
        )?;
        Ok((first, second, third, fourth, fifth, sixth))
    }

    #[inline(always)]
    fn read_image<R: ImageReader>(
        alloc: Global,
        reader: &mut R,
        levels: usize,
    ) -> Result<(A, B, C, D, E, F), Unread> {
        let (first, (second, (third, (fourth, (fifth, (sixth, ())))))) = read_tuple_image(
            alloc, reader, levels, 6,
        )?;
        Ok((first, second, third, fourth, fifth, sixth))
    }

    #[inline(always)]
    fn discard(self) {
        let (first, second, third, fourth, fifth, sixth) = self;
        (first, (second, (third, (fourth, (fifth, (sixth, ())))))).discard_all();
    }
}

/// A List of exactly seven items, which are read in order. A missing item is
/// [`SerdeError::WrongLength`], and leftover items are [`SerdeError::Leftover`].
impl<
    A: Deserialize,
    B: Deserialize,
    C: Deserialize,
    D: Deserialize,
    E: Deserialize,
    F: Deserialize,
    G: Deserialize,
> Deserialize for (A, B, C, D, E, F, G) {
    ghost Contents = { A.Contents × (B.Contents × (C.Contents × (D.Contents × (E.Contents × (F.Contents × (G.Contents × Unit {0})))))) };

    ghost contents = { λ v. (A.contents v.0, (B.contents v.1, (C.contents v.2, (D.contents v.3, (E.contents v.4, (F.contents v.5, (G.contents v.6, tt))))))) };

    ghost reads = { tuple_reading (read_part A.reads (read_part B.reads (read_part C.reads (read_part D.reads (read_part E.reads (read_part F.reads (read_part G.reads read_end))))))) };

    ghost read_error = { TupleReadError (PartError A.reads A.read_error (PartError B.reads B.read_error (PartError C.reads C.read_error (PartError D.reads D.read_error (PartError E.reads E.read_error (PartError F.reads F.read_error (PartError G.reads G.read_error LeftoverError))))))) };

    #[inline(always)]
    fn deserialize(alloc: Global, value: Ipld) -> Result<(A, B, C, D, E, F, G), SerdeError> {
        let (first, (second, (third, (fourth, (fifth, (sixth, (seventh, ()))))))) = Parts::read(
            alloc,
            value.deserialize_tuple(7)?,
        )?;
        Ok((first, second, third, fourth, fifth, sixth, seventh))
    }

    #[inline(always)]
    fn read_image<R: ImageReader>(
        alloc: Global,
        reader: &mut R,
        levels: usize,
    ) -> Result<(A, B, C, D, E, F, G), Unread> {
        let (first, (second, (third, (fourth, (fifth, (sixth, (seventh, ()))))))) =
            read_tuple_image(alloc, reader, levels, 7)?;
        Ok((first, second, third, fourth, fifth, sixth, seventh))
    }

    #[inline(always)]
    fn discard(self) {
        let (first, second, third, fourth, fifth, sixth, seventh) = self;
        (
            first,
            (second, (third, (fourth, (fifth, (sixth, (seventh, ())))))),
        )
            .discard_all();
    }
}

/// A List of exactly eight items, which are read in order. A missing item is
/// [`SerdeError::WrongLength`], and leftover items are [`SerdeError::Leftover`].
impl<
    A: Deserialize,
    B: Deserialize,
    C: Deserialize,
    D: Deserialize,
    E: Deserialize,
    F: Deserialize,
    G: Deserialize,
    H: Deserialize,
> Deserialize for (A, B, C, D, E, F, G, H) {
    ghost Contents = { A.Contents × (B.Contents × (C.Contents × (D.Contents × (E.Contents × (F.Contents × (G.Contents × (H.Contents × Unit {0}))))))) };

    ghost contents = { λ v. (A.contents v.0, (B.contents v.1, (C.contents v.2, (D.contents v.3, (E.contents v.4, (F.contents v.5, (G.contents v.6, (H.contents v.7, tt)))))))) };

    ghost reads = { tuple_reading (read_part A.reads (read_part B.reads (read_part C.reads (read_part D.reads (read_part E.reads (read_part F.reads (read_part G.reads (read_part H.reads read_end)))))))) };

    ghost read_error = { TupleReadError (PartError A.reads A.read_error (PartError B.reads B.read_error (PartError C.reads C.read_error (PartError D.reads D.read_error (PartError E.reads E.read_error (PartError F.reads F.read_error (PartError G.reads G.read_error (PartError H.reads H.read_error LeftoverError)))))))) };

    #[inline(always)]
    fn deserialize(alloc: Global, value: Ipld) -> Result<(A, B, C, D, E, F, G, H), SerdeError> {
        let (first, (second, (third, (fourth, (fifth, (sixth, (seventh, (eighth, ())))))))) =
            Parts::read(alloc, value.deserialize_tuple(8)?)?;
        Ok((first, second, third, fourth, fifth, sixth, seventh, eighth))
    }

    #[inline(always)]
    fn read_image<R: ImageReader>(
        alloc: Global,
        reader: &mut R,
        levels: usize,
    ) -> Result<(A, B, C, D, E, F, G, H), Unread> {
        let (first, (second, (third, (fourth, (fifth, (sixth, (seventh, (eighth, ())))))))) =
            read_tuple_image(alloc, reader, levels, 8)?;
        Ok((first, second, third, fourth, fifth, sixth, seventh, eighth))
    }

    #[inline(always)]
    fn discard(self) {
        let (first, second, third, fourth, fifth, sixth, seventh, eighth) = self;
        (
            first,
            (
                second,
                (third, (fourth, (fifth, (sixth, (seventh, (eighth, ())))))),
            ),
        )
            .discard_all();
    }
}

/// A List of exactly nine items, which are read in order. A missing item is
/// [`SerdeError::WrongLength`], and leftover items are [`SerdeError::Leftover`].
impl<
    A: Deserialize,
    B: Deserialize,
    C: Deserialize,
    D: Deserialize,
    E: Deserialize,
    F: Deserialize,
    G: Deserialize,
    H: Deserialize,
    I: Deserialize,
> Deserialize for (A, B, C, D, E, F, G, H, I) {
    ghost Contents = { A.Contents × (B.Contents × (C.Contents × (D.Contents × (E.Contents × (F.Contents × (G.Contents × (H.Contents × (I.Contents × Unit {0})))))))) };

    ghost contents = { λ v. (A.contents v.0, (B.contents v.1, (C.contents v.2, (D.contents v.3, (E.contents v.4, (F.contents v.5, (G.contents v.6, (H.contents v.7, (I.contents v.8, tt))))))))) };

    ghost reads = { tuple_reading (read_part A.reads (read_part B.reads (read_part C.reads (read_part D.reads (read_part E.reads (read_part F.reads (read_part G.reads (read_part H.reads (read_part I.reads read_end))))))))) };

    ghost read_error = { TupleReadError (PartError A.reads A.read_error (PartError B.reads B.read_error (PartError C.reads C.read_error (PartError D.reads D.read_error (PartError E.reads E.read_error (PartError F.reads F.read_error (PartError G.reads G.read_error (PartError H.reads H.read_error (PartError I.reads I.read_error LeftoverError))))))))) };

    #[inline(always)]
    fn deserialize(alloc: Global, value: Ipld) -> Result<(A, B, C, D, E, F, G, H, I), SerdeError> {
        let (
            first,
            (second, (third, (fourth, (fifth, (sixth, (seventh, (eighth, (ninth, ())))))))),
        ) = Parts::read(alloc, value.deserialize_tuple(9)?)?;
        Ok((
            first, second, third, fourth, fifth, sixth, seventh, eighth, ninth,
        ))
    }

    #[inline(always)]
    fn read_image<R: ImageReader>(
        alloc: Global,
        reader: &mut R,
        levels: usize,
    ) -> Result<(A, B, C, D, E, F, G, H, I), Unread> {
        let (
            first,
            (second, (third, (fourth, (fifth, (sixth, (seventh, (eighth, (ninth, ())))))))),
        ) = read_tuple_image(alloc, reader, levels, 9)?;
        Ok((
            first, second, third, fourth, fifth, sixth, seventh, eighth, ninth,
        ))
    }

    #[inline(always)]
    fn discard(self) {
        let (first, second, third, fourth, fifth, sixth, seventh, eighth, ninth) = self;
        (first, (second, (third, (fourth, (fifth, ()))))).discard_all();
        (sixth, (seventh, (eighth, (ninth, ())))).discard_all();
    }
}

/// A List of exactly ten items, which are read in order. A missing item is
/// [`SerdeError::WrongLength`], and leftover items are [`SerdeError::Leftover`].
impl<
    A: Deserialize,
    B: Deserialize,
    C: Deserialize,
    D: Deserialize,
    E: Deserialize,
    F: Deserialize,
    G: Deserialize,
    H: Deserialize,
    I: Deserialize,
    J: Deserialize,
> Deserialize for (A, B, C, D, E, F, G, H, I, J) {
    ghost Contents = { A.Contents × (B.Contents × (C.Contents × (D.Contents × (E.Contents × (F.Contents × (G.Contents × (H.Contents × (I.Contents × (J.Contents × Unit {0}))))))))) };

    ghost contents = { λ v. (A.contents v.0, (B.contents v.1, (C.contents v.2, (D.contents v.3, (E.contents v.4, (F.contents v.5, (G.contents v.6, (H.contents v.7, (I.contents v.8, (J.contents v.9, tt)))))))))) };

    ghost reads = { tuple_reading (read_part A.reads (read_part B.reads (read_part C.reads (read_part D.reads (read_part E.reads (read_part F.reads (read_part G.reads (read_part H.reads (read_part I.reads (read_part J.reads read_end)))))))))) };

    ghost read_error = { TupleReadError (PartError A.reads A.read_error (PartError B.reads B.read_error (PartError C.reads C.read_error (PartError D.reads D.read_error (PartError E.reads E.read_error (PartError F.reads F.read_error (PartError G.reads G.read_error (PartError H.reads H.read_error (PartError I.reads I.read_error (PartError J.reads J.read_error LeftoverError)))))))))) };

    #[inline(always)]
    fn deserialize(
        alloc: Global,
        value: Ipld,
    ) -> Result<(A, B, C, D, E, F, G, H, I, J), SerdeError> {
        let (
            first,
            (
                second,
                (third, (fourth, (fifth, (sixth, (seventh, (eighth, (ninth, (tenth, ())))))))),
            ),
        ) = Parts::read(alloc, value.deserialize_tuple(10)?)?;
        Ok((
            first, second, third, fourth, fifth, sixth, seventh, eighth, ninth, tenth,
        ))
    }

    #[inline(always)]
    fn read_image<R: ImageReader>(
        alloc: Global,
        reader: &mut R,
        levels: usize,
    ) -> Result<(A, B, C, D, E, F, G, H, I, J), Unread> {
        let (
            first,
            (
                second,
                (third, (fourth, (fifth, (sixth, (seventh, (eighth, (ninth, (tenth, ())))))))),
            ),
        ) = read_tuple_image(alloc, reader, levels, 10)?;
        Ok((
            first, second, third, fourth, fifth, sixth, seventh, eighth, ninth, tenth,
        ))
    }

    #[inline(always)]
    fn discard(self) {
        let (first, second, third, fourth, fifth, sixth, seventh, eighth, ninth, tenth) = self;
        (first, (second, (third, (fourth, (fifth, ()))))).discard_all();
        (sixth, (seventh, (eighth, (ninth, (tenth, ()))))).discard_all();
    }
}
