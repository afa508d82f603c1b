//! The images of tuples of up to ten elements.

ghost use Rattle.std.specs.Prelude.{◌≡◌, ◌++◌, ◌∷◌, [], List, length, Option, Some, map, option_map, OnOk, IfOk, IfErr};
ghost use Rattle.ipld_ser.specs.Builders.{fed};
ghost use Rattle.ipld_ser.specs.Composites.{all_of, list_of, StructError};
ghost use Rattle.ipld_ser.specs.Image.{RejectsAs};
ghost use Rattle.ipld_ser.specs.ImageWriter.{Appends, written_image, one_after_another};
ghost use Rattle.ipld_ser.specs.declared.error.SerdeError as error;
ghost use Rattle.ipld_tree.specs.Tree.{Tree};
ghost use Rattle.ipld_tree.specs.TreeOf.{tree_of};

use crate::error::{SerdeError, SerializeError};
use crate::image_writer::{ImageWriter, Unwritten};
use crate::sequence::SerializeVec;
use crate::serialize::Serialize;
use crate::serializer::Serializer;
use ipld_tree::Ipld;
use std::alloc::Global;

// The borrowed parts of a tuple, in nested pairs: `(&a, (&b, ()))`. A long tuple is written from
// two such nests, since the checker's work for the lifetimes in a nest grows faster than the nest.
trait Parts: Sized + Drop {
    // the image of every part
    ghost images: { Self → List (Option Tree) };

    // the image of every part, and the error that it is rejected with
    ghost errors: { Self → List {1} (Option Tree × (error.SerdeError → Type 0)) };

    // Writes the parts after the elements of the list.
    fn write(self, list: SerializeVec) -> Result<SerializeVec, SerdeError>
        ensures ok { IfOk result (λ b. option_map (λ ts. fed list ++ ts) (all_of (images self))
            ≡ Some (fed b)) }
        ensures err { IfErr result (λ e. RejectsAs (all_of (images self))
            (StructError (errors self)) e) };

    // Writes the parts one after the other, without a head.
    fn write_each<W: ImageWriter>(self, alloc: Global, writer: &mut W) -> Result<(), Unwritten>
        ensures { OnOk result (Appends (one_after_another (map (written_image W.written)
            (images self))) (W.contents writer.old) (W.contents writer.new)) };
}

impl Parts for () {
    ghost images = { λ _. [] };

    ghost errors = { λ _. [] };

    #[inline(always)]
    fn write(self, list: SerializeVec) -> Result<SerializeVec, SerdeError> {
        Ok(list)
    }

    #[inline(always)]
    fn write_each<W: ImageWriter>(self, _alloc: Global, _writer: &mut W) -> Result<(), Unwritten> {
        Ok(())
    }
}

impl<'a, T: Serialize, P: Parts> Parts for (&'a T, P) {
    ghost images = { λ v. T.image v.0.now ∷ P.images v.1 };

    ghost errors = { λ v. (T.image v.0.now, T.write_error v.0.now) ∷ P.errors v.1 };

    #[inline(always)]
    fn write(self, mut list: SerializeVec) -> Result<SerializeVec, SerdeError> {
        let (first, others) = self;
        list.serialize_element(first)?;
        others.write(list)
    }

    #[inline(always)]
    fn write_each<W: ImageWriter>(self, alloc: Global, writer: &mut W) -> Result<(), Unwritten> {
        let (first, others) = self;
        first.write_image(alloc, writer)?;
        others.write_each(alloc, writer)
    }
}

// Parts that come before others.
trait FrontParts: Parts {
    // Writes the parts, and then the others, after the elements of the list.
    fn write_before<Q: Parts>(
        self,
        others: Q,
        list: SerializeVec,
    ) -> Result<SerializeVec, SerdeError>
        ensures ok { IfOk result (λ b. option_map (λ ts. fed list ++ ts)
            (all_of (Self.images self ++ Q.images others)) ≡ Some (fed b)) }
        ensures err { IfErr result (λ e. RejectsAs (all_of (Self.images self ++ Q.images others))
            (StructError (Self.errors self ++ Q.errors others)) e) };

    // Writes the parts, and then the others, one after the other, without a head.
    fn write_each_before<Q: Parts, W: ImageWriter>(
        self,
        others: Q,
        alloc: Global,
        writer: &mut W,
    ) -> Result<(), Unwritten>
        ensures { OnOk result (Appends (one_after_another (map (written_image W.written)
            (Self.images self ++ Q.images others))) (W.contents writer.old) (W.contents writer.new)) };
}

impl FrontParts for () {
    #[inline(always)]
    fn write_before<Q: Parts>(
        self,
        others: Q,
        list: SerializeVec,
    ) -> Result<SerializeVec, SerdeError> {
        others.write(list)
    }

    #[inline(always)]
    fn write_each_before<Q: Parts, W: ImageWriter>(
        self,
        others: Q,
        alloc: Global,
        writer: &mut W,
    ) -> Result<(), Unwritten> {
        others.write_each(alloc, writer)
    }
}

impl<'a, T: Serialize, P: FrontParts> FrontParts for (&'a T, P) {
    #[inline(always)]
    fn write_before<Q: Parts>(
        self,
        others: Q,
        mut list: SerializeVec,
    ) -> Result<SerializeVec, SerdeError> {
        let (first, next) = self;
        list.serialize_element(first)?;
        next.write_before(others, list)
    }

    #[inline(always)]
    fn write_each_before<Q: Parts, W: ImageWriter>(
        self,
        others: Q,
        alloc: Global,
        writer: &mut W,
    ) -> Result<(), Unwritten> {
        let (first, next) = self;
        first.write_image(alloc, writer)?;
        next.write_each_before(others, alloc, writer)
    }
}

// Returns the List of the images of the parts, `len` in number.
#[inline(always)]
fn tuple_of<P: Parts, E: SerializeError>(
    alloc: Global,
    serializer: Serializer,
    len: usize,
    parts: P,
) -> Result<Ipld, E>
    ensures ok { IfOk result (λ t. list_of (P.images parts) ≡ Some (tree_of t)) }
    ensures err { IfErr result (λ e. RejectsAs (list_of (P.images parts))
        (StructError (P.errors parts)) (E.reported e)) }
{
    match list_of_parts(alloc, serializer, len, parts) {
        Ok(tree) => Ok(tree),
        Err(error) => Err(E::report(error)),
    }
}

#[inline(always)]
fn list_of_parts<P: Parts>(
    alloc: Global,
    serializer: Serializer,
    len: usize,
    parts: P,
) -> Result<Ipld, SerdeError>
    ensures ok { IfOk result (λ t. list_of (P.images parts) ≡ Some (tree_of t)) }
    ensures err { IfErr result (λ e. RejectsAs (list_of (P.images parts))
        (StructError (P.errors parts)) e) }
{
    let list = serializer.serialize_tuple(alloc, len)?;
    parts.write(list)?.end()
}

// Writes the List of the images of the parts, `len` in number.
#[inline(always)]
fn write_tuple<P: Parts, W: ImageWriter>(
    alloc: Global,
    writer: &mut W,
    len: usize,
    parts: P,
) -> Result<(), Unwritten>
    requires { len ≡ length (P.images parts) }
    ensures { OnOk result (Appends (written_image W.written (list_of (P.images parts)))
        (W.contents writer.old) (W.contents writer.new)) }
{
    writer.begin_list(len)?;
    parts.write_each(alloc, writer)
}

// Returns the List of the images of the parts and then of the others, `len` in all.
#[inline(always)]
fn long_tuple_of<P: FrontParts, Q: Parts, E: SerializeError>(
    alloc: Global,
    serializer: Serializer,
    len: usize,
    parts: P,
    others: Q,
) -> Result<Ipld, E>
    ensures ok { IfOk result (λ t. list_of (P.images parts ++ Q.images others) ≡ Some (tree_of t)) }
    ensures err { IfErr result (λ e. RejectsAs (list_of (P.images parts ++ Q.images others))
        (StructError (P.errors parts ++ Q.errors others)) (E.reported e)) }
{
    match list_of_all(alloc, serializer, len, parts, others) {
        Ok(tree) => Ok(tree),
        Err(error) => Err(E::report(error)),
    }
}

#[inline(always)]
fn list_of_all<P: FrontParts, Q: Parts>(
    alloc: Global,
    serializer: Serializer,
    len: usize,
    parts: P,
    others: Q,
) -> Result<Ipld, SerdeError>
    ensures ok { IfOk result (λ t. list_of (P.images parts ++ Q.images others) ≡ Some (tree_of t)) }
    ensures err { IfErr result (λ e. RejectsAs (list_of (P.images parts ++ Q.images others))
        (StructError (P.errors parts ++ Q.errors others)) e) }
{
    let list = serializer.serialize_tuple(alloc, len)?;
    parts.write_before(others, list)?.end()
}

// Writes the List of the images of the parts and then of the others, `len` in all.
#[inline(always)]
fn write_long_tuple<P: FrontParts, Q: Parts, W: ImageWriter>(
    alloc: Global,
    writer: &mut W,
    len: usize,
    parts: P,
    others: Q,
) -> Result<(), Unwritten>
    requires { len ≡ length (P.images parts ++ Q.images others) }
    ensures { OnOk result (Appends (written_image W.written
        (list_of (P.images parts ++ Q.images others))) (W.contents writer.old)
        (W.contents writer.new)) }
{
    writer.begin_list(len)?;
    parts.write_each_before(others, alloc, writer)
}

/// The image is a List of the image of the one element.
impl<A: Serialize> Serialize for (A,) {
    ghost image = { λ v. list_of (A.image v.0 ∷ []) };

    ghost write_error = { λ v. StructError ((A.image v.0, A.write_error v.0) ∷ []) };

    #[inline(always)]
    fn serialize(&self, alloc: Global, serializer: Serializer) -> Result<Ipld, SerdeError> {
        let (only,) = self;
        tuple_of(alloc, serializer, 1, (only, ()))
    }

    #[inline(always)]
    fn write_image<W: ImageWriter>(&self, alloc: Global, writer: &mut W) -> Result<(), Unwritten> {
        let (only,) = self;
        write_tuple(alloc, writer, 1, (only, ()))
    }
}

/// The image is a List of the images of the two elements.
impl<A: Serialize, B: Serialize> Serialize for (A, B) {
    ghost image = { λ v. list_of (A.image v.0 ∷ B.image v.1 ∷ []) };

    ghost write_error = { λ v. StructError ((A.image v.0, A.write_error v.0) ∷ (B.image v.1, B.write_error v.1) ∷ []) };

    #[inline(always)]
    fn serialize(&self, alloc: Global, serializer: Serializer) -> Result<Ipld, SerdeError> {
        let (first, second) = self;
        tuple_of(alloc, serializer, 2, (first, (second, ())))
    }

    #[inline(always)]
    fn write_image<W: ImageWriter>(&self, alloc: Global, writer: &mut W) -> Result<(), Unwritten> {
        let (first, second) = self;
        write_tuple(alloc, writer, 2, (first, (second, ())))
    }
}

/// The image is a List of the images of the three elements.
impl<A: Serialize, B: Serialize, C: Serialize> Serialize for (A, B, C) {
    ghost image = { λ v. list_of (A.image v.0 ∷ B.image v.1 ∷ C.image v.2 ∷ []) };

    ghost write_error = { λ v. StructError ((A.image v.0, A.write_error v.0) ∷ (B.image v.1, B.write_error v.1) ∷ (C.image v.2, C.write_error v.2) ∷ []) };

    #[inline(always)]
    fn serialize(&self, alloc: Global, serializer: Serializer) -> Result<Ipld, SerdeError> {
        let (first, second, third) = self;
        tuple_of(alloc, serializer, 3, (first, (second, (third, ()))))
    }

    #[inline(always)]
    fn write_image<W: ImageWriter>(&self, alloc: Global, writer: &mut W) -> Result<(), Unwritten> {
        let (first, second, third) = self;
        write_tuple(alloc, writer, 3, (first, (second, (third, ()))))
    }
}

/// The image is a List of the images of the four elements.
impl<A: Serialize, B: Serialize, C: Serialize, D: Serialize> Serialize for (A, B, C, D) {
    ghost image = { λ v. list_of (A.image v.0 ∷ B.image v.1 ∷ C.image v.2 ∷ D.image v.3 ∷ []) };

    ghost write_error = { λ v. StructError ((A.image v.0, A.write_error v.0) ∷ (B.image v.1, B.write_error v.1) ∷ (C.image v.2, C.write_error v.2) ∷ (D.image v.3, D.write_error v.3) ∷ []) };

    #[inline(always)]
    fn serialize(&self, alloc: Global, serializer: Serializer) -> Result<Ipld, SerdeError> {
        let (first, second, third, fourth) = self;
        tuple_of(
            alloc,
            serializer,
            4,
            (first, (second, (third, (fourth, ())))),
        )
    }

    #[inline(always)]
    fn write_image<W: ImageWriter>(&self, alloc: Global, writer: &mut W) -> Result<(), Unwritten> {
        let (first, second, third, fourth) = self;
        write_tuple(alloc, writer, 4, (first, (second, (third, (fourth, ())))))
    }
}

/// The image is a List of the images of the five elements.
impl<A: Serialize, B: Serialize, C: Serialize, D: Serialize, E: Serialize> Serialize
    for (A, B, C, D, E) {
    ghost image = { λ v. list_of (A.image v.0 ∷ B.image v.1 ∷ C.image v.2 ∷ D.image v.3 ∷ E.image v.4 ∷ []) };

    ghost write_error = { λ v. StructError ((A.image v.0, A.write_error v.0) ∷ (B.image v.1, B.write_error v.1) ∷ (C.image v.2, C.write_error v.2) ∷ (D.image v.3, D.write_error v.3) ∷ (E.image v.4, E.write_error v.4) ∷ []) };

    #[inline(always)]
    fn serialize(&self, alloc: Global, serializer: Serializer) -> Result<Ipld, SerdeError> {
        let (first, second, third, fourth, fifth) = self;
        tuple_of(
            alloc,
            serializer,
            5,
            (first, (second, (third, (fourth, (fifth, ()))))),
        )
    }

    #[inline(always)]
    fn write_image<W: ImageWriter>(&self, alloc: Global, writer: &mut W) -> Result<(), Unwritten> {
        let (first, second, third, fourth, fifth) = self;
        write_tuple(
            alloc,
            writer,
            5,
            (first, (second, (third, (fourth, (fifth, ()))))),
        )
    }
}

/// The image is a List of the images of the six elements.
impl<A: Serialize, B: Serialize, C: Serialize, D: Serialize, E: Serialize, F: Serialize> Serialize
    for (A, B, C, D, E, F) {
    ghost image = { λ v. list_of (A.image v.0 ∷ B.image v.1 ∷ C.image v.2 ∷ D.image v.3 ∷ E.image v.4 ∷ F.image v.5 ∷ []) };

    ghost write_error = { λ v. StructError ((A.image v.0, A.write_error v.0) ∷ (B.image v.1, B.write_error v.1) ∷ (C.image v.2, C.write_error v.2) ∷ (D.image v.3, D.write_error v.3) ∷ (E.image v.4, E.write_error v.4) ∷ (F.image v.5, F.write_error v.5) ∷ []) };

    #[inline(always)]
    fn serialize(&self, alloc: Global, serializer: Serializer) -> Result<Ipld, SerdeError> {
        let (first, second, third, fourth, fifth, sixth) = self;
        tuple_of(
            alloc,
            serializer,
            6,
            (first, (second, (third, (fourth, (fifth, (sixth, ())))))),
        )
    }

    #[inline(always)]
    fn write_image<W: ImageWriter>(&self, alloc: Global, writer: &mut W) -> Result<(), Unwritten> {
        let (first, second, third, fourth, fifth, sixth) = self;
        write_tuple(
            alloc,
            writer,
            6,
            (first, (second, (third, (fourth, (fifth, (sixth, ())))))),
        )
    }
}

/// The image is a List of the images of the seven elements.
impl<
    A: Serialize,
    B: Serialize,
    C: Serialize,
    D: Serialize,
    E: Serialize,
    F: Serialize,
    G: Serialize,
> Serialize for (A, B, C, D, E, F, G) {
    ghost image = { λ v. list_of (A.image v.0 ∷ B.image v.1 ∷ C.image v.2 ∷ D.image v.3 ∷ E.image v.4 ∷ F.image v.5 ∷ G.image v.6 ∷ []) };

    ghost write_error = { λ v. StructError ((A.image v.0, A.write_error v.0) ∷ (B.image v.1, B.write_error v.1) ∷ (C.image v.2, C.write_error v.2) ∷ (D.image v.3, D.write_error v.3) ∷ (E.image v.4, E.write_error v.4) ∷ (F.image v.5, F.write_error v.5) ∷ (G.image v.6, G.write_error v.6) ∷ []) };

    #[inline(always)]
    fn serialize(&self, alloc: Global, serializer: Serializer) -> Result<Ipld, SerdeError> {
        let (first, second, third, fourth, fifth, sixth, seventh) = self;
        tuple_of(
            alloc,
            serializer,
            7,
            (
                first,
                (second, (third, (fourth, (fifth, (sixth, (seventh, ())))))),
            ),
        )
    }

    #[inline(always)]
    fn write_image<W: ImageWriter>(&self, alloc: Global, writer: &mut W) -> Result<(), Unwritten> {
        let (first, second, third, fourth, fifth, sixth, seventh) = self;
        write_tuple(
            alloc,
            writer,
            7,
            (
                first,
                (second, (third, (fourth, (fifth, (sixth, (seventh, ())))))),
            ),
        )
    }
}

/// The image is a List of the images of the eight elements.
impl<
    A: Serialize,
    B: Serialize,
    C: Serialize,
    D: Serialize,
    E: Serialize,
    F: Serialize,
    G: Serialize,
    H: Serialize,
> Serialize for (A, B, C, D, E, F, G, H) {
    ghost image = { λ v. list_of (A.image v.0 ∷ B.image v.1 ∷ C.image v.2 ∷ D.image v.3 ∷ E.image v.4 ∷ F.image v.5 ∷ G.image v.6 ∷ H.image v.7 ∷ []) };

    ghost write_error = { λ v. StructError ((A.image v.0, A.write_error v.0) ∷ (B.image v.1, B.write_error v.1) ∷ (C.image v.2, C.write_error v.2) ∷ (D.image v.3, D.write_error v.3) ∷ (E.image v.4, E.write_error v.4) ∷ (F.image v.5, F.write_error v.5) ∷ (G.image v.6, G.write_error v.6) ∷ (H.image v.7, H.write_error v.7) ∷ []) };

    #[inline(always)]
    fn serialize(&self, alloc: Global, serializer: Serializer) -> Result<Ipld, SerdeError> {
        let (first, second, third, fourth, fifth, sixth, seventh, eighth) = self;
        tuple_of(
            alloc,
            serializer,
            8,
            (
                first,
                (
                    second,
                    (third, (fourth, (fifth, (sixth, (seventh, (eighth, ())))))),
                ),
            ),
        )
    }

    #[inline(always)]
    fn write_image<W: ImageWriter>(&self, alloc: Global, writer: &mut W) -> Result<(), Unwritten> {
        let (first, second, third, fourth, fifth, sixth, seventh, eighth) = self;
        write_tuple(
            alloc,
            writer,
            8,
            (
                first,
                (
                    second,
                    (third, (fourth, (fifth, (sixth, (seventh, (eighth, ())))))),
                ),
            ),
        )
    }
}

/// The image is a List of the images of the nine elements.
impl<
    A: Serialize,
    B: Serialize,
    C: Serialize,
    D: Serialize,
    E: Serialize,
    F: Serialize,
    G: Serialize,
    H: Serialize,
    I: Serialize,
> Serialize for (A, B, C, D, E, F, G, H, I) {
    ghost image = { λ v. list_of (A.image v.0 ∷ B.image v.1 ∷ C.image v.2 ∷ D.image v.3 ∷ E.image v.4 ∷ F.image v.5 ∷ G.image v.6 ∷ H.image v.7 ∷ I.image v.8 ∷ []) };

    ghost write_error = { λ v. StructError ((A.image v.0, A.write_error v.0) ∷ (B.image v.1, B.write_error v.1) ∷ (C.image v.2, C.write_error v.2) ∷ (D.image v.3, D.write_error v.3) ∷ (E.image v.4, E.write_error v.4) ∷ (F.image v.5, F.write_error v.5) ∷ (G.image v.6, G.write_error v.6) ∷ (H.image v.7, H.write_error v.7) ∷ (I.image v.8, I.write_error v.8) ∷ []) };

    #[inline(always)]
    fn serialize(&self, alloc: Global, serializer: Serializer) -> Result<Ipld, SerdeError> {
        let (first, second, third, fourth, fifth, sixth, seventh, eighth, ninth) = self;
        long_tuple_of(
            alloc,
            serializer,
            9,
            (first, (second, (third, (fourth, (fifth, ()))))),
            (sixth, (seventh, (eighth, (ninth, ())))),
        )
    }

    #[inline(always)]
    fn write_image<W: ImageWriter>(&self, alloc: Global, writer: &mut W) -> Result<(), Unwritten> {
        let (first, second, third, fourth, fifth, sixth, seventh, eighth, ninth) = self;
        write_long_tuple(
            alloc,
            writer,
            9,
            (first, (second, (third, (fourth, (fifth, ()))))),
            (sixth, (seventh, (eighth, (ninth, ())))),
        )
    }
}

/// The image is a List of the images of the ten elements.
impl<
    A: Serialize,
    B: Serialize,
    C: Serialize,
    D: Serialize,
    E: Serialize,
    F: Serialize,
    G: Serialize,
    H: Serialize,
    I: Serialize,
    J: Serialize,
> Serialize for (A, B, C, D, E, F, G, H, I, J) {
    ghost image = { λ v. list_of (A.image v.0 ∷ B.image v.1 ∷ C.image v.2 ∷ D.image v.3 ∷ E.image v.4 ∷ F.image v.5 ∷ G.image v.6 ∷ H.image v.7 ∷ I.image v.8 ∷ J.image v.9 ∷ []) };

    ghost write_error = { λ v. StructError ((A.image v.0, A.write_error v.0) ∷ (B.image v.1, B.write_error v.1) ∷ (C.image v.2, C.write_error v.2) ∷ (D.image v.3, D.write_error v.3) ∷ (E.image v.4, E.write_error v.4) ∷ (F.image v.5, F.write_error v.5) ∷ (G.image v.6, G.write_error v.6) ∷ (H.image v.7, H.write_error v.7) ∷ (I.image v.8, I.write_error v.8) ∷ (J.image v.9, J.write_error v.9) ∷ []) };

    #[inline(always)]
    fn serialize(&self, alloc: Global, serializer: Serializer) -> Result<Ipld, SerdeError> {
        let (first, second, third, fourth, fifth, sixth, seventh, eighth, ninth, tenth) = self;
        long_tuple_of(
            alloc,
            serializer,
            10,
            (first, (second, (third, (fourth, (fifth, ()))))),
            (sixth, (seventh, (eighth, (ninth, (tenth, ()))))),
        )
    }

    #[inline(always)]
    fn write_image<W: ImageWriter>(&self, alloc: Global, writer: &mut W) -> Result<(), Unwritten> {
        let (first, second, third, fourth, fifth, sixth, seventh, eighth, ninth, tenth) = self;
        write_long_tuple(
            alloc,
            writer,
            10,
            (first, (second, (third, (fourth, (fifth, ()))))),
            (sixth, (seventh, (eighth, (ninth, (tenth, ()))))),
        )
    }
}
