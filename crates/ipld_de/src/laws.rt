//! Laws of reading.

ghost use Rattle.std.specs.Prelude.{◌≡◌, ℕ, List, Some, None, true};
ghost use Rattle.ipld_cid.specs.Cid.{Link};
ghost use Rattle.ipld_tree.specs.Tree.{Tree, bytes, link};

use crate::deserialize::Deserialize;
use crate::faithful::Faithful;
use crate::lawful::Lawful;
use ipld_cid::Cid;
use ipld_ser::ByteBuf;

// [begin: links_and_bytes]
/// States that links and bytes are never confused. A CID is read only from a Link, and is the CID
/// of the Link. Bytes are read only from Bytes, and are those bytes. So neither is read from the
/// other, even if the bytes encode a CID.
///
/// A call does nothing.
pub fn links_and_bytes_law()
    ensures from_a_link { (t : Tree) (l : Link) → ⟦<Cid as Deserialize>⟧.reads t ≡ Some l
        → t ≡ link l }
    ensures from_bytes { (t : Tree) (b : List ℕ) → ⟦<ByteBuf as Deserialize>⟧.reads t ≡ Some b
        → t ≡ bytes b }
    ensures no_link_in_bytes { (b : List ℕ) → ⟦<Cid as Deserialize>⟧.reads (bytes b) ≡ None }
    ensures no_bytes_in_a_link { (l : Link) → ⟦<ByteBuf as Deserialize>⟧.reads (link l) ≡ None }
{}
// [end: links_and_bytes]

/// States that different plain values of a lawful and faithful type never have the same image.
///
/// If a plain value has an image, a value that is read from the image is equal to it by `==`. So
/// two plain values of one image are equal. Values of equal contents are equal, and equal values
/// have equal contents.
///
/// A call does nothing.
pub fn equal_values_law<T: Lawful + Faithful>()
    ensures equal { (v w : T) → T.contents v ≡ T.contents w → T.eq v w ≡ true }
    ensures same_contents { (v w : T) → T.eq v w ≡ true → T.contents v ≡ T.contents w }
    ensures round_trip { (v w : T) (t : Tree) → T.image v ≡ Some t → T.plain v
        → T.reads t ≡ Some (T.contents w) → T.eq v w ≡ true }
    ensures one_image { (v w : T) (t : Tree) → T.image v ≡ Some t → T.image w ≡ Some t → T.plain v
        → T.plain w → T.eq v w ≡ true }
{}
