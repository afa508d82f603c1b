//! Values read part by part, without a tree of them.

ghost use Rattle.std.specs.Prelude.{◌≡◌, ◌≢◌, ℕ, List, true, false, IfOk, IfErr, OnOk, string_bytes};
ghost use Rattle.ipld_cid.specs.LinkOf.{link_of};
ghost use Rattle.ipld_de.specs.ImageReader.{ListsBegin, MapsBegin, unread_whole};
ghost use Rattle.ipld_tree.specs.Tree.{Tree, null, boolean, integer, text, bytes, link};
ghost use Rattle.ipld_tree.specs.TreeOf.{tree_of};

use ipld_cid::Cid;
use ipld_ser::SerdeError;
use ipld_tree::Ipld;
use std::alloc::{AllocError, AllocFailed, Global};

/// The reason why an [`ImageReader`] did not read a value. The reader is then of no use, except
/// after [`Unread::MissingField`].
#[derive(Clone, Copy, Debug, PartialEq, Eq, Drop)]
pub enum Unread {
    /// An allocation failed.
    Memory,
    /// The value can't be read part by part: the bytes have an error, the type does not read their
    /// value, or the reader leaves the value to be read from its tree. The caller reads the tree by
    /// [`Deserialize::deserialize`](crate::Deserialize::deserialize), which shows the reason.
    Rejected,
    /// The value was read to its end, and a required name is missing in it. For its tree
    /// [`Deserialize::deserialize`](crate::Deserialize::deserialize) returns
    /// `Custom("missing field")`. The reader has moved past the value.
    MissingField,
}

impl Unread {
    /// Returns the error of a value that has a part with this error. For `MissingField` it is
    /// `Rejected`: the bytes after the part were not read, and may be rejected with another error.
    /// Otherwise it is the error of the part.
    #[inline(always)]
    pub fn of_part(self) -> Unread
        ensures exact { result ≡ unread_whole self }
        ensures never_missing { result ≢ Unread.MissingField }
    {
        match self {
            Unread::MissingField => Unread::Rejected,
            other => other,
        }
    }
}

impl From<AllocError> for Unread {
    ghost use Rattle.ipld_de.specs.declared.image_reader.Unread.TheVariants.{Memory};

    ghost from_gives = { λ _ error. error ≡ Memory };

    /// Returns `Memory`: an allocation failed.
    #[inline(always)]
    fn from(_error: AllocError) -> Unread {
        Unread::Memory
    }
}

impl<T: Drop> From<AllocFailed<T>> for Unread {
    ghost use Rattle.ipld_de.specs.declared.image_reader.Unread.TheVariants.{Memory};

    ghost from_gives = { λ _ error. error ≡ Memory };

    /// Returns `Memory`: an allocation failed. Drops the value that could not be stored.
    #[inline(always)]
    fn from(_error: AllocFailed<T>) -> Unread {
        Unread::Memory
    }
}

impl From<SerdeError> for Unread {
    ghost use Rattle.ipld_de.specs.ImageReader.{unread_of};
    ghost use Rattle.ipld_de.specs.declared.image_reader.Unread.TheVariants.{MissingField};

    ghost from_gives = { λ error unread. (unread ≡ unread_of error) × (unread ≢ MissingField) };

    /// Returns `Memory` for `Memory`, and `Rejected` for any other error.
    #[inline(always)]
    fn from(error: SerdeError) -> Unread {
        match error {
            SerdeError::Memory => Unread::Memory,
            _ => Unread::Rejected,
        }
    }
}

/// A reader that returns a tree part by part, from the front of its bytes: a block that is being
/// read.
///
/// A list is its head, with the number of its items, and then the items. A map is its head, with
/// the number of its entries, and then the entries. An entry is its key and then its value. The
/// keys come in length-first order: by length, and by bytes if the lengths are the same.
///
/// If a call returns `Ok`, the bytes began with its result, and the reader has moved past that.
/// After an error the contents of the reader are unspecified. The calls never return
/// [`Unread::MissingField`]. A call without an allocator does not allocate, and never returns
/// [`Unread::Memory`].
pub trait ImageReader: Sized {
    /// The reader's form of a key of a map.
    type Key: Copy;

    // the bytes that are left
    ghost contents: { Self → List ℕ };

    // the bytes begin with the tree, which nests at most that many levels deep, and the rest
    // follows it
    ghost Begins: { ℕ → Tree → List ℕ → List ℕ → Type 0 };

    // the bytes begin with the head of a list of that many items, and the rest follows it
    ghost BeginsList: { ℕ → List ℕ → List ℕ → Type 0 };

    // the bytes begin with the head of a map of that many entries, and the rest follows it
    ghost BeginsMap: { ℕ → List ℕ → List ℕ → Type 0 };

    // the bytes begin with the key, and its value follows it
    ghost BeginsKey: { List ℕ → List ℕ → List ℕ → Type 0 };

    // the string of a key
    ghost key_bytes: { Self.Key → List ℕ };

    /// Reads a Null if it comes next, and returns whether it did. Otherwise reads nothing.
    fn read_null(&mut self) -> bool
        ensures null { result ≡ true → (levels : ℕ) → Begins levels null (contents self.old)
            (contents self.new) }
        ensures same { result ≡ false → contents self.new ≡ contents self.old }
        ensures other { result ≡ false → (levels : ℕ) (t : Tree) (rest : List ℕ)
            → Begins levels t (contents self.old) rest → t ≢ null };

    /// Reads a Bool.
    fn read_bool(&mut self) -> Result<bool, Unread>
        ensures ok { (levels : ℕ) → IfOk result (λ v. Begins levels (boolean v) (contents self.old)
            (contents self.new)) }
        ensures rejected { IfErr result (λ e. e ≡ Unread.Rejected) };

    /// Reads an Integer.
    fn read_integer(&mut self) -> Result<i128, Unread>
        ensures ok { (levels : ℕ) → IfOk result (λ v. Begins levels (integer v) (contents self.old)
            (contents self.new)) }
        ensures rejected { IfErr result (λ e. e ≡ Unread.Rejected) };

    /// Reads a String, which is copied.
    fn read_string(&mut self, alloc: Global) -> Result<String, Unread>
        ensures ok { (levels : ℕ) → IfOk result (λ v. Begins levels (text (string_bytes v))
            (contents self.old) (contents self.new)) }
        ensures never_missing { IfErr result (λ e. e ≢ Unread.MissingField) };

    /// Reads Bytes, which are copied.
    fn read_bytes(&mut self, alloc: Global) -> Result<Vec<u8>, Unread>
        ensures ok { (levels : ℕ) → IfOk result (λ v. Begins levels (bytes v.items)
            (contents self.old) (contents self.new)) }
        ensures never_missing { IfErr result (λ e. e ≢ Unread.MissingField) };

    /// Reads a Link.
    fn read_link(&mut self) -> Result<Cid, Unread>
        ensures ok { (levels : ℕ) → IfOk result (λ v. Begins levels (link (link_of v))
            (contents self.old) (contents self.new)) }
        ensures rejected { IfErr result (λ e. e ≡ Unread.Rejected) };

    /// Reads any tree that nests at most `levels` levels deep.
    fn read_tree(&mut self, alloc: Global, levels: usize) -> Result<Ipld, Unread>
        ensures ok { IfOk result (λ v. Begins levels (tree_of v) (contents self.old)
            (contents self.new)) }
        ensures never_missing { IfErr result (λ e. e ≢ Unread.MissingField) };

    /// Skips any tree that nests at most `levels` levels deep.
    fn skip_tree(&mut self, alloc: Global, levels: usize) -> Result<(), Unread>
        ensures ok { OnOk result ((t : Tree) × Begins levels t (contents self.old)
            (contents self.new)) }
        ensures never_missing { IfErr result (λ e. e ≢ Unread.MissingField) };

    /// Reads the head of a List, and returns the number of items that it announces. They may not
    /// follow.
    fn begin_list(&mut self) -> Result<usize, Unread>
        ensures ok { IfOk result (λ count. BeginsList count (contents self.old)
            (contents self.new)) }
        ensures rejected { IfErr result (λ e. e ≡ Unread.Rejected) };

    /// Reads the head of a Map, and returns the number of entries that it announces. They may not
    /// follow.
    fn begin_map(&mut self) -> Result<usize, Unread>
        ensures ok { IfOk result (λ count. BeginsMap count (contents self.old)
            (contents self.new)) }
        ensures rejected { IfErr result (λ e. e ≡ Unread.Rejected) };

    /// Reads a key. Its value follows it.
    fn read_key(&mut self) -> Result<Self::Key, Unread>
        ensures ok { IfOk result (λ key. BeginsKey (key_bytes key) (contents self.old)
            (contents self.new)) }
        ensures rejected { IfErr result (λ e. e ≡ Unread.Rejected) };

    /// Returns the string of a key.
    fn key_text(key: &Self::Key) -> &str
        ensures { result.now ≡ key_bytes key.now };

    // the law of lists
    ghost lists: { ListsBegin Begins BeginsList };

    // the law of maps
    ghost maps: { MapsBegin Begins BeginsMap BeginsKey };
}
