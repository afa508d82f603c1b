//! The laws of every tape.

ghost use Rattle.std.specs.Prelude.{◌≡◌, ℕ, true, List, Ok};
ghost use Rattle.ipld_cid.specs.Multihash.{IsBytes};
ghost use Rattle.ipld_tokens.specs.Item.{Item};
ghost use Rattle.dag_cbor_blocks.specs.declared.tape.TapeEntry.{TapeEntry};
ghost use Rattle.dag_cbor_tape.specs.Encoding.{block_of};
ghost use Rattle.dag_cbor_format.specs.WithFloats.{EncodesIn};
ghost use Rattle.dag_cbor_tape.specs.Describes.{Describes, AreNarrow};

/// States the laws of every tape. A call does nothing.
///
/// - A block is written if and only if the entries describe an item. It is the block of that item.
/// - The block is one of DAG-CBOR with floats, and encodes that item.
pub fn tape_law()
    ensures written_is_described { (over : List ℕ) (entries : List TapeEntry) (block : List ℕ)
        → IsBytes over → block_of over entries ≡ Ok block → (item : Item 64)
        × Describes over item entries block }
    ensures described_is_written { (over : List ℕ) (item : Item 64) (entries : List TapeEntry)
        (block : List ℕ) → Describes over item entries block → block_of over entries ≡ Ok block }
    ensures block_encodes { (over : List ℕ) (item : Item 64) (entries : List TapeEntry)
        (block : List ℕ) → AreNarrow entries → Describes over item entries block
        → EncodesIn true item block }
{}
