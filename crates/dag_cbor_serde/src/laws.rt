//! The laws of typed values in blocks.

ghost use Rattle.std.specs.Prelude.{◌≡◌, ℕ, List, Some, IsSome};
ghost use Rattle.dag_cbor_serde.specs.Read.{reads_block};
ghost use Rattle.dag_cbor_serde.specs.Written.{block_of_image};

use ipld_de::Lawful;

/// States that values round-trip through blocks. A call does nothing.
///
/// - If a value has a block, the type reads that block.
/// - The value that is read has the image of the value that was written.
/// - If the value that was written is plain, the one that is read is the same, up to its contents.
pub fn round_trip_law<T: Lawful>()
    ensures reads { (v : T) (block : List ℕ) → block_of_image (T.image v) ≡ Some block
        → IsSome (reads_block T.reads block) }
    ensures same_image { (v w : T) (block : List ℕ) → block_of_image (T.image v) ≡ Some block
        → reads_block T.reads block ≡ Some (T.contents w) → T.image w ≡ T.image v }
    ensures same { (v w : T) (block : List ℕ) → block_of_image (T.image v) ≡ Some block → T.plain v
        → reads_block T.reads block ≡ Some (T.contents w) → T.contents w ≡ T.contents v }
{}
