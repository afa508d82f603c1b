//! The laws of the wire format.

ghost use Rattle.std.specs.Prelude.{◌<◌, ◌+◌, ◌*◌, ◌^◌, ℕ, List, length};
ghost use Rattle.pb_wire.specs.Laws.{ReadIsEncoded, EncodedIsRead, FieldIsRead};
ghost use Rattle.pb_wire.specs.Reading.{read_varint, number_field, content_field, fixed32_field};
ghost use Rattle.pb_wire.specs.Wire.{IsVarint, IsNumber, IsContent, IsFixed32, IsNumberOf, IsContentOf, IsFixed32Of};
ghost use Rattle.pb_wire.specs.Writing.{number_bytes, content_bytes, fixed32_bytes};

/// States the laws of reading. A call does nothing.
///
/// - A varint that is read is encoded at the front of the bytes, and one that is encoded is read,
///   whatever follows it.
/// - The same is true of a field. A field is read as missing if and only if the bytes are empty or
///   begin with another key.
pub fn reading_law()
    ensures varint_read { ReadIsEncoded IsVarint read_varint }
    ensures varint_encoded { EncodedIsRead IsVarint read_varint }
    ensures number_read { (field : ℕ) → ReadIsEncoded (IsNumberOf field)
        (number_field (8 * field + 0)) }
    ensures number_encoded { (field : ℕ) → FieldIsRead (8 * field + 0) (IsNumberOf field)
        (number_field (8 * field + 0)) }
    ensures content_read { (field : ℕ) → ReadIsEncoded (IsContentOf field)
        (content_field (8 * field + 2)) }
    ensures content_encoded { (field : ℕ) → FieldIsRead (8 * field + 2) (IsContentOf field)
        (content_field (8 * field + 2)) }
    ensures fixed32_read { (field : ℕ) → ReadIsEncoded (IsFixed32Of field)
        (fixed32_field (8 * field + 5)) }
    ensures fixed32_encoded { (field : ℕ) → FieldIsRead (8 * field + 5) (IsFixed32Of field)
        (fixed32_field (8 * field + 5)) }
{}

/// States the laws of writing. A call does nothing.
///
/// The bytes that are written for a field are that field, if its key and its number or length are
/// below 2^64, or its number of four bytes is below 2^32.
pub fn writing_law()
    ensures number { (field n : ℕ) → 8 * field + 0 < 2 ^ 64 → n < 2 ^ 64
        → IsNumber field n (number_bytes (8 * field + 0) n) }
    ensures content { (field : ℕ) (c : List ℕ) → 8 * field + 2 < 2 ^ 64 → length c < 2 ^ 64
        → IsContent field c (content_bytes (8 * field + 2) c) }
    ensures fixed32 { (field n : ℕ) → 8 * field + 5 < 2 ^ 64 → n < 2 ^ 32
        → IsFixed32 field n (fixed32_bytes (8 * field + 5) n) }
{}
