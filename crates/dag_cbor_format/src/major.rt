//! The major types of data items (RFC 8949, section 3.1).

/// A major type: the upper three bits of an item's first byte.
#[derive(Clone, Copy)]
pub enum Major {
    /// 0: an unsigned integer, which is its argument.
    Unsigned,
    /// 1: a negative integer, which is -1 minus its argument.
    Negative,
    /// 2: a byte string. Its argument is its length.
    Bytes,
    /// 3: a text string. Its argument is its length in bytes.
    Text,
    /// 4: an array. Its argument is the number of its items.
    List,
    /// 5: a map. Its argument is the number of its pairs.
    Map,
    /// 6: a tagged item. Its argument is the tag.
    Tag,
    /// 7: a float or a simple value.
    Simple,
}
