//! The sentences of the statuses.

ghost use Rattle.std.specs.Prelude.{◌≡◌, option_map};
ghost use Rattle.kombilad_c.specs.Fill.{Fills};
ghost use Rattle.kombilad_c.specs.StatusText as sentences;
ghost use Rattle.kombilad_c.specs.StatusText.{any_sentence, cid_sentence, text_sentence, block_sentence, path_sentence, link_sentence, car_sentence, digest_sentence, tape_sentence, pb_sentence, json_sentence, part_sentence, file_sentence, message_sentence, folder_sentence, pack_sentence, status_sentence};

use crate::fill::fill;

// The sentence of a number that is not a status of this version.
const OTHER: &str = "the status is not one of this version";

// Returns the sentence of a status that any call may return.
fn any_text(number: u32) -> Option<&'static str>
    ensures { option_map (λ text. text.now) result ≡ any_sentence number }
{
    let text = match number {
        0 => "the call succeeded",
        1 => "out of memory",
        2 => "the buffer is too short: pass one of the length that the call asks for",
        3 => "the keys of a map are not in canonical order",
        4 => "the base is unknown",
        5 => "the text of a CID of version 0 is in base58btc",
        6 => "lists and maps nest deeper than the limit",
        7 => "there are more values than the limit",
        8 => "a string, a byte string, a list or a map is too long for a tape",
        _ => return None,
    };
    Some(text)
}

// Returns why bytes are not a CID, by the status minus 16.
fn cid_text(number: u32) -> Option<&'static str>
    ensures { option_map (λ text. text.now) result ≡ cid_sentence number }
{
    let text = match number {
        0 => "the bytes end before the CID does",
        1 => "a varint is not in its shortest form",
        2 => "a varint encodes a number of 2^64 or more",
        3 => "a CID of version 0 must not state its version",
        4 => "the version is neither 0 nor 1",
        5 => "the digest is longer than 64 bytes",
        6 => "more bytes follow the CID",
        _ => return None,
    };
    Some(text)
}

// Returns why a text is not one of a CID, by the status minus 32.
fn text_text(number: u32) -> Option<&'static str>
    ensures { option_map (λ text. text.now) result ≡ text_sentence number }
{
    let text = match number {
        0 => "the text is empty, or begins with the prefix of an unknown base",
        1 => "a CID has no text of this length in its base",
        2 => "a character is not a letter of the base",
        3 => "bits after the last byte are set",
        4 => "the text of a CID of version 0 has no prefix",
        5 => "the text is not UTF-8",
        _ => return None,
    };
    Some(text)
}

// Returns why bytes are not a block, by the status minus 48.
fn block_text(number: u32) -> Option<&'static str>
    ensures { option_map (λ text. text.now) result ≡ block_sentence number }
{
    let text = match number {
        0 => "the bytes end before the item does",
        1 => "an argument is not in its shortest form",
        2 => "a float has other than 64 bits, or is NaN or an infinity",
        3 => "a simple value, a tag or an indefinite length is not allowed in DAG-CBOR",
        4 => "a text string is not UTF-8",
        5 => "the key of a map is not a text string",
        6 => "a map has the same key twice",
        7 => "after the tag of a link, no byte string begins with a zero byte",
        8 => "more bytes follow the item",
        _ => return None,
    };
    Some(text)
}

// Returns why a path leads to nothing in a block, by the status minus 64.
fn path_text(number: u32) -> Option<&'static str>
    ensures { option_map (λ text. text.now) result ≡ path_sentence number }
{
    let text = match number {
        0 => "the path leads to no key or index",
        1 => "the path continues after a value that is not a list, a map or a link",
        _ => return None,
    };
    Some(text)
}

// Returns why the bytes of a link are not a CID, by the status minus 80.
fn link_text(number: u32) -> Option<&'static str>
    ensures { option_map (λ text. text.now) result ≡ link_sentence number }
{
    let text = match number {
        0 => "the bytes of a link end before its CID does",
        1 => "a varint of a link is not in its shortest form",
        2 => "a varint of a link encodes a number of 2^64 or more",
        3 => "a link of version 0 must not state its version",
        4 => "the version of a link is neither 0 nor 1",
        5 => "the digest of a link is longer than 64 bytes",
        6 => "more bytes follow the CID of a link",
        _ => return None,
    };
    Some(text)
}

// Returns why a CAR is not read, by the status minus 96.
fn car_text(number: u32) -> Option<&'static str>
    ensures { option_map (λ text. text.now) result ≡ car_sentence number }
{
    let text = match number {
        0 => "the CAR has no more sections",
        1 => "the bytes end within a header or a section",
        2 => "the length of a header or a section is not in its shortest form",
        3 => "the length of a header or a section is 2^64 or more",
        4 => "the length of a header or a section is zero",
        5 => "a header or a section is longer than the limit",
        6 => "the header is not a map of roots and version 1",
        7 => "the header of version 2 puts the payload where it can not be",
        8 => "the bytes end before the payload of version 2 does",
        _ => return None,
    };
    Some(text)
}

// Returns why a block is not known to match a CID, by the status minus 112.
fn digest_text(number: u32) -> Option<&'static str>
    ensures { option_map (λ text. text.now) result ≡ digest_sentence number }
{
    let text = match number {
        0 => "the hash function of the CID is not SHA2-256, SHA2-512, BLAKE2b-256 or identity",
        1 => "the digest of the block is not that of the CID",
        _ => return None,
    };
    Some(text)
}

// Returns why a tape is not encoded as a block, by the status minus 128.
fn tape_text(number: u32) -> Option<&'static str>
    ensures { option_map (λ text. text.now) result ≡ tape_sentence number }
{
    let text = match number {
        0 => "an entry for a value or a key is missing",
        1 => "more entries follow than the list, the map or the tape has",
        2 => "the kind of an entry is unknown, or wrong in its place",
        3 => "a list or a map spans no entry, or more than there are",
        4 => "the length or the value of an entry does not suit its kind",
        5 => "the content of an entry is not within the data",
        6 => "a string or a key is not UTF-8",
        7 => "a float is NaN or an infinity",
        9 => "a map has the same key twice",
        _ => return None,
    };
    Some(text)
}

// Returns why bytes are not a node of DAG-PB, by the status minus 144.
fn pb_text(number: u32) -> Option<&'static str>
    ensures { option_map (λ text. text.now) result ≡ pb_sentence number }
{
    let text = match number {
        0 => "the bytes end before the field does",
        1 => "a varint encodes a number of 2^64 or more, or has more than ten bytes",
        2 => "a field is not allowed in DAG-PB, or not there",
        3 => "a field comes twice or out of order",
        4 => "a link does not begin with its hash",
        5 => "the name of a link is not UTF-8",
        _ => return None,
    };
    Some(text)
}

// Returns why a text is not read as DAG-JSON, or a block not written as it, by the status minus 160.
fn json_text(number: u32) -> Option<&'static str>
    ensures { option_map (λ text. text.now) result ≡ json_sentence number }
{
    let text = match number {
        0 => "the text is not UTF-8",
        1 => "the text is not JSON",
        2 => "the text ends before its value does",
        3 => "a number is too large for a float of 64 bits",
        4 => "an integer is below -2^64 or above 2^64 - 1",
        5 => "an object has the same key twice",
        6 => "the text of a link is not that of a CID",
        7 => "the text of bytes is not base64 without padding",
        8 => "an object is reserved for links and bytes, and is neither",
        9 => "a map would be read as a link or as bytes in DAG-JSON",
        _ => return None,
    };
    Some(text)
}

// Returns why a part of a CAR is not read, by the status minus 176.
fn part_text(number: u32) -> Option<&'static str>
    ensures { option_map (λ text. text.now) result ≡ part_sentence number }
{
    match number {
        0 => Some("more bytes of the CAR are needed"),
        _ => None,
    }
}

// Returns why a walk doesn't take a block, by the status minus 192.
fn file_text(number: u32) -> Option<&'static str>
    ensures { option_map (λ text. text.now) result ≡ file_sentence number }
{
    let text = match number {
        0 => "the walk has taken all its blocks",
        1 => "the walk is not open, or is not over what the call reads",
        2 => "the codec of the CID is neither raw nor dag-pb",
        3 => "the node has no data",
        4 => "the node is a folder, a symbolic link or metadata, not a file",
        5 => "the number of sizes in the node is not that of its links",
        6 => "the size in the node is not that of its bytes and its links",
        7 => "the block has another size than the block above it states",
        8 => "the file has more bytes than the limit",
        9 => "the file has more blocks than the limit",
        10 => "the blocks of the file nest deeper than the limit",
        11 => "more blocks of the file wait to be read than the limit",
        _ => return None,
    };
    Some(text)
}

// Returns why the data of a node are not a message of UnixFS, by the status minus 208.
fn message_text(number: u32) -> Option<&'static str>
    ensures { option_map (λ text. text.now) result ≡ message_sentence number }
{
    let text = match number {
        0 => "the data of the node end within a field",
        1 => "a varint in the data of the node has more than ten bytes, or is 2^64 or more",
        2 => "a field in the data of the node is unknown",
        3 => "a field in the data of the node is repeated or out of order",
        4 => "the data of the node do not begin with a type",
        5 => "the type of the node is unknown",
        6 => "the mode of the node has more than 32 bits",
        7 => "the time of the node does not begin with its seconds",
        8 => "the nanoseconds of the node's time are not from 1 to 999999999",
        _ => return None,
    };
    Some(text)
}

// Returns why a block isn't taken for a folder, by the status minus 224.
fn folder_text(number: u32) -> Option<&'static str>
    ensures { option_map (λ text. text.now) result ≡ folder_sentence number }
{
    let text = match number {
        0 => "a folder is a DAG-PB block, but the CID has another codec",
        1 => "the node is not a folder",
        2 => "the hash function of the shard is not murmur3-x64-64",
        3 => "the shard does not have 256 slots",
        4 => "an entry of the folder has an invalid name",
        5 => "the name of an entry is repeated or out of order",
        6 => "the name of a link in the shard does not begin with two hexadecimal digits",
        7 => "a slot of the shard is repeated or out of order",
        8 => "the bit field of the shard is not that of its slots",
        9 => "a plain folder is below a shard",
        10 => "the hash of a name leads to another slot of the shard",
        11 => "the folder has more than eight levels of shards",
        12 => "the folder has no entry with this name",
        13 => "the search needs one more block of the folder",
        _ => return None,
    };
    Some(text)
}

// Returns why something isn't packed, by the status minus 240.
fn pack_text(number: u32) -> Option<&'static str>
    ensures { option_map (λ text. text.now) result ≡ pack_sentence number }
{
    let text = match number {
        0 => "a block above others needs room for at least two links",
        1 => "the file or the folder has 2^64 bytes or more, with all its blocks",
        2 => "the nanoseconds of the time are more than 999999999",
        3 => "the name of an entry is empty, . or .., or has a / or a zero byte",
        4 => "two entries have the same name, or the names do not ascend by their bytes",
        5 => "two names of a sharded folder have the same hash: rename one of them",
        6 => "take the blocks that are packed before you pack more",
        _ => return None,
    };
    Some(text)
}

// Returns the sentence of a number in a family, if it has one.
fn sentence_in(family: u32, number: u32) -> Option<&'static str>
    ensures { option_map (λ text. text.now) result ≡ sentences.sentence_in family number }
{
    match family {
        0 => any_text(number),
        1 => cid_text(number),
        2 => text_text(number),
        3 => block_text(number),
        4 => path_text(number),
        5 => link_text(number),
        6 => car_text(number),
        7 => digest_text(number),
        8 => tape_text(number),
        9 => pb_text(number),
        10 => json_text(number),
        11 => part_text(number),
        12 => file_text(number),
        13 => message_text(number),
        14 => folder_text(number),
        15 => pack_text(number),
        _ => None,
    }
}

// Returns the sentence of a status, without a full stop. It is ASCII.
fn sentence(status: u32) -> &'static str
    ensures { result.now ≡ status_sentence status }
{
    match sentence_in(status / 16, status % 16) {
        Some(text) => text,
        None => OTHER,
    }
}

/// Writes the sentence of a status.
#[unsafe(no_mangle)]
pub extern "C" fn kombilad_status_text(status: u32, text: &mut [u8], needed: &mut usize) -> u32
    ensures { Fills (status_sentence status) result text.old text.new needed.new }
{
    fill(sentence(status).as_bytes(), text, needed)
}
