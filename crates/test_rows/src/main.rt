//! Writes a line for each line that it reads: a word, a blank, and the argument of the word.
//!
//! - `cid 64 01550000`: reads the bytes as a CID with capacity for a digest of 0, 16, 32, 64 or 128
//!   bytes. Returns its version, codec, hash code, digest, bytes and text, or the error.
//! - `text bafkqaaa`: the same for the text of a CID. `order 01550000 0155000107`: the order of two
//!   CIDs, and whether they are equal and have equal hashes.
//! - `bases 01550000`: the text of a CID in each of six bases. `any f01550000`: reads a text in any
//!   of them. `base f`: the base of a prefix.
//! - `hash 000107`: reads a multihash. `names 85 00`: the CID of a block. `verify 01550000 00`:
//!   whether a block matches a CID. `codes`: the constants.
//! - `get 1|[ true null ]`: looks into a tree by a string. `at 1|[ true null ]`: by a number.
//!   `path a/1|{ a: [ true null ] }`: by a path.
//! - `debug [ 1 link ]`: the debug strings of a tree. `deep link lists*1000`: walks and copies a
//!   tree that may nest deep. `walks 2 link lists*1000`: walks it to its end that many times.
//! - `json [ 1 link ]`: the tree as DAG-JSON, or the error as its name and as a sentence.
//!   `fromjson 2 9 5b315d`: reads a text within limits on its levels and values. Returns the text
//!   that is written for its tree, after `=` if it is the same, or the error.
//!   `floatjson 2 9 5b315d`: whether a text that may have floats is read within limits, or the
//!   error.
//! - `as u8|255`: converts a tree. `call seq|[ 1 ]`: calls a deserializer.
//!   `value tuple.2|[ 1 true ]`: reads a typed value from a tree, and writes it again.
//! - `links 64 seq link A seqend`: extracts the links of tokens. `tree seq int:1 seqend`: reads
//!   them as a tree. Both end with the number of tokens that remain. `limited 3 6 seq seqend`:
//!   within limits on levels and values. `measured seq*1000`: the depth of its tree.
//! - `tokens [ 1 link ]`: the tokens of a tree. `blocktokens f6`: those of a block.
//! - `cutline links|none`: whether a word of `ipld_links` understands a line cut at each place.
//!   `changedline links|none`: the same with other bytes.
//! - `block f6`: decodes a block of DAG-CBOR, encodes the tree again, and finds the links of the
//!   block. `again 81*1000 f6`: the same for a block that may nest deep. `typed u8|01`: reads a
//!   typed value from it, and writes it again.
//! - `parts f6`: the number of a block's links, their places and whether the keys are sorted, or
//!   the error and its byte. It reads with floats and, if that differs, without. `cuts f6`: the
//!   same for each of its beginnings. `changes 128 f6`: with each byte changed in turn.
//!   `within 2 9 f6`: with floats, within limits.
//! - `decoded 2 9 f6`: decodes a block of DAG-CBOR within limits on its levels and values.
//!   `size f6`: its levels, values and links.
//! - `car 1000 0aa16776..`: the content of a CAR, within a limit. `linksof dag-json 7b7d`: the
//!   links of a block of any codec, or its error.
//!
//! The expected outcomes were written by short programs in Python, by plain recursion over the
//! formats' definitions. These use varints and CIDs of multiformats, `base64.b32encode`, bases by
//! integers of any size, `hashlib`, RFC 8949, `json.dumps` for DAG-JSON, and Rust's `parse` for
//! indexes. Those of CARs were written by `cars.py` next to this program, which makes CARs and
//! reads them on its own. The texts in bases, of blocks and of errors include published ones. Debug
//! strings are those of the Rust crate, and typed values those of its derives. No expected outcome
//! comes from this program's own output.
#![tactic(auto)]

mod bases;
mod blocks;
mod bytes;
mod calls;
mod cars;
mod codecs;
mod convert;
mod debug;
mod deep;
mod hashes;
mod identifiers;
mod indexes;
mod json;
mod lines;
mod own;
mod parts;
mod token_words;
mod tokens;
mod tree_words;
mod values;

use std::alloc::{AllocError, Global};
use std::io;

fn main(rt: HostRuntime) -> io::Result<()> {
    for line in rt.lines(rt.alloc()) {
        let line = line?;
        let outcome = outcome(rt.alloc(), line.as_str())?;
        println!(&rt; "{outcome}")?;
    }
    Ok(())
}

/// Returns the outcome of a line. The outcome of an invalid line is a message.
fn outcome(alloc: Global, line: &str) -> Result<String, AllocError> {
    let (word, rest) = line.split_once(' ').unwrap_or((line, ""));
    match word {
        "cid" => identifiers::from_bytes(alloc, rest),
        "text" => identifiers::from_text(alloc, rest),
        "order" => identifiers::order(alloc, rest),
        "bases" => bases::texts(alloc, rest),
        "any" => bases::read(alloc, rest),
        "base" => bases::base(alloc, rest),
        "hash" => hashes::multihash(alloc, rest),
        "names" => hashes::of_block(alloc, rest),
        "verify" => hashes::verified(alloc, rest),
        "codes" => hashes::codes(alloc),
        _ => of_trees(alloc, word, rest),
    }
}

fn of_trees(alloc: Global, word: &str, rest: &str) -> Result<String, AllocError> {
    match word {
        "get" => indexes::by_text(alloc, rest),
        "at" => indexes::by_number(alloc, rest),
        "path" => indexes::by_path(alloc, rest),
        "debug" => debug::tree(alloc, rest),
        "deep" => deep::walk_row(alloc, rest),
        "walks" => deep::walks(alloc, rest),
        "json" => json::tree(alloc, rest),
        "fromjson" => json::read(alloc, rest),
        "floatjson" => json::read_floats(alloc, rest),
        "as" => convert::tree(alloc, rest),
        "call" => calls::call(alloc, rest),
        "value" => values::value(alloc, rest),
        _ => of_tokens(alloc, word, rest),
    }
}

fn of_tokens(alloc: Global, word: &str, rest: &str) -> Result<String, AllocError> {
    match word {
        "links" => tokens::links(alloc, rest),
        "tree" => tokens::tree(alloc, rest),
        "limited" => tokens::tree_within(alloc, rest),
        "measured" => tokens::measured(alloc, rest),
        "tokens" => tokens::of_tree(alloc, rest),
        "cutline" => lines::cut(alloc, rest),
        "changedline" => lines::changed(alloc, rest),
        _ => of_blocks(alloc, word, rest),
    }
}

fn of_blocks(alloc: Global, word: &str, rest: &str) -> Result<String, AllocError> {
    match word {
        "block" => blocks::block(alloc, rest),
        "again" => blocks::encode_again(alloc, rest),
        "blocktokens" => tokens::of_block(alloc, rest),
        "parts" => parts::parts(alloc, rest),
        "cuts" => parts::cuts(alloc, rest),
        "changes" => parts::changes(alloc, rest),
        "within" => parts::within(alloc, rest),
        "decoded" => parts::decoded_within(alloc, rest),
        "size" => parts::size(alloc, rest),
        "typed" => values::in_block(alloc, rest),
        "car" => cars::car(alloc, rest),
        "linksof" => codecs::links(alloc, rest),
        _ => String::from_str(alloc, "no such word"),
    }
}
