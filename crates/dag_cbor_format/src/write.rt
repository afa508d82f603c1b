//! Functions that write one item after another, to make a block without its tree.
//!
//! Every function appends to a vector. A list or a map is its head, with the number of its items or
//! entries, and then the items or entries. An entry is its key, a text string, and then its value.
//! The result is in canonical form if the keys of every map come in length-first order (RFC 8949,
//! section 4.2.3).

ghost use Rattle.std.specs.Prelude.{◌≡◌, ◌+◌, ◌*◌, ◌<◌, ◌≤◌, ◌++◌, ◌⊎◌, true, false, length, Some, OnOk, OnErr, IfErr, MatchOption, vec_capacity, vec_len};
ghost use Rattle.ipld_cid.specs.LinkOf.{link_of};
ghost use Rattle.dag_cbor_format.specs.Head as heads;
ghost use Rattle.dag_cbor_format.specs.Head.{head};
ghost use Rattle.dag_cbor_format.specs.Canonical.{canonical};
ghost use Rattle.dag_cbor_format.specs.Range.{has_argument};
ghost use Rattle.ipld_tree.specs.Tree as tree;
ghost use Rattle.dag_cbor_format.specs.Writing.{Adds, AddsPart, LacksCapacity};

use crate::error::CborError;
use crate::item_header::LINK_TAG;
use crate::major::Major;
use ipld_cid::Cid;
use std::alloc::AllocError;

// Returns the first byte of a head, with the major type in its upper three bits.
#[inline(always)]
fn first_byte(major: Major, additional: u8) -> u8
    requires { additional < 32 }
    ensures { result ≡ 32 * heads.number_of major + additional }
{
    let number = match major {
        Major::Unsigned => 0,
        Major::Negative => 1,
        Major::Bytes => 2,
        Major::Text => 3,
        Major::List => 4,
        Major::Map => 5,
        Major::Tag => 6,
        Major::Simple => 7,
    };
    32 * number + additional
}

/// Appends the head of an item (RFC 8949, section 3), with its argument in the shortest form.
///
/// # Errors
///
/// `AllocError` if the vector has no capacity for the head and an allocation fails. Nothing is
/// appended then.
#[tactic(auto, unfolding(crate::specs::Head::head))]
#[inline(always)]
pub fn write_head(out: &mut Vec<u8>, major: Major, argument: u64) -> Result<(), AllocError>
    ensures ok { OnOk result (out.new.items ≡ out.old.items ++ head major argument) }
    ensures unchanged { OnErr result (out.new.items ≡ out.old.items) }
    ensures full { OnErr result (vec_capacity out.old < vec_len out.old + length
        (head major argument)) }
    ensures capacity { vec_capacity out.old ≤ vec_capacity out.new }
{
    if argument < 24 {
        return out.extend_from_slice(&[first_byte(major, argument as u8)]);
    }
    if argument < 1 << 8 {
        return out.extend_from_slice(&[first_byte(major, 24), argument as u8]);
    }
    if argument < 1 << 16 {
        let [a, b] = (argument as u16).to_be_bytes();
        return out.extend_from_slice(&[first_byte(major, 25), a, b]);
    }
    if argument < 1 << 32 {
        let [a, b, c, d] = (argument as u32).to_be_bytes();
        return out.extend_from_slice(&[first_byte(major, 26), a, b, c, d]);
    }
    let [a, b, c, d, e, f, g, h] = argument.to_be_bytes();
    out.extend_from_slice(&[first_byte(major, 27), a, b, c, d, e, f, g, h])
}

/// Appends a text string.
///
/// # Errors
///
/// `AllocError` if the vector has no capacity for the string and an allocation fails. A beginning
/// of the string may then have been appended, but never all of it.
#[inline(always)]
pub fn write_text(out: &mut Vec<u8>, text: &str) -> Result<(), AllocError>
    ensures ok { OnOk result (Adds (canonical (tree.text text.now)) out.old.items out.new.items) }
    ensures part { OnErr result (AddsPart (canonical (tree.text text.now)) out.old.items
        out.new.items) }
    ensures full { OnErr result (LacksCapacity (canonical (tree.text text.now))
        (vec_capacity out.old) (vec_len out.old)) }
{
    write_head(out, Major::Text, text.len() as u64)?;
    out.extend_from_slice(text.as_bytes())
}

/// Appends a byte string.
///
/// # Errors
///
/// `AllocError` if the vector has no capacity for the string and an allocation fails. A beginning
/// of the string may then have been appended, but never all of it.
#[inline(always)]
pub fn write_bytes(out: &mut Vec<u8>, bytes: &[u8]) -> Result<(), AllocError>
    ensures ok { OnOk result (Adds (canonical (tree.bytes bytes.now)) out.old.items out.new.items) }
    ensures part { OnErr result (AddsPart (canonical (tree.bytes bytes.now)) out.old.items
        out.new.items) }
    ensures full { OnErr result (LacksCapacity (canonical (tree.bytes bytes.now))
        (vec_capacity out.old) (vec_len out.old)) }
{
    write_head(out, Major::Bytes, bytes.len() as u64)?;
    out.extend_from_slice(bytes)
}

/// Appends a link: tag 42, and a byte string of a zero byte and the CID's bytes.
///
/// # Errors
///
/// `AllocError` if the vector has no capacity for the link and an allocation fails. A beginning of
/// the link may then have been appended, but never all of it.
pub fn write_link(out: &mut Vec<u8>, cid: &Cid) -> Result<(), AllocError>
    ensures ok { OnOk result (Adds (canonical (tree.link (link_of cid.now))) out.old.items
        out.new.items) }
    ensures part { OnErr result (AddsPart (canonical (tree.link (link_of cid.now))) out.old.items
        out.new.items) }
    ensures full { OnErr result (LacksCapacity (canonical (tree.link (link_of cid.now)))
        (vec_capacity out.old) (vec_len out.old)) }
{
    let content_len = 1 + cid.encoded_len() as u64;
    write_head(out, Major::Tag, LINK_TAG)?;
    write_head(out, Major::Bytes, content_len)?;
    out.extend_from_slice(&[0])?;
    cid.write_bytes(out)
}

// Returns the head of an integer if its argument has at most 64 bits.
#[inline(always)]
fn integer_head(number: i128) -> Option<(Major, u64)>
    ensures { MatchOption result (has_argument number ≡ false)
        (λ parts. (has_argument number ≡ true)
        × (canonical (tree.integer number) ≡ Some (head parts.0 parts.1))) }
{
    if number < 0 {
        match u64::try_from(-1 - number) {
            Ok(argument) => Some((Major::Negative, argument)),
            Err(_) => None,
        }
    } else {
        match u64::try_from(number) {
            Ok(argument) => Some((Major::Unsigned, argument)),
            Err(_) => None,
        }
    }
}

/// Appends an integer from -2^64 to 2^64 - 1. It appends nothing for any other integer.
///
/// # Errors
///
/// `IntegerRange` if the integer is not in that range. Otherwise `Memory` if the vector has no
/// capacity for it and an allocation fails. Nothing is appended in either case.
#[inline(always)]
pub fn write_integer(out: &mut Vec<u8>, number: i128) -> Result<(), CborError>
    ensures ok { OnOk result (Adds (canonical (tree.integer number)) out.old.items out.new.items) }
    ensures within { OnOk result (has_argument number ≡ true) }
    ensures err { IfErr result (λ error. ((error ≡ CborError.Memory) × (has_argument number ≡ true))
        ⊎ ((error ≡ CborError.IntegerRange) × (has_argument number ≡ false))) }
    ensures unchanged { OnErr result (out.new.items ≡ out.old.items) }
    ensures full { OnErr result (LacksCapacity (canonical (tree.integer number))
        (vec_capacity out.old) (vec_len out.old)) }
{
    let Some((major, argument)) = integer_head(number) else {
        return Err(CborError::IntegerRange);
    };
    write_head(out, major, argument)?;
    Ok(())
}
