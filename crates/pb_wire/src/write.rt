//! Writing fields.

ghost use Rattle.std.specs.Prelude.{◌≡◌, ◌≤◌, ◌<◌, ◌+◌, ◌^◌, ◌++◌, length, OnOk, OnErr};
ghost use Rattle.ipld_cid.specs.Varint.{varint_of};
ghost use Rattle.pb_wire.specs.Writing as writing;

use ipld_cid::ByteBuffer;
use std::alloc::AllocError;

/// Returns the number of bytes of the shortest varint of this number, from 1 to 10.
#[inline(always)]
pub fn varint_len(number: u64) -> usize
    ensures len { result ≡ length (varint_of number) }
    ensures short { result ≤ 10 }
{
    let mut varint = ByteBuffer::<10>::new();
    varint.push_varint(number);
    varint.len()
}

/// Returns the number of bytes of the field of a number, with this key. It is at most 20.
#[tactic(auto, unfolding(crate::specs::Writing::number_bytes))]
#[inline(always)]
pub fn number_len(key: u64, number: u64) -> usize
    ensures len { result ≡ length (writing.number_bytes key number) }
    ensures short { (result ≤ 20) × (number < 2 ^ 64) }
{
    varint_len(key) + varint_len(number)
}

/// Returns the number of bytes of the key and the length of a content of `len` bytes. It is at most
/// 20.
#[tactic(auto, unfolding(crate::specs::Writing::content_head))]
#[inline(always)]
pub fn content_head_len(key: u64, len: usize) -> usize
    ensures len { result ≡ length (writing.content_head key len) }
    ensures short { result ≤ 20 }
{
    varint_len(key) + varint_len(len as u64)
}

/// Returns the number of bytes of the field of a content, with this key.
#[tactic(auto, unfolding(crate::specs::Writing::content_bytes))]
#[inline(always)]
pub fn content_len(key: u64, content: &[u8]) -> usize
    ensures len { result ≡ length (writing.content_bytes key content.now) }
    ensures short { (result ≤ 20 + length content.now) × (length content.now < 2 ^ 63) }
{
    content_head_len(key, content.len()) + content.len()
}

/// Appends the shortest varint of this number.
///
/// # Errors
///
/// `AllocError` if the vector can't grow. It is then unchanged.
#[inline(always)]
pub fn push_varint(bytes: &mut Vec<u8>, number: u64) -> Result<(), AllocError>
    ensures written { OnOk result (bytes.new.items ≡ bytes.old.items ++ varint_of number) }
    ensures kept { OnErr result (bytes.new.items ≡ bytes.old.items) }
{
    let mut varint = ByteBuffer::<10>::new();
    varint.push_varint(number);
    bytes.extend_from_slice(varint.as_slice())
}

/// Appends the field of a number, with this key.
///
/// # Errors
///
/// `AllocError` if the vector can't grow. It is then unchanged.
#[tactic(auto, unfolding(crate::specs::Writing::number_bytes))]
#[inline(always)]
pub fn push_number(bytes: &mut Vec<u8>, key: u64, number: u64) -> Result<(), AllocError>
    ensures written { OnOk result (bytes.new.items
        ≡ bytes.old.items ++ writing.number_bytes key number) }
    ensures kept { OnErr result (bytes.new.items ≡ bytes.old.items) }
{
    let mut field = ByteBuffer::<20>::new();
    field.push_varint(key);
    field.push_varint(number);
    bytes.extend_from_slice(field.as_slice())
}

/// Appends the key and the length of a content of `len` bytes. The content itself has to follow.
///
/// # Errors
///
/// `AllocError` if the vector can't grow. It is then unchanged.
#[tactic(auto, unfolding(crate::specs::Writing::content_head))]
#[inline(always)]
pub fn push_content_head(bytes: &mut Vec<u8>, key: u64, len: usize) -> Result<(), AllocError>
    ensures written { OnOk result (bytes.new.items
        ≡ bytes.old.items ++ writing.content_head key len) }
    ensures kept { OnErr result (bytes.new.items ≡ bytes.old.items) }
{
    let mut head = ByteBuffer::<20>::new();
    head.push_varint(key);
    head.push_varint(len as u64);
    bytes.extend_from_slice(head.as_slice())
}

/// Appends the field of a content, with this key.
///
/// # Errors
///
/// `AllocError` if the vector can't grow. It is then unchanged.
#[tactic(auto, unfolding(crate::specs::Writing::content_bytes, crate::specs::Writing::content_head))]
#[inline(always)]
pub fn push_content(bytes: &mut Vec<u8>, key: u64, content: &[u8]) -> Result<(), AllocError>
    ensures written { OnOk result (bytes.new.items
        ≡ bytes.old.items ++ writing.content_bytes key content.now) }
    ensures kept { OnErr result (bytes.new.items ≡ bytes.old.items) }
{
    let mut head = ByteBuffer::<20>::new();
    head.push_varint(key);
    head.push_varint(content.len() as u64);
    bytes.reserve(head.len() + content.len())?;
    bytes.extend_from_slice(head.as_slice())?;
    bytes.extend_from_slice(content)
}

/// Appends the field of a number of four bytes, with this key.
///
/// # Errors
///
/// `AllocError` if the vector can't grow. It is then unchanged.
#[tactic(auto, unfolding(crate::specs::Writing::fixed32_bytes))]
#[inline(always)]
pub fn push_fixed32(bytes: &mut Vec<u8>, key: u64, number: u32) -> Result<(), AllocError>
    ensures written { OnOk result (bytes.new.items
        ≡ bytes.old.items ++ writing.fixed32_bytes key number) }
    ensures kept { OnErr result (bytes.new.items ≡ bytes.old.items) }
{
    let mut field = ByteBuffer::<14>::new();
    field.push_varint(key);
    field.extend(&number.to_le_bytes());
    bytes.extend_from_slice(field.as_slice())
}
