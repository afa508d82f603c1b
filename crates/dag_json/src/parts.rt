//! The writing of values that JSON has no form of its own for, in their form of DAG-JSON.
//!
//! Each function writes one value to a [`Writer`], which places the commas. If your value is not an
//! [`Ipld`](ipld_tree::Ipld), write its nulls, bools, strings, lists and maps with the calls of
//! [`Writer`], and these values with the functions here. The text is then the one that
//! [`to_vec`](crate::to_vec) writes.

ghost use Rattle.std.specs.Prelude.{OnOk};
ghost use Rattle.ipld_cid.specs.LinkOf.{link_of};
ghost use Rattle.ipld_tree.specs.Tree as tree;
ghost use Rattle.json.specs.Tree.{json_tokens};
ghost use Rattle.dag_json.specs.Form.{json_of, Wrote};

use base64::engine::general_purpose::STANDARD_NO_PAD;
use ipld_cid::Cid;
use ipld_cid_text::usual_text;
use json::Writer;
use std::alloc::{AllocError, Global};

/// Writes a link: `{"/":"TEXT"}`, with the usual text of the CID (base58btc for version 0, base32
/// for version 1).
///
/// It allocates the text of the CID while it writes it.
///
/// # Errors
///
/// `AllocError` if an allocation fails. A part of the link may then be written.
#[inline(never)]
pub fn write_link(alloc: Global, writer: &mut Writer, cid: &Cid) -> Result<(), AllocError>
    ensures { OnOk result (Wrote writer.old writer.new
        (json_tokens (json_of (tree.link (link_of cid.now))))) }
{
    let text = usual_text(alloc, cid)?;
    writer.begin_object()?;
    writer.key("/")?;
    writer.string(&text)?;
    writer.end_object()
}

/// Writes bytes: `{"/":{"bytes":"TEXT"}}`, in base64 without padding (RFC 4648, section 4).
///
/// It allocates the text while it writes it.
///
/// # Errors
///
/// `AllocError` if an allocation fails. A part of the value may then be written.
#[inline(never)]
pub fn write_bytes(alloc: Global, writer: &mut Writer, bytes: &[u8]) -> Result<(), AllocError>
    ensures { OnOk result (Wrote writer.old writer.new
        (json_tokens (json_of (tree.bytes bytes.now)))) }
{
    let text = STANDARD_NO_PAD.encode(alloc, bytes)?;
    writer.begin_object()?;
    writer.key("/")?;
    writer.begin_object()?;
    writer.key("bytes")?;
    writer.string(&text)?;
    writer.end_object()?;
    writer.end_object()
}

/// Writes an integer as its decimal digits, all 128 bits of it.
///
/// # Errors
///
/// `AllocError` if an allocation fails.
#[inline(always)]
pub fn write_integer(writer: &mut Writer, value: i128) -> Result<(), AllocError>
    ensures { OnOk result (Wrote writer.old writer.new
        (json_tokens (json_of (tree.integer value)))) }
{
    let mut buffer = itoa::Buffer::new();
    writer.number(buffer.format(value))
}
