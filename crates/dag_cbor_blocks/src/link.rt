//! The CID of a link.

ghost use Rattle.std.specs.Prelude.{◌≡◌, Some, IfOk};
ghost use Rattle.ipld_cid.specs.LinkOf.{link_of};
ghost use Rattle.ipld_tokens.specs.LinkBytes.{read_link};
ghost use Rattle.dag_cbor_format.specs.Errors as wrong;
ghost use Rattle.dag_cbor_format.specs.ItemHeader as reading;
ghost use Rattle.dag_cbor_format.specs.Parts.{Returns};

use dag_cbor_format::CborError;
use dag_cbor_format::item_header::read_link_bytes;
use ipld_cid::Cid;

// Reads the CID after the tag of a link, and returns it with its bytes and the bytes after them.
#[inline(always)]
pub(crate) fn read_link_cid(bytes: &[u8]) -> Result<(Cid, &[u8], &[u8]), CborError>
    ensures encoded { Returns (λ x. (x.1.now, x.2.now)) (wrong.link_error bytes.now) result
        (reading.link_at bytes.now) }
    ensures cid { IfOk result (λ x. read_link 64 x.1.now ≡ Some (link_of x.0)) }
{
    let (encoded, rest) = read_link_bytes(bytes)?;
    match Cid::try_from(encoded) {
        Ok(cid) => Ok((cid, encoded, rest)),
        Err(error) => Err(CborError::Cid(error)),
    }
}
