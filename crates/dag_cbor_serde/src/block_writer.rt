//! The writing of values into a block, part by part.

ghost use Rattle.std.specs.Prelude.{◌≡◌};
ghost use Rattle.dag_cbor_format.specs.Canonical.{canonical};
ghost use Rattle.dag_cbor_format.specs.Head.{head};
ghost use Rattle.dag_cbor_format.specs.declared.major.Major.TheVariants as major;
ghost use Rattle.dag_cbor_serde.specs.Errors.{unwritten_of};
ghost use Rattle.dag_cbor_serde.specs.Lemmas.BlockLaws.{canonical_lists, canonical_structs};

use dag_cbor::write::{write_bytes, write_head, write_integer, write_link, write_text};
use dag_cbor::{CborError, DagCborCodec};
use dag_cbor_format::Major;
use ipld_cid::Cid;
use ipld_codec::Codec;
use ipld_ser::{ImageWriter, Unwritten};
use ipld_tree::Ipld;
use std::alloc::Global;

// The beginning of a block.
#[derive(Drop)]
pub(crate) struct BlockWriter {
    pub(crate) block: Vec<u8>,
}

impl ImageWriter for BlockWriter {
    ghost contents = { λ writer. writer.block.items };

    ghost written = { canonical };

    ghost list_head = { head major.List };

    ghost map_head = { head major.Map };

    #[inline(always)]
    fn write_null(&mut self) -> Result<(), Unwritten> {
        write_head(&mut self.block, Major::Simple, 22)?;
        Ok(())
    }

    #[inline(always)]
    fn write_bool(&mut self, value: bool) -> Result<(), Unwritten> {
        if value {
            write_head(&mut self.block, Major::Simple, 21)?;
        } else {
            write_head(&mut self.block, Major::Simple, 20)?;
        }
        Ok(())
    }

    #[inline(always)]
    fn write_integer(&mut self, value: i128) -> Result<(), Unwritten> {
        match write_integer(&mut self.block, value) {
            Ok(()) => Ok(()),
            Err(error) => Err(unwritten_of(error)),
        }
    }

    #[inline(always)]
    fn write_str(&mut self, value: &str) -> Result<(), Unwritten> {
        write_text(&mut self.block, value)?;
        Ok(())
    }

    #[inline(always)]
    fn write_bytes(&mut self, value: &[u8]) -> Result<(), Unwritten> {
        write_bytes(&mut self.block, value)?;
        Ok(())
    }

    #[inline(always)]
    fn write_link(&mut self, value: &Cid) -> Result<(), Unwritten> {
        write_link(&mut self.block, value)?;
        Ok(())
    }

    fn write_tree(&mut self, alloc: Global, value: &Ipld) -> Result<(), Unwritten> {
        match DagCborCodec::encode_to_vec(alloc, value) {
            Ok(bytes) => {
                self.block.extend_from_slice(&bytes)?;
                Ok(())
            }
            Err(error) => Err(unwritten_of(error)),
        }
    }

    #[inline(always)]
    fn begin_list(&mut self, count: usize) -> Result<(), Unwritten> {
        write_head(&mut self.block, Major::List, count as u64)?;
        Ok(())
    }

    #[inline(always)]
    fn begin_map(&mut self, count: usize) -> Result<(), Unwritten> {
        write_head(&mut self.block, Major::Map, count as u64)?;
        Ok(())
    }

    ghost lists = { canonical_lists };

    ghost structs = { canonical_structs };
}

// Converts the error of writing a part.
fn unwritten_of(error: CborError) -> Unwritten
    ensures { result ≡ unwritten_of error }
{
    match error {
        CborError::Memory => Unwritten::Memory,
        _ => Unwritten::Rejected,
    }
}
