//! The reading of values from a block, part by part.

ghost use Rattle.std.specs.Prelude.{◌≡◌, ◌∷◌, ℕ, List, IfSome, IfNone};
ghost use Rattle.ipld_tree.specs.Tree.{Tree};
ghost use Rattle.dag_cbor.specs.Shallow.{Begins};
ghost use Rattle.dag_cbor_format.specs.ItemHeads.{BeginsWithKey};
ghost use Rattle.dag_cbor_serde.specs.Parts.{BeginsWithHead};
ghost use Rattle.dag_cbor_format.specs.declared.major.Major.TheVariants as major;
ghost use Rattle.dag_cbor_serde.specs.Lemmas.PartLaws.{front_lists, front_maps};

use dag_cbor::shallow::read_front;
use dag_cbor_blocks::shallow::Stop;
use dag_cbor_format::Major;
use dag_cbor_format::head::read_head;
use dag_cbor_format::item_header::{
    LINK_TAG, read_bytes, read_key_text, read_link_bytes, read_text,
};
use ipld_cid::Cid;
use ipld_de::{ImageReader, Unread};
use ipld_tree::Ipld;
use std::alloc::Global;

// Returns the bytes after a Null, which is only a head.
#[inline(always)]
fn skip_null(bytes: &[u8]) -> Option<&[u8]>
    ensures some { IfSome result (λ rest. bytes.now ≡ 246 ∷ rest.now) }
    ensures none { IfNone result ((rest : List ℕ) → bytes.now ≡ 246 ∷ rest → ⊥) }
{
    match bytes {
        [246, rest @ ..] => Some(rest),
        _ => None,
    }
}

// The rest of a block.
#[derive(Drop)]
pub(crate) struct BlockReader<'a> {
    pub(crate) bytes: &'a [u8],
}

// Returns the bytes after an integer, a string or bytes, of which no tree need be made.
#[inline(always)]
fn skip_scalar(bytes: &[u8]) -> Option<&[u8]>
    ensures { (levels : ℕ) → IfSome result (λ rest. (t : Tree)
        × Begins levels t bytes.now rest.now) }
{
    let Ok((major, argument, more)) = read_head(bytes) else {
        return None;
    };
    match major {
        Major::Unsigned => Some(more),
        Major::Negative => Some(more),
        Major::Bytes => match read_bytes(argument, more) {
            Ok((_, rest)) => Some(rest),
            Err(_) => None,
        },
        Major::Text => match read_text(argument, more) {
            Ok((_, rest)) => Some(rest),
            Err(_) => None,
        },
        _ => None,
    }
}

impl<'a> ImageReader for BlockReader<'a> {
    type Key = &'a str;

    ghost contents = { λ reader. reader.bytes.now };

    ghost Begins = { Begins };

    ghost BeginsList = { BeginsWithHead major.List };

    ghost BeginsMap = { BeginsWithHead major.Map };

    ghost BeginsKey = { BeginsWithKey };

    ghost key_bytes = { λ key. key.now };

    #[inline(always)]
    fn read_null(&mut self) -> bool {
        match skip_null(self.bytes) {
            Some(rest) => {
                self.bytes = rest;
                true
            }
            None => false,
        }
    }

    #[inline(always)]
    fn read_bool(&mut self) -> Result<bool, Unread> {
        let Ok((Major::Simple, number, rest)) = read_head(self.bytes) else {
            return Err(Unread::Rejected);
        };
        self.bytes = rest;
        match number {
            20 => Ok(false),
            21 => Ok(true),
            _ => Err(Unread::Rejected),
        }
    }

    #[inline(always)]
    fn read_integer(&mut self) -> Result<i128, Unread> {
        let Ok((major, argument, rest)) = read_head(self.bytes) else {
            return Err(Unread::Rejected);
        };
        self.bytes = rest;
        match major {
            Major::Unsigned => Ok(i128::from(argument)),
            Major::Negative => Ok(-1 - i128::from(argument)),
            _ => Err(Unread::Rejected),
        }
    }

    #[inline(always)]
    fn read_string(&mut self, alloc: Global) -> Result<String, Unread> {
        let Ok((content, rest)) = read_key_text(self.bytes) else {
            return Err(Unread::Rejected);
        };
        self.bytes = rest;
        let copy = String::from_str(alloc, content)?;
        Ok(copy)
    }

    #[inline(always)]
    fn read_bytes(&mut self, alloc: Global) -> Result<Vec<u8>, Unread> {
        let Ok((Major::Bytes, length, more)) = read_head(self.bytes) else {
            return Err(Unread::Rejected);
        };
        let Ok((content, rest)) = read_bytes(length, more) else {
            return Err(Unread::Rejected);
        };
        self.bytes = rest;
        let copy = Vec::from_slice(alloc, content)?;
        Ok(copy)
    }

    #[inline(always)]
    fn read_link(&mut self) -> Result<Cid, Unread> {
        let Ok((Major::Tag, LINK_TAG, more)) = read_head(self.bytes) else {
            return Err(Unread::Rejected);
        };
        let Ok((encoded, rest)) = read_link_bytes(more) else {
            return Err(Unread::Rejected);
        };
        self.bytes = rest;
        match Cid::try_from(encoded) {
            Ok(cid) => Ok(cid),
            Err(_) => Err(Unread::Rejected),
        }
    }

    fn read_tree(&mut self, alloc: Global, levels: usize) -> Result<Ipld, Unread> {
        match read_front(alloc, self.bytes, levels) {
            Ok((tree, rest)) => {
                self.bytes = rest;
                Ok(tree)
            }
            Err(Stop::Memory) => Err(Unread::Memory),
            Err(Stop::Unread) => Err(Unread::Rejected),
        }
    }

    fn skip_tree(&mut self, alloc: Global, levels: usize) -> Result<(), Unread> {
        match skip_scalar(self.bytes) {
            Some(rest) => {
                self.bytes = rest;
                Ok(())
            }
            None => {
                let tree = self.read_tree(alloc, levels)?;
                tree.discard();
                Ok(())
            }
        }
    }

    #[inline(always)]
    fn begin_list(&mut self) -> Result<usize, Unread> {
        let Ok((Major::List, count, rest)) = read_head(self.bytes) else {
            return Err(Unread::Rejected);
        };
        self.bytes = rest;
        Ok(count as usize)
    }

    #[inline(always)]
    fn begin_map(&mut self) -> Result<usize, Unread> {
        let Ok((Major::Map, count, rest)) = read_head(self.bytes) else {
            return Err(Unread::Rejected);
        };
        self.bytes = rest;
        Ok(count as usize)
    }

    #[inline(always)]
    fn read_key(&mut self) -> Result<&'a str, Unread> {
        let Ok((key, rest)) = read_key_text(self.bytes) else {
            return Err(Unread::Rejected);
        };
        self.bytes = rest;
        Ok(key)
    }

    #[inline(always)]
    fn key_text<'k>(key: &'k &'a str) -> &'k str {
        key
    }

    ghost lists = { front_lists };

    ghost maps = { front_maps };
}
