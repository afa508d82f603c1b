//! Calls for values that are written as their content.

ghost use Rattle.std.specs.Prelude.{◌≡◌, Ok, Err, Some, IfOk, IfErr, MatchResult};
ghost use Rattle.ipld_ser.specs.Image.{RejectsAs};
ghost use Rattle.ipld_ser.specs.Newtype.{link_from_bytes, newtype_image, NewtypeError, RejectsNewtype};
ghost use Rattle.ipld_tree.specs.TreeOf.{tree_of};

use crate::error::SerdeError;
use crate::serialize::Serialize;
use crate::serializer::Serializer;
use ipld_cid::{CID_SERDE_PRIVATE_IDENTIFIER, Cid};
use ipld_tree::Ipld;
use std::alloc::Global;

impl Serializer {
    /// Writes a value that is present, as its image.
    ///
    /// # Errors
    ///
    /// The error of the value.
    #[inline(always)]
    pub fn serialize_some<T: Serialize>(self, alloc: Global, value: &T) -> Result<Ipld, SerdeError>
        ensures ok { IfOk result (λ t. T.image value.now ≡ Some (tree_of t)) }
        ensures err { IfErr result (λ e. RejectsAs (T.image value.now)
            (T.write_error value.now) e) }
    {
        value.serialize(alloc, Serializer)
    }

    /// Writes a newtype struct as the image of its content. If the name is
    /// [`CID_SERDE_PRIVATE_IDENTIFIER`], Bytes become the Link that they encode, and any other
    /// image is unchanged.
    ///
    /// # Errors
    ///
    /// - The error of the content.
    /// - [`SerdeError::InvalidCid`], with the reason, if the name is that of CIDs and the Bytes are
    ///   not a CID.
    #[inline(always)]
    pub fn serialize_newtype_struct<T: Serialize>(
        self,
        alloc: Global,
        name: &str,
        value: &T,
    ) -> Result<Ipld, SerdeError>
        ensures ok { IfOk result (λ t. newtype_image name.now (T.image value.now) ≡ Some
            (tree_of t)) }
        ensures err { IfErr result (λ e. RejectsAs (newtype_image name.now (T.image value.now))
            (NewtypeError name.now (T.image value.now) (T.write_error value.now)) e) }
        ensures error { IfErr result (λ e. RejectsNewtype name.now (T.image value.now) e) }
    {
        let content = value.serialize(alloc, self)?;
        if name == CID_SERDE_PRIVATE_IDENTIFIER {
            link_of_bytes(content)
        } else {
            Ok(content)
        }
    }
}

// Returns the content. If it is Bytes, returns the Link that they encode.
fn link_of_bytes(content: Ipld) -> Result<Ipld, SerdeError>
    ensures { MatchResult result
        (λ t. link_from_bytes (tree_of content) ≡ Ok (tree_of t))
        (λ e. link_from_bytes (tree_of content) ≡ Err e) }
{
    match content {
        Ipld::Bytes(bytes) => match Cid::try_from(bytes.as_slice()) {
            Ok(cid) => Ok(Ipld::Link(cid)),
            Err(error) => Err(SerdeError::InvalidCid(error)),
        },
        content => Ok(content),
    }
}
