//! The reading of arrays of bytes.

ghost use Rattle.std.specs.Prelude.{◌≡◌, ◌≢◌, ℕ, List, length, map, IfOk, IfErr};
ghost use Rattle.ipld_de.specs.Composites.{array_reading, ArrayReadError};
ghost use Rattle.ipld_de.specs.Scalars.{unsigned_reading, NumberError};

use crate::deserialize::Deserialize;
use ipld_ser::SerdeError;
use ipld_tree::Ipld;
use std::alloc::Global;

/// A List of exactly `N` Integers that are bytes. The error is [`SerdeError::WrongLength`] if all
/// items are bytes, but there are fewer or more than `N`. Bytes are not a list of numbers: they are
/// read as a [`ByteBuf`](ipld_ser::ByteBuf).
impl<const N: usize> Deserialize for [u8; N] {
    ghost Contents = { List ℕ };

    ghost contents = { map ⟦<u8 as Deserialize>⟧.contents };

    ghost reads = { array_reading N (unsigned_reading 8) };

    ghost read_error = { ArrayReadError (unsigned_reading 8) NumberError };

    fn deserialize(alloc: Global, value: Ipld) -> Result<[u8; N], SerdeError> {
        let items = <Vec<u8>>::deserialize(alloc, value)?;
        array_of(&items)
    }
}

// Returns the array of the bytes if there are exactly `N`.
fn array_of<const N: usize>(items: &[u8]) -> Result<[u8; N], SerdeError>
    ensures ok { IfOk result (λ a. (a ≡ items.now) × (length items.now ≡ N)) }
    ensures err { IfErr result (λ e. (e ≡ SerdeError.WrongLength) × (length items.now ≢ N)) }
{
    match <[u8; N]>::try_from(items) {
        Ok(array) => Ok(array),
        Err(_) => Err(SerdeError::WrongLength),
    }
}
