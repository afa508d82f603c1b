//! A value that is ignored.

ghost use Rattle.std.specs.Prelude.{Some, IsOk};
ghost use Rattle.ipld_ser.specs.Image.{NoError};
ghost use Rattle.ipld_de.specs.Lemmas.FaithfulOf.{only_faithful};

use crate::deserialize::Deserialize;
use crate::deserializer::Deserializer;
use crate::faithful::Faithful;
use crate::image_reader::{ImageReader, Unread};
use ipld_ser::SerdeError;
use ipld_tree::Ipld;
use std::alloc::Global;

/// A value that is read from every tree and keeps nothing of it.
#[derive(Debug, PartialEq, Eq, Drop)]
pub struct IgnoredAny;

/// Every tree, which is dropped. `deserialize` does not allocate.
impl Deserialize for IgnoredAny {
    ghost Contents = { Unit {0} };

    ghost contents = { λ _. tt };

    ghost reads = { λ _. Some tt };

    ghost read_error = { NoError };

    #[inline(always)]
    fn deserialize(_alloc: Global, value: Ipld) -> Result<IgnoredAny, SerdeError>
        ensures { IsOk result }
    {
        value.deserialize_ignored_any()
    }

    #[inline(always)]
    fn read_image<R: ImageReader>(
        alloc: Global,
        reader: &mut R,
        levels: usize,
    ) -> Result<IgnoredAny, Unread> {
        reader.skip_tree(alloc, levels)?;
        Ok(IgnoredAny)
    }
}

impl Faithful for IgnoredAny {
    ghost equal_by_contents = { only_faithful };
}
