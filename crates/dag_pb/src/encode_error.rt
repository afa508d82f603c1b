//! The errors of writing a block of DAG-PB.

ghost use Rattle.std.specs.Prelude.{◌≡◌};
ghost use Rattle.dag_pb.specs.ErrorNames.{encode_name_of};

use ipld_cid::write_number;
use std::alloc::AllocError;
use std::{error, fmt};

/// The reason why a node isn't encoded.
///
/// Its `Display` is a sentence that describes the error.
#[derive(Clone, Copy, Debug, PartialEq, Eq)]
pub enum PbEncodeError {
    /// An allocation failed.
    Memory,
    /// The link with this index, from 1 on, is the first whose name is less than the name of the
    /// link before it. A link without a name counts as one with an empty name.
    LinkOrder(usize),
}

impl PbEncodeError {
    /// Returns the name of the variant.
    pub fn name(&self) -> &'static str
        ensures { result.now ≡ encode_name_of self.now }
    {
        match self {
            PbEncodeError::Memory => "Memory",
            PbEncodeError::LinkOrder(_) => "LinkOrder",
        }
    }
}

impl fmt::Display for PbEncodeError {
    ghost use Rattle.std.specs.Prelude.{Some};
    ghost use Rattle.dag_pb.specs.ErrorNames.{encode_sentence};

    ghost output = { λ error. Some (encode_sentence error) };

    ghost styled_output = { λ error _. Some (encode_sentence error) };

    fn fmt<W: fmt::Write>(&self, f: &mut fmt::Formatter<W>) -> fmt::Result {
        match self {
            PbEncodeError::Memory => f.write_str("out of memory"),
            PbEncodeError::LinkOrder(index) => write_number(
                f,
                "the links are not sorted by name: the first out of order has the index ",
                *index as u64,
            ),
        }
    }
}

impl error::Error for PbEncodeError {}

impl From<AllocError> for PbEncodeError {
    ghost use Rattle.std.specs.Prelude.{◌≡◌};
    ghost use Rattle.dag_pb.specs.declared.encode_error.PbEncodeError.TheVariants.{Memory};

    ghost from_gives = { λ _ error. error ≡ Memory };

    fn from(_error: AllocError) -> Self {
        PbEncodeError::Memory
    }
}
