//! A count of the levels and values of a block, within limits.

ghost use Rattle.std.specs.Prelude.{◌≡◌, ◌<◌, ◌^◌};
ghost use Rattle.dag_cbor_blocks.specs.Counter.{Closes, CountsValue, CountsPart};

use crate::block_error::BlockErrorKind;
use ipld_tree::Limits;

// The kind of a part that was read.
#[derive(Clone, Copy)]
pub(crate) enum PartKind {
    // A value that contains no others.
    Scalar,
    // The head of a list or a map.
    Beginning,
    // The end of a list or a map.
    End,
    // Nothing, and no byte.
    Nothing,
}

// The levels and values that the limits leave to the rest of a block. It counts down, so that the
// loop over a block keeps two numbers, not four.
#[derive(Drop)]
pub(crate) struct Counter {
    // How many more lists and maps may be open.
    levels: usize,
    // How many more values may come.
    values: usize,
}

impl Counter {
    pub(crate) fn new(limits: Limits) -> Self
        ensures all { result ≡ record { levels = limits.levels; values = limits.values } }
        ensures bounded { limits.levels < 2 ^ 64 }
    {
        Counter {
            levels: limits.levels,
            values: limits.values,
        }
    }

    #[inline(always)]
    fn count_value(&mut self) -> Result<(), BlockErrorKind>
        ensures { CountsValue self.old result self.new }
    {
        if self.values == 0 {
            return Err(BlockErrorKind::TooMany);
        }
        self.values -= 1;
        Ok(())
    }

    // Counts a part if it is within the limits.
    #[inline(always)]
    pub(crate) fn count(&mut self, part: PartKind) -> Result<(), BlockErrorKind>
        requires { Closes part self.old.levels }
        ensures { CountsPart part self.old result self.new }
    {
        match part {
            PartKind::Scalar => self.count_value(),
            PartKind::Beginning => {
                if self.levels == 0 {
                    return Err(BlockErrorKind::TooDeep);
                }
                self.levels -= 1;
                self.count_value()
            }
            PartKind::End => {
                self.levels += 1;
                Ok(())
            }
            PartKind::Nothing => Ok(()),
        }
    }
}
