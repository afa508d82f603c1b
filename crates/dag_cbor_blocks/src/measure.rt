//! The size of a block, measured without building its tree.

ghost use Rattle.std.specs.Prelude.{◌≡◌, ◌+◌, ◌-◌, max, length, IfOk, option_map};
ghost use Rattle.ipld_tree.specs.Limits.{Within};
ghost use Rattle.ipld_tree.specs.Tree.{Tree};
ghost use Rattle.dag_cbor_format.specs.Trace.{links_read};
ghost use Rattle.dag_cbor_format.specs.WithFloats.{EncodesTreeIn};
ghost use Rattle.dag_cbor_blocks.specs.Measuring.{measured, Counts, Measures};
ghost use Rattle.dag_cbor_blocks.specs.Within.{ReadsAs, UnlessOutOfMemory};

use crate::block_error::BlockError;
use crate::drive::visit_block;
use crate::options::ReadOptions;
use crate::visit::{Event, Visitor};
use std::alloc::{AllocError, Global};

/// The size of a block's tree, and the number of its links.
#[derive(Clone, Copy, Debug, PartialEq, Eq)]
pub struct BlockSize {
    /// The nesting depth of lists and maps: 0 for neither, 1 for a list or a map without lists and
    /// maps in it, and so on.
    pub levels: usize,
    /// The number of values in the tree: the tree itself, every item of a list, and every value of
    /// a map.
    pub values: usize,
    /// The number of links, including repeats.
    pub links: usize,
}

// The counts of a block so far.
#[derive(Drop)]
struct Measurer {
    // How many lists and maps are open.
    depth: usize,
    levels: usize,
    values: usize,
    links: usize,
}

impl Measurer {
    fn new() -> Self
        ensures { result ≡ record { depth = 0; levels = 0; values = 0; links = 0 } }
    {
        Measurer {
            depth: 0,
            levels: 0,
            values: 0,
            links: 0,
        }
    }

    // Counts a value, or the head of a list or a map.
    #[inline(always)]
    fn count_value(&mut self) -> Result<(), AllocError>
        ensures { Counts self.old.depth self.old.levels self.old.links self.old result self.new }
    {
        let Some(values) = self.values.checked_add(1) else {
            return Err(AllocError);
        };
        self.values = values;
        Ok(())
    }

    // Counts a value that is a link.
    #[inline(always)]
    fn count_link(&mut self) -> Result<(), AllocError>
        ensures { Counts self.old.depth self.old.levels (self.old.links + 1) self.old result
            self.new }
    {
        let Some(links) = self.links.checked_add(1) else {
            return Err(AllocError);
        };
        self.links = links;
        self.count_value()
    }

    // Counts a list or a map, which begins.
    #[inline(always)]
    fn begin(&mut self) -> Result<(), AllocError>
        ensures { Counts (self.old.depth + 1) (max self.old.levels (self.old.depth + 1))
            self.old.links self.old result self.new }
    {
        let Some(depth) = self.depth.checked_add(1) else {
            return Err(AllocError);
        };
        self.depth = depth;
        self.levels = self.levels.max(depth);
        self.count_value()
    }

    // Ends the innermost list or map.
    #[inline(always)]
    fn end(&mut self)
        ensures { self.new ≡ record self.old { depth = self.old.depth - 1 } }
    {
        self.depth = self.depth.saturating_sub(1);
    }
}

impl Visitor for Measurer {
    ghost use Rattle.dag_cbor_blocks.specs.declared.measure.BlockSize.{BlockSize};

    ghost Answer = { BlockSize };

    ghost answer = { measured };

    #[inline(always)]
    fn visit(&mut self, event: &Event<'_>, _left: usize) -> Result<(), AllocError> {
        match event {
            Event::Key(_) => Ok(()),
            Event::Link { .. } => self.count_link(),
            Event::List(_) => self.begin(),
            Event::Map => self.begin(),
            Event::EndOfList => {
                self.end();
                Ok(())
            }
            Event::EndOfMap => {
                self.end();
                Ok(())
            }
            _ => self.count_value(),
        }
    }
}

/// Returns the size of a block's tree and the number of its links. It does not build the tree. A
/// float is a value like null.
///
/// It allocates as [`check_block`](crate::check_block) does.
///
/// # Errors
///
/// Those of [`check_block`](crate::check_block): the same error for the same bytes, unless an
/// allocation fails.
#[inline(always)]
pub fn measure_block(
    alloc: Global,
    bytes: &[u8],
    options: &ReadOptions,
) -> Result<BlockSize, BlockError>
    ensures exact { ReadsAs options.now.floats options.now.limits bytes.now
        (option_map length (links_read options.now.floats bytes.now)) (λ size. size.links) result }
    ensures found { IfOk result (λ size. (t : Tree) × EncodesTreeIn options.now.floats t bytes.now
        × Measures t size) }
    ensures only { (t : Tree) → EncodesTreeIn options.now.floats t bytes.now
        → Within options.now.limits t → UnlessOutOfMemory result (Measures t) }
{
    let measurer = visit_block(alloc, bytes, options, Measurer::new(), Measurer::new())?;
    Ok(BlockSize {
        levels: measurer.levels,
        values: measurer.values,
        links: measurer.links,
    })
}
