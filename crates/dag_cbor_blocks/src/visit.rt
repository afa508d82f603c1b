//! Visitors, which take the parts of a block while it is read.
//!
//! A [`Visitor`] takes the parts one after another, in the order of the bytes, and makes a result
//! of its own, such as a tree or a list of links.

ghost use Rattle.std.specs.Prelude.{Bool, List};
ghost use Rattle.dag_cbor_format.specs.Trace.{Event as Traced};
ghost use Rattle.dag_cbor_blocks.specs.Visit.{events_of, IsRead, Takes};

use ipld_cid::Cid;
use std::alloc::AllocError;

/// A part of a block, in the terms of its tokens: a scalar, a link, the key of a map, or the
/// beginning or the end of a list or a map. Strings and bytes are those of the block.
#[derive(Clone, Copy)]
pub enum Event<'a> {
    /// Null. If floats are read, also every float.
    Null,
    /// False or true.
    Bool(bool),
    /// An integer, from -2^64 to 2^64 - 1.
    Integer(i128),
    /// A text string that is not a key.
    Str(&'a str),
    /// A byte string.
    Bytes(&'a [u8]),
    /// A link.
    Link {
        /// Its CID.
        cid: Cid,
        /// The bytes of its CID.
        encoded: &'a [u8],
        /// The number of the block's bytes that follow the CID.
        left: usize,
    },
    /// The beginning of a list, with a hint of its length that the rest of the block can hold.
    List(Option<usize>),
    /// The end of the innermost list.
    EndOfList,
    /// The beginning of a map.
    Map,
    /// A key of the innermost map. Its value comes next.
    Key(&'a str),
    /// The end of the innermost map.
    EndOfMap,
}

/// A visitor that takes the parts of a block one after another, and keeps nothing of the block's
/// bytes.
pub trait Visitor: Drop {
    // The result of the visitor in the end.
    ghost Answer: { Type 0 };

    // The result of the visitor if it takes only these events.
    ghost answer: { Self → List Traced → Answer };

    /// Takes the next part, after which `left` bytes of the block follow. For a link, they follow
    /// its tag.
    ///
    /// # Errors
    ///
    /// `AllocError` if an allocation fails. The result of the visitor is then unspecified.
    fn visit(&mut self, event: &Event<'_>, left: usize) -> Result<(), AllocError>
        requires { IsRead event.now }
        ensures { (key : Bool) → Takes answer self.old (events_of event.now left key) result
            self.new };
}

/// A visitor that takes the parts of a block one after another, and may keep strings and bytes of
/// the block.
///
/// Every [`Visitor`] is also a `BorrowingVisitor`. The loop of [`block`](crate::block) drives a
/// `BorrowingVisitor`. The recursion for blocks that nest little drives a [`Visitor`].
pub trait BorrowingVisitor<'a>: Drop {
    // The result of the visitor in the end.
    ghost Answer: { Type 0 };

    // The result of the visitor if it takes only these events.
    ghost answer: { Self → List Traced → Answer };

    /// Takes the next part, as [`Visitor::visit`] does.
    ///
    /// # Errors
    ///
    /// Those of [`Visitor::visit`].
    fn visit(&mut self, event: &Event<'a>, left: usize) -> Result<(), AllocError>
        requires { IsRead event.now }
        ensures { (key : Bool) → Takes answer self.old (events_of event.now left key) result
            self.new };
}

impl<'a, V: Visitor> BorrowingVisitor<'a> for V {
    ghost Answer = { V.Answer };

    ghost answer = { V.answer };

    #[inline(always)]
    fn visit(&mut self, event: &Event<'a>, left: usize) -> Result<(), AllocError> {
        Visitor::visit(self, event, left)
    }
}
