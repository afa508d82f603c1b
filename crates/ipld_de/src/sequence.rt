//! Reading a list element by element.

ghost use Rattle.std.specs.Prelude.{◌≡◌, Some, option_map, IfOk, IfErr};
ghost use Rattle.ipld_de.specs.Cursors.{ended, left, read_next, NextError, after_item};
ghost use Rattle.ipld_de.specs.Forms.{count_items};
ghost use Rattle.ipld_ser.specs.Image.{RejectsAs};
ghost use Rattle.ipld_tree.specs.TreeOf.{items_of};

use crate::deserialize::Deserialize;
use ipld_ser::SerdeError;
use ipld_tree::Ipld;
use std::alloc::Global;
use std::vec;

/// A reader of the items of a List in order, from
/// [`Deserializer::deserialize_seq`](crate::Deserializer::deserialize_seq). Its drop is a loop,
/// however deeply the items nest.
pub struct SeqDeserializer {
    items: vec::IntoIter<Ipld>,
}

impl SeqDeserializer {
    #[inline(always)]
    pub(crate) fn new(items: Vec<Ipld>) -> SeqDeserializer
        ensures { left result ≡ items_of items.items }
    {
        SeqDeserializer {
            items: items.into_iter(),
        }
    }

    /// Reads the next item as a `T`. Returns `None` at the end. The item is consumed, even if it is
    /// rejected.
    ///
    /// # Errors
    ///
    /// The error of `T`, or [`SerdeError::Memory`] if an allocation fails.
    #[inline(always)]
    pub fn next_element<T: Deserialize>(&mut self, alloc: Global) -> Result<Option<T>, SerdeError>
        ensures ok { IfOk result (λ o. read_next T.reads (left self.old) ≡ Some
            (option_map T.contents o)) }
        ensures err { IfErr result (λ e. RejectsAs (read_next T.reads (left self.old))
            (NextError T.read_error (left self.old)) e) }
        ensures gone { left self.new ≡ after_item (left self.old) }
    {
        match self.items.next() {
            None => Ok(None),
            Some(item) => Ok(Some(T::deserialize(alloc, item)?)),
        }
    }

    /// Returns the number of items that were not taken yet.
    #[inline(always)]
    pub fn remaining(&self) -> usize
        ensures { result ≡ count_items (left self.now) }
    {
        self.items.len()
    }

    /// Returns the number of items that were not taken yet, which is always known.
    #[inline(always)]
    pub fn size_hint(&self) -> Option<usize>
        ensures { result ≡ Some (count_items (left self.now)) }
    {
        Some(self.remaining())
    }

    /// Ends the reading. Does not allocate.
    ///
    /// # Errors
    ///
    /// [`SerdeError::Leftover`] with the number of items that are left, if and only if there are
    /// any.
    #[inline(always)]
    pub fn end(self) -> Result<(), SerdeError>
        ensures { result ≡ ended (count_items (left self)) }
    {
        check_end(self.remaining())
    }
}

impl Drop for SeqDeserializer {
    #[inline(always)]
    fn drop(self) {
        let SeqDeserializer { items } = self;
        for item in items {
            item.discard();
        }
    }
}

// Checks that nothing is left.
#[inline(always)]
pub(crate) fn check_end(remaining: usize) -> Result<(), SerdeError>
    ensures { result ≡ ended remaining }
{
    if remaining == 0 {
        Ok(())
    } else {
        Err(SerdeError::Leftover(remaining))
    }
}
