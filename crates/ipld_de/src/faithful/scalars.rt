//! Numbers, bools, strings, bytes, CIDs and trees are faithful.

ghost use Rattle.std.specs.Prelude.{string_bytes};
ghost use Rattle.ipld_cid.specs.LinkOf.{link_of};
ghost use Rattle.ipld_de.specs.Lemmas.FaithfulOf.{unsigned_faithful, signed_faithful, boolean_faithful, bytes_faithful, link_faithful, tree_faithful, only_faithful};
ghost use Rattle.ipld_tree.specs.TreeOf.{tree_of};

use crate::faithful::Faithful;
use ipld_cid::Cid;
use ipld_ser::ByteBuf;
use ipld_tree::Ipld;

impl Faithful for bool {
    ghost equal_by_contents = { boolean_faithful };
}

impl Faithful for i8 {
    ghost equal_by_contents = { signed_faithful };
}

impl Faithful for i16 {
    ghost equal_by_contents = { signed_faithful };
}

impl Faithful for i32 {
    ghost equal_by_contents = { signed_faithful };
}

impl Faithful for i64 {
    ghost equal_by_contents = { signed_faithful };
}

impl Faithful for i128 {
    ghost equal_by_contents = { signed_faithful };
}

impl Faithful for isize {
    ghost equal_by_contents = { signed_faithful };
}

impl Faithful for u8 {
    ghost equal_by_contents = { unsigned_faithful };
}

impl Faithful for u16 {
    ghost equal_by_contents = { unsigned_faithful };
}

impl Faithful for u32 {
    ghost equal_by_contents = { unsigned_faithful };
}

impl Faithful for u64 {
    ghost equal_by_contents = { unsigned_faithful };
}

impl Faithful for u128 {
    ghost equal_by_contents = { unsigned_faithful };
}

impl Faithful for usize {
    ghost equal_by_contents = { unsigned_faithful };
}

impl Faithful for char {
    ghost equal_by_contents = { unsigned_faithful };
}

impl Faithful for String {
    ghost equal_by_contents = { bytes_faithful string_bytes };
}

impl Faithful for ByteBuf {
    ghost equal_by_contents = { bytes_faithful (λ b. b) };
}

impl Faithful for Cid {
    ghost equal_by_contents = { link_faithful link_of };
}

impl Faithful for Ipld {
    ghost equal_by_contents = { tree_faithful tree_of };
}

impl Faithful for () {
    ghost equal_by_contents = { only_faithful };
}
