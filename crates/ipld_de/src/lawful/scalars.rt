//! Numbers, bools, strings, bytes, CIDs and trees round-trip as they are.

ghost use Rattle.std.specs.Prelude.{⊤, string_bytes};
ghost use Rattle.ipld_cid.specs.LinkOf.{link_of};
ghost use Rattle.ipld_de.specs.Lemmas.LawOf.{unsigned_round_trip, signed_round_trip, whole_round_trip, not_negative_round_trip, char_round_trip, boolean_round_trip, text_round_trip, bytes_round_trip, link_round_trip, tree_round_trip, never_round_trip};
ghost use Rattle.ipld_tree.specs.TreeOf.{tree_of};

use crate::lawful::Lawful;
use ipld_cid::Cid;
use ipld_ser::ByteBuf;
use ipld_tree::Ipld;

impl Lawful for bool {
    ghost plain = { λ _. ⊤ };

    ghost round_trip = { boolean_round_trip };
}

impl Lawful for i8 {
    ghost plain = { λ _. ⊤ };

    ghost round_trip = { signed_round_trip 8 };
}

impl Lawful for i16 {
    ghost plain = { λ _. ⊤ };

    ghost round_trip = { signed_round_trip 16 };
}

impl Lawful for i32 {
    ghost plain = { λ _. ⊤ };

    ghost round_trip = { signed_round_trip 32 };
}

impl Lawful for i64 {
    ghost plain = { λ _. ⊤ };

    ghost round_trip = { signed_round_trip 64 };
}

impl Lawful for i128 {
    ghost plain = { λ _. ⊤ };

    ghost round_trip = { whole_round_trip 128 };
}

impl Lawful for isize {
    ghost plain = { λ _. ⊤ };

    ghost round_trip = { signed_round_trip 64 };
}

impl Lawful for u8 {
    ghost plain = { λ _. ⊤ };

    ghost round_trip = { unsigned_round_trip 8 };
}

impl Lawful for u16 {
    ghost plain = { λ _. ⊤ };

    ghost round_trip = { unsigned_round_trip 16 };
}

impl Lawful for u32 {
    ghost plain = { λ _. ⊤ };

    ghost round_trip = { unsigned_round_trip 32 };
}

impl Lawful for u64 {
    ghost plain = { λ _. ⊤ };

    ghost round_trip = { unsigned_round_trip 64 };
}

impl Lawful for usize {
    ghost plain = { λ _. ⊤ };

    ghost round_trip = { unsigned_round_trip 64 };
}

/// A number above [`i128::MAX`] does not have an image, so the law claims nothing about it.
impl Lawful for u128 {
    ghost plain = { λ _. ⊤ };

    ghost round_trip = { not_negative_round_trip 127 };
}

impl Lawful for char {
    ghost plain = { λ _. ⊤ };

    ghost round_trip = { char_round_trip };
}

impl Lawful for String {
    ghost plain = { λ _. ⊤ };

    ghost round_trip = { text_round_trip string_bytes };
}

impl Lawful for ByteBuf {
    ghost plain = { λ _. ⊤ };

    ghost round_trip = { bytes_round_trip (λ b. b) };
}

impl Lawful for Cid {
    ghost plain = { λ _. ⊤ };

    ghost round_trip = { link_round_trip link_of };
}

/// A tree round-trips as it is. Every tree is plain, since it is not a `Some`.
impl Lawful for Ipld {
    ghost plain = { λ _. ⊤ };

    ghost round_trip = { tree_round_trip tree_of };
}

/// `()` does not have an image, so the law claims nothing.
impl Lawful for () {
    ghost plain = { λ _. ⊤ };

    ghost round_trip = { never_round_trip };
}
