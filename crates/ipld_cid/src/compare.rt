//! Equality, order and hashing.

ghost use Rattle.std.specs.Prelude.{◌≡◌};

use crate::cid::{CidGeneric, Version};
use crate::multihash::Multihash;
use std::cmp::Ordering;
use std::hash::{Hash, Hasher};

impl<const S: usize> PartialEq for Multihash<S> {
    ghost use Rattle.std.specs.Cmp.{partial_equiv_from_equiv};
    ghost use Rattle.ipld_cid.specs.Order.{hash_eq};
    ghost use Rattle.ipld_cid.specs.Lemmas.OrderLaws.{hash_equiv};

    ghost eq = { λ a b. hash_eq a b };

    ghost laws = { partial_equiv_from_equiv hash_equiv };

    fn eq(&self, other: &Self) -> bool {
        self.code() == other.code() && self.digest() == other.digest()
    }
}

impl<const S: usize> Eq for Multihash<S> {
    ghost use Rattle.ipld_cid.specs.Lemmas.OrderLaws.{hash_equiv};

    ghost laws = { hash_equiv };
}

impl<const S: usize> PartialOrd for Multihash<S> {
    ghost use Rattle.std.specs.Ordering.{as_partial_cmp};
    ghost use Rattle.ipld_cid.specs.Order.{hash_cmp};
    ghost use Rattle.ipld_cid.specs.Lemmas.OrderLaws.{hash_order};

    ghost partial_cmp = { as_partial_cmp hash_cmp };

    ghost laws = { hash_order };

    fn partial_cmp(&self, other: &Self) -> Option<Ordering> {
        Some(self.cmp(other))
    }
}

impl<const S: usize> Ord for Multihash<S> {
    ghost use Rattle.std.specs.Prelude.{refl};
    ghost use Rattle.ipld_cid.specs.Order.{hash_cmp};
    ghost use Rattle.ipld_cid.specs.Lemmas.OrderLaws.{hash_total, hash_ties};

    ghost cmp = { hash_cmp };

    ghost total = { hash_total };

    ghost matches_partial_cmp = { λ a b. refl };

    ghost matches_eq = { hash_ties };

    fn cmp(&self, other: &Self) -> Ordering {
        let codes = self.code().cmp(&other.code());
        match codes.then(self.size().cmp(&other.size())) {
            Ordering::Equal => self.digest().cmp(other.digest()),
            order => order,
        }
    }
}

impl<const S: usize> Hash for Multihash<S> {
    ghost use Rattle.std.proofs.Common.{ap};
    ghost use Rattle.ipld_cid.specs.Order.{hash_fed};
    ghost use Rattle.ipld_cid.specs.Lemmas.OrderLaws.{hash_decides};

    ghost hash_input = { λ h. hash_fed h };

    ghost respects_eq = { λ x y same. ap hash_fed ((hash_decides x y).0 same) };

    fn hash<H: Hasher>(&self, state: &mut H) {
        self.code().hash(state);
        self.digest().hash(state);
    }
}

impl<const S: usize> PartialEq for CidGeneric<S> {
    ghost use Rattle.std.specs.Cmp.{partial_equiv_from_equiv, on_equiv};
    ghost use Rattle.std.specs.Ordering.{on};
    ghost use Rattle.ipld_cid.specs.LinkOf.{link_of};
    ghost use Rattle.ipld_cid.specs.Order.{link_eq};
    ghost use Rattle.ipld_cid.specs.Lemmas.OrderLaws.{link_equiv};

    ghost eq = { on link_of link_eq };

    ghost laws = { partial_equiv_from_equiv (on_equiv link_of link_equiv) };

    fn eq(&self, other: &Self) -> bool {
        self.version() == other.version()
            && self.codec() == other.codec()
            && self.hash() == other.hash()
    }
}

impl<const S: usize> Eq for CidGeneric<S> {
    ghost use Rattle.std.specs.Cmp.{on_equiv};
    ghost use Rattle.ipld_cid.specs.LinkOf.{link_of};
    ghost use Rattle.ipld_cid.specs.Lemmas.OrderLaws.{link_equiv};

    ghost laws = { on_equiv link_of link_equiv };
}

impl<const S: usize> PartialOrd for CidGeneric<S> {
    ghost use Rattle.std.specs.Prelude.{refl};
    ghost use Rattle.std.specs.Cmp.{on_total, partial_order_from_agreeing_total};
    ghost use Rattle.std.specs.Ordering.{as_partial_cmp, on};
    ghost use Rattle.ipld_cid.specs.LinkOf.{link_of};
    ghost use Rattle.ipld_cid.specs.Order.{link_cmp};
    ghost use Rattle.ipld_cid.specs.Lemmas.OrderLaws.{link_total, link_ties};

    ghost partial_cmp = { as_partial_cmp (on link_of link_cmp) };

    ghost laws = { partial_order_from_agreeing_total (on link_of link_cmp) (on_total link_of link_total) (λ a b. refl) (λ a b. link_ties (link_of a) (link_of b)) };

    fn partial_cmp(&self, other: &Self) -> Option<Ordering> {
        Some(self.cmp(other))
    }
}

impl<const S: usize> Ord for CidGeneric<S> {
    ghost use Rattle.std.specs.Prelude.{refl};
    ghost use Rattle.std.specs.Cmp.{on_total};
    ghost use Rattle.std.specs.Ordering.{on};
    ghost use Rattle.ipld_cid.specs.LinkOf.{link_of};
    ghost use Rattle.ipld_cid.specs.Order.{link_cmp};
    ghost use Rattle.ipld_cid.specs.Lemmas.OrderLaws.{link_total, link_ties};

    ghost cmp = { on link_of link_cmp };

    ghost total = { on_total link_of link_total };

    ghost matches_partial_cmp = { λ a b. refl };

    ghost matches_eq = { λ a b. link_ties (link_of a) (link_of b) };

    fn cmp(&self, other: &Self) -> Ordering {
        let versions = self.version().cmp(&other.version());
        match versions.then(self.codec().cmp(&other.codec())) {
            Ordering::Equal => self.hash().cmp(other.hash()),
            order => order,
        }
    }
}

impl<const S: usize> Hash for CidGeneric<S> {
    ghost use Rattle.std.proofs.Common.{ap};
    ghost use Rattle.ipld_cid.specs.LinkOf.{link_of};
    ghost use Rattle.ipld_cid.specs.Order.{link_fed};
    ghost use Rattle.ipld_cid.specs.Lemmas.OrderLaws.{link_decides};

    ghost hash_input = { λ c. link_fed (link_of c) };

    ghost respects_eq = { λ x y same. ap link_fed ((link_decides (link_of x) (link_of y)).0 same) };

    fn hash<H: Hasher>(&self, state: &mut H) {
        state.write_u8(match self.version() {
            Version::V0 => 0,
            Version::V1 => 1,
        });
        self.codec().hash(state);
        CidGeneric::hash(self).hash(state);
    }
}
