//! A count of iterations that takes no bytes and no time.

ghost use Rattle.std.specs.Prelude.{◌≡◌, ◌+◌};

use std::marker::Model;
use std::mem;
use std::snapshot::Snapshot;

#[derive(Drop)]
enum Count {
    None,
    After(Snapshot<Count>),
}

// The number of iterations so far. It has no bytes, and no greatest value.
#[derive(Drop)]
pub(crate) struct Iterations {
    seen: Snapshot<Count>,
}

impl Model for Iterations {
    ghost use Rattle.std.specs.Prelude.{ℕ};
    ghost use Rattle.ipld_tree.specs.Iterations.{count_of};

    ghost Value = { ℕ };

    ghost view = { λ t. count_of t.seen.value };
}

impl Iterations {
    pub(crate) fn new() -> Iterations
        ensures { result ≡ 0 }
    {
        Iterations {
            seen: Snapshot::of(&Count::None),
        }
    }

    pub(crate) fn tick(&mut self)
        ensures { self.new ≡ self.old + 1 }
    {
        let before = mem::replace(&mut self.seen, Snapshot::of(&Count::None));
        let after = Count::After(before);
        self.seen = Snapshot::of(&after);
    }
}

const _: () = prove!(size_of::<Iterations>() == 0);
