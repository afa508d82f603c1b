//! Lists and maps that are written from their ends.

ghost use Rattle.std.specs.Prelude.{◌≡◌, [], ◌∷◌, ◌++◌, option_map, string_bytes, MatchOption};
ghost use Rattle.dag_json.specs.TapeOpen.{left_of, kind_of};

use ipld_tree::Ipld;
use std::collections::BTreeMap;

// The rest of a list or a map.
#[derive(Drop)]
pub(crate) enum Rest {
    Items(Vec<Ipld>),
    Members(BTreeMap<String, Ipld>),
}

impl Rest {
    // Removes the last value, and returns it with its key.
    pub(crate) fn take_last(&mut self) -> Option<(Option<String>, Ipld)>
        ensures same { kind_of self.new ≡ kind_of self.old }
        ensures taken { MatchOption result ((left_of self.old ≡ []) × (left_of self.new ≡ [])) (λ p.
            left_of self.old ≡ left_of self.new ++ (option_map string_bytes p.0, p.1) ∷ []) }
    {
        match self {
            Rest::Items(items) => match items.pop() {
                Some(value) => Some((None, value)),
                None => None,
            },
            Rest::Members(members) => match members.pop_last() {
                Some((key, value)) => Some((Some(key), value)),
                None => None,
            },
        }
    }

    // Drops the rest with a loop, however deep it nests.
    pub(crate) fn discard(self) {
        match self {
            Rest::Items(items) => Ipld::List(items).discard(),
            Rest::Members(members) => Ipld::Map(members).discard(),
        }
    }
}

// A list or a map whose last values are written.
#[derive(Drop)]
pub(crate) struct OpenContainer {
    // Its key, if it is a value of a map.
    pub(crate) key: Option<String>,
    pub(crate) rest: Rest,
    // The number of its items or pairs.
    pub(crate) count: usize,
    // The number of entries after it.
    pub(crate) behind: usize,
}
