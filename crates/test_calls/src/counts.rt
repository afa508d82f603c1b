//! The numbers of steps in walks of worked trees, computed from the definitions.

ghost use Rattle.std.specs.Prelude.{◌+◌, ℕ, pos, [], ◌∷◌};
ghost use Rattle.ipld_tree.specs.Tree.{null, integer, list, entries, no_items, item, no_members, member};
ghost use Rattle.test_calls.specs.Counts.{Counts, around};

/// States the numbers of values, lists and maps, slots and iterations in the walks of worked trees.
/// A call does nothing.
///
/// - Null and the empty list.
/// - A list of the empty list and the empty map.
/// - A map of one key to the list of 1 and null.
/// - A thousand nested lists, the innermost empty, and any other number of them.
pub fn worked_walks()
    ensures null { Counts null 1 0 1 3 }
    ensures empty_list { Counts (list no_items) 1 1 2 4 }
    ensures two_empty { Counts (list (item (list no_items) (item (entries no_members) no_items))) 3
        3 3 8 }
    ensures map_of_a_list { Counts (entries (member (97 ∷ [])
        (list (item (integer (pos 1)) (item null no_items))) no_members)) 4 2 3 8 }
    ensures thousand { Counts (around 999) 1000 1000 1001 2002 }
    ensures any { (n : ℕ) → Counts (around n) (n + 1) (n + 1) (n + 2) (n + n + 4) }
{}
