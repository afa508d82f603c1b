//! The laws of every tree, stated as contracts of functions that do nothing.

ghost use Rattle.std.specs.Prelude.{◌≡◌, ℕ, List, Some};
ghost use Rattle.std.specs.Str.{IsUtf8};
ghost use Rattle.ipld_tree.specs.IsTree.{IsTree};
ghost use Rattle.ipld_tree.specs.Tree.{Tree};
ghost use Rattle.ipld_tree.specs.IsWhole.{IsWhole};
ghost use Rattle.dag_json.specs.Form.{text_of};
ghost use Rattle.dag_json.specs.Read.{IsJsonOf};
ghost use Rattle.dag_json.specs.Encodes.{EncodesTree};
ghost use Rattle.dag_json.specs.Written.{written};

/// States that the text of a tree is JSON. It does nothing.
///
/// By the grammar of RFC 8259, the text has the tokens of the JSON that represents the tree. If
/// that JSON nests at most 128 levels deep, the text is read as that JSON. The toolchain's `json`
/// reads no deeper.
pub fn text_law()
    ensures { (t : Tree) → IsWhole t → IsJsonOf t (text_of t) }
{}

/// States that a text encodes at most one tree, and that the text that is written of a tree encodes
/// it. It does nothing.
pub fn read_law()
    ensures once { (t u : Tree) (s : List ℕ) → EncodesTree t s → EncodesTree u s → t ≡ u }
    ensures round_trip { (t : Tree) (s : List ℕ) → IsTree t → IsWhole t → IsUtf8 s
        → written t ≡ Some s → EncodesTree t s }
{}
