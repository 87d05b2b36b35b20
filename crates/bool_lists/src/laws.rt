//! Laws of the definitions, as contracts of functions that do nothing.

ghost use Rattle.std.specs.Prelude.{◌≡◌, ◌<◌, ◌≤◌, ◌^◌, ℕ, Bool, List, IsTrue, length};
ghost use Rattle.vp9_types.specs.Trees.{Tree, tree_symbol};
ghost use Rattle.bool_decoder.specs.Bools.{flag, literal, difference};
ghost use Rattle.bool_encoder.specs.Part.{NumberPart, Finishes, behind_marker};
ghost use Rattle.bool_encoder.specs.WrittenBools.{Puts};
ghost use Rattle.bool_lists.specs.BoolLists.{BoolList, HasPut, bytes_taken, difference_bools, is_distinct, number_bools, one_bool, tree_bools};

/// Whatever bools lead the syntax of a symbol to a value, they are those of its list: there is one way to put it. So is a leaf
/// of a tree that has each leaf once. The bytes of a list are as many as it takes.
pub fn symbols_are_put_in_one_way()
    ensures flag { (p : ℕ) (b : Bool) (old new : NumberPart) → Puts (flag p) old b new → HasPut old (one_bool p b) new }
    ensures literal { (n x : ℕ) (old new : NumberPart) → Puts (literal n) old x new → HasPut old (number_bools n x) new }
    ensures difference { (d : ℕ) (old new : NumberPart) → Puts difference old d new → HasPut old (difference_bools d) new }
    ensures tree { (tree : Tree) (probs : List ℕ) (x : ℕ) (old new : NumberPart) → IsTrue (is_distinct tree) → Puts (tree_symbol tree probs) old x new →
        HasPut old (tree_bools tree probs x) new }
    ensures bytes { (bools : BoolList) (part : NumberPart) (bytes : List ℕ) → HasPut behind_marker bools part → Finishes part bytes → length bytes ≡ bytes_taken bools }
{}
