//! Laws of the definitions, as contracts of functions that do nothing.

ghost use Rattle.std.specs.Prelude.{◌≡◌, ℕ, ℤ, ◌≤◌, List, ◌++◌, Ok, Err, IsTrue};
ghost use Rattle.vp9_types.specs.Bits.{AreBits};
ghost use Rattle.vp9_types.specs.Entries.{Entry, IsReadAs, FailsAfter, joined};
ghost use Rattle.vp9_types.specs.Reading.{Field, read_bits};
ghost use Rattle.vp9_types.specs.Rules.{rule_number};
ghost use Rattle.vp9_types.specs.Syntax.{Syntax};
ghost use Rattle.vp9_types.specs.Trees.{Tree, IsTreeOf, tree_of, is_tree};
ghost use Rattle.vp9_types.specs.declared.rule.Rule.{Rule};

/// Each rule has a number from 1 to 29, and each such number but 24 has one rule.
pub fn rules_are_numbered()
    ensures in_range { (rule : Rule) → (1 ≤ rule_number rule) × (rule_number rule ≤ 29) }
    ensures each { (n : ℕ) → 1 ≤ n → n ≤ 23 → (rule : Rule) × (rule_number rule ≡ n) }
    ensures later { (n : ℕ) → 25 ≤ n → n ≤ 29 → (rule : Rule) × (rule_number rule ≡ n) }
    ensures free { (rule : Rule) → rule_number rule ≡ 24 → ⊥ }
    ensures once { (a b : Rule) → rule_number a ≡ rule_number b → a ≡ b }
{}

/// What a syntax of fields reads is a list of entries whose joined bits are a front of the bits, and no other list is.
/// Where there is none, the fault is that of the first test that fails, or that of a field past the end. `N` names the
/// fields, `E` is the type of faults, and `A` what the syntax settles on.
pub fn reading_is_its_entries<N, E, A>()
    // What is read is spelled so, each bit of it.
    ensures spelled { (past : E) (s : Syntax (Field N) E A) (bits : List ℕ) (x : A) (rest : List ℕ) → AreBits bits →
        read_bits past s bits ≡ Ok (x, rest) → (es : List (Entry N)) × IsReadAs s es x × (bits ≡ joined es ++ rest) }
    // What is spelled so is read.
    ensures read { (past : E) (s : Syntax (Field N) E A) (es : List (Entry N)) (x : A) (rest : List ℕ) →
        IsReadAs s es x → read_bits past s (joined es ++ rest) ≡ Ok (x, rest) }
    // No other entries are.
    ensures once { (past : E) (s : Syntax (Field N) E A) (es fs : List (Entry N)) (x y : A) (rest last : List ℕ) →
        IsReadAs s es x → IsReadAs s fs y → joined es ++ rest ≡ joined fs ++ last → es ≡ fs }
    // Which fault it is.
    ensures fault { (past : E) (s : Syntax (Field N) E A) (bits : List ℕ) (fault : E) → AreBits bits →
        read_bits past s bits ≡ Err fault →
        (es : List (Entry N)) × (rest : List ℕ) × FailsAfter past s es rest fault × (bits ≡ joined es ++ rest) }
    // A fault after these entries is met.
    ensures met { (past : E) (s : Syntax (Field N) E A) (es : List (Entry N)) (rest : List ℕ) (fault : E) →
        FailsAfter past s es rest fault → read_bits past s (joined es ++ rest) ≡ Err fault }
{}

/// The tree of an array that passes the test is the one that it stands for, and no other tree is.
pub fn trees_are_stored()
    ensures stored { (array : List ℤ) → IsTrue (is_tree array) → IsTreeOf array (tree_of array) }
    ensures once { (array : List ℤ) (s t : Tree) → IsTreeOf array s → IsTreeOf array t → s ≡ t }
{}
