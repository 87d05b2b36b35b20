//! Laws of the definitions, as contracts of functions that do nothing.

ghost use Rattle.std.specs.Prelude.{◌≡◌, ℕ, List, Some, None};
ghost use Rattle.ivf_container.specs.Packets.{Packets};
ghost use Rattle.vp9_types.specs.declared.rule.Rule.{Rule};
ghost use Rattle.webm_container.specs.Laws.{Comes, Breaks};
ghost use Rattle.webm_container.specs.Walk.{at_start, webm_packets};
ghost use Rattle.webm_container.specs.declared.cursor.WebmCursor.{WebmCursor};
ghost use Rattle.webm_container.specs.Webm.{IsWebmFile};

/// A file that is spelled as one, and breaks no rule, has the packets that the walk finds, and no others. Where the walk
/// finds an end with no rule, the file is spelled so.
pub fn files_have_these_packets()
    ensures only { (bytes : List ℕ) (packets : Packets) → IsWebmFile bytes packets → packets ≡ webm_packets bytes }
    ensures found { (bytes : List ℕ) → (webm_packets bytes).ending ≡ None → IsWebmFile bytes (webm_packets bytes) }
{}

/// Where a rule ends the packets, the walk has come to a place where that rule has its cause.
pub fn rules_have_causes()
    ensures { (bytes : List ℕ) (rule : Rule) → (webm_packets bytes).ending ≡ Some rule →
        (n : ℕ) × (c : WebmCursor) × Comes n bytes at_start c × Breaks bytes c rule }
{}
