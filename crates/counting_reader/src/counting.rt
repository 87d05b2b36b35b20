//! The counting of symbols.

ghost use Rattle.std.specs.Prelude.{◌≡◌, ◌+◌, ◌*◌, ◌^◌, ◌<◌, ◌≤◌, ℕ};
ghost use Rattle.prob_contexts.specs.Code.{counts_after};
ghost use Rattle.prob_contexts.specs.Kinds.{kind_size};
ghost use Rattle.counting_reader.specs.CountedSymbols.{unary_bools};

use prob_contexts::{Counts, ProbKind};

/// Counts a symbol of a tree in which each 0 is a leaf: it is the number of the ones that lead to it. The nodes have
/// places of a kind, from the first on.
pub fn count_unary(counts: &mut Counts, kind: ProbKind, first: u16, nodes: u16, symbol: u16)
    requires leaf { symbol ≤ nodes }
    requires few_nodes { nodes ≤ 3 }
    requires inside { first + nodes ≤ kind_size kind }
    ensures { counts.new ≡ counts_after counts.old (unary_bools kind first nodes symbol) }
{
    for k in 0..symbol {
        counts.count(kind, first + k, true);
    }
    if symbol < nodes {
        counts.count(kind, first + symbol, false);
    }
}
