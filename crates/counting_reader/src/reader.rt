//! The reader.

ghost use Rattle.std.specs.Prelude.{◌≡◌, ◌+◌, ◌*◌, ◌^◌, ◌<◌, ◌≤◌, ℕ, List, [], ◌∷◌, length, IsTrue};
ghost use Rattle.vp9_types.specs.Trees.{tree_symbol, tree_of, is_tree, greatest_leaf};
ghost use Rattle.bool_decoder.specs.Bools.{flag, literal};
ghost use Rattle.bool_decoder.specs.Held.{window_of};
ghost use Rattle.bool_decoder.specs.Window.{started};
ghost use Rattle.prob_contexts.specs.declared.kind.CountedBool.{CountedBool};
ghost use Rattle.prob_contexts.specs.Kinds.{kind_size};
ghost use Rattle.counting_reader.specs.Counting.{uncounted, count};
ghost use Rattle.counting_reader.specs.CountedSymbols.{counted_flag, counted_tree, unary_bools};
ghost use Rattle.counting_reader.specs.Code.{Reads, ReadsAway, Starts, standing_of, moved_to};

use crate::counting::count_unary;
use crate::tree::{Branch, branch_at};
use bool_decoder::BoolDecoder;
use prob_contexts::{Counts, ProbKind};
use vp9_types::Rule;

/// A decoder of bools, and the counts of those that are counted. It counts where `COUNTS` is true; else its counts stay
/// as they are, and counting costs nothing.
#[derive(Drop)]
pub struct CountingReader<'a, const COUNTS: bool> {
    decoder: BoolDecoder<'a>,
    counts: Counts,
}

impl<'a, const COUNTS: bool> CountingReader<'a, COUNTS> {
    /// The reader after the marker, with these counts so far. There are no bytes: `BoolEmpty`. The marker isn't 0:
    /// `BoolMarker`.
    pub fn start(bytes: &'a [u8], counts: Counts) -> Result<Self, Rule>
        ensures { Starts (started bytes.now) counts result }
    {
        let decoder = BoolDecoder::start(bytes)?;
        Ok(CountingReader { decoder, counts })
    }

    /// The counts, when all is read.
    pub fn into_counts(self) -> Counts
        ensures { result ≡ (standing_of self.entry).counts }
    {
        self.counts
    }

    /// A copy of the decoder, for a loop that reads many bools: behind the reference each of them would be stored.
    /// Meanwhile `counted_bit_of` counts here, and then reading goes on by `go_on`.
    #[inline(always)]
    pub fn decoder(&self) -> BoolDecoder<'a>
        ensures { window_of result ≡ (standing_of self.now).window }
    {
        self.decoder
    }

    /// Reading goes on where a decoder stands.
    #[inline(always)]
    pub fn go_on(&mut self, decoder: BoolDecoder<'a>)
        ensures { standing_of self.new ≡ moved_to (standing_of self.old) (window_of decoder.entry) }
    {
        self.decoder = decoder;
    }

    /// One bool, which isn't counted. It is 0 with a probability of `p` out of 256.
    #[inline(always)]
    #[tactic(auto, unfolding(bool_decoder::specs::Bools::flag), using(crate::proofs::CountingRuns::run_uncounted))]
    pub fn bit(&mut self, p: u8) -> bool
        ensures { Reads (uncounted (flag p)) self.old result self.new }
    {
        self.decoder.bit(p)
    }

    /// `n` bools at one half as a number, most significant first, which aren't counted.
    #[tactic(auto, using(crate::proofs::CountingRuns::run_uncounted))]
    pub fn literal(&mut self, n: u32) -> u32
        requires { n ≤ 32 }
        ensures read { Reads (uncounted (literal n)) self.old result self.new }
        ensures fits { result < 2 ^ n }
    {
        self.decoder.literal(n)
    }

    /// A tree-coded symbol that isn't counted. The tree and its probabilities are as `BoolDecoder::tree` takes them.
    #[tactic(auto, using(crate::proofs::CountingRuns::run_uncounted))]
    pub fn tree(&mut self, tree: &[i8], probs: &[u8]) -> u8
        requires stored { IsTrue (is_tree tree.now) }
        requires enough { length tree.now ≤ 2 * length probs.now }
        ensures read { Reads (uncounted (tree_symbol (tree_of tree.now) probs.now)) self.old result self.new }
        ensures leaf { result ≤ greatest_leaf tree.now }
    {
        self.decoder.tree(tree, probs)
    }

    /// One bool, which is counted at a place of a kind.
    #[inline(always)]
    #[tactic(auto, unfolding(crate::specs::CountedSymbols::counted_flag))]
    pub fn counted_bit(&mut self, kind: ProbKind, place: u16, p: u8) -> bool
        requires { place < kind_size kind }
        ensures { Reads (counted_flag kind place p) self.old result self.new }
    {
        let one = self.decoder.bit(p);
        self.count(kind, place, one);
        one
    }

    /// One bool of a copy of the decoder, which is counted here, at a place of a kind.
    #[inline(always)]
    pub fn counted_bit_of(
        &mut self,
        decoder: &mut BoolDecoder<'_>,
        kind: ProbKind,
        place: u16,
        p: u8,
    ) -> bool
        requires { place < kind_size kind }
        ensures { ReadsAway (counted_flag kind place p) self.old decoder.old result self.new decoder.new }
    {
        let one = decoder.bit(p);
        self.count(kind, place, one);
        one
    }

    /// The same, for a caller who goes one way for a 0 and another for a 1: it is read and counted on a path of its own
    /// for each.
    #[inline(always)]
    pub fn counted_branch_of(
        &mut self,
        decoder: &mut BoolDecoder<'_>,
        kind: ProbKind,
        place: u16,
        p: u8,
    ) -> bool
        requires { place < kind_size kind }
        ensures { ReadsAway (counted_flag kind place p) self.old decoder.old result self.new decoder.new }
    {
        if decoder.branch(p) {
            self.count(kind, place, true);
            return true;
        }
        self.count(kind, place, false);
        false
    }

    /// A tree-coded symbol whose bools are counted: its nodes have places of a kind, from the first on.
    pub fn counted_tree(&mut self, kind: ProbKind, first: u16, tree: &[i8], probs: &[u8]) -> u8
        requires stored { IsTrue (is_tree tree.now) }
        requires enough { length tree.now ≤ 2 * length probs.now }
        requires inside { 2 * first + length tree.now ≤ 2 * kind_size kind }
        ensures read { Reads (counted_tree kind first (tree_of tree.now) probs.now) self.old result self.new }
        ensures leaf { result ≤ greatest_leaf tree.now }
    {
        let mut decoder = self.decoder;
        let mut place: u8 = 0;
        loop {
            let node = place / 2;
            let p = probs[node as usize];
            let one = self.counted_bit_of(&mut decoder, kind, first + u16::from(node), p);
            match branch_at(tree, place as usize + usize::from(one)) {
                Branch::Leaf(leaf) => {
                    self.go_on(decoder);
                    return leaf;
                }
                Branch::Node(next) => place = next,
            }
        }
    }

    /// Counts a bool that was read otherwise, or not at all.
    #[inline(always)]
    #[tactic(auto, using(crate::proofs::Readers::counts_one_on, crate::proofs::Readers::counts_off))]
    pub fn count(&mut self, kind: ProbKind, place: u16, one: bool)
        requires { place < kind_size kind }
        ensures { Reads (count (record { kind = kind; place = place; one = one } ∷ [])) self.old tt self.new }
    {
        if COUNTS {
            self.counts.count(kind, place, one);
        }
    }

    /// Counts a symbol of a tree in which each 0 is a leaf, read or not. The nodes have places of a kind, from the first
    /// on.
    pub fn count_unary(&mut self, kind: ProbKind, first: u16, nodes: u16, symbol: u16)
        requires leaf { symbol ≤ nodes }
        requires few_nodes { nodes ≤ 3 }
        requires inside { first + nodes ≤ kind_size kind }
        ensures { Reads (count (unary_bools kind first nodes symbol)) self.old tt self.new }
    {
        if !COUNTS {
            return;
        }
        count_unary(&mut self.counts, kind, first, nodes, symbol);
    }
}
