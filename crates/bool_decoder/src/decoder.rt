//! The decoder.

ghost use Rattle.std.specs.Prelude.{◌≡◌, ℕ, ◌+◌, ◌-◌, ◌*◌, ◌/◌, ◌%◌, ◌^◌, ◌<◌, ◌≤◌, length};

use crate::refill::filled;
use crate::split::{doublings, split_of};
use crate::tree::{Branch, branch_at};
use vp9_types::Rule;

/// The probability that stands for one half.
const HALF: u8 = 128;
/// The range before the first bool.
const FULL_RANGE: u32 = 255;
/// With fewer bits than these, a bool might leave fewer than eight.
const ENOUGH: u32 = 15;

/// An arithmetic decoder of bools. Bits past the end of its bytes are 0.
#[derive(Clone, Copy, Debug)]
pub struct BoolDecoder<'a> {
    // Its highest `count` bits are those taken from the bytes and not used up, less the coder's low; the others are 0.
    window: u64,
    count: u32,
    range: u32,
    rest: &'a [u8],
    ghost counted: { (8 ≤ count) × (count ≤ 64) },
    ghost doubled: { (128 ≤ range) × (range ≤ 255) },
    ghost below: { window < range * 2 ^ 56 },
    ghost clean: { window % 2 ^ (64 - count) ≡ 0 },
}

impl<'a> BoolDecoder<'a> {
    ghost use Rattle.std.specs.Prelude.{IsTrue, nat_eq, drop};
    ghost use Rattle.vp9_types.specs.Bits.{bits_of};
    ghost use Rattle.vp9_types.specs.Trees.{tree_symbol, tree_of, is_tree, greatest_leaf};
    ghost use Rattle.bool_decoder.specs.Ahead.{bits_ahead, HoldsBits};
    ghost use Rattle.bool_decoder.specs.Bools.{Reads, literal, difference};
    ghost use Rattle.bool_decoder.specs.Coder.{Coder, doublings};
    ghost use Rattle.bool_decoder.specs.Held.{window_of, Starts};
    ghost use Rattle.bool_decoder.specs.Window.{Stands, started, bit_of, after_bit, doubled_window, trimmed};

    /// The decoder after the marker. There are no bytes: `BoolEmpty`. The marker isn't 0: `BoolMarker`.
    pub fn start(bytes: &'a [u8]) -> Result<Self, Rule>
        ensures { Starts (started bytes.now) result }
    {
        if bytes.is_empty() {
            return Err(Rule::BoolEmpty);
        }
        let (window, count, rest) = filled(0, 0, bytes);
        let split = split_of(FULL_RANGE, HALF);
        if u64::from(split) << 56 <= window {
            return Err(Rule::BoolMarker);
        }
        Ok(Self::doubled(window, count, split, rest))
    }

    /// The decoder whose range has doubled to 128 and more. The window's count is 15 at least.
    #[inline(always)]
    fn doubled(window: u64, count: u32, range: u32, rest: &'a [u8]) -> Self
        requires enough { 15 ≤ count }
        requires fits { count ≤ 64 }
        requires some { 1 ≤ range }
        requires narrow { range ≤ 255 }
        requires below { window < range * 2 ^ 56 }
        requires clean { window % 2 ^ (64 - count) ≡ 0 }
        ensures { window_of result ≡ doubled_window (window / 2 ^ 56) range (drop 8 (trimmed (bits_ahead window count rest.now)))
            ((64 - count) % 8) (doublings range) }
    {
        let shift = doublings(range);
        BoolDecoder {
            window: window << shift,
            count: count - shift,
            range: range << shift,
            rest,
        }
    }

    /// The same decoder with bits enough for a bool.
    #[inline(always)]
    fn supplied(self) -> Self
        ensures enough { 15 ≤ result.count }
        ensures same { window_of result ≡ window_of self.entry }
    {
        if self.count < ENOUGH {
            return self.refilled();
        }
        self
    }

    /// The same decoder with six bytes more in its window. It is called once for 48 bits.
    #[cold]
    #[inline(never)]
    fn refilled(self) -> Self
        requires { self.count < 15 }
        ensures enough { 15 ≤ result.count }
        ensures same { window_of result ≡ window_of self.entry }
    {
        let (window, count, rest) = filled(self.window, self.count, self.rest);
        BoolDecoder {
            window,
            count,
            range: self.range,
            rest,
        }
    }

    /// One bool. It is 0 with a probability of `p` out of 256.
    #[inline(always)]
    pub fn bit(&mut self, p: u8) -> bool
        ensures value { result ≡ nat_eq (bit_of p (window_of self.old)) 1 }
        ensures moves { window_of self.new ≡ after_bit p (window_of self.old) }
    {
        let ready = self.supplied();
        let split = split_of(ready.range, p);
        let border = u64::from(split) << 56;
        let one = border <= ready.window;
        let (window, range) = if one {
            (ready.window - border, ready.range - split)
        } else {
            (ready.window, split)
        };
        *self = Self::doubled(window, ready.count, range, ready.rest);
        one
    }

    /// One bool, read on a path of its own for each of its values: it costs less than `bit` where the caller goes one way
    /// for a 0 and another for a 1.
    #[inline(always)]
    pub fn branch(&mut self, p: u8) -> bool
        ensures value { result ≡ nat_eq (bit_of p (window_of self.old)) 1 }
        ensures moves { window_of self.new ≡ after_bit p (window_of self.old) }
    {
        let ready = self.supplied();
        let split = split_of(ready.range, p);
        let border = u64::from(split) << 56;
        if border <= ready.window {
            let (window, range) = (ready.window - border, ready.range - split);
            *self = Self::doubled(window, ready.count, range, ready.rest);
            return true;
        }
        *self = Self::doubled(ready.window, ready.count, split, ready.rest);
        false
    }

    /// `n` bools at one half as a number, most significant first.
    pub fn literal(&mut self, n: u32) -> u32
        requires { n ≤ 32 }
        ensures read { Reads (literal n) (window_of self.old) result (window_of self.new) }
        ensures fits { result < 2 ^ n }
    {
        // A copy, since behind the reference each bool would be stored.
        let mut decoder = *self;
        let mut value = 0;
        for _ in 0..n {
            value = 2 * value + u32::from(decoder.bit(HALF));
        }
        *self = decoder;
        value
    }

    /// A tree-coded symbol. Entries 2k and 2k + 1 of the tree are the branches of its inner node k for a 0 and for a
    /// 1, and `probs[k]` is that node's probability. A positive entry is the place of an inner node's two branches, and
    /// another one is minus a leaf.
    pub fn tree(&mut self, tree: &[i8], probs: &[u8]) -> u8
        requires stored { IsTrue (is_tree tree.now) }
        requires enough { length tree.now ≤ 2 * length probs.now }
        ensures read { Reads (tree_symbol (tree_of tree.now) probs.now) (window_of self.old) result (window_of self.new) }
        ensures leaf { result ≤ greatest_leaf tree.now }
    {
        let mut decoder = *self;
        let mut branch = branch_at(tree, usize::from(decoder.bit(probs[0])));
        loop {
            match branch {
                Branch::Leaf(leaf) => {
                    *self = decoder;
                    return leaf;
                }
                Branch::Node(place) => {
                    let one = decoder.bit(probs[place / 2]);
                    branch = branch_at(tree, place + usize::from(one));
                }
            }
        }
    }

    /// The coded difference of a probability, 0 to 254.
    #[tactic(auto, unfolding(crate::specs::Bools::difference, crate::specs::Bools::wide_difference), using(vp9_types::proofs::Runs::run_bind))]
    pub fn difference(&mut self) -> u8
        ensures read { Reads difference (window_of self.old) result (window_of self.new) }
        ensures most { result ≤ 254 }
    {
        if self.literal(1) == 0 {
            return self.literal(4) as u8;
        }
        if self.literal(1) == 0 {
            return self.literal(4) as u8 + 16;
        }
        if self.literal(1) == 0 {
            return self.literal(5) as u8 + 32;
        }
        let number = self.literal(7) as u8;
        if number < 65 {
            return number + 64;
        }
        2 * number - 1 + self.literal(1) as u8
    }

    /// The window and its count of bits: its highest `count` bits are those that the decoder has taken from its bytes
    /// and not used up.
    pub fn held(&self) -> (u64, u32)
        ensures { (c : Coder) → Stands c (window_of self.now) → HoldsBits c result.0 result.1 }
    {
        (self.window, self.count)
    }
}
