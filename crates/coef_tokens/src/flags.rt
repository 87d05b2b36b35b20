//! The rows of flags above and on the left that say where coefficients are, one flag for each four samples of a plane.
//! A row ends where the frame does.

ghost use Rattle.std.specs.Prelude.{◌≡◌, ◌+◌, ◌≤◌, length};
ghost use Rattle.std.specs.List.{list_any};
ghost use Rattle.coef_tokens.specs.Flags.{flags_of, any_set, sides_set, marked};

use vp9_types::TxSize;

#[inline(always)]
fn span_of(size: TxSize) -> usize
    ensures value { result ≡ flags_of size }
    ensures most { result ≤ 8 }
{
    match size {
        TxSize::T4x4 => 1,
        TxSize::T8x8 => 2,
        TxSize::T16x16 => 4,
        TxSize::T32x32 => 8,
    }
}

#[inline(always)]
fn is_any(flags: &[bool]) -> bool
    ensures { result ≡ list_any (λ b. b) flags.now }
{
    flags.contains(&true)
}

#[inline(always)]
fn is_any_set(flags: &[bool], from: usize, n: usize) -> bool
    requires from { from ≤ length flags.now }
    requires few { n ≤ 64 }
    ensures { result ≡ any_set flags.now from n }
{
    // Most spans are inside of the row, where their length is known before the program runs.
    if from + n <= flags.len() {
        is_any(&flags[from..from + n])
    } else {
        is_any(&flags[from..])
    }
}

/// Whether a single flag is set; past the row's end none is.
#[inline(always)]
#[tactic(auto, using(crate::proofs::Spans::one_inside, crate::proofs::Spans::one_past))]
fn is_set(flags: &[bool], from: usize) -> bool
    ensures { result ≡ any_set flags.now from 1 }
{
    if from < flags.len() {
        flags[from]
    } else {
        false
    }
}

/// The context of a block's first place: how many of the sides above and on the left have a coefficient. `x` and `y` are
/// the block's places in the rows.
#[inline(always)]
pub fn first_context(above: &[bool], x: usize, left: &[bool], y: usize, size: TxSize) -> u8
    requires column { x ≤ length above.now }
    requires row { y ≤ length left.now }
    ensures value { result ≡ sides_set above.now x left.now y size }
    ensures most { result ≤ 2 }
{
    if size == TxSize::T4x4 {
        return u8::from(is_set(above, x)) + u8::from(is_set(left, y));
    }
    let n = span_of(size);
    u8::from(is_any_set(above, x, n)) + u8::from(is_any_set(left, y, n))
}

#[inline(always)]
#[tactic(auto, unfolding(crate::specs::Flags::marked))]
fn mark_span(flags: &mut [bool], from: usize, n: usize, value: bool)
    requires from { from ≤ length flags.old }
    requires few { n ≤ 64 }
    ensures { flags.new ≡ marked flags.old from n value }
{
    let end = flags.len().min(from + n);
    flags[from..end].fill(value);
}

/// Marks a span that is inside of the row. Its length is known before the program runs, so that it is stored at once.
#[inline(always)]
#[tactic(auto, unfolding(crate::specs::Flags::marked))]
fn mark_whole<const N: usize>(flags: &mut [bool], from: usize, value: bool)
    requires inside { from + N ≤ length flags.old }
    ensures { flags.new ≡ marked flags.old from N value }
{
    flags[from..from + N].copy_from_slice(&[value; N]);
}

/// Sets a single flag, if it is in the row.
#[inline(always)]
#[tactic(auto, using(crate::proofs::Spans::mark_inside, crate::proofs::Spans::mark_past))]
fn mark_one(flags: &mut [bool], from: usize, value: bool)
    ensures { flags.new ≡ marked flags.old from 1 value }
{
    if from < flags.len() {
        flags[from] = value;
    }
}

/// Says of `n` flags from a place on whether there are coefficients: those of a transform block after its tokens were
/// read, or of a skipped block, which has none.
#[inline(always)]
pub fn mark(flags: &mut [bool], from: usize, n: usize, value: bool)
    requires from { from ≤ length flags.old }
    requires few { n ≤ 64 }
    ensures { flags.new ≡ marked flags.old from n value }
{
    // A call that fills would cost more than all the rest, and few spans reach over the row's end.
    match n {
        1 => mark_one(flags, from, value),
        2 if from + 2 <= flags.len() => mark_whole::<2>(flags, from, value),
        4 if from + 4 <= flags.len() => mark_whole::<4>(flags, from, value),
        8 if from + 8 <= flags.len() => mark_whole::<8>(flags, from, value),
        16 if from + 16 <= flags.len() => mark_whole::<16>(flags, from, value),
        _ => mark_span(flags, from, n, value),
    }
}
