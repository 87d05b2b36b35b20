//! Rows of a block that are parts of one line, or of two in turn.

ghost use Rattle.std.specs.Prelude.{◌≡◌, ℕ, ◌+◌, ◌-◌, ◌*◌, ◌/◌, ◌%◌, ◌<◌, ◌≤◌, length, slice_index, nat_eq, if◌then◌else◌};
ghost use Rattle.vp9_types.specs.Maps.{Holds};

use crate::lines::copy_lanes;

/// Row i of the block is the part of the line from place `from` on.
#[inline(always)]
fn put_row<const N: usize>(block: &mut [u16], i: usize, line: &[u16], from: usize)
    requires few { N ≤ 64 }
    requires room { i * N + N ≤ length block.old }
    requires enough { from + N ≤ length line.now }
    ensures row { (j : ℕ) → j < N → slice_index block.new (i * N + j) ≡ slice_index line.now (from + j) }
    ensures before { (k : ℕ) → k < i * N → slice_index block.new k ≡ slice_index block.old k }
{
    let at = i * N;
    copy_lanes::<N>(&mut block[at..at + N], &line[from..from + N]);
}

/// Each row begins `step` further on than the one before it.
#[inline(always)]
pub(crate) fn rows_forward<const N: usize>(block: &mut [u16], line: &[u16], step: usize)
    requires small { N ≤ 32 }
    requires near { step ≤ 2 }
    requires room { length block.old ≡ N * N }
    requires enough { step * (N - 1) + N ≤ length line.now }
    ensures { Holds block.new N (λ i j. slice_index line.now (step * i + j)) }
{
    for i in 0..N {
        put_row::<N>(block, i, line, step * i);
    }
}

/// Each row begins `step` before the one before it, and the last at the line's beginning.
#[inline(always)]
pub(crate) fn rows_backward<const N: usize>(block: &mut [u16], line: &[u16], step: usize)
    requires small { N ≤ 32 }
    requires near { step ≤ 2 }
    requires room { length block.old ≡ N * N }
    requires enough { step * (N - 1) + N ≤ length line.now }
    ensures { Holds block.new N (λ i j. slice_index line.now (step * (N - 1 - i) + j)) }
{
    for i in 0..N {
        put_row::<N>(block, i, line, step * (N - 1 - i));
    }
}

/// Rows of two lines in turn, each pair one further on.
#[inline(always)]
pub(crate) fn pairs_forward<const N: usize>(block: &mut [u16], even: &[u16], odd: &[u16])
    requires small { N ≤ 32 }
    requires twos { N ≡ 2 * (N / 2) }
    requires room { length block.old ≡ N * N }
    requires even { N / 2 + N ≤ length even.now }
    requires odd { N / 2 + N ≤ length odd.now }
    ensures { Holds block.new N (λ i j. if nat_eq (i % 2) 0 then slice_index even.now (i / 2 + j) else slice_index odd.now (i / 2 + j)) }
{
    for k in 0..N / 2 {
        put_row::<N>(block, 2 * k, even, k);
        put_row::<N>(block, 2 * k + 1, odd, k);
    }
}

/// Rows of two lines in turn, each pair one before the one before it.
#[inline(always)]
pub(crate) fn pairs_backward<const N: usize>(block: &mut [u16], even: &[u16], odd: &[u16])
    requires small { N ≤ 32 }
    requires twos { N ≡ 2 * (N / 2) }
    requires room { length block.old ≡ N * N }
    requires even { N / 2 + N ≤ length even.now }
    requires odd { N / 2 + N ≤ length odd.now }
    ensures { Holds block.new N (λ i j. if nat_eq (i % 2) 0 then slice_index even.now (N / 2 - i / 2 + j) else slice_index odd.now (N / 2 - i / 2 + j)) }
{
    for k in 0..N / 2 {
        put_row::<N>(block, 2 * k, even, N / 2 - k);
        put_row::<N>(block, 2 * k + 1, odd, N / 2 - k);
    }
}
