//! Lines of samples: fronts that are extended, edges that are joined, and means of samples in a row.

ghost use Rattle.std.specs.Prelude.{◌≡◌, ℕ, ◌+◌, ◌-◌, ◌*◌, ◌/◌, ◌%◌, ◌<◌, ◌≤◌, ◌∷◌, length, min, slice_index, nat_eq, if◌then◌else◌};
ghost use Rattle.intra_predict.specs.PredictedModes.{mean2, mean3, mean2_at, mean3_at};

use std::simd::Simd;

fn mean_of_two(x: u16, y: u16) -> u16
    requires x { x ≤ 4095 }
    requires y { y ≤ 4095 }
    ensures { result ≡ mean2 x y }
{
    (x + y + 1) >> 1
}

fn mean_of_three(x: u16, y: u16, z: u16) -> u16
    requires x { x ≤ 4095 }
    requires y { y ≤ 4095 }
    requires z { z ≤ 4095 }
    ensures { result ≡ mean3 x y z }
{
    (x + 2 * y + z + 2) >> 2
}

/// N samples copied as one vector, since what is read by reference might be what is written.
#[inline(always)]
pub(crate) fn copy_lanes<const N: usize>(to: &mut [u16], from: &[u16])
    requires few { N ≤ 64 }
    requires room { length to.old ≡ N }
    requires enough { length from.now ≡ N }
    ensures { to.new ≡ from.now }
{
    let samples: Simd<u16, N> = Simd::from_slice(from);
    samples.copy_to_slice(to);
}

/// N samples, the last of which is then repeated up to n samples.
#[inline(always)]
pub(crate) fn extend_lanes<const N: usize>(line: &mut [u16], n: usize, front: &[u16])
    requires some { 0 < N }
    requires few { N ≤ 64 }
    requires long { length front.now ≡ N }
    requires fits { N ≤ n }
    requires room { n ≤ length line.old }
    ensures { (k : ℕ) → k < n → slice_index line.new k ≡ slice_index front.now (min k (N - 1)) }
{
    copy_lanes::<N>(&mut line[..N], front);
    fill_from(line, N, n, front[N - 1]);
}

/// One value from place `from` up to `to`.
#[inline(always)]
pub(crate) fn fill_from(line: &mut [u16], from: usize, to: usize, value: u16)
    requires order { from ≤ to }
    requires room { to ≤ length line.old }
    ensures filled { (k : ℕ) → from ≤ k → k < to → slice_index line.new k ≡ value }
    ensures before { (k : ℕ) → k < from → slice_index line.new k ≡ slice_index line.old k }
{
    for k in from..to {
        line[k] = value;
    }
}

/// The left samples from below upwards, the corner, and the samples above.
#[inline(always)]
pub(crate) fn join<const N: usize>(line: &mut [u16], left: &[u16], corner: u16, above: &[u16])
    requires few { N ≤ 64 }
    requires room { 2 * N < length line.old }
    requires left { N ≤ length left.now }
    requires above { N ≤ length above.now }
    requires small_left { (k : ℕ) → slice_index left.now k ≤ 4095 }
    requires small_corner { corner ≤ 4095 }
    requires small_above { (k : ℕ) → slice_index above.now k ≤ 4095 }
    ensures small { (k : ℕ) → k < 2 * N + 1 → slice_index line.new k ≤ 4095 }
    ensures down { (k : ℕ) → k ≤ N → slice_index line.new (N - k) ≡ slice_index (corner ∷ left.now) k }
    ensures up { (k : ℕ) → k ≤ N → slice_index line.new (N + k) ≡ slice_index (corner ∷ above.now) k }
{
    line[N] = corner;
    copy_lanes::<N>(&mut line[N + 1..N + 1 + N], &above[..N]);
    reverse_into(line, N, left);
}

/// The first n samples of a line, backwards.
#[inline(always)]
fn reverse_into(line: &mut [u16], n: usize, from: &[u16])
    requires room { n ≤ length line.old }
    requires enough { n ≤ length from.now }
    ensures reversed { (k : ℕ) → k < n → slice_index line.new k ≡ slice_index from.now (n - 1 - k) }
    ensures after { (k : ℕ) → n ≤ k → slice_index line.new k ≡ slice_index line.old k }
{
    for k in 0..n {
        line[k] = from[n - 1 - k];
    }
}

/// n means of three samples in a row, the first of them from place `from` on, written from place `at` on.
#[inline(always)]
pub(crate) fn smooth(line: &mut [u16], at: usize, edge: &[u16], from: usize, n: usize)
    requires room { at + n ≤ length line.old }
    requires enough { from + n + 2 ≤ length edge.now }
    requires small { (k : ℕ) → k < from + n + 2 → slice_index edge.now k ≤ 4095 }
    ensures means { (k : ℕ) → k < n → slice_index line.new (at + k) ≡ mean3_at edge.now (from + k) }
    ensures before { (k : ℕ) → k < at → slice_index line.new k ≡ slice_index line.old k }
{
    for k in 0..n {
        line[at + k] = mean_of_three(edge[from + k], edge[from + k + 1], edge[from + k + 2]);
    }
}

/// As `smooth`, but every other mean.
#[inline(always)]
pub(crate) fn smooth_every_other(line: &mut [u16], at: usize, edge: &[u16], from: usize, n: usize)
    requires room { at + n ≤ length line.old }
    requires enough { from + 2 * n + 1 ≤ length edge.now }
    requires small { (k : ℕ) → k < from + 2 * n + 1 → slice_index edge.now k ≤ 4095 }
    ensures means { (k : ℕ) → k < n → slice_index line.new (at + k) ≡ mean3_at edge.now (from + 2 * k) }
    ensures before { (k : ℕ) → k < at → slice_index line.new k ≡ slice_index line.old k }
{
    for k in 0..n {
        let x = from + 2 * k;
        line[at + k] = mean_of_three(edge[x], edge[x + 1], edge[x + 2]);
    }
}

/// n means of two samples in a row, the first of them from place `from` on, written from place `at` on.
#[inline(always)]
pub(crate) fn average(line: &mut [u16], at: usize, edge: &[u16], from: usize, n: usize)
    requires room { at + n ≤ length line.old }
    requires enough { from + n + 1 ≤ length edge.now }
    requires small { (k : ℕ) → k < from + n + 1 → slice_index edge.now k ≤ 4095 }
    ensures means { (k : ℕ) → k < n → slice_index line.new (at + k) ≡ mean2_at edge.now (from + k) }
    ensures before { (k : ℕ) → k < at → slice_index line.new k ≡ slice_index line.old k }
{
    for k in 0..n {
        line[at + k] = mean_of_two(edge[from + k], edge[from + k + 1]);
    }
}

/// n means of two samples and n of three, in turn.
#[inline(always)]
pub(crate) fn interleave(line: &mut [u16], edge: &[u16], n: usize)
    requires room { 2 * n ≤ length line.old }
    requires enough { n + 2 ≤ length edge.now }
    requires small { (k : ℕ) → k < n + 2 → slice_index edge.now k ≤ 4095 }
    ensures { (k : ℕ) → k < 2 * n →
        slice_index line.new k ≡ (if nat_eq (k % 2) 0 then mean2_at edge.now (k / 2) else mean3_at edge.now (k / 2)) }
{
    for k in 0..n {
        line[2 * k] = mean_of_two(edge[k], edge[k + 1]);
        line[2 * k + 1] = mean_of_three(edge[k], edge[k + 1], edge[k + 2]);
    }
}
