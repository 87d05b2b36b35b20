ghost use Rattle.std.specs.Prelude.{◌≡◌, ℕ, ◌+◌, ◌*◌, ◌/◌, ◌<◌, ◌≤◌, length, slice_index};
ghost use Rattle.vp9_types.specs.Maps.{Holds};
ghost use Rattle.vp9_types.specs.Sizes.{side, greatest};
ghost use Rattle.intra_predict.specs.Laws.{IsUpTo};
ghost use Rattle.intra_predict.specs.Code.{samples_of};
ghost use Rattle.intra_predict.specs.PredictedModes.{dc_mean, predicted};

use crate::diagonal::{
    predict_d45, predict_d63, predict_d117, predict_d135, predict_d153, predict_d207,
};
use crate::edges::Edges;
use crate::flat::{mean_of, predict_h, predict_tm, predict_v, predict_value, total};
use crate::sizes::middle_of;
use vp9_types::{Depth, IntraMode, TxSize};

/// The samples of a block, row after row.
pub fn predict(mode: IntraMode, edges: &Edges, size: TxSize, depth: Depth, block: &mut [u16])
    requires small { IsUpTo (greatest depth) (samples_of (side size) edges.now) }
    requires room { length block.old ≡ side size * side size }
    ensures values { Holds block.new (side size) (predicted mode (side size) depth (samples_of (side size) edges.now)) }
    ensures small { (i j : ℕ) → i < side size → j < side size → slice_index block.new (i * side size + j) ≤ greatest depth }
{
    // A call for each size, so that the loops have numbers of steps that are known.
    match size {
        TxSize::T4x4 => predict_sized::<4>(mode, edges, depth, block),
        TxSize::T8x8 => predict_sized::<8>(mode, edges, depth, block),
        TxSize::T16x16 => predict_sized::<16>(mode, edges, depth, block),
        TxSize::T32x32 => predict_sized::<32>(mode, edges, depth, block),
    }
}

#[inline(always)]
#[tactic(auto, unfolding(crate::specs::PredictedModes::predicted))]
pub(crate) fn predict_sized<const N: usize>(
    mode: IntraMode,
    edges: &Edges,
    depth: Depth,
    block: &mut [u16],
)
    requires some { 4 ≤ N }
    requires few { N ≤ 32 }
    requires twos { N ≡ 2 * (N / 2) }
    requires small { IsUpTo (greatest depth) (samples_of N edges.now) }
    requires room { length block.old ≡ N * N }
    ensures { Holds block.new N (predicted mode N depth (samples_of N edges.now)) }
{
    let above = &edges.above[..2 * N];
    let left = &edges.left[..N];
    let corner = edges.corner;
    match mode {
        IntraMode::Dc => predict_value(block, N, mean_of_edges(edges, N, depth)),
        IntraMode::V => predict_v::<N>(block, above),
        IntraMode::H => predict_h(block, N, left),
        IntraMode::D45 => predict_d45::<N>(block, above),
        IntraMode::D135 => predict_d135::<N>(block, above, left, corner),
        IntraMode::D117 => predict_d117::<N>(block, above, left, corner),
        IntraMode::D153 => predict_d153::<N>(block, above, left, corner),
        IntraMode::D207 => predict_d207::<N>(block, left),
        IntraMode::D63 => predict_d63::<N>(block, above),
        IntraMode::Tm => predict_tm::<N>(block, depth.greatest(), above, left, corner),
    }
}

#[inline(always)]
fn mean_of_edges(edges: &Edges, size: usize, depth: Depth) -> u16
    requires some { 4 ≤ size }
    requires few { size ≤ 32 }
    requires small { IsUpTo (greatest depth) (samples_of size edges.now) }
    ensures { result ≡ dc_mean size depth (samples_of size edges.now) }
{
    if edges.has_above {
        let above = total(&edges.above[..size]);
        if edges.has_left {
            return mean_of(2 * size, above + total(&edges.left[..size]));
        }
        return mean_of(size, above);
    }
    if edges.has_left {
        return mean_of(size, total(&edges.left[..size]));
    }
    middle_of(depth)
}
