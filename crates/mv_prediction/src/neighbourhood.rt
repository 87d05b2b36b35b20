//! The blocks around a block.

ghost use Rattle.std.specs.Prelude.{◌≡◌, ◌<◌, ◌≤◌, ◌*◌, ◌+◌, pos, [], ℕ, get_or, slice_index, IfSome, IsTrue, length};
ghost use Rattle.std.specs.List.{All};
ghost use Rattle.std.specs.Option.{option_copied};
ghost use Rattle.vp9_tables.specs.Motion.{is_counter};
ghost use Rattle.block_plan.specs.Blocks.{covering};
ghost use Rattle.mv_prediction.specs.Candidates.{neighbour, moved, offset_of, quarter_for, mode_number, counter_of};
ghost use Rattle.mv_prediction.specs.Code.{IsSite, HasSmallVectors, blocks_of};

use crate::search::MvSearch;
use block_geometry::is_below_8x8;
use block_plan::{BlockInfo, Neighbours, Prediction};
use vp9_tables::{mode_counter, mv_ref_offset, subblock_of_neighbour};
use vp9_types::BlockSize;

/// The block at a place that may be asked for.
#[tactic(auto, using(crate::proofs::Small::covering_has))]
fn block_at<'a, N: Neighbours>(blocks: &'a N, row: u32, col: u32) -> Option<&'a BlockInfo>
    requires held { N.holds blocks.now row col }
    requires small { All HasSmallVectors (N.blocks blocks.now) }
    ensures is { option_copied result ≡ covering (N.blocks blocks.now) row col }
    ensures small { IfSome (option_copied result) HasSmallVectors }
{
    blocks.at(row, col)
}

/// A place moved by an offset, where that lies from one place on and before another.
fn moved(at: u32, offset: i8, from: u32, to: u32) -> Option<u32>
    ensures is { result ≡ moved at offset from to }
    ensures from { IfSome result (λ place. from ≤ place) }
    ensures to { IfSome result (λ place. place < to) }
{
    let place = i64::from(at) + i64::from(offset);
    if i64::from(from) <= place && place < i64::from(to) {
        Some(place as u32)
    } else {
        None
    }
}

/// The block at an offset of a block's size, 0 to 7, where that lies inside the tile's columns and the frame's rows.
#[tactic(auto, unfolding(crate::specs::Candidates::neighbour))]
pub(crate) fn neighbour<'a, N: Neighbours>(
    earlier: &'a N,
    search: &MvSearch,
    candidate: u8,
) -> Option<&'a BlockInfo>
    requires candidate { candidate < 8 }
    requires held { (r c : ℕ) → r < search.now.places.rows → search.now.at.tile_from ≤ c → c < search.now.at.tile_to → N.holds earlier.now r c }
    requires small { All HasSmallVectors (N.blocks earlier.now) }
    ensures is { option_copied result ≡ neighbour (N.blocks earlier.now) search.now candidate }
    ensures small { IfSome (option_copied result) HasSmallVectors }
{
    let at = search.at;
    let offset = mv_ref_offset(at.size, candidate);
    let row = moved(at.row, offset[0], 0, search.places.rows);
    let column = moved(at.col, offset[1], at.tile_from, at.tile_to);
    match (row, column) {
        (Some(row), Some(column)) => block_at(earlier, row, column),
        _ => None,
    }
}

/// The block that stood at this place in the frame before, if its vectors are used.
#[tactic(auto, unfolding(block_plan::specs::Blocks::covering))]
pub(crate) fn block_before<'a, Q: Neighbours>(
    before: Option<&'a Q>,
    search: &MvSearch,
) -> Option<&'a BlockInfo>
    requires held { IfSome (option_copied before) (λ q. Q.holds q search.now.at.row search.now.at.col) }
    requires small { All HasSmallVectors (blocks_of Q.blocks (option_copied before)) }
    ensures is { option_copied result ≡ covering (blocks_of Q.blocks (option_copied before.entry)) search.now.at.row search.now.at.col }
    ensures small { IfSome (option_copied result) HasSmallVectors }
{
    match before {
        Some(blocks) => block_at(blocks, search.at.row, search.at.col),
        None => None,
    }
}

/// The quarter whose vector a neighbour gives.
pub(crate) fn quarter_for(sub: Option<u8>, offset: &[i8; 2], size: BlockSize) -> usize
    requires { IfSome sub (λ k. k < 4) }
    ensures is { result ≡ quarter_for sub offset.now size }
    ensures most { result < 4 }
{
    match sub {
        Some(sub) => {
            if is_below_8x8(size) {
                usize::from(subblock_of_neighbour(sub, offset[1] == 0))
            } else {
                3
            }
        }
        None => 3,
    }
}

fn mode_number(prediction: &Prediction) -> u8
    ensures is { result ≡ mode_number prediction.now }
    ensures most { result < 14 }
{
    match prediction {
        Prediction::Intra(_) => 0,
        Prediction::Inter(p) => 10 + p.modes[3] as u8,
    }
}

/// What a neighbour counts for the context of the inter mode.
pub(crate) fn counter_of(block: Option<&BlockInfo>) -> u8
    ensures is { result ≡ counter_of (option_copied block.entry) }
    ensures counter { IsTrue (is_counter result) }
{
    match block {
        Some(block) => mode_counter(mode_number(&block.prediction)),
        None => 0,
    }
}
