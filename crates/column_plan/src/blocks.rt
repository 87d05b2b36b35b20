//! The residues of a block, taken out of its buffer.

ghost use Rattle.std.specs.Prelude.{◌≡◌, ◌+◌, ◌*◌, ◌<◌, ◌≤◌, ◌++◌, ℕ, ℤ, List, length, OnOk};
ghost use Rattle.frame_headers.specs.FrameSizes.{HasFrameSize};
ghost use Rattle.frame_headers.specs.HeaderState.{shape_of};
ghost use Rattle.block_geometry.specs.FrameShapes.{places_of};
ghost use Rattle.vp9_tables.specs.Scans.{area};
ghost use Rattle.vp9_tables.specs.BlockTables.{greatest_of};
ghost use Rattle.vp9_tables.specs.Numbers.{tx_number};
ghost use Rattle.block_plan.specs.Code.{planned_with};
ghost use Rattle.block_plan.specs.InPlanes.{tx_in};
ghost use Rattle.column_plan.specs.Code.{HoldsWhole, piece_held, pieces_held, block_pieces};
ghost use Rattle.column_plan.specs.PlannedBlocks.{count_in, planned_from};

use crate::residues::PlanResidues;
use block_geometry::{FramePlaces, transform_grid};
use block_plan::{BlockInfo, BlockResidues, plane_block};
use frame_setting::FrameSetting;
use std::alloc::AllocError;
use vp9_tables::area_of;
use vp9_types::{Plane, Shape};

/// The values of the `k`-th transform block of a block in a plane, of `area` each, or none.
fn values_of<'a>(some: &[bool], values: &'a [i32], k: usize, area: usize) -> &'a [i32]
    requires few { k < length some.now }
    requires fits { k * area + area ≤ length values.now }
    ensures { result.now ≡ piece_held area some.now values.now k }
{
    if !some[k] {
        return &[];
    }
    let from = k * area;
    &values[from..from + area]
}

/// Adds the residues of so many transform blocks.
#[tactic(auto, using(crate::proofs::Held::held_more, crate::proofs::Held::none_held, crate::proofs::Held::room_for))]
fn push_held(
    residues: &mut PlanResidues,
    some: &[bool],
    values: &[i32],
    count: u32,
    area: usize,
) -> Result<(), AllocError>
    requires few { count ≤ length some.now }
    requires fits { count * area ≤ length values.now }
    ensures { OnOk result (residues.new ≡ residues.old ++ pieces_held area some.now values.now count) }
{
    for k in 0..count as usize {
        residues.push(values_of(some, values, k, area))?;
    }
    Ok(())
}

/// How many transform blocks a block has in a plane of a frame of this shape, and how many samples each has.
fn transform_blocks(
    places: FramePlaces,
    shape: &Shape,
    block: &BlockInfo,
    plane: Plane,
) -> (u32, usize)
    requires size { HasFrameSize shape.now }
    requires whole { places ≡ places_of shape.now }
    requires row { block.now.row < places.rows }
    requires column { block.now.col < places.cols }
    requires fits { tx_number block.now.tx ≤ greatest_of block.now.size }
    ensures count { result.0 ≡ count_in shape.now block.now plane }
    ensures few { result.0 ≤ 256 }
    ensures area { result.1 ≡ area (tx_in shape.now block.now plane) }
    ensures room { result.0 * result.1 ≤ 4096 }
{
    let in_plane = plane_block(shape, block, plane);
    let grid = transform_grid(places, in_plane);
    (grid.count(), area_of(in_plane.tx))
}

/// How many transform blocks a block has in a plane of a frame of this shape, whose size in places of 8x8 luma samples is
/// known already.
pub fn transform_count(places: FramePlaces, shape: &Shape, block: &BlockInfo, plane: Plane) -> u32
    requires size { HasFrameSize shape.now }
    requires whole { places ≡ places_of shape.now }
    requires row { block.now.row < places.rows }
    requires column { block.now.col < places.cols }
    requires fits { tx_number block.now.tx ≤ greatest_of block.now.size }
    ensures { result ≡ count_in shape.now block.now plane }
{
    transform_blocks(places, shape, block, plane).0
}

/// Adds the residues of a block, plane by plane. Where memory is refused, some of them may have been added.
pub fn push_block(
    residues: &mut PlanResidues,
    setting: &FrameSetting,
    block: &BlockInfo,
    held: &BlockResidues,
) -> Result<(), AllocError>
    requires row { block.now.row < setting.now.places.rows }
    requires column { block.now.col < setting.now.places.cols }
    requires fits { tx_number block.now.tx ≤ greatest_of block.now.size }
    ensures pushed { OnOk result (residues.new ≡ residues.old ++ block_pieces (shape_of setting.now.header) block.now held.now) }
    ensures stands { OnOk result ((tile_from : ℕ) (behind : List (List ℤ)) → planned_from (shape_of setting.now.header) tile_from block.now (block_pieces (shape_of setting.now.header) block.now held.now ++ behind) ≡ planned_with (shape_of setting.now.header) tile_from block.now block.now held.now) }
    ensures whole { OnOk result (HoldsWhole (shape_of setting.now.header) (planned_with (shape_of setting.now.header) 0 block.now block.now held.now)) }
{
    let shape = setting.header.shape();
    let (luma, luma_area) = transform_blocks(setting.places, &shape, block, Plane::Y);
    // both chroma planes are alike
    let (chroma, chroma_area) = transform_blocks(setting.places, &shape, block, Plane::U);
    let (y, u, v) = (&held.y, &held.u, &held.v);
    push_held(residues, &y.some, &y.values, luma, luma_area)?;
    push_held(residues, &u.some, &u.values, chroma, chroma_area)?;
    push_held(residues, &v.some, &v.values, chroma, chroma_area)
}
