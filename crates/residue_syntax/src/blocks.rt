//! A block in all planes of its frame.

ghost use Rattle.std.specs.Prelude.{◌≡◌, ◌<◌, ◌≤◌, ℕ, Bool, IfOk, OnOk};
ghost use Rattle.frame_headers.specs.HeaderState.{shape_of};
ghost use Rattle.prob_contexts.specs.ProbLists.{lists_of};
ghost use Rattle.vp9_types.specs.declared.shape.Plane.TheVariants as plane;
ghost use Rattle.residue_syntax.specs.Residues.{read_plane, block_residue, listed};
ghost use Rattle.residue_syntax.specs.Code.{FitPlane, FitPlanes, IsInFrame, GivesPlane, GivesBlock};
ghost use Rattle.block_plan.specs.Code.{AreSmall, HoldsSmall, held_in, planned_with};

use crate::in_plane::BlockInPlane;
use crate::planes::{read_coded, skip_residues};
use crate::sides::{Sides, TileSides};
use block_geometry::{is_below_8x8, transform_grid};
use block_plan::{BlockInfo, BlockResidues, PlaneResidues, Prediction, plane_block};
use counting_reader::CountingReader;
use frame_setting::FrameSetting;
use vp9_types::{Plane, Rule};

/// Reads the residue of a block in a plane, and answers whether it has any. It is part of its caller, so that the planes
/// share what is known of their block.
#[inline(always)]
fn read_plane<const COUNTS: bool>(
    reader: &mut CountingReader<COUNTS>,
    setting: &FrameSetting,
    block: &BlockInfo,
    plane: Plane,
    sides: &mut Sides,
    residues: &mut PlaneResidues,
) -> Result<bool, Rule>
    requires inside { IsInFrame (shape_of setting.now.header) block.now }
    requires fit { FitPlane (shape_of setting.now.header) plane sides.old }
    ensures gives { GivesPlane (read_plane setting.now.header (lists_of setting.now.contexts) block.now plane sides.old) reader.old
        result (held_in (shape_of setting.now.header) block.now plane residues.new) sides.new reader.new }
    ensures fit { FitPlane (shape_of setting.now.header) plane sides.new }
    ensures small { OnOk result (AreSmall (held_in (shape_of setting.now.header) block.now plane residues.new)) }
{
    if block.skip {
        let in_plane = plane_block(&setting.header.shape(), block, plane);
        skip_residues(sides, &in_plane, residues);
        return Ok(false);
    }
    let b = BlockInPlane::of(&setting.header, block, plane);
    let grid = transform_grid(setting.places, b.block);
    read_coded(reader, &setting.contexts, sides, &b, &grid, residues)
}

/// A block as it is listed, by whether any of its transform blocks has coefficients.
pub fn listed(block: &BlockInfo, any: bool) -> BlockInfo
    ensures { result ≡ listed block.now any }
{
    let is_inter = matches!(block.prediction, Prediction::Inter(_));
    BlockInfo {
        skip: block.skip || (is_inter && !is_below_8x8(block.size) && !any),
        ..*block
    }
}

/// Reads the residue of a block whose modes are known, and answers the block as it is listed: an inter block of 8x8 or more
/// without any coefficient counts as skipped from then on.
pub fn block_residue<const COUNTS: bool>(
    reader: &mut CountingReader<COUNTS>,
    setting: &FrameSetting,
    block: &BlockInfo,
    sides: &mut TileSides,
    residues: &mut BlockResidues,
) -> Result<BlockInfo, Rule>
    requires inside { IsInFrame (shape_of setting.now.header) block.now }
    requires fit { FitPlanes (shape_of setting.now.header) sides.old }
    ensures gives { (tile_from : ℕ) → GivesBlock (block_residue setting.now.header (lists_of setting.now.contexts) tile_from block.now sides.old) reader.old
        result (λ info. planned_with (shape_of setting.now.header) tile_from block.now info residues.new) sides.new reader.new }
    ensures fit { FitPlanes (shape_of setting.now.header) sides.new }
    ensures listed { IfOk result (λ info. (any : Bool) × (info ≡ listed block.now any)) }
    ensures small { OnOk result (HoldsSmall (planned_with (shape_of setting.now.header) 0 block.now block.now residues.new)) }
{
    let BlockResidues { y, u, v } = residues;
    let luma = read_plane(reader, setting, block, Plane::Y, &mut sides.y, y)?;
    let first = read_plane(reader, setting, block, Plane::U, &mut sides.u, u)?;
    let second = read_plane(reader, setting, block, Plane::V, &mut sides.v, v)?;
    Ok(listed(block, luma | first | second))
}
