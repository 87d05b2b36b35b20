//! A block in all planes of its frame.

ghost use Rattle.std.specs.Prelude.{ℕ, IfOk};
ghost use Rattle.frame_headers.specs.HeaderState.{shape_of};
ghost use Rattle.prob_contexts.specs.ProbLists.{lists_of};
ghost use Rattle.bool_lists.specs.BoolLists.{HasPut};
ghost use Rattle.bool_encoder.specs.CountedBools.{PutsTo};
ghost use Rattle.residue_syntax.specs.Residues.{read_plane, block_residue};
ghost use Rattle.residue_syntax.specs.Code.{FitPlane, FitPlanes, IsInFrame};
ghost use Rattle.residue_writer.specs.SaidResidues.{said_in_plane, block_residues_said};
ghost use Rattle.residue_writer.specs.ResidueLists.{spelled_plane, spelled_residue};
ghost use Rattle.residue_writer.specs.ResidueFits.{CanPutIn, CanPutBlock};
ghost use Rattle.residue_writer.specs.Code.{TellsPlane, TellsBlock};

use crate::levels::{BlockLevels, PlaneLevels};
use crate::planes::put_residues;
use block_geometry::transform_grid;
use block_plan::BlockInfo;
use bool_encoder::BoolEncoder;
use frame_setting::FrameSetting;
use residue_syntax::{BlockInPlane, Sides, TileSides, listed};
use std::alloc::AllocError;
use vp9_types::{Plane, Rule};

/// Puts the residue of a block in a plane, and answers whether it has any, or which rule is broken by its levels.
fn put_plane(
    encoder: &mut BoolEncoder,
    setting: &FrameSetting,
    block: &BlockInfo,
    plane: Plane,
    sides: &mut Sides,
    levels: &PlaneLevels,
) -> Result<Result<bool, Rule>, AllocError>
    requires inside { IsInFrame (shape_of setting.now.header) block.now }
    requires fit { FitPlane (shape_of setting.now.header) plane sides.old }
    requires can { CanPutIn setting.now.header (lists_of setting.now.contexts) block.now plane levels.now }
    ensures puts { IfOk result (λ _. PutsTo (read_plane setting.now.header (lists_of setting.now.contexts) block.now plane sides.old) encoder.old
        (said_in_plane setting.now.header block.now plane levels.now sides.old) encoder.new) }
    ensures tells { IfOk result (λ told. TellsPlane (said_in_plane setting.now.header block.now plane levels.now sides.old) told sides.new) }
    ensures spells { IfOk result (λ told. IfOk told (λ _. HasPut encoder.old (spelled_plane setting.now.header (lists_of setting.now.contexts) block.now plane levels.now sides.old) encoder.new)) }
    ensures fit { FitPlane (shape_of setting.now.header) plane sides.new }
{
    let b = BlockInPlane::of(&setting.header, block, plane);
    if block.skip {
        sides.mark_skipped(&b.block);
        return Ok(Ok(false));
    }
    let grid = transform_grid(setting.places, b.block);
    let any = put_residues(encoder, &setting.contexts, sides, &b, &grid, levels)?;
    Ok(any)
}

/// Puts the residue of a block whose modes are known, and answers the block as it is listed, or which rule is broken by its
/// levels: what stands behind the transform block that breaks it isn't put, and the sides are then of no use. After want of
/// memory some of the bools were put, and the tile is given up as a whole.
pub fn put_block(
    encoder: &mut BoolEncoder,
    setting: &FrameSetting,
    block: &BlockInfo,
    sides: &mut TileSides,
    levels: &BlockLevels,
) -> Result<Result<BlockInfo, Rule>, AllocError>
    requires inside { IsInFrame (shape_of setting.now.header) block.now }
    requires fit { FitPlanes (shape_of setting.now.header) sides.old }
    requires can { CanPutBlock setting.now.header (lists_of setting.now.contexts) block.now levels.now }
    ensures puts { IfOk result (λ _. (tile_from : ℕ) → PutsTo (block_residue setting.now.header (lists_of setting.now.contexts) tile_from block.now sides.old) encoder.old
        (block_residues_said setting.now.header tile_from block.now levels.now sides.old) encoder.new) }
    ensures tells { IfOk result (λ told. (tile_from : ℕ) → TellsBlock (block_residues_said setting.now.header tile_from block.now levels.now sides.old) told sides.new) }
    ensures spells { IfOk result (λ told. IfOk told (λ _. HasPut encoder.old (spelled_residue setting.now.header (lists_of setting.now.contexts) block.now levels.now sides.old) encoder.new)) }
    ensures fit { FitPlanes (shape_of setting.now.header) sides.new }
{
    let luma = match put_plane(encoder, setting, block, Plane::Y, &mut sides.y, &levels.y)? {
        Ok(any) => any,
        Err(rule) => return Ok(Err(rule)),
    };
    let first = match put_plane(encoder, setting, block, Plane::U, &mut sides.u, &levels.u)? {
        Ok(any) => any,
        Err(rule) => return Ok(Err(rule)),
    };
    let second = match put_plane(encoder, setting, block, Plane::V, &mut sides.v, &levels.v)? {
        Ok(any) => any,
        Err(rule) => return Ok(Err(rule)),
    };
    Ok(Ok(listed(block, luma | first | second)))
}
