//! A block in a plane: all of its transform blocks.

ghost use Rattle.std.specs.Prelude.{◌≡◌, IfOk, []};
ghost use Rattle.std.specs.List.{All};
ghost use Rattle.block_geometry.specs.Code.{IsSmallGrid};
ghost use Rattle.block_geometry.specs.TransformBlocks.{grid_blocks, tx_step};
ghost use Rattle.bool_lists.specs.BoolLists.{HasPut};
ghost use Rattle.counting_reader.specs.Counting.{through};
ghost use Rattle.bool_encoder.specs.CountedBools.{PutsTo};
ghost use Rattle.prob_contexts.specs.ProbLists.{lists_of};
ghost use Rattle.residue_syntax.specs.Residues.{read_next};
ghost use Rattle.residue_syntax.specs.Code.{IsBeside, KeepsLengths};
ghost use Rattle.residue_writer.specs.SaidResidues.{residues_said};
ghost use Rattle.residue_writer.specs.ResidueLists.{spelled_residues};
ghost use Rattle.residue_writer.specs.ResidueFits.{CanPutAll};
ghost use Rattle.residue_writer.specs.Code.{TellsPlane};

use crate::levels::{Coded, PlaneLevels};
use crate::transform_blocks::put_residue;
use block_geometry::TransformGrid;
use bool_encoder::BoolEncoder;
use prob_contexts::Contexts;
use residue_syntax::{BlockInPlane, Sides};
use std::alloc::AllocError;
use vp9_tables::area_of;
use vp9_types::Rule;

/// Puts the residues of a block that isn't skipped, and answers whether it has any, or which rule is broken by its levels:
/// what stands behind the transform block that breaks it isn't put.
pub(crate) fn put_residues(
    encoder: &mut BoolEncoder,
    contexts: &Contexts,
    sides: &mut Sides,
    b: &BlockInPlane,
    grid: &TransformGrid,
    levels: &PlaneLevels,
) -> Result<Result<bool, Rule>, AllocError>
    requires small { IsSmallGrid grid.now }
    requires step { grid.now.step ≡ tx_step b.now.block.tx }
    requires beside { All (λ at. IsBeside b.now.block at.row at.column sides.old) (grid_blocks grid.now) }
    requires can { CanPutAll (lists_of contexts.now) b.now (grid_blocks grid.now) levels.now }
    ensures puts { IfOk result (λ _. PutsTo (through (read_next (lists_of contexts.now) b.now) (grid_blocks grid.now) (record { residues = []; sides = sides.old })) encoder.old
        (residues_said b.now levels.now (grid_blocks grid.now) 0 (record { residues = []; sides = sides.old })) encoder.new) }
    ensures tells { IfOk result (λ told. TellsPlane (residues_said b.now levels.now (grid_blocks grid.now) 0 (record { residues = []; sides = sides.old })) told sides.new) }
    ensures spells { IfOk result (λ told. IfOk told (λ _. HasPut encoder.old (spelled_residues (lists_of contexts.now) b.now levels.now (grid_blocks grid.now) 0 sides.old) encoder.new)) }
    ensures lengths { KeepsLengths sides.old sides.new }
{
    let area = area_of(b.block.tx);
    let mut any = false;
    for k in 0..grid.count() {
        let from = k as usize * area;
        let coded = Coded {
            levels: &levels.values[from..from + area],
            count: levels.counts[k as usize],
        };
        match put_residue(encoder, contexts, sides, b, grid.place(k), &coded)? {
            Ok(some) => any |= some,
            Err(rule) => return Ok(Err(rule)),
        }
    }
    Ok(Ok(any))
}
