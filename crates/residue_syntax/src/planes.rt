//! A block in a plane: all of its transform blocks.

ghost use Rattle.std.specs.Prelude.{◌≡◌, ◌<◌, ◌≤◌, ◌*◌, ℕ, OnOk, List, [], false, get_or};
ghost use Rattle.std.specs.List.{All, list_any};
ghost use Rattle.block_geometry.specs.Code.{IsSmallGrid};
ghost use Rattle.block_geometry.specs.TransformBlocks.{grid_blocks, tx_step};
ghost use Rattle.block_geometry.specs.declared.transform_blocks.TransformPlace.{TransformPlace};
ghost use Rattle.block_plan.specs.Code.{held, AreSmall};
ghost use Rattle.counting_reader.specs.Counting.{through};
ghost use Rattle.prob_contexts.specs.ProbLists.{lists_of};
ghost use Rattle.vp9_tables.specs.Scans.{area};
ghost use Rattle.residue_syntax.specs.Residues.{read_next, read_skipped, is_coded};
ghost use Rattle.residue_syntax.specs.Code.{IsBeside, KeepsLengths, GivesPlane};
ghost use Rattle.residue_syntax.specs.declared.in_plane.BlockInPlane.{BlockInPlane};

use crate::in_plane::BlockInPlane;
use crate::sides::Sides;
use crate::transform_blocks::read_residue;
use block_geometry::{PlaneBlock, TransformGrid};
use block_plan::PlaneResidues;
use counting_reader::CountingReader;
use prob_contexts::Contexts;
use vp9_tables::area_of;
use vp9_types::{Rule, TxSize};

/// Reads the residues of a block that isn't skipped, and answers whether it has any.
#[inline(always)]
fn read_residues<const COUNTS: bool>(
    reader: &mut CountingReader<COUNTS>,
    contexts: &Contexts,
    sides: &mut Sides,
    b: &BlockInPlane,
    grid: &TransformGrid,
    residues: &mut PlaneResidues,
) -> Result<bool, Rule>
    requires small { IsSmallGrid grid.now }
    requires step { grid.now.step ≡ tx_step b.now.block.tx }
    requires beside { All (λ at. IsBeside b.now.block at.row at.column sides.old) (grid_blocks grid.now) }
    ensures gives { GivesPlane (through (read_next (lists_of contexts.now) b.now) (grid_blocks grid.now) (record { residues = []; sides = sides.old }))
        reader.old result (held (grid_blocks grid.now) (area b.now.block.tx) residues.new) sides.new reader.new }
    ensures lengths { KeepsLengths sides.old sides.new }
    ensures small { OnOk result (AreSmall (held (grid_blocks grid.now) (area b.now.block.tx) residues.new)) }
{
    let area = area_of(b.block.tx);
    let mut any = false;
    for k in 0..grid.count() {
        let from = k as usize * area;
        let values = &mut residues.values[from..from + area];
        let some = read_residue(reader, contexts, sides, b, grid.place(k), values)?;
        residues.some[k as usize] = some;
        any |= some;
    }
    Ok(any)
}

/// The same block, by the size of its transform blocks.
#[inline(always)]
fn of_size(b: &BlockInPlane, tx: TxSize) -> BlockInPlane
    requires { tx ≡ b.now.block.tx }
    ensures { result ≡ b.now }
{
    BlockInPlane {
        block: PlaneBlock { tx, ..b.block },
        ..*b
    }
}

/// Reads the residues of a block that isn't skipped, and answers whether it has any. The size of its transform blocks is
/// looked at once, so that it is known in all that is done for each of them. That is much code, which stands once.
#[inline(never)]
pub(crate) fn read_coded<const COUNTS: bool>(
    reader: &mut CountingReader<COUNTS>,
    contexts: &Contexts,
    sides: &mut Sides,
    b: &BlockInPlane,
    grid: &TransformGrid,
    residues: &mut PlaneResidues,
) -> Result<bool, Rule>
    requires small { IsSmallGrid grid.now }
    requires step { grid.now.step ≡ tx_step b.now.block.tx }
    requires beside { All (λ at. IsBeside b.now.block at.row at.column sides.old) (grid_blocks grid.now) }
    ensures gives { GivesPlane (through (read_next (lists_of contexts.now) b.now) (grid_blocks grid.now) (record { residues = []; sides = sides.old }))
        reader.old result (held (grid_blocks grid.now) (area b.now.block.tx) residues.new) sides.new reader.new }
    ensures lengths { KeepsLengths sides.old sides.new }
    ensures small { OnOk result (AreSmall (held (grid_blocks grid.now) (area b.now.block.tx) residues.new)) }
{
    match b.block.tx {
        TxSize::T4x4 => {
            let b = of_size(b, TxSize::T4x4);
            read_residues(reader, contexts, sides, &b, grid, residues)
        }
        TxSize::T8x8 => {
            let b = of_size(b, TxSize::T8x8);
            read_residues(reader, contexts, sides, &b, grid, residues)
        }
        TxSize::T16x16 => {
            let b = of_size(b, TxSize::T16x16);
            read_residues(reader, contexts, sides, &b, grid, residues)
        }
        TxSize::T32x32 => {
            let b = of_size(b, TxSize::T32x32);
            read_residues(reader, contexts, sides, &b, grid, residues)
        }
    }
}

#[inline(always)]
fn clear_flags(flags: &mut [bool])
    ensures { (k : ℕ) → get_or flags.new k false ≡ false }
{
    flags.fill(false);
}

/// Says of a skipped block that it has none, wherever its transform blocks lie.
#[inline(always)]
pub(crate) fn skip_residues(sides: &mut Sides, block: &PlaneBlock, residues: &mut PlaneResidues)
    requires beside { IsBeside block.now 0 0 sides.old }
    ensures read { (b : BlockInPlane) (places : List TransformPlace) → b.block ≡ block.now →
        read_skipped b places sides.old ≡ record { residues = held places (area b.block.tx) residues.new; sides = sides.new } }
    ensures none { (places : List TransformPlace) (n : ℕ) → list_any is_coded (held places n residues.new) ≡ false }
    ensures lengths { KeepsLengths sides.old sides.new }
    ensures small { (places : List TransformPlace) (n : ℕ) → AreSmall (held places n residues.new) }
{
    clear_flags(&mut residues.some);
    sides.mark_skipped(block);
}
