//! Modes of the blocks of intra frames.

ghost use Rattle.std.specs.Prelude.{◌≡◌, ◌<◌, ◌≤◌, ℕ, ◌*◌, length};
ghost use Rattle.std.specs.Option.{option_copied};
ghost use Rattle.counting_reader.specs.Counting.{uncounted};
ghost use Rattle.counting_reader.specs.Code.{Reads};
ghost use Rattle.mode_syntax.specs.IntraModes.{intra_of, intra_mode_symbol, default_intra_mode, default_uv_mode, mode_beside, edge_modes, default_luma_modes};
ghost use Rattle.mode_syntax.specs.Code.{one_mode, two_rows, two_columns, four_modes};

use block_plan::{BlockInfo, Prediction};
use counting_reader::CountingReader;
use vp9_tables::{intra_mode_tree, kf_uv_mode, kf_y_mode};
use vp9_types::{BlockSize, IntraMode};

/// The modes of the two 4x4 places above a block's corner and of the two at its left.
#[derive(Clone, Copy, Debug, PartialEq, Eq)]
pub struct EdgeModes {
    pub above_first: IntraMode,
    pub above_second: IntraMode,
    pub left_first: IntraMode,
    pub left_second: IntraMode,
}

/// The mode of a number, 0 to 9.
pub fn intra_of(number: u8) -> IntraMode
    ensures { result ≡ intra_of number }
{
    match number {
        0 => IntraMode::Dc,
        1 => IntraMode::V,
        2 => IntraMode::H,
        3 => IntraMode::D45,
        4 => IntraMode::D135,
        5 => IntraMode::D117,
        6 => IntraMode::D153,
        7 => IntraMode::D207,
        8 => IntraMode::D63,
        _ => IntraMode::Tm,
    }
}

#[tactic(auto, unfolding(crate::specs::IntraModes::intra_mode_symbol), using(crate::proofs::Uncounted::uncounted_bind, crate::proofs::Uncounted::uncounted_done))]
fn read_mode<const COUNTS: bool>(reader: &mut CountingReader<COUNTS>, probs: &[u8; 9]) -> IntraMode
    ensures { Reads (uncounted (intra_mode_symbol probs.now)) reader.old result reader.new }
{
    intra_of(reader.tree(intra_mode_tree(), probs))
}

#[tactic(auto, unfolding(crate::specs::IntraModes::default_intra_mode))]
fn read_default_intra_mode<const COUNTS: bool>(
    reader: &mut CountingReader<COUNTS>,
    above: IntraMode,
    left: IntraMode,
) -> IntraMode
    ensures { Reads (uncounted (default_intra_mode above left)) reader.old result reader.new }
{
    read_mode(reader, kf_y_mode(above, left))
}

#[tactic(auto, unfolding(crate::specs::IntraModes::default_uv_mode))]
pub(crate) fn read_default_uv_mode<const COUNTS: bool>(
    reader: &mut CountingReader<COUNTS>,
    luma: IntraMode,
) -> IntraMode
    ensures { Reads (uncounted (default_uv_mode luma)) reader.old result reader.new }
{
    read_mode(reader, kf_uv_mode(luma))
}

/// The mode of a quarter of a neighbour, DC where it is none of an intra block.
fn mode_beside(block: Option<&BlockInfo>, quarter: usize) -> IntraMode
    requires { quarter < 4 }
    ensures { result ≡ mode_beside (option_copied block.entry) quarter }
{
    match block {
        None => IntraMode::Dc,
        Some(block) => match block.prediction {
            Prediction::Intra(intra) => intra.luma[quarter],
            Prediction::Inter(_) => IntraMode::Dc,
        },
    }
}

/// The modes beside a block, by the blocks above it and at its left.
pub fn edge_modes(above: Option<&BlockInfo>, left: Option<&BlockInfo>) -> EdgeModes
    ensures { result ≡ edge_modes (option_copied above.entry) (option_copied left.entry) }
{
    EdgeModes {
        above_first: mode_beside(above, 2),
        above_second: mode_beside(above, 3),
        left_first: mode_beside(left, 1),
        left_second: mode_beside(left, 3),
    }
}

#[tactic(auto, unfolding(crate::specs::Code::one_mode), using(crate::proofs::Uncounted::uncounted_bind, crate::proofs::Uncounted::uncounted_done))]
fn read_one_mode<const COUNTS: bool>(
    reader: &mut CountingReader<COUNTS>,
    edge: EdgeModes,
) -> [IntraMode; 4]
    ensures { Reads (uncounted (one_mode edge)) reader.old result reader.new }
{
    let mode = read_default_intra_mode(reader, edge.above_first, edge.left_first);
    [mode, mode, mode, mode]
}

#[tactic(auto, unfolding(crate::specs::Code::two_rows), using(crate::proofs::Uncounted::uncounted_bind, crate::proofs::Uncounted::uncounted_done))]
fn read_two_rows<const COUNTS: bool>(
    reader: &mut CountingReader<COUNTS>,
    edge: EdgeModes,
) -> [IntraMode; 4]
    ensures { Reads (uncounted (two_rows edge)) reader.old result reader.new }
{
    let upper = read_default_intra_mode(reader, edge.above_first, edge.left_first);
    let lower = read_default_intra_mode(reader, upper, edge.left_second);
    [upper, upper, lower, lower]
}

#[tactic(auto, unfolding(crate::specs::Code::two_columns), using(crate::proofs::Uncounted::uncounted_bind, crate::proofs::Uncounted::uncounted_done))]
fn read_two_columns<const COUNTS: bool>(
    reader: &mut CountingReader<COUNTS>,
    edge: EdgeModes,
) -> [IntraMode; 4]
    ensures { Reads (uncounted (two_columns edge)) reader.old result reader.new }
{
    let left = read_default_intra_mode(reader, edge.above_first, edge.left_first);
    let right = read_default_intra_mode(reader, edge.above_second, left);
    [left, right, left, right]
}

#[tactic(auto, unfolding(crate::specs::Code::four_modes), using(crate::proofs::Uncounted::uncounted_bind, crate::proofs::Uncounted::uncounted_done))]
fn read_four_modes<const COUNTS: bool>(
    reader: &mut CountingReader<COUNTS>,
    edge: EdgeModes,
) -> [IntraMode; 4]
    ensures { Reads (uncounted (four_modes edge)) reader.old result reader.new }
{
    let first = read_default_intra_mode(reader, edge.above_first, edge.left_first);
    let second = read_default_intra_mode(reader, edge.above_second, first);
    let third = read_default_intra_mode(reader, first, edge.left_second);
    let fourth = read_default_intra_mode(reader, second, third);
    [first, second, third, fourth]
}

/// The modes of the quarters of a block.
#[tactic(auto, unfolding(crate::specs::Code::modes_by_size), using(crate::proofs::BySize::luma_by_size))]
pub(crate) fn read_luma_modes<const COUNTS: bool>(
    reader: &mut CountingReader<COUNTS>,
    size: BlockSize,
    edge: EdgeModes,
) -> [IntraMode; 4]
    ensures { Reads (uncounted (default_luma_modes size edge)) reader.old result reader.new }
{
    match size {
        BlockSize::B4x4 => read_four_modes(reader, edge),
        BlockSize::B4x8 => read_two_columns(reader, edge),
        BlockSize::B8x4 => read_two_rows(reader, edge),
        _ => read_one_mode(reader, edge),
    }
}
