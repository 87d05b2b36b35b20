//! Intra blocks of inter frames.

ghost use Rattle.std.specs.Prelude.{◌≡◌, ◌<◌, ◌≤◌, ◌+◌, drop, length};
ghost use Rattle.counting_reader.specs.Code.{Reads};
ghost use Rattle.inter_modes.specs.IntraBlocks.{intra_mode, uv_mode, luma_modes, intra_block_mode_info};
ghost use Rattle.inter_modes.specs.Code.{one_coded_mode, coded_mode_rows, coded_mode_columns, four_coded_modes};

use block_plan::IntraPrediction;
use counting_reader::{CountingReader, nodes_from};
use mode_syntax::intra_of;
use prob_contexts::ProbKind;
use vp9_tables::{intra_mode_tree, size_group};
use vp9_types::{BlockSize, IntraMode};

#[tactic(auto, unfolding(crate::specs::IntraBlocks::intra_mode), using(counting_reader::proofs::CountingRuns::counting_bind, counting_reader::proofs::CountingRuns::run_settle))]
fn read_mode<const COUNTS: bool>(
    reader: &mut CountingReader<COUNTS>,
    probs: &[u8; 36],
    group: u8,
) -> IntraMode
    requires { group ≤ 3 }
    ensures { Reads (intra_mode probs.now group) reader.old result reader.new }
{
    let first = 9 * u16::from(group);
    let nodes = nodes_from(probs, first);
    intra_of(reader.counted_tree(ProbKind::YMode, first, intra_mode_tree(), nodes))
}

#[tactic(auto, unfolding(crate::specs::IntraBlocks::uv_mode), using(counting_reader::proofs::CountingRuns::counting_bind, counting_reader::proofs::CountingRuns::run_settle))]
fn read_uv_mode<const COUNTS: bool>(
    reader: &mut CountingReader<COUNTS>,
    probs: &[u8; 90],
    luma: IntraMode,
) -> IntraMode
    ensures { Reads (uv_mode probs.now luma) reader.old result reader.new }
{
    let first = 9 * luma as u16;
    let nodes = nodes_from(probs, first);
    intra_of(reader.counted_tree(ProbKind::UvMode, first, intra_mode_tree(), nodes))
}

#[tactic(auto, unfolding(crate::specs::Code::one_coded_mode), using(counting_reader::proofs::CountingRuns::counting_bind, counting_reader::proofs::CountingRuns::run_settle))]
fn read_one_mode<const COUNTS: bool>(
    reader: &mut CountingReader<COUNTS>,
    probs: &[u8; 36],
    group: u8,
) -> [IntraMode; 4]
    requires { group ≤ 3 }
    ensures { Reads (one_coded_mode probs.now group) reader.old result reader.new }
{
    let mode = read_mode(reader, probs, group);
    [mode, mode, mode, mode]
}

#[tactic(auto, unfolding(crate::specs::Code::coded_mode_rows), using(counting_reader::proofs::CountingRuns::counting_bind, counting_reader::proofs::CountingRuns::run_settle))]
fn read_two_rows<const COUNTS: bool>(
    reader: &mut CountingReader<COUNTS>,
    probs: &[u8; 36],
) -> [IntraMode; 4]
    ensures { Reads (coded_mode_rows probs.now) reader.old result reader.new }
{
    let upper = read_mode(reader, probs, 0);
    let lower = read_mode(reader, probs, 0);
    [upper, upper, lower, lower]
}

#[tactic(auto, unfolding(crate::specs::Code::coded_mode_columns), using(counting_reader::proofs::CountingRuns::counting_bind, counting_reader::proofs::CountingRuns::run_settle))]
fn read_two_columns<const COUNTS: bool>(
    reader: &mut CountingReader<COUNTS>,
    probs: &[u8; 36],
) -> [IntraMode; 4]
    ensures { Reads (coded_mode_columns probs.now) reader.old result reader.new }
{
    let left = read_mode(reader, probs, 0);
    let right = read_mode(reader, probs, 0);
    [left, right, left, right]
}

#[tactic(auto, unfolding(crate::specs::Code::four_coded_modes), using(counting_reader::proofs::CountingRuns::counting_bind, counting_reader::proofs::CountingRuns::run_settle))]
fn read_four_modes<const COUNTS: bool>(
    reader: &mut CountingReader<COUNTS>,
    probs: &[u8; 36],
) -> [IntraMode; 4]
    ensures { Reads (four_coded_modes probs.now) reader.old result reader.new }
{
    let first = read_mode(reader, probs, 0);
    let second = read_mode(reader, probs, 0);
    let third = read_mode(reader, probs, 0);
    let fourth = read_mode(reader, probs, 0);
    [first, second, third, fourth]
}

#[tactic(auto, unfolding(crate::specs::Code::coded_by_size), using(crate::proofs::QuartersBySize::luma_of_size))]
fn read_luma_modes<const COUNTS: bool>(
    reader: &mut CountingReader<COUNTS>,
    probs: &[u8; 36],
    size: BlockSize,
) -> [IntraMode; 4]
    ensures { Reads (luma_modes probs.now size) reader.old result reader.new }
{
    match size {
        BlockSize::B4x4 => read_four_modes(reader, probs),
        BlockSize::B4x8 => read_two_columns(reader, probs),
        BlockSize::B8x4 => read_two_rows(reader, probs),
        _ => read_one_mode(reader, probs, size_group(size)),
    }
}

/// The modes of an intra block.
#[tactic(auto, unfolding(crate::specs::IntraBlocks::intra_block_mode_info), using(counting_reader::proofs::CountingRuns::counting_bind, counting_reader::proofs::CountingRuns::run_settle))]
pub(crate) fn read_intra_prediction<const COUNTS: bool>(
    reader: &mut CountingReader<COUNTS>,
    y_modes: &[u8; 36],
    uv_modes: &[u8; 90],
    size: BlockSize,
) -> IntraPrediction
    ensures { Reads (intra_block_mode_info y_modes.now uv_modes.now size) reader.old result reader.new }
{
    let luma = read_luma_modes(reader, y_modes, size);
    let chroma = read_uv_mode(reader, uv_modes, luma[3]);
    IntraPrediction { luma, chroma }
}
