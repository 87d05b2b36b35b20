//! Quarters of blocks below 8x8.

ghost use Rattle.std.specs.Prelude.{◌≡◌, ◌<◌, ◌≤◌, true, IfOk};
ghost use Rattle.std.specs.List.{All};
ghost use Rattle.std.specs.Option.{option_copied};
ghost use Rattle.counting_reader.specs.Code.{Reads};
ghost use Rattle.block_geometry.specs.BlockSizes.{is_below_8x8};
ghost use Rattle.mv_prediction.specs.Code.{AreSmall};
ghost use Rattle.inter_modes.specs.Code.{MaySearch, AreSmallBefore, AreSmallQuarters, four_quarters, quarter_columns, quarter_rows, sources_in};
ghost use Rattle.inter_modes.specs.BlockVectors.{before_of, quarters};

use crate::vectors::{NO_VECTORS, Sources, best_mv, read_quarter};
use block_plan::{Mv, Neighbours, ReferenceFrames};
use counting_reader::CountingReader;
use vp9_types::{BlockSize, InterMode, Rule};

/// The mode of a quarter, and its vectors, of the first and the second reference.
#[derive(Clone, Copy, Debug, PartialEq, Eq)]
pub struct Quarter {
    pub mode: InterMode,
    pub vectors: [Mv; 2],
}

/// What a quarter's vectors go by: the best ones of its block, and those of the three quarters before the last, as far as
/// they are read.
#[derive(Clone, Copy, Debug, PartialEq, Eq)]
pub struct QuartersBefore {
    pub best: [Mv; 2],
    pub rows: [[Mv; 2]; 3],
}

/// The quarters before one: none, the first, the first two or the first three, and no vectors for the others.
pub fn before_of(best: [Mv; 2], q: [Mv; 2], r: [Mv; 2], t: [Mv; 2]) -> QuartersBefore
    requires best { AreSmall best }
    requires first { AreSmall q }
    requires second { AreSmall r }
    requires third { AreSmall t }
    ensures is { result ≡ before_of best q r t }
    ensures small { AreSmallBefore result }
{
    QuartersBefore {
        best,
        rows: [q, r, t],
    }
}

/// Those of a block of 4x4, one after another.
#[tactic(auto, unfolding(crate::specs::Code::four_quarters), using(counting_reader::proofs::CountingRuns::counting_bind, counting_reader::proofs::CountingRuns::run_settle))]
fn read_four<N: Neighbours, Q: Neighbours, const COUNTS: bool>(
    reader: &mut CountingReader<COUNTS>,
    src: &Sources<'_, N, Q>,
    refs: ReferenceFrames,
    best: [Mv; 2],
) -> Result<[Quarter; 4], Rule>
    requires context { src.now.context ≤ 6 }
    requires may { MaySearch N.holds N.blocks Q.holds Q.blocks src.now.earlier.now (option_copied src.now.before) src.now.search }
    requires small { AreSmall best }
    ensures read { Reads (four_quarters (sources_in N.blocks Q.blocks src.now) src.now.modes.now src.now.context refs best) reader.old result reader.new }
    ensures small { IfOk result AreSmallQuarters }
{
    let none = NO_VECTORS;
    let q = read_quarter(reader, src, refs, 0, &before_of(best, none, none, none))?;
    let r = read_quarter(
        reader,
        src,
        refs,
        1,
        &before_of(best, q.vectors, none, none),
    )?;
    let before = before_of(best, q.vectors, r.vectors, none);
    let t = read_quarter(reader, src, refs, 2, &before)?;
    let before = before_of(best, q.vectors, r.vectors, t.vectors);
    let u = read_quarter(reader, src, refs, 3, &before)?;
    Ok([q, r, t, u])
}

/// Those of a block of 4x8: one at the left and one at the right.
#[tactic(auto, unfolding(crate::specs::Code::quarter_columns), using(counting_reader::proofs::CountingRuns::counting_bind, counting_reader::proofs::CountingRuns::run_settle))]
fn read_two_columns<N: Neighbours, Q: Neighbours, const COUNTS: bool>(
    reader: &mut CountingReader<COUNTS>,
    src: &Sources<'_, N, Q>,
    refs: ReferenceFrames,
    best: [Mv; 2],
) -> Result<[Quarter; 4], Rule>
    requires context { src.now.context ≤ 6 }
    requires may { MaySearch N.holds N.blocks Q.holds Q.blocks src.now.earlier.now (option_copied src.now.before) src.now.search }
    requires small { AreSmall best }
    ensures read { Reads (quarter_columns (sources_in N.blocks Q.blocks src.now) src.now.modes.now src.now.context refs best) reader.old result reader.new }
    ensures small { IfOk result AreSmallQuarters }
{
    let none = NO_VECTORS;
    let q = read_quarter(reader, src, refs, 0, &before_of(best, none, none, none))?;
    let r = read_quarter(
        reader,
        src,
        refs,
        1,
        &before_of(best, q.vectors, none, none),
    )?;
    Ok([q, r, q, r])
}

/// Those of a block of 8x4: an upper and a lower one.
#[tactic(auto, unfolding(crate::specs::Code::quarter_rows), using(counting_reader::proofs::CountingRuns::counting_bind, counting_reader::proofs::CountingRuns::run_settle))]
fn read_two_rows<N: Neighbours, Q: Neighbours, const COUNTS: bool>(
    reader: &mut CountingReader<COUNTS>,
    src: &Sources<'_, N, Q>,
    refs: ReferenceFrames,
    best: [Mv; 2],
) -> Result<[Quarter; 4], Rule>
    requires context { src.now.context ≤ 6 }
    requires may { MaySearch N.holds N.blocks Q.holds Q.blocks src.now.earlier.now (option_copied src.now.before) src.now.search }
    requires small { AreSmall best }
    ensures read { Reads (quarter_rows (sources_in N.blocks Q.blocks src.now) src.now.modes.now src.now.context refs best) reader.old result reader.new }
    ensures small { IfOk result AreSmallQuarters }
{
    let none = NO_VECTORS;
    let q = read_quarter(reader, src, refs, 0, &before_of(best, none, none, none))?;
    let before = before_of(best, q.vectors, q.vectors, none);
    let r = read_quarter(reader, src, refs, 2, &before)?;
    Ok([q, q, r, r])
}

/// The quarters of a block below 8x8.
#[tactic(auto, unfolding(crate::specs::Code::quarters_by_size), using(crate::proofs::QuartersBySize::quarters_of_size))]
pub(crate) fn read_quarters<N: Neighbours, Q: Neighbours, const COUNTS: bool>(
    reader: &mut CountingReader<COUNTS>,
    src: &Sources<'_, N, Q>,
    refs: ReferenceFrames,
) -> Result<[Quarter; 4], Rule>
    requires below { is_below_8x8 src.now.search.at.size ≡ true }
    requires context { src.now.context ≤ 6 }
    requires may { MaySearch N.holds N.blocks Q.holds Q.blocks src.now.earlier.now (option_copied src.now.before) src.now.search }
    ensures read { Reads (quarters (sources_in N.blocks Q.blocks src.now) src.now.modes.now src.now.context refs src.now.search.at.size) reader.old result reader.new }
    ensures small { IfOk result AreSmallQuarters }
{
    let best = best_mv(src, refs);
    match src.search.at.size {
        BlockSize::B4x8 => read_two_columns(reader, src, refs, best),
        BlockSize::B8x4 => read_two_rows(reader, src, refs, best),
        _ => read_four(reader, src, refs, best),
    }
}
