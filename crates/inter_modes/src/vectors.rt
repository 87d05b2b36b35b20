//! The vectors of inter blocks.

ghost use Rattle.std.specs.Prelude.{◌≡◌, ◌<◌, ◌≤◌, ◌∷◌, [], Some, IfOk};
ghost use Rattle.std.specs.Option.{option_copied};
ghost use Rattle.counting_reader.specs.Code.{Reads};
ghost use Rattle.mv_prediction.specs.Code.{AreSmall};
ghost use Rattle.mv_prediction.specs.Vectors.{IsSmallVector};
ghost use Rattle.inter_modes.specs.Code.{MaySearch, AreSmallBefore, sources_in};
ghost use Rattle.inter_modes.specs.BlockVectors.{inter_mode, vector_of_mode, near_of_block, near_of_quarter, block_vector, block_vectors, second_best, best_mv, of_list, quarter_vector, quarter_vectors, quarter};

use crate::quarters::{Quarter, QuartersBefore};
use block_plan::{Mv, Neighbours, ReferenceFrames};
use counting_reader::{CountingReader, nodes_from};
use mv_prediction::{MvSearch, NearVectors, candidates, near_vectors, sub_block_vectors};
use mv_syntax::read_new_vector;
use prob_contexts::{ProbKind, VectorProbs};
use vp9_types::{InterMode, ReferenceFrame, Rule};

/// The vector that is zero.
pub const NO_VECTOR: Mv = Mv { row: 0, column: 0 };

/// Those of a quarter that isn't read.
pub const NO_VECTORS: [Mv; 2] = [NO_VECTOR; 2];

/// What the vectors of a block are read by: probabilities, of vectors and of modes with their context, whether its frame
/// allows high precision, the block, the blocks before it, and those of the frame before.
#[derive(Drop)]
pub struct Sources<'a, N, Q> {
    pub probs: &'a VectorProbs,
    pub modes: &'a [u8; 21],
    pub context: u8,
    pub high_precision: bool,
    pub search: MvSearch,
    pub earlier: &'a N,
    pub before: Option<&'a Q>,
}

/// Which of a block's vectors is wanted: that of a reference, in the first list or the second.
#[derive(Clone, Copy, Debug, PartialEq, Eq)]
pub struct WantedVector {
    pub reference: ReferenceFrame,
    pub list: usize,
}

/// A block's mode, bool by bool: a loop over so small a tree costs more.
#[tactic(auto, unfolding(crate::specs::BlockVectors::inter_mode, counting_reader::specs::CountedSymbols::counted_tree), using(counting_reader::proofs::CountingRuns::counting_bind, counting_reader::proofs::CountingRuns::run_settle))]
pub(crate) fn read_inter_mode<const COUNTS: bool>(
    reader: &mut CountingReader<COUNTS>,
    probs: &[u8; 21],
    context: u8,
) -> InterMode
    requires { context ≤ 6 }
    ensures { Reads (inter_mode probs.now context) reader.old result reader.new }
{
    let first = 3 * u16::from(context);
    let nodes = nodes_from(probs, first);
    if !reader.counted_bit(ProbKind::InterMode, first, nodes[0]) {
        return InterMode::Zero;
    }
    if !reader.counted_bit(ProbKind::InterMode, first + 1, nodes[1]) {
        return InterMode::Nearest;
    }
    if reader.counted_bit(ProbKind::InterMode, first + 2, nodes[2]) {
        InterMode::New
    } else {
        InterMode::Near
    }
}

/// The nearest and the near vector of a block.
#[inline(always)]
pub fn near_of_block<N: Neighbours, Q: Neighbours>(
    src: &Sources<'_, N, Q>,
    reference: ReferenceFrame,
) -> NearVectors
    requires may { MaySearch N.holds N.blocks Q.holds Q.blocks src.now.earlier.now (option_copied src.now.before) src.now.search }
    ensures is { result ≡ near_of_block (sources_in N.blocks Q.blocks src.now) reference }
    ensures nearest { IsSmallVector result.nearest }
    ensures near { IsSmallVector result.near }
{
    let two = candidates(&src.search, reference, None, src.earlier, src.before);
    near_vectors(src.high_precision, &two)
}

/// Those of a quarter.
#[inline(always)]
pub fn near_of_quarter<N: Neighbours, Q: Neighbours>(
    src: &Sources<'_, N, Q>,
    reference: ReferenceFrame,
    k: u8,
    quarters: &[Mv; 3],
) -> NearVectors
    requires k { k < 4 }
    requires may { MaySearch N.holds N.blocks Q.holds Q.blocks src.now.earlier.now (option_copied src.now.before) src.now.search }
    requires small { AreSmall quarters.now }
    ensures is { result ≡ near_of_quarter (sources_in N.blocks Q.blocks src.now) reference k quarters.now }
    ensures nearest { IsSmallVector result.nearest }
    ensures near { IsSmallVector result.near }
{
    let two = candidates(&src.search, reference, Some(k), src.earlier, src.before);
    sub_block_vectors(k, &two, quarters)
}

/// The nearest vector of a quarter: of the first one alone it is a candidate.
#[inline(always)]
#[tactic(auto, unfolding(mv_prediction::specs::SubBlocks::sub_block_vectors))]
pub fn nearest_of_quarter<N: Neighbours, Q: Neighbours>(
    src: &Sources<'_, N, Q>,
    reference: ReferenceFrame,
    k: u8,
    quarters: &[Mv; 3],
) -> Mv
    requires k { k < 4 }
    requires may { MaySearch N.holds N.blocks Q.holds Q.blocks src.now.earlier.now (option_copied src.now.before) src.now.search }
    requires small { AreSmall quarters.now }
    ensures is { result ≡ (near_of_quarter (sources_in N.blocks Q.blocks src.now) reference k quarters.now).nearest }
    ensures small { IsSmallVector result }
{
    match k {
        0 => near_of_quarter(src, reference, k, quarters).nearest,
        1 | 2 => quarters[0],
        _ => quarters[2],
    }
}

/// A block's vector of a reference.
#[inline(always)]
#[tactic(auto, unfolding(crate::specs::BlockVectors::block_vector, crate::specs::BlockVectors::vector_of_mode), using(counting_reader::proofs::CountingRuns::run_settle))]
fn read_block_vector<N: Neighbours, Q: Neighbours, const COUNTS: bool>(
    reader: &mut CountingReader<COUNTS>,
    src: &Sources<'_, N, Q>,
    mode: InterMode,
    reference: ReferenceFrame,
) -> Result<Mv, Rule>
    requires may { MaySearch N.holds N.blocks Q.holds Q.blocks src.now.earlier.now (option_copied src.now.before) src.now.search }
    ensures read { Reads (block_vector (sources_in N.blocks Q.blocks src.now) mode reference) reader.old result reader.new }
    ensures small { IfOk result IsSmallVector }
{
    match mode {
        InterMode::Zero => Ok(NO_VECTOR),
        InterMode::Nearest => Ok(near_of_block(src, reference).nearest),
        InterMode::Near => Ok(near_of_block(src, reference).near),
        InterMode::New => {
            let best = near_of_block(src, reference).nearest;
            read_new_vector(reader, src.probs, src.high_precision, best)
        }
    }
}

/// A block's vectors of its references.
#[tactic(auto, unfolding(crate::specs::BlockVectors::block_vectors, crate::specs::BlockVectors::with_second), using(counting_reader::proofs::CountingRuns::counting_bind, counting_reader::proofs::CountingRuns::run_settle))]
pub(crate) fn read_block_vectors<N: Neighbours, Q: Neighbours, const COUNTS: bool>(
    reader: &mut CountingReader<COUNTS>,
    src: &Sources<'_, N, Q>,
    mode: InterMode,
    references: ReferenceFrames,
) -> Result<[Mv; 2], Rule>
    requires may { MaySearch N.holds N.blocks Q.holds Q.blocks src.now.earlier.now (option_copied src.now.before) src.now.search }
    ensures read { Reads (block_vectors (sources_in N.blocks Q.blocks src.now) mode references) reader.old result reader.new }
    ensures small { IfOk result AreSmall }
{
    let first = match read_block_vector(reader, src, mode, references.first) {
        Ok(first) => first,
        Err(rule) => return Err(rule),
    };
    match references.second {
        None => Ok([first, NO_VECTOR]),
        Some(reference) => match read_block_vector(reader, src, mode, reference) {
            Ok(second) => Ok([first, second]),
            Err(rule) => Err(rule),
        },
    }
}

/// The best vectors of a block below 8x8.
pub fn best_mv<N: Neighbours, Q: Neighbours>(
    src: &Sources<'_, N, Q>,
    references: ReferenceFrames,
) -> [Mv; 2]
    requires may { MaySearch N.holds N.blocks Q.holds Q.blocks src.now.earlier.now (option_copied src.now.before) src.now.search }
    ensures is { result ≡ best_mv (sources_in N.blocks Q.blocks src.now) references }
    ensures small { AreSmall result }
{
    let first = near_of_block(src, references.first).nearest;
    match references.second {
        None => [first, NO_VECTOR],
        Some(reference) => [first, near_of_block(src, reference).nearest],
    }
}

/// The vectors of a list of the quarters before one.
pub fn of_list(list: usize, rows: &[[Mv; 2]; 3]) -> [Mv; 3]
    requires { list < 2 }
    ensures { result ≡ of_list list rows.now }
{
    [rows[0][list], rows[1][list], rows[2][list]]
}

/// A quarter's vector of a reference, of the first list or the second.
#[inline(always)]
#[tactic(auto, unfolding(crate::specs::BlockVectors::quarter_vector, crate::specs::BlockVectors::vector_of_mode), using(counting_reader::proofs::CountingRuns::run_settle))]
fn read_quarter_vector<N: Neighbours, Q: Neighbours, const COUNTS: bool>(
    reader: &mut CountingReader<COUNTS>,
    src: &Sources<'_, N, Q>,
    mode: InterMode,
    wanted: WantedVector,
    k: u8,
    before: &QuartersBefore,
) -> Result<Mv, Rule>
    requires list { wanted.list < 2 }
    requires k { k < 4 }
    requires may { MaySearch N.holds N.blocks Q.holds Q.blocks src.now.earlier.now (option_copied src.now.before) src.now.search }
    requires small { AreSmallBefore before.now }
    ensures read { Reads (quarter_vector (sources_in N.blocks Q.blocks src.now) mode wanted.reference wanted.list k before.now) reader.old result reader.new }
    ensures small { IfOk result IsSmallVector }
{
    let WantedVector { reference, list } = wanted;
    let quarters = of_list(list, &before.rows);
    match mode {
        InterMode::Zero => Ok(NO_VECTOR),
        InterMode::Nearest => Ok(nearest_of_quarter(src, reference, k, &quarters)),
        InterMode::Near => Ok(near_of_quarter(src, reference, k, &quarters).near),
        InterMode::New => {
            read_new_vector(reader, src.probs, src.high_precision, before.best[list])
        }
    }
}

/// A quarter's vectors of its block's references.
#[tactic(auto, unfolding(crate::specs::BlockVectors::quarter_vectors, crate::specs::BlockVectors::with_second), using(counting_reader::proofs::CountingRuns::counting_bind, counting_reader::proofs::CountingRuns::run_settle))]
fn read_quarter_vectors<N: Neighbours, Q: Neighbours, const COUNTS: bool>(
    reader: &mut CountingReader<COUNTS>,
    src: &Sources<'_, N, Q>,
    mode: InterMode,
    references: ReferenceFrames,
    k: u8,
    before: &QuartersBefore,
) -> Result<[Mv; 2], Rule>
    requires k { k < 4 }
    requires may { MaySearch N.holds N.blocks Q.holds Q.blocks src.now.earlier.now (option_copied src.now.before) src.now.search }
    requires small { AreSmallBefore before.now }
    ensures read { Reads (quarter_vectors (sources_in N.blocks Q.blocks src.now) mode references k before.now) reader.old result reader.new }
    ensures small { IfOk result AreSmall }
{
    let wanted = WantedVector {
        reference: references.first,
        list: 0,
    };
    let first = match read_quarter_vector(reader, src, mode, wanted, k, before) {
        Ok(first) => first,
        Err(rule) => return Err(rule),
    };
    match references.second {
        None => Ok([first, NO_VECTOR]),
        Some(reference) => {
            let wanted = WantedVector { reference, list: 1 };
            match read_quarter_vector(reader, src, mode, wanted, k, before) {
                Ok(second) => Ok([first, second]),
                Err(rule) => Err(rule),
            }
        }
    }
}

/// A quarter's mode and vectors.
#[tactic(auto, unfolding(crate::specs::BlockVectors::quarter), using(counting_reader::proofs::CountingRuns::counting_bind, counting_reader::proofs::CountingRuns::run_settle))]
pub(crate) fn read_quarter<N: Neighbours, Q: Neighbours, const COUNTS: bool>(
    reader: &mut CountingReader<COUNTS>,
    src: &Sources<'_, N, Q>,
    references: ReferenceFrames,
    k: u8,
    before: &QuartersBefore,
) -> Result<Quarter, Rule>
    requires context { src.now.context ≤ 6 }
    requires k { k < 4 }
    requires may { MaySearch N.holds N.blocks Q.holds Q.blocks src.now.earlier.now (option_copied src.now.before) src.now.search }
    requires small { AreSmallBefore before.now }
    ensures read { Reads (quarter (sources_in N.blocks Q.blocks src.now) src.now.modes.now src.now.context references k before.now) reader.old result reader.new }
    ensures small { IfOk result (λ q. AreSmall q.vectors) }
{
    let mode = read_inter_mode(reader, src.modes, src.context);
    match read_quarter_vectors(reader, src, mode, references, k, before) {
        Ok(vectors) => Ok(Quarter { mode, vectors }),
        Err(rule) => Err(rule),
    }
}
