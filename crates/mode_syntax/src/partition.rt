//! How a square is partitioned.

ghost use Rattle.std.specs.Prelude.{◌≡◌, ◌+◌, ◌-◌, ◌*◌, ◌/◌, ◌^◌, ◌<◌, ◌≤◌, ℕ, List, length, nat_lt};
ghost use Rattle.std.specs.List.{list_any};
ghost use Rattle.std.specs.Option.{option_copied};
ghost use Rattle.counting_reader.specs.Counting.{count};
ghost use Rattle.counting_reader.specs.Code.{Reads};
ghost use Rattle.counting_reader.specs.CountedSymbols.{counted_symbol};
ghost use Rattle.prob_contexts.specs.ProbLists.{lists_of};
ghost use Rattle.mode_syntax.specs.Partitions.{partition_of, whole_symbol, edge_symbol, partition_value, partition, partition_probs, width_beside, height_beside, widths_above, heights_left, square_context, partition_at};
ghost use Rattle.prob_contexts.specs.declared.kind.ProbKind.TheVariants as kind;
ghost use Rattle.vp9_tables.specs.Numbers.{partition_number};
ghost use Rattle.vp9_tables.specs.SymbolTrees.{partition_tree};

use crate::square_at::SquareAt;
use block_geometry::{FramePlaces, height_4, square, width_4};
use block_plan::{BlockInfo, Neighbours, above_place, left_place};
use counting_reader::CountingReader;
use frame_setting::FrameSetting;
use prob_contexts::ProbKind;
use vp9_tables::{kf_partition, partition_tree};
use vp9_types::Partition;

/// Width and height in 4s where no block is.
const NO_BLOCK: u8 = 16;

/// The partition of a number, 0 to 3.
fn partition_of(number: u8) -> Partition
    ensures { result ≡ partition_of number }
{
    match number {
        0 => Partition::Whole,
        1 => Partition::Horizontal,
        2 => Partition::Vertical,
        _ => Partition::Split,
    }
}

#[tactic(auto, unfolding(crate::specs::Partitions::whole_symbol), using(counting_reader::proofs::CountingRuns::counting_bind, counting_reader::proofs::CountingRuns::run_settle))]
fn read_whole<const COUNTS: bool>(reader: &mut CountingReader<COUNTS>, probs: &[u8]) -> Partition
    requires { length probs.now ≡ 3 }
    ensures { Reads (whole_symbol probs.now) reader.old result reader.new }
{
    partition_of(reader.tree(partition_tree(), probs))
}

#[tactic(auto, unfolding(crate::specs::Partitions::edge_symbol), using(counting_reader::proofs::CountingRuns::counting_bind, counting_reader::proofs::CountingRuns::run_settle))]
fn read_edge<const COUNTS: bool>(
    reader: &mut CountingReader<COUNTS>,
    p: u8,
    other: Partition,
) -> Partition
    ensures { Reads (edge_symbol p other) reader.old result reader.new }
{
    if reader.bit(p) {
        Partition::Split
    } else {
        other
    }
}

#[tactic(auto, unfolding(crate::specs::Partitions::partition_value), using(counting_reader::proofs::CountingRuns::run_settle))]
fn read_value<const COUNTS: bool>(
    reader: &mut CountingReader<COUNTS>,
    has_rows: bool,
    has_cols: bool,
    probs: &[u8],
) -> Partition
    requires { length probs.now ≡ 3 }
    ensures { Reads (partition_value has_rows has_cols probs.now) reader.old result reader.new }
{
    if has_rows && has_cols {
        return read_whole(reader, probs);
    }
    if has_cols {
        return read_edge(reader, probs[1], Partition::Horizontal);
    }
    if has_rows {
        return read_edge(reader, probs[2], Partition::Vertical);
    }
    Partition::Split
}

/// The number of a partition, 0 to 3.
pub fn partition_number(partition: Partition) -> u16
    ensures is { result ≡ partition_number partition }
    ensures most { result ≤ 3 }
{
    match partition {
        Partition::Whole => 0,
        Partition::Horizontal => 1,
        Partition::Vertical => 2,
        Partition::Split => 3,
    }
}

fn count_partition<const COUNTS: bool>(
    reader: &mut CountingReader<COUNTS>,
    context: u8,
    partition: Partition,
)
    requires context { context < 16 }
    ensures { Reads (count (counted_symbol kind.Partition (3 * context) partition_tree (partition_number partition))) reader.old tt reader.new }
{
    let symbol = partition_number(partition);
    reader.count_unary(ProbKind::Partition, 3 * u16::from(context), 3, symbol);
}

#[tactic(auto, unfolding(crate::specs::Partitions::partition), using(counting_reader::proofs::CountingRuns::counting_bind, counting_reader::proofs::CountingRuns::run_settle))]
fn read_counted<const COUNTS: bool>(
    reader: &mut CountingReader<COUNTS>,
    has_rows: bool,
    has_cols: bool,
    probs: &[u8],
    context: u8,
) -> Partition
    requires probs { length probs.now ≡ 3 }
    requires context { context < 16 }
    ensures { Reads (partition has_rows has_cols probs.now context) reader.old result reader.new }
{
    let partition = read_value(reader, has_rows, has_cols, probs);
    count_partition(reader, context, partition);
    partition
}

fn width_beside(block: Option<&BlockInfo>) -> u8
    ensures { result ≡ width_beside (option_copied block.entry) }
{
    match block {
        Some(block) => width_4(block.size),
        None => NO_BLOCK,
    }
}

fn height_beside(block: Option<&BlockInfo>) -> u8
    ensures { result ≡ height_beside (option_copied block.entry) }
{
    match block {
        Some(block) => height_4(block.size),
        None => NO_BLOCK,
    }
}

/// Whether a block above one of n places, from a column on, is narrower than so many 4s.
#[inline(always)]
fn any_narrower<N: Neighbours>(earlier: &N, row: u32, col: u32, n: u32, bound: u8) -> bool
    requires near { col + n < 2 ^ 32 }
    requires held { (k : ℕ) → k < n → 0 < row → N.holds earlier.now (row - 1) (col + k) }
    ensures { result ≡ list_any (λ width. nat_lt width bound) (widths_above (N.blocks earlier.now) row col n) }
{
    // All are looked at: an early stop is a jump that can't be foretold.
    let mut narrower = false;
    for i in 0..n {
        narrower |= width_beside(above_place(earlier, row, col + i)) < bound;
    }
    narrower
}

/// Whether a block at the left of one of the square's n places, from its first row on, is lower than so many 4s.
#[inline(always)]
fn any_lower<N: Neighbours>(earlier: &N, at: SquareAt, n: u32, bound: u8) -> bool
    requires near { at.row + n < 2 ^ 32 }
    requires held { (k : ℕ) → k < n → at.tile_from < at.col → N.holds earlier.now (at.row + k) (at.col - 1) }
    ensures { result ≡ list_any (λ height. nat_lt height bound) (heights_left (N.blocks earlier.now) at.tile_from at.row at.col n) }
{
    let mut lower = false;
    for i in 0..n {
        lower |= height_beside(left_place(earlier, at.tile_from, at.row + i, at.col)) < bound;
    }
    lower
}

/// The side of a square in places of 8x8.
pub fn side_of(level: u8) -> u32
    requires { level ≤ 3 }
    ensures is { result ≡ 2 ^ level }
    ensures most { result ≤ 8 }
{
    1 << level
}

/// The context of a square's partition, by the blocks above it and at its left: 0 to 15.
#[tactic(auto, unfolding(crate::specs::Partitions::square_context), using(crate::proofs::Anywhere::level_kept))]
pub fn square_context<N: Neighbours>(earlier: &N, frame: FramePlaces, at: SquareAt) -> u8
    requires level { at.level ≤ 3 }
    requires row { at.row < frame.rows }
    requires col { at.col < at.tile_to }
    requires held { (r c : ℕ) → r < frame.rows → at.tile_from ≤ c → c < at.tile_to → N.holds earlier.now r c }
    requires first { at.tile_from ≤ at.col }
    ensures is { result ≡ square_context (N.blocks earlier.now) frame at }
    ensures most { result < 16 }
{
    let side = side_of(at.level);
    let columns = side.min(at.tile_to - at.col);
    let rows = side.min(frame.rows - at.row);
    let size = square(at.level);
    let narrower = any_narrower(earlier, at.row, at.col, columns, width_4(size));
    let lower = any_lower(earlier, at, rows, height_4(size));
    4 * at.level + 2 * u8::from(lower) + u8::from(narrower)
}

/// The probabilities of a partition, of an intra frame or by those that the frame has.
pub fn partition_probs(intra: bool, probs: &[u8; 48], context: u8) -> &[u8]
    requires { context < 16 }
    ensures is { result.now ≡ partition_probs intra probs.now context }
    ensures long { length result.now ≡ 3 }
{
    if intra {
        return kf_partition(context);
    }
    let first = 3 * context as usize;
    &probs[first..first + 3]
}

/// The partition of a square. The square starts inside the frame and its tile; `earlier` has the frame's blocks before it.
/// Intra frames have fixed probabilities.
#[tactic(auto, unfolding(crate::specs::Partitions::partition_at))]
pub fn read_partition<N: Neighbours, const COUNTS: bool>(
    reader: &mut CountingReader<COUNTS>,
    setting: &FrameSetting,
    intra: bool,
    earlier: &N,
    at: SquareAt,
) -> Partition
    requires level { at.level ≤ 3 }
    requires row { at.row < setting.now.places.rows }
    requires first { at.tile_from ≤ at.col }
    requires col { at.col < at.tile_to }
    requires tile { at.tile_to ≤ setting.now.places.cols }
    requires held { (r c : ℕ) → r < setting.now.places.rows → at.tile_from ≤ c → c < at.tile_to → N.holds earlier.now r c }
    ensures { Reads (partition_at intra (lists_of setting.now.contexts).partitions (N.blocks earlier.now) setting.now.places at) reader.old result reader.new }
{
    let frame = setting.places;
    let context = square_context(earlier, frame, at);
    let probs = partition_probs(intra, &setting.contexts.partitions, context);
    let half = side_of(at.level) / 2;
    let has_rows = half < frame.rows - at.row;
    let has_cols = half < frame.cols - at.col;
    read_counted(reader, has_rows, has_cols, probs, context)
}
