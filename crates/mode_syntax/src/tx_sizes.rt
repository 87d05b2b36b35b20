//! Transform sizes of blocks.

ghost use Rattle.std.specs.Prelude.{◌≡◌, ◌+◌, ◌*◌, ◌^◌, ◌<◌, ◌≤◌, ℕ, drop, length};
ghost use Rattle.std.specs.Option.{option_copied};
ghost use Rattle.vp9_types.specs.declared.block.TxSize.TheVariants as size;
ghost use Rattle.vp9_tables.specs.Numbers.{tx_number, tx_of};
ghost use Rattle.vp9_tables.specs.BlockTables.{greatest_of};
ghost use Rattle.prob_contexts.specs.ProbLists.{tx_lists};
ghost use Rattle.block_geometry.specs.BlockSizes.{greatest_allowed};
ghost use Rattle.counting_reader.specs.Code.{Reads};
ghost use Rattle.mode_syntax.specs.Elements.{tx_beside, tx_sum, tx_context, tx_symbol, is_selected, read_tx_size};

use block_geometry::{greatest_tx, is_below_8x8};
use block_plan::BlockInfo;
use counting_reader::{CountingReader, nodes_from};
use prob_contexts::{ProbKind, TxProbs};
use vp9_tables::{max_tx_size, tx8_tree, tx16_tree, tx32_tree};
use vp9_types::{BlockSize, TxMode, TxSize};

/// The transform of a number, 0 to 3.
fn tx_of(number: u8) -> TxSize
    requires { number ≤ 3 }
    ensures is { result ≡ tx_of number }
    ensures number { tx_number result ≡ number }
{
    match number {
        0 => TxSize::T4x4,
        1 => TxSize::T8x8,
        2 => TxSize::T16x16,
        _ => TxSize::T32x32,
    }
}

#[tactic(auto, using(block_plan::proofs::Transforms::tx_of_number))]
fn greatest_of(size: BlockSize) -> TxSize
    ensures is { result ≡ tx_of (greatest_of size) }
    ensures number { tx_number result ≡ greatest_of size }
{
    max_tx_size(size)
}

/// The greatest transform of a block in a frame of a mode.
#[tactic(auto, using(block_plan::proofs::Transforms::tx_of_number))]
pub fn greatest_allowed(mode: TxMode, size: BlockSize) -> TxSize
    ensures is { result ≡ tx_of (greatest_allowed mode size) }
    ensures fits { tx_number result ≤ greatest_of size }
{
    greatest_tx(mode, size)
}

fn tx_beside(greatest: u8, block: &BlockInfo) -> u8
    requires { greatest ≤ 3 }
    ensures is { result ≡ tx_beside greatest block.now }
    ensures most { result ≤ 3 }
{
    if block.skip { greatest } else { block.tx as u8 }
}

fn tx_sum(greatest: u8, above: Option<&BlockInfo>, left: Option<&BlockInfo>) -> u8
    requires { greatest ≤ 3 }
    ensures { result ≡ tx_sum greatest (option_copied above.entry) (option_copied left.entry) }
{
    match (above, left) {
        (Some(above), Some(left)) => tx_beside(greatest, above) + tx_beside(greatest, left),
        (Some(above), None) => 2 * tx_beside(greatest, above),
        (None, Some(left)) => 2 * tx_beside(greatest, left),
        (None, None) => 2 * greatest,
    }
}

/// The context of a block's transform size, 0 or 1.
pub fn tx_context(size: BlockSize, above: Option<&BlockInfo>, left: Option<&BlockInfo>) -> u8
    ensures is { result ≡ tx_context size (option_copied above.entry) (option_copied left.entry) }
    ensures most { result ≤ 1 }
{
    let greatest = max_tx_size(size) as u8;
    u8::from(greatest < tx_sum(greatest, above, left))
}

/// A coded transform size up to 8x8.
#[tactic(auto, unfolding(crate::specs::Elements::tx_symbol), using(counting_reader::proofs::CountingRuns::counting_bind, counting_reader::proofs::CountingRuns::run_settle, crate::proofs::TxSizes::one_of))]
fn read_up_to_8x8<const COUNTS: bool>(
    reader: &mut CountingReader<COUNTS>,
    probs: &TxProbs,
    context: u8,
) -> TxSize
    requires context { context ≤ 1 }
    ensures read { Reads (tx_symbol (tx_lists probs.now) size.T8x8 context) reader.old result reader.new }
    ensures fits { tx_number result ≤ 1 }
{
    let first = u16::from(context);
    let probs = nodes_from(&probs.of_8x8, first);
    let number = reader.counted_tree(ProbKind::Tx8x8, first, tx8_tree(), probs);
    tx_of(number)
}

/// A coded transform size up to 16x16.
#[tactic(auto, unfolding(crate::specs::Elements::tx_symbol), using(counting_reader::proofs::CountingRuns::counting_bind, counting_reader::proofs::CountingRuns::run_settle))]
fn read_up_to_16x16<const COUNTS: bool>(
    reader: &mut CountingReader<COUNTS>,
    probs: &TxProbs,
    context: u8,
) -> TxSize
    requires context { context ≤ 1 }
    ensures read { Reads (tx_symbol (tx_lists probs.now) size.T16x16 context) reader.old result reader.new }
    ensures fits { tx_number result ≤ 2 }
{
    let first = 2 * u16::from(context);
    let probs = nodes_from(&probs.of_16x16, first);
    let number = reader.counted_tree(ProbKind::Tx16x16, first, tx16_tree(), probs);
    tx_of(number)
}

/// A coded transform size up to 32x32.
#[tactic(auto, unfolding(crate::specs::Elements::tx_symbol), using(counting_reader::proofs::CountingRuns::counting_bind, counting_reader::proofs::CountingRuns::run_settle))]
fn read_up_to_32x32<const COUNTS: bool>(
    reader: &mut CountingReader<COUNTS>,
    probs: &TxProbs,
    context: u8,
) -> TxSize
    requires context { context ≤ 1 }
    ensures read { Reads (tx_symbol (tx_lists probs.now) size.T32x32 context) reader.old result reader.new }
    ensures fits { tx_number result ≤ 3 }
{
    let first = 3 * u16::from(context);
    let probs = nodes_from(&probs.of_32x32, first);
    let number = reader.counted_tree(ProbKind::Tx32x32, first, tx32_tree(), probs);
    tx_of(number)
}

/// A coded transform size of a block of 8x8 or more.
fn read_tx_symbol<const COUNTS: bool>(
    reader: &mut CountingReader<COUNTS>,
    probs: &TxProbs,
    greatest: TxSize,
    context: u8,
) -> TxSize
    requires some { 1 ≤ tx_number greatest }
    requires context { context ≤ 1 }
    ensures read { Reads (tx_symbol (tx_lists probs.now) greatest context) reader.old result reader.new }
    ensures fits { tx_number result ≤ tx_number greatest }
{
    match greatest {
        TxSize::T4x4 | TxSize::T8x8 => read_up_to_8x8(reader, probs, context),
        TxSize::T16x16 => read_up_to_16x16(reader, probs, context),
        TxSize::T32x32 => read_up_to_32x32(reader, probs, context),
    }
}

/// The transform size of an intra block.
#[tactic(auto, unfolding(crate::specs::Elements::read_tx_size), using(counting_reader::proofs::CountingRuns::run_settle, crate::proofs::TxSizes::some_transform))]
pub fn read_tx_size<const COUNTS: bool>(
    reader: &mut CountingReader<COUNTS>,
    mode: TxMode,
    probs: &TxProbs,
    context: u8,
    size: BlockSize,
) -> TxSize
    requires context { context ≤ 1 }
    ensures read { Reads (read_tx_size mode (tx_lists probs.now) context size) reader.old result reader.new }
    ensures fits { tx_number result ≤ greatest_of size }
{
    if matches!(mode, TxMode::Selected) && !is_below_8x8(size) {
        return read_tx_symbol(reader, probs, greatest_of(size), context);
    }
    greatest_allowed(mode, size)
}
