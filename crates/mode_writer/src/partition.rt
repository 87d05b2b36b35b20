//! How a square is partitioned.

ghost use Rattle.std.specs.Prelude.{◌≡◌, ◌+◌, ◌<◌, ◌≤◌, ◌⊎◌, ℕ, IfOk, length};
ghost use Rattle.vp9_types.specs.declared.block.Partition.TheVariants.{Split};
ghost use Rattle.prob_contexts.specs.ProbLists.{lists_of};
ghost use Rattle.bool_encoder.specs.CountedBools.{PutsValue};
ghost use Rattle.mode_syntax.specs.Partitions.{whole_symbol, edge_symbol, partition_value, partition, partition_at};
ghost use Rattle.mode_writer.specs.ModeFits.{CanPartition, CanPartitionAt};

use block_plan::Neighbours;
use bool_encoder::{BoolEncoder, put_flag, put_tree};
use frame_setting::FrameSetting;
use mode_syntax::{SquareAt, partition_probs, side_of, square_context};
use std::alloc::AllocError;
use vp9_tables::partition_tree;
use vp9_types::Partition;

#[tactic(auto, unfolding(mode_syntax::specs::Partitions::whole_symbol), using(bool_encoder::proofs::CountedPuts::valued_in_order, bool_encoder::proofs::CountedPuts::valued_settle, bool_encoder::proofs::CountedPuts::valued_uncounted, vp9_types::proofs::Binds::writes_bind, crate::proofs::Numbers::partition_of_its_number))]
fn put_whole(
    encoder: &mut BoolEncoder,
    probs: &[u8],
    partition: Partition,
) -> Result<(), AllocError>
    requires { length probs.now ≡ 3 }
    ensures { IfOk result (λ _. PutsValue (whole_symbol probs.now) encoder.old partition encoder.new) }
{
    put_tree(encoder, partition_tree(), probs, partition as u8)
}

/// Whether a square is split. It is partitioned in the other way if not.
#[tactic(auto, unfolding(mode_syntax::specs::Partitions::edge_symbol), using(bool_encoder::proofs::CountedPuts::valued_in_order, bool_encoder::proofs::CountedPuts::valued_settle, bool_encoder::proofs::CountedPuts::valued_uncounted, vp9_types::proofs::Binds::writes_bind))]
fn put_edge(
    encoder: &mut BoolEncoder,
    p: u8,
    other: Partition,
    partition: Partition,
) -> Result<(), AllocError>
    requires { (partition ≡ other) ⊎ (partition ≡ Split) }
    ensures { IfOk result (λ _. PutsValue (edge_symbol p other) encoder.old partition encoder.new) }
{
    put_flag(encoder, p, partition == Partition::Split)
}

#[tactic(auto, unfolding(mode_syntax::specs::Partitions::partition_value), using(bool_encoder::proofs::CountedPuts::valued_settle))]
fn put_value(
    encoder: &mut BoolEncoder,
    has_rows: bool,
    has_cols: bool,
    probs: &[u8],
    partition: Partition,
) -> Result<(), AllocError>
    requires probs { length probs.now ≡ 3 }
    requires can { CanPartition has_rows has_cols partition }
    ensures { IfOk result (λ _. PutsValue (partition_value has_rows has_cols probs.now) encoder.old partition encoder.new) }
{
    if has_rows && has_cols {
        return put_whole(encoder, probs, partition);
    }
    if has_cols {
        return put_edge(encoder, probs[1], Partition::Horizontal, partition);
    }
    if has_rows {
        return put_edge(encoder, probs[2], Partition::Vertical, partition);
    }
    Ok(())
}

#[tactic(auto, unfolding(mode_syntax::specs::Partitions::partition), using(bool_encoder::proofs::CountedPuts::valued_in_order, bool_encoder::proofs::CountedPuts::valued_settle, bool_encoder::proofs::CountedPuts::valued_count, vp9_types::proofs::Binds::writes_bind))]
fn put_counted(
    encoder: &mut BoolEncoder,
    has_rows: bool,
    has_cols: bool,
    probs: &[u8],
    chosen: Partition,
) -> Result<(), AllocError>
    requires probs { length probs.now ≡ 3 }
    requires can { CanPartition has_rows has_cols chosen }
    ensures { IfOk result (λ _. (context : ℕ) → PutsValue (partition has_rows has_cols probs.now context) encoder.old chosen encoder.new) }
{
    put_value(encoder, has_rows, has_cols, probs, chosen)
}

/// Puts the partition of a square, `partition` in `decode_partition` (6.4.3 of the standard). The square starts inside the
/// frame and its tile; `earlier` has the frame's blocks before it. Intra frames have fixed probabilities.
#[tactic(auto, unfolding(mode_syntax::specs::Partitions::partition_at))]
pub fn put_partition<N: Neighbours>(
    encoder: &mut BoolEncoder,
    setting: &FrameSetting,
    intra: bool,
    earlier: &N,
    at: SquareAt,
    partition: Partition,
) -> Result<(), AllocError>
    requires level { at.level ≤ 3 }
    requires row { at.row < setting.now.places.rows }
    requires first { at.tile_from ≤ at.col }
    requires col { at.col < at.tile_to }
    requires tile { at.tile_to ≤ setting.now.places.cols }
    requires held { (r c : ℕ) → r < setting.now.places.rows → at.tile_from ≤ c → c < at.tile_to → N.holds earlier.now r c }
    requires can { CanPartitionAt setting.now.places at partition }
    ensures { IfOk result (λ _. PutsValue
        (partition_at intra (lists_of setting.now.contexts).partitions (N.blocks earlier.now) setting.now.places at)
        encoder.old partition encoder.new) }
{
    let frame = setting.places;
    let context = square_context(earlier, frame, at);
    let probs = partition_probs(intra, &setting.contexts.partitions, context);
    let half = side_of(at.level) / 2;
    let has_rows = half < frame.rows - at.row;
    let has_cols = half < frame.cols - at.col;
    put_counted(encoder, has_rows, has_cols, probs, partition)
}
