//! Tests of partitions and intra modes.

ghost use Rattle.std.specs.Prelude.{◌≡◌, true};
ghost use Rattle.mode_writer.specs.ModeFits.{AreColumns, AreRows, CanLuma, CanPartition};
ghost use Rattle.listed_symbols.specs.IntraTests.{are_columns, are_rows, can_luma, can_partition, same_intra};

use vp9_types::{BlockSize, IntraMode, Partition};

/// Whether a square can be partitioned so, by whether its lower and its right half begin inside the frame.
pub(crate) fn can_partition(has_rows: bool, has_cols: bool, partition: Partition) -> bool
    ensures is { result ≡ can_partition has_rows has_cols partition }
    ensures can { result ≡ true → CanPartition has_rows has_cols partition }
{
    match partition {
        Partition::Whole => has_rows && has_cols,
        Partition::Horizontal => has_cols,
        Partition::Vertical => has_rows,
        Partition::Split => true,
    }
}

#[tactic(auto, using(crate::proofs::Numbers::same_intra_is))]
fn same_intra(mode: IntraMode, other: IntraMode) -> bool
    ensures is { result ≡ same_intra mode other }
    ensures same { result ≡ true → mode ≡ other }
{
    mode as u8 == other as u8
}

fn are_rows(luma: [IntraMode; 4]) -> bool
    ensures is { result ≡ are_rows luma }
    ensures are { result ≡ true → AreRows luma }
{
    same_intra(luma[1], luma[0]) && same_intra(luma[3], luma[2])
}

fn are_columns(luma: [IntraMode; 4]) -> bool
    ensures is { result ≡ are_columns luma }
    ensures are { result ≡ true → AreColumns luma }
{
    same_intra(luma[2], luma[0]) && same_intra(luma[3], luma[1])
}

/// Whether a block of a size can say the modes of its quarters.
pub(crate) fn can_luma(size: BlockSize, luma: [IntraMode; 4]) -> bool
    ensures is { result ≡ can_luma size luma }
    ensures can { result ≡ true → CanLuma size luma }
{
    match size {
        BlockSize::B4x4 => true,
        BlockSize::B4x8 => are_columns(luma),
        BlockSize::B8x4 => are_rows(luma),
        _ => are_rows(luma) && are_columns(luma),
    }
}
