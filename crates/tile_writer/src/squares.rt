//! The squares of a tile.

ghost use Rattle.std.specs.Prelude.{◌≡◌, ◌+◌, ◌-◌, ◌^◌, ◌<◌, ◌≤◌, nat_lt, OnOk};
ghost use Rattle.mode_syntax.specs.Partitions.{half_of};
ghost use Rattle.vp9_types.specs.declared.block.Partition.TheVariants as partition;
ghost use Rattle.tile_writer.specs.Code.{Tile, EndsTile, GivesPartition, StandsIn, IsSquareOf, block_rest, inside_rest, then_rest, parts_rest, square_rest};

use crate::unwritten::Unwritten;
use block_geometry::{FramePlaces, part_size};
use block_plan::BlockAt;
use mode_syntax::{SquareAt, block_of, quarter_of, side_of};
use vp9_types::Partition;

/// What puts the partitions and the blocks of a tile, as it is told them.
pub trait TileWriter {
    /// What reading keeps between blocks, what the code holds of it, and what is told.
    ghost State: { Type 0 };

    ghost Held: { Type 0 };

    ghost Told: { Type 0 };

    /// Where the tile stands, and what its writer asks for from block to block.
    ghost tile: { Self → Tile State Held Told };

    ghost ready: { Self → Type 0 };

    fn frame(&self) -> FramePlaces
        ensures is { result ≡ (tile self.now).walk.frame }
        ensures few_rows { result.rows ≤ 2 ^ 16 }
        ensures few_cols { result.cols ≤ 2 ^ 16 };

    /// Puts the partition of a square that starts inside the frame, by whether its lower and its right half begin inside.
    fn put_partition(
        &mut self,
        at: SquareAt,
        has_rows: bool,
        has_cols: bool,
    ) -> Result<Partition, Unwritten>
        requires ready { ready self.old }
        requires level { at.level ≤ 3 }
        requires row { at.row < (tile self.old).walk.frame.rows }
        requires col { at.col < (tile self.old).walk.frame.cols }
        requires within { IsSquareOf (tile self.old) at }
        requires rows { has_rows ≡ nat_lt (at.row + half_of at.level) (tile self.old).walk.frame.rows }
        requires cols { has_cols ≡ nat_lt (at.col + half_of at.level) (tile self.old).walk.frame.cols }
        ensures gives { GivesPartition at has_rows has_cols (tile self.old) result (tile self.new) }
        ensures ready { OnOk result (ready self.new) };

    /// Puts a block that starts inside the frame.
    fn put_block(&mut self, at: BlockAt) -> Result<(), Unwritten>
        requires ready { ready self.old }
        requires row { at.row < (tile self.old).walk.frame.rows }
        requires col { at.col < (tile self.old).walk.frame.cols }
        requires stands { StandsIn (tile self.old) at }
        requires room { 1 ≤ (tile self.old).room }
        ensures ends { EndsTile (block_rest (tile self.old).walk (tile self.old).teller at) 1 (tile self.old) result (tile self.new) }
        ensures ready { OnOk result (ready self.new) };
}

/// A block, unless it starts outside the frame.
fn put_inside<W: TileWriter>(writer: &mut W, at: BlockAt) -> Result<(), Unwritten>
    requires ready { W.ready writer.old }
    requires stands { StandsIn (W.tile writer.old) at }
    requires room { 1 ≤ (W.tile writer.old).room }
    ensures ends { EndsTile (inside_rest (W.tile writer.old).walk (W.tile writer.old).teller at.row at.col at.size) 1 (W.tile writer.old) result (W.tile writer.new) }
    ensures ready { OnOk result (W.ready writer.new) }
{
    let frame = writer.frame();
    if at.row >= frame.rows || at.col >= frame.cols {
        return Ok(());
    }
    writer.put_block(at)
}

/// Two halves of a square that starts inside the frame. The second one may start outside.
fn put_halves<W: TileWriter>(
    writer: &mut W,
    first: BlockAt,
    second: BlockAt,
) -> Result<(), Unwritten>
    requires ready { W.ready writer.old }
    requires row { first.row < (W.tile writer.old).walk.frame.rows }
    requires col { first.col < (W.tile writer.old).walk.frame.cols }
    requires stands { StandsIn (W.tile writer.old) first }
    requires stands_second { StandsIn (W.tile writer.old) second }
    requires room { 2 ≤ (W.tile writer.old).room }
    ensures ends { EndsTile (then_rest (block_rest (W.tile writer.old).walk (W.tile writer.old).teller first) (inside_rest (W.tile writer.old).walk (W.tile writer.old).teller second.row second.col second.size))
        2 (W.tile writer.old) result (W.tile writer.new) }
    ensures ready { OnOk result (W.ready writer.new) }
{
    writer.put_block(first)?;
    put_inside(writer, second)
}

/// The parts of a square that starts inside the frame, of a level above the least.
#[cycle(squares)]
fn put_parts<W: TileWriter>(
    writer: &mut W,
    at: SquareAt,
    partition: Partition,
) -> Result<(), Unwritten>
    requires ready { W.ready writer.old }
    requires least { 1 ≤ at.level }
    requires most { at.level ≤ 3 }
    requires row { at.row < (W.tile writer.old).walk.frame.rows }
    requires col { at.col < (W.tile writer.old).walk.frame.cols }
    requires few_rows { (W.tile writer.old).walk.frame.rows ≤ 2 ^ 16 }
    requires few_cols { (W.tile writer.old).walk.frame.cols ≤ 2 ^ 16 }
    requires within { IsSquareOf (W.tile writer.old) at }
    ensures ends { EndsTile (parts_rest (W.tile writer.old).walk (W.tile writer.old).teller (at.level - 1) at.row at.col partition) (4 ^ at.level) (W.tile writer.old) result (W.tile writer.new) }
    ensures ready { OnOk result (W.ready writer.new) }
{
    let size = part_size(partition, at.level);
    let half = side_of(at.level - 1);
    let first = block_of(at, at.row, at.col, size);
    match partition {
        Partition::Whole => writer.put_block(first),
        Partition::Horizontal => {
            put_halves(writer, first, block_of(at, at.row + half, at.col, size))
        }
        Partition::Vertical => {
            put_halves(writer, first, block_of(at, at.row, at.col + half, size))
        }
        Partition::Split => put_quarters(writer, at),
    }
}

/// The quarters of a square that starts inside the frame, of a level above the least.
#[cycle(squares)]
fn put_quarters<W: TileWriter>(writer: &mut W, at: SquareAt) -> Result<(), Unwritten>
    requires ready { W.ready writer.old }
    requires least { 1 ≤ at.level }
    requires most { at.level ≤ 3 }
    requires row { at.row < (W.tile writer.old).walk.frame.rows }
    requires col { at.col < (W.tile writer.old).walk.frame.cols }
    requires few_rows { (W.tile writer.old).walk.frame.rows ≤ 2 ^ 16 }
    requires few_cols { (W.tile writer.old).walk.frame.cols ≤ 2 ^ 16 }
    requires within { IsSquareOf (W.tile writer.old) at }
    ensures ends { EndsTile (parts_rest (W.tile writer.old).walk (W.tile writer.old).teller (at.level - 1) at.row at.col partition.Split) (4 ^ at.level) (W.tile writer.old) result (W.tile writer.new) }
    ensures ready { OnOk result (W.ready writer.new) }
{
    put_square(writer, quarter_of(at, 0))?;
    put_square(writer, quarter_of(at, 1))?;
    put_square(writer, quarter_of(at, 2))?;
    put_square(writer, quarter_of(at, 3))
}

/// Puts the partition of a square that starts inside the frame.
fn put_partition<W: TileWriter>(
    writer: &mut W,
    frame: FramePlaces,
    at: SquareAt,
) -> Result<Partition, Unwritten>
    requires ready { W.ready writer.old }
    requires level { at.level ≤ 3 }
    requires frame { frame ≡ (W.tile writer.old).walk.frame }
    requires row { at.row < frame.rows }
    requires col { at.col < frame.cols }
    requires within { IsSquareOf (W.tile writer.old) at }
    ensures gives { GivesPartition at (nat_lt (at.row + half_of at.level) (W.tile writer.old).walk.frame.rows) (nat_lt (at.col + half_of at.level) (W.tile writer.old).walk.frame.cols)
        (W.tile writer.old) result (W.tile writer.new) }
    ensures ready { OnOk result (W.ready writer.new) }
{
    let half = side_of(at.level) / 2;
    let has_rows = half < frame.rows - at.row;
    let has_cols = half < frame.cols - at.col;
    writer.put_partition(at, has_rows, has_cols)
}

/// A square, unless it starts outside the frame.
#[cycle(squares)]
pub fn put_square<W: TileWriter>(writer: &mut W, at: SquareAt) -> Result<(), Unwritten>
    requires ready { W.ready writer.old }
    requires level { at.level ≤ 3 }
    requires within { IsSquareOf (W.tile writer.old) at }
    ensures ends { EndsTile (square_rest (W.tile writer.old).walk (W.tile writer.old).teller at.level at.row at.col) (4 ^ at.level) (W.tile writer.old) result (W.tile writer.new) }
    ensures ready { OnOk result (W.ready writer.new) }
{
    let frame = writer.frame();
    if at.row >= frame.rows || at.col >= frame.cols {
        return Ok(());
    }
    let partition = put_partition(writer, frame, at)?;
    if at.level == 0 {
        return writer.put_block(block_of(at, at.row, at.col, part_size(partition, 0)));
    }
    put_parts(writer, at, partition)
}
