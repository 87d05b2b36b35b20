//! The squares of a tile.

ghost use Rattle.std.specs.Prelude.{◌≡◌, ◌+◌, ◌-◌, ◌^◌, ◌<◌, ◌≤◌, OnOk};
ghost use Rattle.vp9_types.specs.declared.block.Partition.TheVariants as partition;
ghost use Rattle.mode_syntax.specs.Laws.{decode_square, square_parts};
ghost use Rattle.mode_syntax.specs.Walk.{block_inside};
ghost use Rattle.tile_reader.specs.Code.{Tile, EndsTile, ReadsPartition, StandsIn, IsSquareOf, then_rest};

use block_geometry::{FramePlaces, part_size};
use block_plan::BlockAt;
use mode_syntax::{SquareAt, block_of, quarter_of, side_of};
use vp9_types::Partition;

/// What reads the partitions and the blocks of a tile.
pub trait TileReader {
    /// What reading keeps between blocks.
    ghost State: { Type 0 };

    /// Why reading ends early: by a rule that is broken, or for want of memory.
    type Halt: Drop;

    /// Where the tile stands, and what its reader asks for from block to block.
    ghost tile: { Self → Tile State Self.Halt };

    ghost ready: { Self → Type 0 };

    /// What stays the same from block to block: what reading goes by, and whose memory it changes.
    ghost Kept: { Type 0 };

    ghost kept: { Self → Kept };

    fn frame(&self) -> FramePlaces
        ensures is { result ≡ (tile self.now).walk.frame }
        ensures few_rows { result.rows ≤ 2 ^ 16 }
        ensures few_cols { result.cols ≤ 2 ^ 16 };

    /// Reads the partition of a square that starts inside the frame.
    fn read_partition(&mut self, at: SquareAt) -> Partition
        requires ready { ready self.old }
        requires level { at.level ≤ 3 }
        requires row { at.row < (tile self.old).walk.frame.rows }
        requires col { at.col < (tile self.old).walk.frame.cols }
        requires within { IsSquareOf (tile self.old) at }
        ensures reads { ReadsPartition at (tile self.old) (tile self.new) result }
        ensures ready { ready self.new }
        ensures kept { kept self.new ≡ kept self.old };

    /// Reads a block that starts inside the frame.
    fn read_block(&mut self, at: BlockAt) -> Result<(), Self::Halt>
        requires ready { ready self.old }
        requires row { at.row < (tile self.old).walk.frame.rows }
        requires col { at.col < (tile self.old).walk.frame.cols }
        requires stands { StandsIn (tile self.old) at }
        requires room { 1 ≤ (tile self.old).room }
        ensures ends { EndsTile ((tile self.old).walk.block at) 1 (tile self.old) result (tile self.new) }
        ensures ready { OnOk result (ready self.new) }
        ensures kept { kept self.new ≡ kept self.old };
}

/// A block, unless it starts outside the frame.
fn read_inside<R: TileReader>(reader: &mut R, at: BlockAt) -> Result<(), R::Halt>
    requires ready { R.ready reader.old }
    requires stands { StandsIn (R.tile reader.old) at }
    requires room { 1 ≤ (R.tile reader.old).room }
    ensures ends { EndsTile (block_inside (R.tile reader.old).walk at.row at.col at.size) 1 (R.tile reader.old) result (R.tile reader.new) }
    ensures ready { OnOk result (R.ready reader.new) }
    ensures kept { R.kept reader.new ≡ R.kept reader.old }
{
    let frame = reader.frame();
    if at.row >= frame.rows || at.col >= frame.cols {
        return Ok(());
    }
    reader.read_block(at)
}

/// Two halves of a square that starts inside the frame. The second one may start outside.
fn read_halves<R: TileReader>(
    reader: &mut R,
    first: BlockAt,
    second: BlockAt,
) -> Result<(), R::Halt>
    requires ready { R.ready reader.old }
    requires row { first.row < (R.tile reader.old).walk.frame.rows }
    requires col { first.col < (R.tile reader.old).walk.frame.cols }
    requires stands { StandsIn (R.tile reader.old) first }
    requires stands_second { StandsIn (R.tile reader.old) second }
    requires room { 2 ≤ (R.tile reader.old).room }
    ensures ends { EndsTile (then_rest ((R.tile reader.old).walk.block first) (block_inside (R.tile reader.old).walk second.row second.col second.size)) 2 (R.tile reader.old) result (R.tile reader.new) }
    ensures ready { OnOk result (R.ready reader.new) }
    ensures kept { R.kept reader.new ≡ R.kept reader.old }
{
    reader.read_block(first)?;
    read_inside(reader, second)
}

/// The parts of a square that starts inside the frame, of a level above the least.
#[cycle(squares)]
fn read_parts<R: TileReader>(
    reader: &mut R,
    at: SquareAt,
    partition: Partition,
) -> Result<(), R::Halt>
    requires ready { R.ready reader.old }
    requires least { 1 ≤ at.level }
    requires most { at.level ≤ 3 }
    requires row { at.row < (R.tile reader.old).walk.frame.rows }
    requires col { at.col < (R.tile reader.old).walk.frame.cols }
    requires few_rows { (R.tile reader.old).walk.frame.rows ≤ 2 ^ 16 }
    requires few_cols { (R.tile reader.old).walk.frame.cols ≤ 2 ^ 16 }
    requires within { IsSquareOf (R.tile reader.old) at }
    ensures ends { EndsTile (λ s. square_parts (R.tile reader.old).walk (at.level - 1) at.row at.col s partition) (4 ^ at.level) (R.tile reader.old) result (R.tile reader.new) }
    ensures ready { OnOk result (R.ready reader.new) }
    ensures kept { R.kept reader.new ≡ R.kept reader.old }
{
    let size = part_size(partition, at.level);
    let half = side_of(at.level - 1);
    let first = block_of(at, at.row, at.col, size);
    match partition {
        Partition::Whole => reader.read_block(first),
        Partition::Horizontal => {
            read_halves(reader, first, block_of(at, at.row + half, at.col, size))
        }
        Partition::Vertical => {
            read_halves(reader, first, block_of(at, at.row, at.col + half, size))
        }
        Partition::Split => read_quarters(reader, at),
    }
}

/// The quarters of a square that starts inside the frame, of a level above the least.
#[cycle(squares)]
fn read_quarters<R: TileReader>(reader: &mut R, at: SquareAt) -> Result<(), R::Halt>
    requires ready { R.ready reader.old }
    requires least { 1 ≤ at.level }
    requires most { at.level ≤ 3 }
    requires row { at.row < (R.tile reader.old).walk.frame.rows }
    requires col { at.col < (R.tile reader.old).walk.frame.cols }
    requires few_rows { (R.tile reader.old).walk.frame.rows ≤ 2 ^ 16 }
    requires few_cols { (R.tile reader.old).walk.frame.cols ≤ 2 ^ 16 }
    requires within { IsSquareOf (R.tile reader.old) at }
    ensures ends { EndsTile (λ s. square_parts (R.tile reader.old).walk (at.level - 1) at.row at.col s partition.Split) (4 ^ at.level) (R.tile reader.old) result (R.tile reader.new) }
    ensures ready { OnOk result (R.ready reader.new) }
    ensures kept { R.kept reader.new ≡ R.kept reader.old }
{
    read_square(reader, quarter_of(at, 0))?;
    read_square(reader, quarter_of(at, 1))?;
    read_square(reader, quarter_of(at, 2))?;
    read_square(reader, quarter_of(at, 3))
}

/// A square, unless it starts outside the frame.
#[cycle(squares)]
pub(crate) fn read_square<R: TileReader>(reader: &mut R, at: SquareAt) -> Result<(), R::Halt>
    requires ready { R.ready reader.old }
    requires level { at.level ≤ 3 }
    requires within { IsSquareOf (R.tile reader.old) at }
    ensures ends { EndsTile (decode_square (R.tile reader.old).walk at.level at.row at.col) (4 ^ at.level) (R.tile reader.old) result (R.tile reader.new) }
    ensures ready { OnOk result (R.ready reader.new) }
    ensures kept { R.kept reader.new ≡ R.kept reader.old }
{
    let frame = reader.frame();
    if at.row >= frame.rows || at.col >= frame.cols {
        return Ok(());
    }
    let partition = reader.read_partition(at);
    if at.level == 0 {
        return reader.read_block(block_of(at, at.row, at.col, part_size(partition, 0)));
    }
    read_parts(reader, at, partition)
}
