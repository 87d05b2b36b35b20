//! The lists.

ghost use Rattle.std.specs.Prelude.{◌≡◌};

use inter_writer::BlockSymbols;
use vp9_types::Partition;

/// The levels of a block in each plane: those of its first transform block, of its second, and so on, each in the order of
/// its scan up to the last one that isn't zero. Transform blocks behind have none.
#[derive(Clone, Copy)]
pub struct ListedLevels<'a> {
    pub y: &'a [&'a [i32]],
    pub u: &'a [&'a [i32]],
    pub v: &'a [&'a [i32]],
}

/// What a block says.
#[derive(Clone, Copy)]
pub struct ListedBlock<'a> {
    pub symbols: BlockSymbols,
    pub levels: ListedLevels<'a>,
}

/// The partitions and the blocks of a frame in the order of the standard, and how many of them are told.
#[derive(Clone, Copy)]
pub struct ListedSymbols<'a> {
    pub partitions: &'a [Partition],
    pub blocks: &'a [ListedBlock<'a>],
    pub partitions_told: usize,
    pub blocks_told: usize,
}

impl ListedLevels<'static> {
    /// Of a block that has no levels.
    pub const NONE: ListedLevels<'static> = ListedLevels {
        y: &[],
        u: &[],
        v: &[],
    };
}

impl<'a> ListedSymbols<'a> {
    /// None of them are told yet.
    pub fn new(partitions: &'a [Partition], blocks: &'a [ListedBlock<'a>]) -> ListedSymbols<'a>
        ensures partitions { result.partitions.now ≡ partitions.now }
        ensures blocks { result.blocks.now ≡ blocks.now }
        ensures no_partitions { result.partitions_told ≡ 0 }
        ensures no_blocks { result.blocks_told ≡ 0 }
    {
        ListedSymbols {
            partitions,
            blocks,
            partitions_told: 0,
            blocks_told: 0,
        }
    }
}
