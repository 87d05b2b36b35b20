ghost use Rattle.std.specs.Prelude.{◌≡◌, ℕ, ◌+◌, ◌*◌, ◌/◌, ◌<◌, ◌≤◌, [], slice_index, slice_get, get_or, Some, min, length, nat_le, IsTrue};
ghost use Rattle.std.specs.List.{list_all};
ghost use Rattle.vp9_tables.specs.Numbers.{block_number, partition_number, tx_number, tx_mode_number, intra_number};
ghost use Rattle.vp9_tables.specs.BlockTables.{subsampling_place, uv_place, is_part, is_in_chroma, is_uv, greatest_of, tx_type_of};

use crate::data::blocks::{
    BLOCK_SIZES, INTRA_MODE_TO_TX_TYPE, MAX_TX_SIZE, SIZE_GROUP, SS_SIZE, SUBSIZE,
    TX_MODE_TO_BIGGEST, UPDATE_FACTOR, UV_TX_SIZE,
};
use vp9_types::{BlockSize, IntraMode, Partition, TxMode, TxSize, TxType};

/// Width and height in luma samples.
pub fn block_size(size: BlockSize) -> &'static [u8; 2]
    ensures { result.now ≡ get_or BLOCK_SIZES (block_number size) [] }
{
    &BLOCK_SIZES[size as usize]
}

/// The group by which the probabilities of intra modes go.
pub fn size_group(size: BlockSize) -> u8
    ensures entry { result ≡ slice_index SIZE_GROUP (block_number size) }
    ensures most { result ≤ 3 }
{
    group_at(&SIZE_GROUP, size as usize)
}

fn group_at(table: &[u8], place: usize) -> u8
    requires index { place < length table.now }
    requires law { IsTrue (list_all (λ n. nat_le n 3) table.now) }
    ensures entry { result ≡ slice_index table.now place }
    ensures most { result ≤ 3 }
{
    table[place]
}

/// The size of a block's parts. A block that isn't square has none.
pub fn subsize(partition: Partition, size: BlockSize) -> Option<BlockSize>
    ensures entry { slice_get SUBSIZE (13 * partition_number partition + block_number size) ≡ Some result }
    ensures part { IsTrue (is_part partition size result) }
{
    subsize_entry(partition, size)
}

fn subsize_entry(partition: Partition, size: BlockSize) -> Option<BlockSize>
    ensures { slice_get SUBSIZE (13 * partition_number partition + block_number size) ≡ Some result }
{
    part_at(&SUBSIZE, 13 * partition as usize + size as usize)
}

/// The size of a block in a plane of chroma. There is none for what 4:2:2 and 4:4:0 make of some sizes.
pub fn ss_size(size: BlockSize, ss_x: bool, ss_y: bool) -> Option<BlockSize>
    ensures entry { slice_get SS_SIZE (subsampling_place size ss_x ss_y) ≡ Some result }
    ensures part { IsTrue (is_in_chroma size ss_x ss_y result) }
{
    ss_size_entry(size, ss_x, ss_y)
}

fn ss_size_entry(size: BlockSize, ss_x: bool, ss_y: bool) -> Option<BlockSize>
    ensures { slice_get SS_SIZE (subsampling_place size ss_x ss_y) ≡ Some result }
{
    part_at(
        &SS_SIZE,
        4 * size as usize + 2 * usize::from(ss_x) + usize::from(ss_y),
    )
}

fn part_at(table: &[Option<BlockSize>], place: usize) -> Option<BlockSize>
    requires { place < length table.now }
    ensures { slice_get table.now place ≡ Some result }
{
    table[place]
}

/// The size of the transforms of chroma. Entries of a transform that its block doesn't hold have no meaning.
pub fn uv_tx_size(size: BlockSize, tx: TxSize, ss_x: bool, ss_y: bool) -> TxSize
    ensures entry { slice_get UV_TX_SIZE (uv_place size tx ss_x ss_y) ≡ Some result }
    ensures rule { IsTrue (is_uv size tx ss_x ss_y result) }
{
    uv_entry(size, tx, ss_x, ss_y)
}

fn uv_entry(size: BlockSize, tx: TxSize, ss_x: bool, ss_y: bool) -> TxSize
    ensures { slice_get UV_TX_SIZE (uv_place size tx ss_x ss_y) ≡ Some result }
{
    transform_at(
        &UV_TX_SIZE,
        16 * size as usize + 4 * tx as usize + 2 * usize::from(ss_x) + usize::from(ss_y),
    )
}

fn transform_at(table: &[TxSize], place: usize) -> TxSize
    requires { place < length table.now }
    ensures { slice_get table.now place ≡ Some result }
{
    table[place]
}

/// The greatest transform of a block.
pub fn max_tx_size(size: BlockSize) -> TxSize
    ensures entry { slice_get MAX_TX_SIZE (block_number size) ≡ Some result }
    ensures greatest { tx_number result ≡ greatest_of size }
{
    max_tx_entry(size)
}

fn max_tx_entry(size: BlockSize) -> TxSize
    ensures { slice_get MAX_TX_SIZE (block_number size) ≡ Some result }
{
    MAX_TX_SIZE[size as usize]
}

/// The greatest transform that a mode allows.
pub fn biggest_tx_size(mode: TxMode) -> TxSize
    ensures entry { slice_get TX_MODE_TO_BIGGEST (tx_mode_number mode) ≡ Some result }
    ensures number { tx_number result ≡ min 3 (tx_mode_number mode) }
{
    TX_MODE_TO_BIGGEST[mode as usize]
}

/// The transform of what intra prediction by a mode leaves.
pub fn intra_tx_type(mode: IntraMode) -> TxType
    ensures entry { slice_get INTRA_MODE_TO_TX_TYPE (intra_number mode) ≡ Some result }
    ensures rule { result ≡ tx_type_of mode }
{
    INTRA_MODE_TO_TX_TYPE[mode as usize]
}

/// In 128ths, how far counts move a probability of modes.
pub fn update_factor(count: u8) -> u8
    requires { count ≤ 20 }
    ensures entry { result ≡ slice_index UPDATE_FACTOR count }
    ensures value { result ≡ 128 * count / 20 }
{
    UPDATE_FACTOR[count as usize]
}
