//! Grids of transform blocks as tools/vectors.py grids has them, and contexts of partitions written out by hand.

use block_geometry::{
    FramePlaces, PlaneBlock, greatest_tx, height_4, height_8, is_below_8x8, part_size, square,
    transform_grid, width_4, width_8,
};
use vp9_types::{BlockSize, Partition, TxMode, TxSize};

/// A frame, a block's row and column, size and transform, the plane's subsampling, and how many rows and columns start inside.
type Row = (
    (u32, u32),
    (u32, u32),
    BlockSize,
    TxSize,
    (bool, bool),
    (u32, u32),
);

static ROWS: [Row; 12] = [
    (
        (1, 1),
        (0, 0),
        BlockSize::B4x4,
        TxSize::T4x4,
        (false, false),
        (2, 2),
    ),
    (
        (1, 1),
        (0, 0),
        BlockSize::B8x4,
        TxSize::T4x4,
        (true, true),
        (1, 1),
    ),
    (
        (1, 1),
        (0, 0),
        BlockSize::B64x64,
        TxSize::T32x32,
        (false, false),
        (1, 1),
    ),
    (
        (9, 9),
        (8, 8),
        BlockSize::B64x64,
        TxSize::T4x4,
        (false, false),
        (2, 2),
    ),
    (
        (9, 9),
        (8, 8),
        BlockSize::B64x64,
        TxSize::T16x16,
        (true, true),
        (1, 1),
    ),
    (
        (9, 9),
        (8, 8),
        BlockSize::B32x32,
        TxSize::T8x8,
        (true, false),
        (1, 1),
    ),
    (
        (9, 9),
        (8, 8),
        BlockSize::B32x32,
        TxSize::T8x8,
        (false, true),
        (1, 1),
    ),
    (
        (5, 7),
        (4, 4),
        BlockSize::B16x16,
        TxSize::T8x8,
        (true, false),
        (1, 1),
    ),
    (
        (5, 7),
        (4, 6),
        BlockSize::B16x16,
        TxSize::T4x4,
        (false, true),
        (1, 2),
    ),
    (
        (5, 7),
        (0, 4),
        BlockSize::B64x32,
        TxSize::T32x32,
        (false, false),
        (1, 1),
    ),
    (
        (7, 3),
        (0, 0),
        BlockSize::B64x64,
        TxSize::T16x16,
        (true, false),
        (4, 1),
    ),
    (
        (3, 7),
        (0, 0),
        BlockSize::B64x64,
        TxSize::T8x8,
        (false, true),
        (2, 7),
    ),
];

#[test]
fn grids(rt: HostRuntime) {
    for (frame, place, size, tx, subsampled, found) in &ROWS {
        let frame = FramePlaces {
            rows: frame.0,
            cols: frame.1,
        };
        let block = PlaneBlock {
            row: place.0,
            col: place.1,
            size: *size,
            tx: *tx,
            ss_x: subsampled.0,
            ss_y: subsampled.1,
        };
        assert!(rt; frame.rows < 10 && frame.cols < 10);
        assert!(rt; block.row < frame.rows && block.col < frame.cols);
        let grid = transform_grid(frame, block);
        assert_eq!(rt; (grid.rows, grid.columns), *found);
    }
}

#[test]
fn sizes(rt: HostRuntime) {
    assert_eq!(rt; part_size(Partition::Vertical, 2), BlockSize::B16x32);
    assert_eq!(rt; square(3), BlockSize::B64x64);
    assert_eq!(rt;
        greatest_tx(TxMode::UpTo16x16, BlockSize::B64x32),
        TxSize::T16x16
    );
    assert_eq!(rt;
        greatest_tx(TxMode::Selected, BlockSize::B8x16),
        TxSize::T8x8
    );
    assert_eq!(rt;
        (width_4(BlockSize::B64x32), height_4(BlockSize::B64x32)),
        (16, 8)
    );
    assert_eq!(rt;
        (width_8(BlockSize::B4x8), height_8(BlockSize::B16x32)),
        (1, 4)
    );
    assert!(rt; is_below_8x8(BlockSize::B4x8) && !is_below_8x8(BlockSize::B8x8));
}
