ghost use Rattle.std.specs.Prelude.{◌≡◌, ◌+◌, ◌*◌, ◌≤◌};
ghost use Rattle.intra_predict.specs.BlockEdges.{has_above, has_left, reads_right};
ghost use Rattle.intra_predict.specs.Places.{place_in};
ghost use Rattle.intra_predict.specs.Laws.{is_above_there, is_left_there, is_right_inside};
ghost use Rattle.vp9_types.specs.Shapes.{halved};

use crate::coded::CodedBlock;
use crate::place::IntraPlace;

/// Where the transform block at row y and column x of a coded block lies, y and x counting its plane's samples in 4s.
pub fn place_of(block: &CodedBlock, y: usize, x: usize) -> IntraPlace
    requires low { block.now.row ≤ 65536 }
    requires near { block.now.column + block.now.columns ≤ 65536 }
    requires tile { block.now.tile_column ≤ block.now.column }
    requires y { y ≤ 65536 }
    requires x { x ≤ 65536 }
    ensures value { result ≡ place_in block.now y x }
    ensures above { has_above result ≡ is_above_there block.now y }
    ensures left { has_left result ≡ is_left_there block.now x }
    ensures right { reads_right 4 result ≡ is_right_inside block.now x }
{
    IntraPlace {
        row: in_plane(block.row, block.ss_y) + 4 * y,
        column: in_plane(block.column, block.ss_x) + 4 * x,
        tile_from: in_plane(block.tile_column, block.ss_x),
        block_end: in_plane(block.column + block.columns, block.ss_x),
    }
}

fn in_plane(n: usize, ss: bool) -> usize
    requires { n ≤ 65536 }
    ensures { result ≡ halved ss (8 * n) }
{
    if ss { 4 * n } else { 8 * n }
}
