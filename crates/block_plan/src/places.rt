//! Numbers of blocks by place.

ghost use Rattle.std.specs.Prelude.{◌≡◌, ◌*◌, ◌<◌, ◌≤◌, ◌+◌, ◌-◌, ◌++◌, ◌∷◌, [], ℕ, List, length};
ghost use Rattle.block_plan.specs.Grid.{AgreesWith, NumbersBelow};
ghost use Rattle.block_plan.specs.declared.block.BlockInfo.{BlockInfo};

use crate::block::BlockInfo;
use block_geometry::{FramePlaces, fill_part, part_inside};

/// Puts the number of a block that was listed last at the places that it covers.
pub(crate) fn number_places(
    places: &mut [usize],
    block: &BlockInfo,
    rows: u32,
    from: u32,
    width: u32,
    number: usize,
)
    requires long { length places.old ≡ rows * width }
    requires row { block.now.row < rows }
    requires first { from ≤ block.now.col }
    requires last { block.now.col < from + width }
    ensures agree { (earlier : List BlockInfo) → number ≡ length earlier + 1 → NumbersBelow (length earlier) rows width places.old →
        AgreesWith earlier rows from width places.old → AgreesWith (earlier ++ block.now ∷ []) rows from width places.new }
    ensures few { (most : ℕ) → number ≡ most + 1 → NumbersBelow most rows width places.old → NumbersBelow number rows width places.new }
{
    let part = part_inside(
        FramePlaces { rows, cols: width },
        block.row,
        block.col - from,
        block.size,
    );
    fill_part(places, width as usize, part, number);
}
