//! The last decoded frame.

ghost use Rattle.std.specs.Prelude.{◌≡◌, Some};
ghost use Rattle.frame_state.specs.KeptColumns.{AreColumnsOf};

use frame_headers::Header;
use frame_state::TileColumn;
use std::mem::replace;

/// The last decoded frame: its header, and its blocks by tile column.
#[derive(Drop)]
pub struct LastFrame {
    pub header: Header,
    pub columns: Vec<TileColumn>,
    pub ghost are: { AreColumnsOf header columns.items },
}

/// Keeps a frame as the last one. The tile columns of the one before it are left for use again.
pub fn replace_last(kept: &mut Option<LastFrame>, columns: &mut Vec<TileColumn>, last: LastFrame)
    ensures { kept.new ≡ Some last }
{
    if let Some(before) = replace(kept, Some(last)) {
        *columns = before.columns;
    }
}
