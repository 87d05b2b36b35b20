//! The edges of a frame's blocks that the loop filter goes across, and how strongly it filters there (8.8.1 and 8.8.2 of
//! the standard).
#![tactic(auto)]

mod cells;
mod levels;
mod setting;
mod tables;

pub use cells::{CellAt, CellEdges, cell_edges, is_inside};
pub use levels::{filter_level, limits_of};
pub use setting::EdgeSetting;
pub use tables::EdgeTables;
