//! The steps of a coded frame, each as a function of values that are lent to it and aren't changed: how it begins, its tile columns, its end, its strips.
#![tactic(auto)]

mod beginning;
mod closing;
mod columns;
mod copying;
mod keeping;
mod kept;
mod needs;
mod strips;

pub use beginning::{BegunFrame, begin};
pub use closing::close;
pub use columns::{PlannedColumn, PlannedColumns, plan_column};
pub use keeping::keep;
pub use kept::Kept;
pub use needs::shapes_by;
pub use recon_rows::tile_syntax;
pub use strips::{PlannedRow, put_strip};
