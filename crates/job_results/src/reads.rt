//! The bands of other frames that the rows of superblocks of a frame are predicted from.

ghost use Rattle.std.specs.Prelude.{◌≡◌, [], IsSome, Some};
ghost use Rattle.job_results.specs.RowReads.{kept_spans};

use std::alloc::Global;
use vp9_types::BandSpan;

/// Those of each row of each tile column, of the last, the golden and the altref reference, by the numbers of these frames.
#[derive(Drop)]
pub struct RowReads {
    pub columns: Vec<Vec<[Option<BandSpan>; 3]>>,
}

impl RowReads {
    /// Those of a frame that has no tile columns.
    pub fn none(alloc: Global) -> RowReads
        ensures { result.columns.items ≡ [] }
    {
        RowReads {
            columns: Vec::new(alloc),
        }
    }

    /// Those of a row of a tile column.
    pub fn of(&self, column: u32, row: u32) -> [Option<BandSpan>; 3]
        requires { IsSome (kept_spans self.now column row) }
        ensures { kept_spans self.now column row ≡ Some result }
    {
        let rows = &self.columns[column as usize];
        rows[row as usize]
    }
}
