//! The tile columns of a frame, each planned by itself.

ghost use Rattle.std.specs.Prelude.{◌<◌, ◌^◌};
ghost use Rattle.frame_steps.specs.StepResults.{IsColumn, IsSound};

use crate::beginning::BegunFrame;
use crate::needs::row_needs;
use band_needs::BandNeeds;
use prob_contexts::Counts;
use recon_rows::tile_syntax::{ColumnPlan, Unplanned, column};
use std::alloc::Global;

/// The plan of a tile column, what was counted in it, if the frame's probabilities are adapted, and the bands of the frame's
/// references that each of its rows of superblocks is predicted from.
#[derive(Drop)]
pub struct PlannedColumn {
    pub plan: ColumnPlan,
    pub counts: Counts,
    pub needs: Vec<BandNeeds>,
}

/// What the tile columns of a frame came to, wherever that is kept.
pub trait PlannedColumns {
    ghost use Rattle.frame_steps.specs.declared.beginning.BegunFrame.{BegunFrame as Frame};

    /// The frame.
    ghost frame: { Self → Frame };

    /// What the `k`-th of them came to.
    fn column(&self, k: u32) -> &Result<PlannedColumn, Unplanned>
        requires { k < 2 ^ (frame self.now).setting.header.params.tiles.columns_log2 }
        ensures { IsColumn (frame self.now) k result.now };
}

/// Plans the `k`-th tile column of a frame.
pub fn plan_column(
    alloc: Global,
    frame: &BegunFrame<'_>,
    k: u32,
) -> Result<PlannedColumn, Unplanned>
    requires sound { IsSound frame.now }
    requires below { k < 2 ^ frame.now.setting.header.params.tiles.columns_log2 }
    ensures { IsColumn frame.now k result }
{
    let by = frame.sources();
    let mut plan = ColumnPlan::new(alloc, &by.setting, k)?;
    let counts = column(&mut plan, alloc, frame.bytes, &by, frame.compressed, k)?;
    let needs = row_needs(alloc, &by.setting.header, &plan)?;
    Ok(PlannedColumn {
        plan,
        counts,
        needs,
    })
}
