//! The end of a frame: its tile columns joined.

ghost use Rattle.std.specs.Prelude.{◌≡◌, IfOk};
ghost use Rattle.frame_close.specs.Code.{lent};
ghost use Rattle.frame_steps.specs.StepResults.{AreCopies, GivesDecoded, IsSound};

use crate::beginning::BegunFrame;
use crate::columns::PlannedColumns;
use crate::copying::copied_column;
use frame_close::close as join;
use prob_contexts::Counts;
use recon_rows::tile_syntax::Unplanned;
use seq_decoder::frame_decoder::Decoded;
use seq_decoder::frame_state::{Halt, TileColumn};
use std::alloc::{AllocError, Global};

/// What is kept of tile columns: what was counted in each, as it is lent, or why it isn't planned; and copies of the columns, if all are planned.
#[derive(Drop)]
struct ColumnCopies<'r> {
    counts: Vec<Result<&'r Counts, Unplanned>>,
    columns: Vec<TileColumn>,
}

fn copy_all<'r, C: PlannedColumns>(
    alloc: Global,
    frame: &BegunFrame<'_>,
    planned: &'r C,
) -> Result<ColumnCopies<'r>, AllocError>
    requires sound { IsSound frame.now }
    requires frame { C.frame planned.now ≡ frame.now }
    ensures { IfOk result (λ copies. AreCopies frame.now (lent copies.counts.items) copies.columns.items) }
{
    let count = frame.setting.header.params.tiles.columns();
    let mut counts = Vec::with_capacity(alloc, count as usize)?;
    let mut columns = Vec::with_capacity(alloc, count as usize)?;
    for k in 0..count {
        match planned.column(k) {
            Ok(it) => {
                counts.push_reserved(Ok(&it.counts));
                columns.push_reserved(copied_column(alloc, &frame.setting, k, &it.plan.column)?);
            }
            Err(why) => counts.push_reserved(Err(*why)),
        }
    }
    Ok(ColumnCopies { counts, columns })
}

/// Ends the reading of a frame whose tile columns were all planned, or weren't: what it leaves beside its samples, or the rule that
/// it breaks first.
pub fn close<C: PlannedColumns>(
    alloc: Global,
    frame: &BegunFrame<'_>,
    planned: &C,
) -> Result<Decoded, Halt>
    requires sound { IsSound frame.now }
    requires frame { C.frame planned.now ≡ frame.now }
    ensures { GivesDecoded frame.now result }
{
    let ColumnCopies { counts, columns } = copy_all(alloc, frame, planned)?;
    let none = Counts::new(alloc)?;
    let counts = join(&counts, none)?;
    Ok(Decoded {
        contexts: frame.setting.contexts,
        columns,
        counts,
    })
}
