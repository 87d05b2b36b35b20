//! Ids of a part of a map, as functions of slices.

ghost use Rattle.std.specs.Prelude.{◌≡◌, ◌+◌, ◌*◌, ◌^◌, ◌<◌, ◌≤◌, length, min};
ghost use Rattle.std.specs.List.{fold};
ghost use Rattle.vp9_types.specs.Maps.{rows_of, with_block};
ghost use Rattle.block_plan.specs.SegmentMaps.{least_id};

use block_geometry::{Part, fill_part};

fn least_of(most: u8, ids: &[u8]) -> u8
    ensures { result ≡ fold min most ids.now }
{
    let mut least = most;
    for id in ids {
        least = least.min(*id);
    }
    least
}

/// The least id of a part of a map, whose rows have `width` places.
pub(crate) fn least_in(ids: &[u8], width: usize, part: Part) -> u8
    requires wide { part.col + part.cols ≤ width }
    requires near { part.row + part.rows < 2 ^ 32 }
    requires high { (part.row + part.rows) * width ≤ length ids.now }
    ensures { result ≡ least_id (rows_of width ids.now) part }
{
    let mut least = 7;
    for i in 0..part.rows {
        let at = (part.row + i) * width + part.col;
        least = least_of(least, &ids[at..at + part.cols]);
    }
    least
}

/// Puts an id at each place of a part.
pub(crate) fn put_in(ids: &mut [u8], width: usize, part: Part, id: u8)
    requires wide { part.col + part.cols ≤ width }
    requires near { part.row + part.rows < 2 ^ 32 }
    requires high { (part.row + part.rows) * width ≤ length ids.old }
    ensures { rows_of width ids.new ≡ with_block (rows_of width ids.old) part.row part.col part.rows part.cols (λ _ _. id) }
{
    fill_part(ids, width, part, id);
}
