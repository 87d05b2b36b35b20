//! Rows of a reference.

ghost use Rattle.std.specs.Prelude.{◌≡◌, ◌<◌, ◌≤◌};
ghost use Rattle.inter_places.specs.Axes.{IsAxis, first_place, last_place};
ghost use Rattle.band_needs.specs.BandReads.{band_height};
ghost use Rattle.band_needs.specs.Needs.{rows_range};

use crate::ranges::BandRange;
use inter_places::{Axis, PlaceRows, offset_of, straight};
use vp9_types::{Plane, Shape};

/// The first row that a block is predicted from.
#[tactic(auto, using(crate::proofs::RowLemmas::first_is))]
fn first_row(a: &Axis) -> u32
    requires { IsAxis a.now }
    ensures { result ≡ first_place a.now }
{
    straight(a, 0) as u32
}

/// The last row that so many samples are predicted from.
#[tactic(auto, unfolding(inter_places::specs::Axes::place))]
fn last_row(a: &Axis, count: usize) -> u32
    requires axis { IsAxis a.now }
    requires few { count ≤ 64 }
    requires some { 0 < count }
    ensures { result ≡ last_place a.now count }
{
    straight(a, offset_of(a, count - 1) / 16 + 7) as u32
}

/// How many rows of a plane a band has.
fn band_height(shape: &Shape, plane: Plane) -> u32
    ensures value { result ≡ band_height shape.now plane }
    ensures some { 0 < result }
{
    if plane != Plane::Y && shape.ss_y {
        32
    } else {
        64
    }
}

/// The bands of a reference that so many rows of a plane are predicted from.
pub(crate) fn rows_range(reference: &Shape, plane: Plane, at: &PlaceRows) -> BandRange
    requires axis { IsAxis at.now.down }
    requires some { 0 < at.now.rows }
    requires few { at.now.rows ≤ 64 }
    ensures { result ≡ rows_range (band_height reference.now plane) at.now.down at.now.rows }
{
    let height = band_height(reference, plane);
    BandRange {
        first: first_row(&at.down) / height,
        last: last_row(&at.down, at.rows) / height,
    }
}
