//! Laws of the definitions, as contracts of functions that do nothing.

ghost use Rattle.std.specs.Prelude.{◌≡◌, ◌<◌, ◌≤◌, ℕ, List, Some};
ghost use Rattle.std.specs.List.{All};
ghost use Rattle.vp9_types.specs.Shapes.{mi_rows, bands_of};
ghost use Rattle.vp9_types.specs.declared.block.ReferenceFrame.{ReferenceFrame};
ghost use Rattle.vp9_types.specs.declared.shape.Shape.{Shape};
ghost use Rattle.block_plan.specs.declared.block.BlockInfo.{BlockInfo};
ghost use Rattle.inter_places.specs.Places.{IsReference};
ghost use Rattle.band_needs.specs.Needs.{needs_of};
ghost use Rattle.band_needs.specs.Ranges.{needs_at};
ghost use Rattle.band_needs.specs.declared.ranges.BandRange.{BandRange};
ghost use Rattle.block_rebuild.specs.Code.{AreServed};
ghost use Rattle.block_rebuild.specs.declared.references.Rebuilding.{Rebuilding};
ghost use Rattle.band_references.specs.BandReferences.{AreThere};

use vp9_types::Samples;

/// References that have the bands that a row of blocks needs serve each of the blocks, whatever else they have: they hold all
/// rows that it is predicted from.
pub fn bands_serve_blocks<S: Samples>()
    ensures { (by : Rebuilding S) (shapes : ReferenceFrame → Shape) (blocks : List BlockInfo) → All (λ b. b.row < mi_rows by.shape) blocks →
        AreThere S.holds S.width S.map by shapes (needs_of by.shape shapes blocks) →
        All (λ b. AreServed S.holds S.width S.map by b b.prediction) blocks }
{}

/// The bands that blocks need of a reference are bands of its frame, so they can be looked up.
#[tactic(auto, using(crate::proofs::Inside::bands_inside))]
pub fn bands_lie_in_the_frame()
    ensures { (shape : Shape) (shapes : ReferenceFrame → Shape) (blocks : List BlockInfo) (r : ReferenceFrame) (bands : BandRange) → All (λ b. b.row < mi_rows shape) blocks →
        IsReference shape (shapes r) → needs_at (needs_of shape shapes blocks) r ≡ Some bands → bands.last < bands_of (shapes r) }
{}
