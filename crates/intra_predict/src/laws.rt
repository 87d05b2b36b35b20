//! Laws of the definitions, as contracts of functions that do nothing.

ghost use Rattle.std.specs.Prelude.{◌≡◌, ℕ, ◌<◌, ◌≤◌};
ghost use Rattle.vp9_types.specs.Maps.{Map, IsAtMost};
ghost use Rattle.vp9_types.specs.declared.block.IntraMode.{IntraMode};
ghost use Rattle.vp9_types.specs.declared.shape.Depth.{Depth};
ghost use Rattle.intra_predict.specs.declared.place.IntraPlace.{IntraPlace};
ghost use Rattle.vp9_types.specs.Sizes.{greatest};
ghost use Rattle.intra_predict.specs.BlockEdges.{EdgeSamples, edges_in};
ghost use Rattle.intra_predict.specs.Laws.{AgreeAround, IsInside, IsUpTo};
ghost use Rattle.intra_predict.specs.PredictedModes.{predicted};

/// The edges of a block depend only on the samples around it: those of its tile in the row above, no further than the
/// block, or than the one right of it where its coded block goes on there; and those of its rows in the column left of it.
pub fn edges_lie_around()
    ensures { (width height size : ℕ) (depth : Depth) (p : IntraPlace) (m n : Map) → 0 < size → IsInside width height p →
        p.tile_from ≤ p.column → AgreeAround width height size p m n →
        edges_in width height depth size p m ≡ edges_in width height depth size p n }
{}

/// Edges and predicted samples are in the range of the depth where the plane's samples are.
pub fn samples_stay_in_range()
    ensures edges { (width height size : ℕ) (depth : Depth) (p : IntraPlace) (m : Map) → IsAtMost (greatest depth) m →
        IsUpTo (greatest depth) (edges_in width height depth size p m) }
    ensures predicted { (mode : IntraMode) (size : ℕ) (depth : Depth) (e : EdgeSamples) → 0 < size →
        IsUpTo (greatest depth) e → IsAtMost (greatest depth) (predicted mode size depth e) }
{}
