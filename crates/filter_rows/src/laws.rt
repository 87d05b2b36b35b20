//! Laws of the definitions, as contracts of functions that do nothing.

ghost use Rattle.std.specs.Prelude.{ℕ};
ghost use Rattle.vp9_types.specs.declared.shape.Plane.{Plane};
ghost use Rattle.vp9_types.specs.declared.shape.Shape.{Shape};
ghost use Rattle.filter_rows.specs.Laws.{BandsAreRows, BandIsWhole, FinalRowIsHeld};

/// A band has the rows of the row of superblocks with its number, and each of them becomes final when that row is filtered or
/// the next one: so a band is whole one filter after its own, the last one with its own. What becomes final can be read from
/// the buffer.
pub fn bands_become_final()
    ensures rows { (shape : Shape) (plane : Plane) (band y : ℕ) → BandsAreRows shape plane band y }
    ensures whole { (shape : Shape) (plane : Plane) (band y : ℕ) → BandIsWhole shape plane band y }
    ensures held { (shape : Shape) (plane : Plane) (sr y : ℕ) → FinalRowIsHeld shape plane sr y }
{}
