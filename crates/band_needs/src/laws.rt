//! Laws of the definitions, as contracts of functions that do nothing.

ghost use Rattle.std.specs.Prelude.{◌<◌, ℕ, List, length};
ghost use Rattle.std.specs.List.{All};
ghost use Rattle.vp9_types.specs.Shapes.{mi_rows};
ghost use Rattle.vp9_types.specs.declared.block.ReferenceFrame.{ReferenceFrame};
ghost use Rattle.vp9_types.specs.declared.shape.Shape.{Shape};
ghost use Rattle.block_plan.specs.declared.block.BlockInfo.{BlockInfo};
ghost use Rattle.band_needs.specs.Needs.{needs_of};
ghost use Rattle.band_needs.specs.Ranges.{needs_at};
ghost use Rattle.band_needs.specs.BandReads.{AreRead, BlocksRead, BlockLiesIn};

/// Of each reference the blocks read the first and the last of the bands that are found, and none outside of them. So with
/// these bands each block can be predicted: all rows from the first to the last that it is predicted from lie in them.
#[tactic(auto, using(crate::proofs::Exact::needs_are, crate::proofs::Exact::block_lies))]
pub fn bands_are_exact()
    ensures exact { (shape : Shape) (references : ReferenceFrame → Shape) (blocks : List BlockInfo) (r : ReferenceFrame) → All (λ b. b.row < mi_rows shape) blocks →
        AreRead (BlocksRead shape references blocks (length blocks) r) (needs_at (needs_of shape references blocks) r) }
    ensures enough { (shape : Shape) (references : ReferenceFrame → Shape) (blocks : List BlockInfo) → All (λ b. b.row < mi_rows shape) blocks →
        All (λ b. BlockLiesIn shape references b b.prediction (needs_at (needs_of shape references blocks))) blocks }
{}
