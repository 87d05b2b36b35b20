//! Places in a reference.

ghost use Rattle.std.specs.Prelude.{◌≡◌, ℕ};
ghost use Rattle.vp9_types.specs.declared.shape.Plane.TheVariants.{U, V};
ghost use Rattle.vp9_types.specs.declared.shape.Shape.{Shape};
ghost use Rattle.block_plan.specs.declared.block.BlockInfo.{BlockInfo};
ghost use Rattle.block_plan.specs.declared.block.InterPrediction.{InterPrediction};
ghost use Rattle.inter_places.specs.Axes.{IsPlace};
ghost use Rattle.inter_places.specs.Places.{place_of};

use vp9_types::Plane;

/// Where the samples of a block are predicted from along one direction.
#[derive(Clone, Copy, Debug, PartialEq, Eq)]
pub struct Axis {
    /// `startX` or `startY`: the place of the first sample, in sixteenths of a sample.
    pub start: i32,
    /// `xStep` or `yStep`: from one sample to the next, 16 where the reference has the frame's size.
    pub step: u8,
    /// How many samples the reference's plane has: `lastX` or `lastY`, and one.
    pub size: u32,
}

/// A block of a plane, with its first row and column in the plane, and where it is predicted from.
#[derive(Clone, Copy, Debug, PartialEq, Eq)]
pub struct Place {
    pub plane: Plane,
    pub row: usize,
    pub column: usize,
    pub rows: usize,
    pub columns: usize,
    pub down: Axis,
    pub across: Axis,
}

impl Place {
    /// The place in V of the part that has this place in U: only the plane is another.
    #[inline(always)]
    #[tactic(auto, unfolding(crate::specs::Places::place_of))]
    pub fn in_v(&self) -> Place
        ensures part { (shape : Shape) (b : BlockInfo) (modes : InterPrediction) (n list : ℕ) (reference : Shape) →
            self.now ≡ place_of shape b modes (record { plane = U; number = n; list = list }) reference →
            result ≡ place_of shape b modes (record { plane = V; number = n; list = list }) reference }
        ensures fits { IsPlace self.now → IsPlace result }
        ensures plane { result.plane ≡ V }
    {
        Place {
            plane: Plane::V,
            ..*self
        }
    }
}
