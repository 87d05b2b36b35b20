//! The residues of a block, whoever keeps them.

ghost use Rattle.std.specs.Prelude.{◌≡◌, ◌<◌, ◌≤◌, ◌+◌, ◌*◌};
ghost use Rattle.std.specs.Option.{option_copied};
ghost use Rattle.block_rebuild.specs.Residues.{IsWhole, residue_held};

use block_plan::{BlockResidues, PlaneResidues};
use vp9_types::Plane;

/// The residues of a block's transform blocks, whoever keeps them: a buffer of the block, or a part of what is read ahead.
pub trait TransformResidues {
    ghost use Rattle.std.specs.Prelude.{ℕ};
    ghost use Rattle.vp9_types.specs.declared.shape.Plane.{Plane};
    ghost use Rattle.block_plan.specs.Planned.{Residue};

    /// Which may be asked for, by plane, by how many values each of the plane has, and by number.
    ghost holds: { Self → Plane → ℕ → ℕ → Type 0 };

    /// The values of each, if it has coefficients.
    ghost residue: { Self → Plane → ℕ → ℕ → Residue };

    /// The values of the `k`-th transform block of a plane, whose transform blocks have `area` samples each, or none.
    fn get(&self, plane: Plane, area: usize, k: usize) -> Option<&[i32]>
        requires few { k < 256 }
        requires room { k * area + area ≤ 4096 }
        requires held { holds self.now plane area k }
        ensures value { option_copied result ≡ residue self.now plane area k }
        ensures whole { IsWhole area (option_copied result) };
}

/// The `k`-th of a plane in a block's buffer.
#[inline(always)]
fn residue_at(residues: &PlaneResidues, area: usize, k: usize) -> Option<&[i32]>
    requires few { k < 256 }
    requires room { k * area + area ≤ 4096 }
    ensures value { option_copied result ≡ residue_held residues.now area k }
    ensures whole { IsWhole area (option_copied result) }
{
    if !residues.some[k] {
        return None;
    }
    let from = k * area;
    Some(&residues.values[from..from + area])
}

impl TransformResidues for BlockResidues {
    ghost use Rattle.block_rebuild.specs.Residues.{plane_of, residue_held};

    ghost holds = { λ r p area k. Unit {0} };

    ghost residue = { λ r p area k. residue_held (plane_of r p) area k };

    #[inline(always)]
    fn get(&self, plane: Plane, area: usize, k: usize) -> Option<&[i32]> {
        match plane {
            Plane::Y => residue_at(&self.y, area, k),
            Plane::U => residue_at(&self.u, area, k),
            Plane::V => residue_at(&self.v, area, k),
        }
    }
}
