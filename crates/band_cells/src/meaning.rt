ghost use Rattle.std.specs.Prelude.{ℕ};
ghost use Rattle.band_cells.specs.Bands.{Picture};

use std::marker::Brand;

/// What bands are bands of. It holds nothing at run time, and only names the pictures of a run.
pub trait Meaning {
    /// The picture of each frame, by the frame's number.
    ghost pictures: { ℕ → Picture };
}

/// A call that begins a run picks its own pictures.
impl Meaning for Brand {
    ghost use Rattle.std.specs.Prelude.{false};
    ghost use Rattle.vp9_types.specs.declared.shape.Depth.TheVariants.{Eight};

    ghost pictures = { λ _. record { shape = record { w = 0; h = 0; depth = Eight; ss_x = false; ss_y = false }; map = λ _ _ _. 0 } };
}
