//! Angles.

ghost use Rattle.std.specs.Prelude.{◌≡◌, ◌≤◌, ◌<◌, unsigned_abs};
ghost use Rattle.vp9_tables.specs.TransformTables.{cosine_of};
ghost use Rattle.inverse_transforms.specs.Angles.{sine_of};

use vp9_tables::cosine;

/// An angle in 64ths of pi, with its cosine and sine times 2^14.
#[derive(Clone, Copy, Debug)]
pub struct Turn {
    pub angle: u8,
    pub cosine: i32,
    pub sine: i32,
    ghost cosine_value: { cosine ≡ cosine_of angle },
    ghost sine_value: { sine ≡ sine_of angle },
    ghost cosine_size: { unsigned_abs cosine ≤ 16384 },
    ghost sine_size: { unsigned_abs sine ≤ 16384 },
}

impl Turn {
    /// `angle` 64ths of pi.
    #[inline(always)]
    pub fn by(angle: u8) -> Self
        requires { angle < 128 }
        ensures { result.angle ≡ angle }
    {
        Turn {
            angle,
            cosine: cosine(angle),
            sine: cosine((angle + 96) % 128),
        }
    }
}
