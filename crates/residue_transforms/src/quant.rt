ghost use Rattle.std.specs.Prelude.{◌≡◌};
ghost use Rattle.residue_transforms.specs.Residue.{quantiser};

use vp9_types::Depth;

/// What the levels of a block's plane are multiplied by: the first one of a block, and all others. A lossless frame
/// has the WHT.
#[derive(Clone, Copy, Debug, PartialEq, Eq)]
pub struct Quant {
    pub dc: u16,
    pub ac: u16,
    pub depth: Depth,
    pub lossless: bool,
}

/// What the level of a place is multiplied by.
#[inline(always)]
pub fn step_of(quant: Quant, place: usize) -> u16
    ensures { result ≡ quantiser quant place }
{
    if place == 0 { quant.dc } else { quant.ac }
}
