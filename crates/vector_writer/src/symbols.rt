//! What inter blocks say.

ghost use Rattle.std.specs.Prelude.{◌≡◌, ◌<◌};
ghost use Rattle.vector_writer.specs.SaidVectors.{symbols_at};

use block_plan::{Mv, ReferenceFrames};
use vp9_types::{InterMode, InterpFilter};

/// What an inter block says: its references, its filter, the mode of each quarter (one for all four from 8x8 on), and the
/// differences of its new vectors, by quarter and list.
#[derive(Clone, Copy, Debug, PartialEq, Eq)]
pub struct InterSymbols {
    pub references: ReferenceFrames,
    pub filter: InterpFilter,
    pub modes: [InterMode; 4],
    pub differences: [[Mv; 2]; 4],
}

/// What a quarter says, or a whole block: its mode, and the differences of its new vectors by list.
#[derive(Clone, Copy, Debug, PartialEq, Eq)]
pub struct QuarterSymbols {
    pub mode: InterMode,
    pub differences: [Mv; 2],
}

/// Those of a quarter.
pub(crate) fn symbols_at(symbols: &InterSymbols, k: usize) -> QuarterSymbols
    requires { k < 4 }
    ensures { result ≡ symbols_at symbols.now k }
{
    QuarterSymbols {
        mode: symbols.modes[k],
        differences: symbols.differences[k],
    }
}
