//! Filters of a line, of which eight lines take the same.

ghost use Rattle.std.specs.Prelude.{◌≡◌, ◌≤◌};

use crate::edge::Limits;
use crate::far::{Far, Wide, filtered_far, smoothed_far};
use crate::near::{Near, filtered, narrowed, smoothed};

/// What becomes of one line.
pub trait LineFilter {
    ghost use Rattle.line_filter.specs.Lines.{Line};
    ghost use Rattle.line_filter.specs.declared.edge.Limits.{Limits};
    ghost use Rattle.line_filter.specs.Code.{IsNear, line_of};

    ghost line: { Limits → Line → Line };

    fn filtered(x: Near, l: Limits) -> Near
        requires small { IsNear x }
        requires half { l.half ≤ 2048 }
        ensures { line_of result ≡ line l (line_of x) };
}

/// What becomes of one line of eight samples on each side.
pub trait FarFilter {
    ghost use Rattle.line_filter.specs.Lines.{Line};
    ghost use Rattle.line_filter.specs.declared.edge.Limits.{Limits};
    ghost use Rattle.line_filter.specs.Code.{IsFar, IsNear, wide_line_of};

    ghost line: { Limits → Line → Line };

    fn filtered_far(x: Near, y: Far, l: Limits) -> Wide
        requires near { IsNear x }
        requires far { IsFar y }
        requires half { l.half ≤ 2048 }
        ensures { wide_line_of result.near result.far ≡ line l (wide_line_of x y) };
}

/// No line is flat.
pub struct Narrow;

/// Each line that changes is flat.
pub struct Smooth;

/// Some lines are flat.
pub struct Mixed;

impl LineFilter for Narrow {
    ghost use Rattle.line_filter.specs.Code.{narrowed};

    ghost line = { narrowed };

    #[inline(always)]
    fn filtered(x: Near, l: Limits) -> Near {
        narrowed(x, l)
    }
}

impl LineFilter for Smooth {
    ghost use Rattle.line_filter.specs.Code.{smoothed};

    ghost line = { smoothed };

    #[inline(always)]
    fn filtered(x: Near, l: Limits) -> Near {
        smoothed(x, l)
    }
}

impl LineFilter for Mixed {
    ghost use Rattle.std.specs.Prelude.{true};
    ghost use Rattle.line_filter.specs.Lines.{filtered_near};

    ghost line = { λ l x. filtered_near l true x };

    #[inline(always)]
    fn filtered(x: Near, l: Limits) -> Near {
        filtered(x, l, true)
    }
}

impl FarFilter for Smooth {
    ghost use Rattle.line_filter.specs.Code.{smoothed_far};

    ghost line = { smoothed_far };

    #[inline(always)]
    fn filtered_far(x: Near, y: Far, l: Limits) -> Wide {
        smoothed_far(x, y, l)
    }
}

impl FarFilter for Mixed {
    ghost use Rattle.line_filter.specs.Lines.{filtered_line};
    ghost use Rattle.line_filter.specs.declared.edge.FilterWidth.TheVariants.{Sixteen};

    ghost line = { λ l x. filtered_line l Sixteen x };

    #[inline(always)]
    fn filtered_far(x: Near, y: Far, l: Limits) -> Wide {
        filtered_far(x, y, l)
    }
}
