//! A filter along one direction.

ghost use Rattle.std.specs.Prelude.{◌≡◌, true};
ghost use Rattle.std.specs.Bool.{OnTrue};
ghost use Rattle.inter_places.specs.Axes.{IsAxis};
ghost use Rattle.inter_predict.specs.Code.{IsFilter};

use inter_places::{Axis, phase_of};
use tap_filter::FilterSample;
use vp9_tables::taps;
use vp9_types::InterpFilter;

/// The kind of a filter, and the greatest sample.
#[derive(Clone, Copy)]
pub(crate) struct Interpolation {
    pub(crate) kind: InterpFilter,
    pub(crate) most: u16,
}

/// Where the values of a block are filtered from along one direction, and by what: the taps are those of its first phase.
#[derive(Drop)]
pub(crate) struct LineFilter<T> {
    pub(crate) axis: Axis,
    pub(crate) kind: InterpFilter,
    pub(crate) most: u16,
    pub(crate) taps: T,
}

/// The filter of an axis, for samples kept as P.
#[inline(always)]
pub(crate) fn filter_of<P: FilterSample>(
    axis: &Axis,
    kind: InterpFilter,
    most: u16,
) -> LineFilter<P::Taps>
    requires axis { IsAxis axis.now }
    requires most { P.takes most }
    ensures filter { IsFilter P.stand_for P.hold P.takes result }
    ensures axis { result.axis ≡ axis.now }
    ensures kind { result.kind ≡ kind }
    ensures most { result.most ≡ most }
{
    LineFilter {
        axis: *axis,
        kind,
        most,
        taps: P::taps_of(taps(kind, phase_of(axis))),
    }
}

impl<T> LineFilter<T> {
    /// Whether the reference has the frame's size along this direction.
    #[inline(always)]
    pub(crate) fn is_unscaled(&self) -> bool
        ensures { OnTrue result (self.now.axis.step ≡ 16) }
    {
        self.axis.step == 16
    }
}
