ghost use Rattle.std.specs.Prelude.{◌≡◌, map};
ghost use Rattle.band_cells.specs.Code.{AreBandsOf};

use crate::band::Band;
use crate::layout::band_height;
use crate::meaning::Meaning;
use crate::store::Store;
use std::marker::Model;
use vp9_types::{BandSpan, Plane, Sample, Samples, Shape};

/// The rows of some bands of a frame, which were looked up before: a row is found by its number alone. Contracts see which
/// bands they are.
#[derive(Drop)]
pub struct BandRows<'a, M: Meaning, P: Sample> {
    shape: Shape,
    span: BandSpan,
    bands: &'a [&'a Band<M, P>],
}

impl<'a, M: Meaning, P: Sample> Model for BandRows<'a, M, P> {
    ghost use Rattle.std.specs.Prelude.{◌≡◌, map};
    ghost use Rattle.vp9_types.specs.declared.job.BandSpan.{BandSpan as Bands};
    ghost use Rattle.band_cells.specs.Code.{AreBandsOf};

    ghost Value = { Bands };

    ghost view = { λ v. v.span };

    ghost invariant = { λ v. (v.shape ≡ (M.pictures v.span.frame).shape) × (AreBandsOf v.span (map (λ b. b.now) v.bands.now)) };
}

impl<'a, M: Meaning, P: Sample> BandRows<'a, M, P> {
    /// The rows of the bands of a span, as `Store::look_up` finds them.
    pub fn new(
        store: &Store<M, P>,
        span: BandSpan,
        bands: &'a [&'a Band<M, P>],
    ) -> BandRows<'a, M, P>
        requires frame { span.frame ≡ store.now.frame }
        requires bands { AreBandsOf span (map (λ b. b.now) bands.now) }
        ensures { result ≡ span }
    {
        BandRows {
            shape: *store.shape(),
            span,
            bands,
        }
    }
}

impl<'a, M: Meaning, P: Sample> Samples for BandRows<'a, M, P> {
    type Kept = P;

    ghost use Rattle.vp9_types.specs.Shapes.{coded_width};
    ghost use Rattle.band_cells.specs.Code.{IsRowWithin};

    ghost holds = { λ span p y. IsRowWithin (M.pictures span.frame).shape span p y };

    ghost width = { λ span p. coded_width (M.pictures span.frame).shape p };

    ghost map = { λ span. (M.pictures span.frame).map };

    #[inline(always)]
    fn row(&self, plane: Plane, y: u32) -> &[P] {
        let band = y / band_height(&self.shape, plane) - self.span.first;
        self.bands[band as usize].row(plane, y)
    }

    #[inline(always)]
    fn rows(&self, plane: Plane, y: u32, count: usize) -> Option<(&[P], usize)> {
        let height = band_height(&self.shape, plane);
        let band = y / height;
        let last = (y as usize + count - 1) / height as usize;
        if last == band as usize {
            let band = band - self.span.first;
            Some(self.bands[band as usize].rows(plane, y, count))
        } else {
            None
        }
    }
}
