//! Bands from a first one to a last one.

ghost use Rattle.std.specs.Prelude.{◌≡◌, Some};
ghost use Rattle.band_needs.specs.Ranges.{both_ranges, widened, no_needs, needs_at, with_range};

use vp9_types::ReferenceFrame;

/// The bands of a picture from `first` to `last`.
#[derive(Clone, Copy, Debug, PartialEq, Eq)]
pub struct BandRange {
    pub first: u32,
    pub last: u32,
}

/// The bands that are read of each reference, if any is.
#[derive(Clone, Copy, Debug, PartialEq, Eq)]
pub struct BandNeeds {
    pub last: Option<BandRange>,
    pub golden: Option<BandRange>,
    pub altref: Option<BandRange>,
}

impl BandRange {
    pub(crate) fn with(self, other: BandRange) -> BandRange
        ensures { result ≡ both_ranges self other }
    {
        BandRange {
            first: self.first.min(other.first),
            last: self.last.max(other.last),
        }
    }
}

fn widened(range: Option<BandRange>, other: BandRange) -> Option<BandRange>
    ensures { result ≡ Some (widened range other) }
{
    match range {
        None => Some(other),
        Some(range) => Some(range.with(other)),
    }
}

impl BandNeeds {
    /// Nothing is read.
    pub(crate) fn none() -> BandNeeds
        ensures { result ≡ no_needs }
    {
        BandNeeds {
            last: None,
            golden: None,
            altref: None,
        }
    }

    /// The bands of a reference.
    pub fn of(&self, reference: ReferenceFrame) -> Option<BandRange>
        ensures { result ≡ needs_at self.now reference }
    {
        match reference {
            ReferenceFrame::Last => self.last,
            ReferenceFrame::Golden => self.golden,
            ReferenceFrame::Altref => self.altref,
        }
    }

    pub(crate) fn with(self, reference: ReferenceFrame, range: BandRange) -> BandNeeds
        ensures { result ≡ with_range self reference range }
    {
        let BandNeeds {
            last,
            golden,
            altref,
        } = self;
        match reference {
            ReferenceFrame::Last => BandNeeds {
                last: widened(last, range),
                golden,
                altref,
            },
            ReferenceFrame::Golden => BandNeeds {
                last,
                golden: widened(golden, range),
                altref,
            },
            ReferenceFrame::Altref => BandNeeds {
                last,
                golden,
                altref: widened(altref, range),
            },
        }
    }
}
