//! The four saved contexts.

ghost use Rattle.std.specs.Prelude.{◌≡◌, replicate, slice_set};
ghost use Rattle.prob_contexts.specs.Defaults.{default_lists};
ghost use Rattle.prob_contexts.specs.ProbLists.{lists_of};
ghost use Rattle.seq_decoder.specs.SavedContexts.{saved_place, resets_all, resets_one, loses_past, saved_before, context_at, with_own};
ghost use Rattle.seq_decoder.specs.Code.{saved_lists};

use frame_headers::{FrameKind, Header};
use prob_contexts::{Contexts, default_contexts};

/// The contexts that frames have saved, in the places 0 to 3.
#[derive(Clone, Copy)]
pub struct SavedContexts {
    pub places: [Contexts; 4],
}

/// Whether a frame loses the past (setup_past_independence in 7.2 of the standard).
pub fn loses_past(header: &Header) -> bool
    ensures { result ≡ loses_past header.now }
{
    match header.kind {
        FrameKind::Inter(_) => header.error_resilient,
        FrameKind::Key | FrameKind::IntraOnly => true,
    }
}

/// Where a frame starts from and saves to.
pub fn saved_place(header: &Header) -> u8
    ensures { result ≡ saved_place header.now }
{
    if loses_past(header) {
        0
    } else {
        header.contexts.index
    }
}

fn resets_all(header: &Header) -> bool
    ensures { result ≡ resets_all header.now }
{
    matches!(header.kind, FrameKind::Key)
        || header.error_resilient
        || (loses_past(header) && header.reset_context == 3)
}

fn resets_one(header: &Header) -> bool
    ensures { result ≡ resets_one header.now }
{
    loses_past(header) && header.reset_context == 2
}

impl SavedContexts {
    /// The defaults.
    pub fn new() -> SavedContexts
        ensures { saved_lists result ≡ replicate 4 default_lists }
    {
        SavedContexts {
            places: [default_contexts(); 4],
        }
    }

    /// What a place holds.
    pub fn at(&self, place: u8) -> Contexts
        ensures { lists_of result ≡ context_at (saved_lists self.now) place }
    {
        if place < 4 {
            self.places[usize::from(place)]
        } else {
            default_contexts()
        }
    }

    /// Puts contexts into a place.
    fn put(&mut self, place: u8, contexts: &Contexts)
        ensures { saved_lists self.new ≡ slice_set (saved_lists self.old) place (lists_of contexts.now) }
    {
        if place < 4 {
            self.places[usize::from(place)] = *contexts;
        }
    }

    /// Resets what a frame resets before it is decoded.
    #[tactic(auto, unfolding(crate::specs::SavedContexts::saved_before))]
    pub fn reset(&mut self, header: &Header)
        ensures { saved_lists self.new ≡ saved_before header.now (saved_lists self.old) }
    {
        if resets_all(header) {
            *self = SavedContexts::new();
        } else if resets_one(header) {
            self.put(header.contexts.index, &default_contexts());
        }
    }

    /// Saves a frame's own contexts, if it asks for that.
    pub fn save(&mut self, header: &Header, own: &Contexts)
        ensures { saved_lists self.new ≡ with_own header.now (lists_of own.now) (saved_lists self.old) }
    {
        if header.contexts.refresh {
            self.put(saved_place(header), own);
        }
    }
}
