//! What is kept between two frames.

ghost use Rattle.std.specs.Prelude.{◌≡◌, IfOk};
ghost use Rattle.seq_decoder.specs.Outputs.{form_from};
ghost use Rattle.seq_decoder.specs.DecoderState.{State, start_state};

use block_plan::SegmentMap;
use frame_headers::Persist;
use frame_output::Format;
use seq_decoder::{LastFrame, OutputForm, SavedContexts};
use std::alloc::{AllocError, Global};
use std::sync::Arc;

/// What is kept between two frames: what headers read, the saved contexts, the numbers of the frames that the slots hold, the map of
/// segments that the last frame left, that frame's blocks, and how the frames that are shown are put. What is large is shared.
#[derive(Drop)]
pub struct Kept {
    pub persist: Persist,
    pub saved: SavedContexts,
    pub slots: [Option<u64>; 8],
    pub segments: Arc<Option<SegmentMap>>,
    pub last: Arc<Option<LastFrame>>,
    pub form: OutputForm,
}

impl Kept {
    ghost use Rattle.frame_steps.specs.Kept.{MayFollow, StandsFor};

    /// Before the first frame of a file of this rate and scale, whose shown frames are put in this format.
    pub fn start(alloc: Global, format: Format, rate: (u32, u32)) -> Result<Kept, AllocError>
        ensures stands { IfOk result (λ k. StandsFor k start_state) }
        ensures form { IfOk result (λ k. k.form ≡ form_from format rate) }
        ensures may { IfOk result MayFollow }
    {
        Ok(Kept {
            persist: Persist::START,
            saved: SavedContexts::new(),
            slots: [None; 8],
            segments: Arc::new(alloc, None)?,
            last: Arc::new(alloc, None)?,
            form: OutputForm::new(format, rate),
        })
    }

    /// The same once more.
    pub fn share(&self) -> Result<Kept, AllocError>
        ensures stands { IfOk result (λ k. (state : State) → StandsFor self.now state → StandsFor k state) }
        ensures form { IfOk result (λ k. k.form ≡ self.now.form) }
        ensures may { MayFollow self.now → IfOk result MayFollow }
    {
        Ok(Kept {
            persist: self.persist,
            saved: self.saved,
            slots: self.slots,
            segments: Arc::try_clone(&self.segments)?,
            last: Arc::try_clone(&self.last)?,
            form: self.form,
        })
    }
}
