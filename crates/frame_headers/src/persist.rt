ghost use Rattle.std.specs.Prelude.{◌≡◌};
ghost use Rattle.frame_headers.specs.HeaderState.{held, refreshed};

use crate::color::ColorConfig;
use crate::filter::LoopDeltas;
use crate::header::{FrameSize, Header};
use crate::segments::Features;
use vp9_types::Shape;

/// What a header needs of the frames before it: the shapes of what the eight slots hold, the colour configuration of
/// the last intra frame, the filter deltas and segment features in force, and the size of the last decoded frame.
#[derive(Clone, Copy, Debug, PartialEq, Eq)]
pub struct Persist {
    pub slots: [Option<Shape>; 8],
    pub color: ColorConfig,
    pub deltas: LoopDeltas,
    pub features: Features,
    pub size: Option<FrameSize>,
}

impl Persist {
    /// Before the first frame.
    pub const START: Persist = Persist {
        slots: [None; 8],
        color: ColorConfig::DEFAULT,
        deltas: LoopDeltas::DEFAULT,
        features: Features::NONE,
        size: None,
    };
}

fn slot_held<T: Copy>(flags: u8, frame: T, old: Option<T>) -> Option<T>
    ensures { result ≡ held flags frame old }
{
    if flags % 2 == 1 { Some(frame) } else { old }
}

/// From now on the slots that `refresh` says hold this frame: slot i where its bit i is 1.
pub fn refresh_slots<T: Copy>(slots: &mut [Option<T>], refresh: u8, frame: T)
    ensures { slots.new ≡ refreshed refresh frame slots.old }
{
    let mut flags = refresh;
    for i in 0..slots.len() {
        slots[i] = slot_held(flags, frame, slots[i]);
        flags /= 2;
    }
}

impl Header {
    ghost use Rattle.frame_headers.specs.FrameSizes.{IsFrameSize};
    ghost use Rattle.frame_headers.specs.HeaderState.{next_persist, SlotsHaveSizes};

    /// What persists after this frame.
    pub fn next(&self, before: &Persist) -> Persist
        ensures persists { result ≡ next_persist self.now before.now }
        ensures sizes { IsFrameSize self.now.size → SlotsHaveSizes before.now → SlotsHaveSizes result }
    {
        let mut slots = before.slots;
        refresh_slots(&mut slots, self.refresh, self.shape());
        Persist {
            slots,
            color: self.color,
            deltas: self.params.loop_filter.deltas,
            features: self.params.segmentation.features,
            size: Some(self.size),
        }
    }
}
