ghost use Rattle.std.specs.Prelude.{◌≡◌, length};

use inter_predict::LINES;
use intra_predict::Scratch;
use tap_filter::FilterSample;

/// How many samples the greatest block has.
pub(crate) const GREATEST_BLOCK: usize = 4096;

/// How many samples an inter block is predicted in: two predictions, and the lines that they are made of.
pub const BUFFER: usize = 2 * GREATEST_BLOCK + LINES;

/// Room to rebuild a block in, of a frame that is kept in bytes.
#[derive(Drop)]
pub struct ByteRoom {
    intra: Scratch,
    samples: [u8; BUFFER],
}

/// The same of a frame that is kept in words.
#[derive(Drop)]
pub struct WordRoom {
    intra: Scratch,
    samples: [u16; BUFFER],
}

/// What the samples of a frame are kept as while its blocks are put in.
pub trait RoomSample: FilterSample {
    /// Room to rebuild a block in. It is made once, since making it clears it; what it holds between blocks doesn't matter.
    type Room: Drop;

    fn new_room() -> Self::Room;

    /// The room's part for an intra block.
    fn intra(room: &mut Self::Room) -> &mut Scratch;

    /// The room's samples.
    fn buffer(room: &mut Self::Room) -> &mut [Self]
        ensures { length result.now ≡ BUFFER };
}

impl RoomSample for u8 {
    type Room = ByteRoom;

    fn new_room() -> ByteRoom {
        ByteRoom {
            intra: Scratch::new(),
            samples: [0; BUFFER],
        }
    }

    #[inline(always)]
    fn intra(room: &mut ByteRoom) -> &mut Scratch {
        &mut room.intra
    }

    #[inline(always)]
    fn buffer(room: &mut ByteRoom) -> &mut [u8] {
        &mut room.samples
    }
}

impl RoomSample for u16 {
    type Room = WordRoom;

    fn new_room() -> WordRoom {
        WordRoom {
            intra: Scratch::new(),
            samples: [0; BUFFER],
        }
    }

    #[inline(always)]
    fn intra(room: &mut WordRoom) -> &mut Scratch {
        &mut room.intra
    }

    #[inline(always)]
    fn buffer(room: &mut WordRoom) -> &mut [u16] {
        &mut room.samples
    }
}
