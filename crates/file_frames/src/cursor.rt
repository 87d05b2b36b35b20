ghost use Rattle.std.specs.Prelude.{◌≡◌, ◌≤◌, ◌+◌, ◌-◌, length};
ghost use Rattle.std.specs.List.{All};
ghost use Rattle.superframe_index.specs.PayloadFrames.{IsPart};
ghost use Rattle.file_frames.specs.Props.{fits_file_prop};
ghost use Rattle.file_frames.specs.Cursors.{FitsFile, place_of};

use crate::packets::PacketCursor;
use superframe_index::{Parts, split};
use vp9_types::{Rule, Stop};

/// A frame of a file: its number, from 0, and its bytes.
#[derive(Clone, Copy, Debug, PartialEq, Eq)]
pub struct FileFrame<'a> {
    pub number: u64,
    pub bytes: &'a [u8],
}

/// Goes over the frames of a file, in order. It takes no memory.
#[derive(Drop)]
pub struct FrameCursor<'a> {
    bytes: &'a [u8],
    packets: PacketCursor,
    // The payload before it, where the frames of that lie, and how many of them were given.
    payload: &'a [u8],
    parts: Parts,
    taken: usize,
    number: u64,
    ghost within: { FitsFile bytes.now packets } by { fits_file_prop bytes.now packets },
    ghost placed_in: { place_of packets ≤ length bytes.now },
    ghost parted: { length parts.items ≤ 8 },
    ghost placed: { All (IsPart payload.now) parts.items },
    ghost few: { number + (length parts.items - taken) ≤ place_of packets },
    ghost given: { taken ≤ length parts.items },
}

impl<'a> FrameCursor<'a> {
    ghost use Rattle.std.specs.Prelude.{◌≡◌, ◌≤◌, ◌<◌, ◌^◌, length, Ok, true, IfOk, IfSome};
    ghost use Rattle.file_frames.specs.Code.{ahead, all_ahead, IsNext, HasMoved};

    /// Before the first frame.
    pub fn new(bytes: &'a [u8]) -> FrameCursor<'a>
        ensures { ahead result ≡ all_ahead bytes.now }
    {
        FrameCursor {
            bytes,
            packets: PacketCursor::new(bytes),
            payload: &bytes[..0],
            parts: Parts::new(),
            taken: 0,
            number: 0,
        }
    }

    /// Takes the next payload in hand, and says whether there is one.
    fn next_payload(&mut self) -> Result<bool, Rule>
        requires { length self.old.parts.items ≤ self.old.taken }
        ensures moved { HasMoved (ahead self.old) result (ahead self.new) }
        ensures nearer { result ≡ Ok true → place_of self.old.packets < place_of self.new.packets }
        ensures same { self.new.bytes ≡ self.old.bytes }
        ensures number { self.new.number ≡ self.old.number }
    {
        let mut packets = self.packets;
        let packet = match packets.next_packet(self.bytes) {
            Ok(Some(packet)) => packet,
            Ok(None) => return Ok(false),
            Err(rule) => return Err(rule),
        };
        let payload = &self.bytes[packet.from..packet.to];
        match split(payload) {
            Ok(parts) => self.parts = parts,
            Err(rule) => return Err(rule),
        }
        self.payload = payload;
        self.taken = 0;
        self.packets = packets;
        Ok(true)
    }

    /// The next frame, or nothing at the end of the file; or the rule that the container or the sizes of a payload's
    /// index break, at the frame that would come next. There it stays.
    pub fn next_frame(&mut self) -> Result<Option<FileFrame<'a>>, Stop>
        ensures next { IsNext (ahead self.old) result (ahead self.new) }
        ensures low { IfOk result (λ next. IfSome next (λ frame. frame.number < 2 ^ 63)) }
    {
        'payloads: while self.taken == self.parts.len() {
            match self.next_payload() {
                Ok(true) => {}
                Ok(false) => return Ok(None),
                Err(rule) => {
                    let frame = self.number;
                    return Err(Stop { frame, rule });
                }
            }
        }
        let span = self.parts[self.taken];
        let frame = FileFrame {
            number: self.number,
            bytes: &self.payload[span.from..span.to],
        };
        self.taken += 1;
        self.number += 1;
        Ok(Some(frame))
    }
}
