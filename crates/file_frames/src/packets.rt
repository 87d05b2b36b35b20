//! The packets of a file, whatever its container is.

ghost use Rattle.std.specs.Prelude.{◌≡◌, ◌≤◌, length};
ghost use Rattle.ivf_container.specs.Packets.{frame_rate_of};
ghost use Rattle.webm_container.specs.Code.{blocks_ahead};
ghost use Rattle.file_frames.specs.Cursors.{FitsFile, IsNextPacket, packets_left, place_of};
ghost use Rattle.file_frames.specs.Containers.{is_webm, packets_of_file, rate_of_file};

use ivf_container::{next_packet, rate, read_header};
use vp9_types::{Rule, Span};
use webm_container::{WebmCursor, next_block};

/// What a WebM file begins with: the id of its first element.
const WEBM: [u8; 4] = [0x1a, 0x45, 0xdf, 0xa3];

/// The rate and the scale of a WebM file, which tells neither.
const WEBM_RATE: (u32, u32) = (30, 1);

fn is_webm(bytes: &[u8]) -> bool
    ensures { result ≡ is_webm bytes.now }
{
    bytes.starts_with(&WEBM)
}

/// The rate and the scale of a file: those of its IVF header, and 30 and 1 of a WebM file. A file without a header has none.
#[tactic(auto, unfolding(crate::specs::Containers::rate_of_file))]
pub fn rate_of_file(bytes: &[u8]) -> (u32, u32)
    ensures { result ≡ rate_of_file bytes.now }
{
    if is_webm(bytes) {
        return WEBM_RATE;
    }
    match read_header(bytes) {
        Ok(_) => rate(bytes),
        Err(_) => (0, 0),
    }
}

/// Goes over the packets of a file. It takes no memory.
#[derive(Clone, Copy)]
pub(crate) enum PacketCursor {
    /// Where the next packet of an IVF file begins.
    Ivf(usize),
    Webm(WebmCursor),
    /// The file's header broke a rule.
    Broken(Rule),
}

/// The next packet of an IVF file.
fn next_of_ivf(bytes: &[u8], at: &mut usize) -> Result<Option<Span>, Rule>
    requires { at.old ≤ length bytes.now }
    ensures next { IsNextPacket bytes.now (PacketCursor.Ivf at.old) result (PacketCursor.Ivf at.new) }
    ensures within { at.new ≤ length bytes.now }
{
    let Some(packet) = next_packet(bytes, *at)? else {
        return Ok(None);
    };
    *at = packet.to;
    Ok(Some(Span {
        from: packet.from,
        to: packet.to,
    }))
}

/// The next packet of a WebM file.
fn next_of_webm(bytes: &[u8], cursor: &mut WebmCursor) -> Result<Option<Span>, Rule>
    requires { FitsFile bytes.now (PacketCursor.Webm cursor.old) }
    ensures next { IsNextPacket bytes.now (PacketCursor.Webm cursor.old) result (PacketCursor.Webm cursor.new) }
    ensures within { FitsFile bytes.now (PacketCursor.Webm cursor.new) }
{
    next_block(bytes, cursor)
}

impl PacketCursor {
    /// Before the first packet.
    pub fn new(bytes: &[u8]) -> PacketCursor
        ensures left { packets_left bytes.now result ≡ packets_of_file bytes.now }
        ensures placed { place_of result ≤ length bytes.now }
        ensures fits { FitsFile bytes.now result }
    {
        if is_webm(bytes) {
            return PacketCursor::Webm(WebmCursor::new());
        }
        match read_header(bytes) {
            Ok(at) => PacketCursor::Ivf(at),
            Err(rule) => PacketCursor::Broken(rule),
        }
    }

    /// Where the payload of the next packet lies, nothing at the end of the file, or the rule that it breaks there.
    pub fn next_packet(&mut self, bytes: &[u8]) -> Result<Option<Span>, Rule>
        requires { FitsFile bytes.now self.old }
        ensures next { IsNextPacket bytes.now self.old result self.new }
        ensures fits { FitsFile bytes.now self.new }
    {
        match self {
            PacketCursor::Ivf(at) => next_of_ivf(bytes, at),
            PacketCursor::Webm(cursor) => next_of_webm(bytes, cursor),
            PacketCursor::Broken(rule) => Err(*rule),
        }
    }
}
