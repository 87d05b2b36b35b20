ghost use Rattle.std.specs.Prelude.{◌≡◌, ◌≤◌, length, IfOk};
ghost use Rattle.ivf_container.specs.Packets.{header_end, next_packet_at, frame_rate_of, IsBegun, IsNext};

use byteorder::{ByteOrder, LittleEndian};
use vp9_types::Rule;

/// The least length of a file header.
const FILE_HEADER: usize = 32;

/// The length of what precedes a packet's payload: its size and its time stamp.
const PACKET_HEADER: usize = 12;

/// Where in a file the payload of a packet lies.
#[derive(Clone, Copy, Debug, PartialEq, Eq)]
pub struct Packet {
    pub from: usize,
    pub to: usize,
}

/// Where the packets of a file begin. Of the header the signature, the length and the codec are looked at.
#[tactic(auto, unfolding(crate::specs::Packets::header_end, crate::specs::Packets::packets_of))]
pub fn read_header(bytes: &[u8]) -> Result<usize, Rule>
    ensures exact { result ≡ header_end bytes.now }
    ensures begun { IsBegun bytes.now result }
    ensures least { IfOk result (λ at. 32 ≤ at) }
{
    if bytes.len() < 4 {
        return Err(Rule::IvfHeader);
    }
    if !bytes.starts_with(b"DKIF") {
        return Err(Rule::IvfSignature);
    }
    if bytes.len() < FILE_HEADER {
        return Err(Rule::IvfHeader);
    }
    let end = usize::from(LittleEndian::read_u16(&bytes[6..8]));
    if end < FILE_HEADER {
        return Err(Rule::IvfHeader);
    }
    if bytes.len() < end {
        return Err(Rule::IvfHeader);
    }
    if !bytes[8..12].starts_with(b"VP90") {
        return Err(Rule::IvfCodec);
    }
    Ok(end)
}

/// The frame rate that a file header names: frames for each so many seconds. Both are as they stand there, 0 too.
pub fn rate(bytes: &[u8]) -> (u32, u32)
    requires { 32 ≤ length bytes.now }
    ensures { result ≡ frame_rate_of bytes.now }
{
    (
        LittleEndian::read_u32(&bytes[16..20]),
        LittleEndian::read_u32(&bytes[20..24]),
    )
}

/// The packet at a place of the file, which is the end of the header or of another packet. It may be empty.
#[tactic(auto, unfolding(crate::specs::Packets::next_packet_at, crate::specs::Packets::packets_from))]
pub fn next_packet(bytes: &[u8], at: usize) -> Result<Option<Packet>, Rule>
    requires { at ≤ length bytes.now }
    ensures exact { result ≡ next_packet_at bytes.now at }
    ensures next { IsNext bytes.now at result }
{
    let left = bytes.len() - at;
    if left == 0 {
        return Ok(None);
    }
    if left < PACKET_HEADER {
        return Err(Rule::IvfTruncated);
    }
    let size = LittleEndian::read_u32(&bytes[at..at + 4]) as usize;
    if left - PACKET_HEADER < size {
        return Err(Rule::IvfTruncated);
    }
    let from = at + PACKET_HEADER;
    Ok(Some(Packet {
        from,
        to: from + size,
    }))
}
