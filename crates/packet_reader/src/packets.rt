//! The header and the packets that a source begins with.

ghost use Rattle.std.specs.Prelude.{◌≡◌, ◌⊎◌, ◌<◌, ◌≤◌, ◌^◌, max, length, take, codes};
ghost use Rattle.ivf_container.specs.Packets.{header_length};
ghost use Rattle.packet_reader.specs.TakenPackets.{CountsRefusals, TakesNext, TellsRate, with_front};
ghost use Rattle.packet_reader.specs.declared.reader.Stage.TheVariants.{Header, Packet};
ghost use Rattle.edge_io.specs.SourceReading.{CountsReadFaults};
ghost use Rattle.packet_reader.specs.Code.{PassesHeader, TakesHeader};

use crate::filled::fill_up;
use crate::reader::PacketRefusal;
use byteorder::{ByteOrder, LittleEndian};
use edge_io::{ReadError, Source};
use ivf_container::{rate, read_header};
use std::alloc::Global;
use vp9_types::Rule;

/// The least length of a file header.
const FILE_HEADER: usize = 32;

/// The length of what precedes a packet's payload: its size and its time stamp.
const PACKET_HEADER: usize = 12;

/// How many bytes what may be a file header has, by its first bytes: those, or more if it begins with the signature.
fn whole_header(header: &[u8]) -> usize
    requires { length header.now ≤ 32 }
    ensures few { result < 2 ^ 33 }
    ensures order { length header.now ≤ result }
    ensures said { (result ≡ length header.now) ⊎ ((32 ≤ length header.now) × (result ≡ max (header_length header.now) 32)) }
    ensures signed { 32 ≤ length header.now → take 4 header.now ≡ codes "DKIF" → result ≡ max (header_length header.now) 32 }
{
    if header.len() == FILE_HEADER && header.starts_with(b"DKIF") {
        usize::from(LittleEndian::read_u16(&header[6..8])).max(FILE_HEADER)
    } else {
        header.len()
    }
}

/// Takes what may be a file header from a source, which gave its first bytes: as many as it says that it has, and no more than its
/// tests need.
fn take_header<S: Source>(alloc: Global, begun: &[u8], source: &mut S) -> Result<Vec<u8>, ReadError>
    requires fill { S.can_fill source.old }
    requires few { length begun.now ≤ 4 }
    ensures bytes { TakesHeader (with_front begun.now (S.rest source.old)) (S.rest source.new) result }
    ensures faults { CountsReadFaults (S.faults source.old) (S.faults source.new) result }
    ensures again { S.faults source.new ≡ S.faults source.old → S.can_fill source.new }
{
    let mut header = Vec::new(alloc);
    header.extend_from_slice(begun)?;
    fill_up(source, &mut header, FILE_HEADER)?;
    let whole = whole_header(&header);
    fill_up(source, &mut header, whole)?;
    Ok(header)
}

/// Takes the file header from a source, and gives the rate that it names.
pub(crate) fn pass_header<S: Source>(
    alloc: Global,
    begun: &[u8],
    source: &mut S,
) -> Result<(u32, u32), PacketRefusal>
    requires fill { S.can_fill source.old }
    requires few { length begun.now ≤ 4 }
    ensures bytes { PassesHeader (with_front begun.now (S.rest source.old)) (S.rest source.new) result }
    ensures faults { CountsRefusals (S.faults source.old) (S.faults source.new) result }
    ensures again { S.faults source.new ≡ S.faults source.old → S.can_fill source.new }
{
    let header = take_header(alloc, begun, source)?;
    read_header(&header)?;
    Ok(rate(&header))
}

/// Whether bytes have a whole packet in front.
pub(crate) fn is_packet_whole(bytes: &[u8]) -> bool {
    bytes.len() >= PACKET_HEADER
        && bytes.len() - PACKET_HEADER >= LittleEndian::read_u32(&bytes[..4]) as usize
}

/// Takes the next packet from a source that stands behind the header or another packet, and gives its payload.
pub(crate) fn take_packet<S: Source>(
    alloc: Global,
    source: &mut S,
) -> Result<Option<Vec<u8>>, PacketRefusal>
    requires { S.can_fill source.old }
    ensures bytes { TakesNext Packet (S.rest source.old) (S.rest source.new) result }
    ensures faults { CountsRefusals (S.faults source.old) (S.faults source.new) result }
    ensures again { S.faults source.new ≡ S.faults source.old → S.can_fill source.new }
{
    let mut head = Vec::new(alloc);
    fill_up(source, &mut head, PACKET_HEADER)?;
    if head.is_empty() {
        return Ok(None);
    }
    if head.len() < PACKET_HEADER {
        return Err(PacketRefusal::Rule(Rule::IvfTruncated));
    }
    let size = LittleEndian::read_u32(&head[..4]) as usize;
    let mut payload = Vec::new(alloc);
    fill_up(source, &mut payload, size)?;
    if payload.len() < size {
        return Err(PacketRefusal::Rule(Rule::IvfTruncated));
    }
    Ok(Some(payload))
}

/// Takes the file header, whose rate it puts down, and the first packet.
pub(crate) fn take_first<S: Source>(
    alloc: Global,
    begun: &[u8],
    source: &mut S,
    told: &mut (u32, u32),
) -> Result<Option<Vec<u8>>, PacketRefusal>
    requires fill { S.can_fill source.old }
    requires few { length begun.now ≤ 4 }
    ensures bytes { TakesNext Header (with_front begun.now (S.rest source.old)) (S.rest source.new) result }
    ensures rate { TellsRate Header (with_front begun.now (S.rest source.old)) told.old told.new result }
    ensures faults { CountsRefusals (S.faults source.old) (S.faults source.new) result }
    ensures again { S.faults source.new ≡ S.faults source.old → S.can_fill source.new }
{
    *told = (0, 0);
    *told = pass_header(alloc, begun, source)?;
    take_packet(alloc, source)
}
