//! Packets of an IVF file: made ones, and those of a real stream.

use ivf_container::{Packet, next_packet, read_header};
use std::test::Fail;
use vp9_types::Rule;

const HEADER: &[u8] = b"DKIF\0\0 \0VP90\0\0\0\0\0\0\0\0\0\0\0\0\0\0\0\0\0\0\0\0";

// A real stream of six packets. `tools/check_packets.py` reads it and larger ones apart from this crate.
pub(crate) const STREAM: &[u8] =
    b"DKIF\0\0 \0VP90\x01\0\x01\0\x1e\0\0\0\x01\0\0\0\x06\0\0\0\0\0\0\0\
(\0\0\0\0\0\0\0\0\0\0\0\x83I\x83B\0\0\0\0\0\0\xe0\x90p`\0\0\0\x80\0\0\x11\xbf\xff\xff\xde\x8baM\xff\xff\xfeM\xc3\xff\xff\xff\xfd\x0c\xa0\0\
(\0\0\0\x01\0\0\0\0\0\0\0\x83I\x83B\0\0\0\0\0\0\xe0\x90p`\0\0\0\x80\0\0\x11\xbf\xff\xff\xdf\xccAM\xff\xff\xfekc\xff\xff\xff\xfd\xb4\x80\0\
(\0\0\0\x02\0\0\0\0\0\0\0\x83I\x83B\0\0\0\0\0\0\xe0\x90p`\0\0\0\x80\0\0\x11\xbf\xff\xff\xdf\x01\xc1M\xff\xff\xfeM\xc3\xff\xff\xff\xfd\x90 \0\
'\0\0\0\x03\0\0\0\0\0\0\0\x83I\x83B\0\0\0\0\0\0\xe0\x90p`\0\0\0\x80\0\0\x19\xff\xff\xff\xefE\xb0\xa6\xff\xff\xfa$\xff\xff\xff\xffC(\0\
(\0\0\0\x04\0\0\0\0\0\0\0\x83I\x83B\0\0\0\0\0\0\xe0\x90p`\0\0\0\x80\0\0\x11\xbf\xff\xff\xe0\xb9\xa1M\xff\xff\xfe\x9eC\xff\xff\xff\xfd\xb4\x80\0\
(\0\0\0\x05\0\0\0\0\0\0\0\x83I\x83B\0\0\0\0\0\0\xe0\x90p`\0\0\0\x80\0\0\x11\xbf\xff\xff\xe13\xc0\xa6\xff\xff\xffC)\xff\xff\xff\xfe\xc8\x10\0";

fn first_packet(bytes: &[u8]) -> Result<Option<Packet>, Rule> {
    let at = read_header(bytes)?;
    next_packet(bytes, at)
}

#[test]
fn first_packets(rt: HostRuntime) {
    let rows: [(&str, &[u8], Result<Option<Packet>, Rule>); 9] = [
        (
            "header alone",
            b"DKIF\0\0 \0VP90\0\0\0\0\0\0\0\0\0\0\0\0\0\0\0\0\0\0\0\0",
            Ok(None),
        ),
        ("wrong signature", b"DKIX", Err(Rule::IvfSignature)),
        (
            "wrong codec",
            b"DKIF\0\0 \0WP90\0\0\0\0\0\0\0\0\0\0\0\0\0\0\0\0\0\0\0\0",
            Err(Rule::IvfCodec),
        ),
        (
            "payload cut short",
            b"DKIF\0\0 \0VP90\0\0\0\0\0\0\0\0\0\0\0\0\0\0\0\0\0\0\0\0\x05\0\0\0\0\0\0\0\0\0\0\0\x01\x02\x03",
            Err(Rule::IvfTruncated),
        ),
        (
            "header length 31",
            b"DKIF\0\0\x1f\0VP90\0\0\0\0\0\0\0\0\0\0\0\0\0\0\0\0\0\0\0\0",
            Err(Rule::IvfHeader),
        ),
        (
            "header length 33, file of 32",
            b"DKIF\0\0!\0VP90\0\0\0\0\0\0\0\0\0\0\0\0\0\0\0\0\0\0\0\0",
            Err(Rule::IvfHeader),
        ),
        (
            "header length 40 is skipped",
            b"DKIF\0\0(\0VP90\0\0\0\0\0\0\0\0\0\0\0\0\0\0\0\0\0\0\0\0\0\0\0\0\0\0\0\0",
            Ok(None),
        ),
        (
            "packet header cut to 11 bytes",
            b"DKIF\0\0 \0VP90\0\0\0\0\0\0\0\0\0\0\0\0\0\0\0\0\0\0\0\0\0\0\0\0\0\0\0\0\0\0\0",
            Err(Rule::IvfTruncated),
        ),
        (
            "empty payload",
            b"DKIF\0\0 \0VP90\0\0\0\0\0\0\0\0\0\0\0\0\0\0\0\0\0\0\0\0\0\0\0\0\0\0\0\0\0\0\0\0",
            Ok(Some(Packet { from: 44, to: 44 })),
        ),
    ];
    for (name, bytes, packet) in rows {
        assert_eq!(rt; first_packet(bytes), packet, "{name}");
    }
}

#[test]
fn header_cut_short(rt: HostRuntime) {
    for length in 0..HEADER.len() {
        assert_eq!(rt;
            read_header(&HEADER[..length]),
            Err(Rule::IvfHeader),
            "at {length}"
        );
    }
    assert_eq!(rt; read_header(HEADER), Ok(32));
}

#[test]
fn real_stream(rt: HostRuntime) -> Result<(), Fail> {
    let mut next = first_packet(STREAM);
    for size in [40, 40, 40, 39, 40, 40] {
        let Ok(Some(packet)) = next else {
            return Err(Fail::new(format_args!("a packet is missing")));
        };
        assert_eq!(rt; packet.to.saturating_sub(packet.from), size);
        if packet.to > STREAM.len() {
            return Err(Fail::new(format_args!("a packet is too long")));
        }
        next = next_packet(STREAM, packet.to);
    }
    assert_eq!(rt; next, Ok(None));
    Ok(())
}
