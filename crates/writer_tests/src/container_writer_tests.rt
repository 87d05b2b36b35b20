//! Bytes that others wrote: of a file's definition and of real streams.

use container_writer::{write_header, write_index, write_packet};
use std::test::Fail;

// The header of a real stream, and packets by the definition of the container.
const STREAM: &[u8] = b"DKIF\0\0 \0VP90\xb0\0\x90\0\x1e\0\0\0\x01\0\0\0\x18\0\0\0\0\0\0\0\
\x05\0\0\0\x03\x02\x01\0\0\0\0\0\x82\x49\x83\x42\0\0\0\0\0\0\0\0\0\0\0\0\0";

#[test]
fn packets(rt: HostRuntime) -> Result<(), Fail> {
    let mut out = Vec::new(rt.alloc());
    write_header(&mut out, 176, 144, 30, 1, 24)?;
    write_packet(&mut out, 0x1_0203, b"\x82\x49\x83\x42\0")?;
    write_packet(&mut out, 0, b"")?;
    assert_eq!(rt; out.as_slice(), STREAM);
    Ok(())
}

// The header of the file that the generator makes of one frame.
#[test]
fn header(rt: HostRuntime) -> Result<(), Fail> {
    let mut out = Vec::new(rt.alloc());
    write_header(&mut out, 520, 136, 30, 1, 1)?;
    assert_eq!(rt;
        out.as_slice(),
        b"DKIF\0\0 \0VP90\x08\x02\x88\0\x1e\0\0\0\x01\0\0\0\x01\0\0\0\0\0\0\0".as_slice()
    );
    Ok(())
}

// Those of two payloads of real streams among them.
#[test]
fn indexes(rt: HostRuntime) -> Result<(), Fail> {
    let rows: [(&[u32], &[u8]); 7] = [
        (&[16, 1], b"\xc1\x10\x01\xc1"),
        (&[518, 294], b"\xc9\x06\x02\x26\x01\xc9"),
        (
            &[3016, 1975, 1495, 1002],
            b"\xcb\xc8\x0b\xb7\x07\xd7\x05\xea\x03\xcb",
        ),
        (&[255], b"\xc0\xff\xc0"),
        (&[0, 256], b"\xc9\0\0\0\x01\xc9"),
        (&[65536], b"\xd0\0\0\x01\xd0"),
        (
            &[1, 1, 1, 1, 1, 1, 1, 0x0100_0000],
            b"\xdf\x01\0\0\0\x01\0\0\0\x01\0\0\0\x01\0\0\0\x01\0\0\0\x01\0\0\0\x01\0\0\0\0\0\0\x01\xdf",
        ),
    ];
    for (sizes, index) in rows {
        assert!(rt; 1 <= sizes.len() && sizes.len() <= 8);
        let mut out = Vec::new(rt.alloc());
        write_index(&mut out, sizes)?;
        assert_eq!(rt; out.as_slice(), index);
    }
    Ok(())
}
