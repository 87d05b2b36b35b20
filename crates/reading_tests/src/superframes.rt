//! Frames of payloads: made ones, and those of real indexes.

use superframe_index::split;
use vp9_types::Rule;

/// Whether a payload has frames from and up to these places.
fn lie_at(payload: &[u8], places: &[(usize, usize)]) -> bool {
    match split(payload) {
        Ok(parts) => {
            parts.len() == places.len()
                && parts
                    .iter()
                    .zip(places)
                    .all(|(part, place)| (part.from, part.to) == *place)
        }
        Err(_) => false,
    }
}

#[test]
fn payloads(rt: HostRuntime) {
    let rows: [(&str, &[u8], &[(usize, usize)]); 13] = [
        ("empty", b"", &[]),
        ("no index", b"\x82\x49\x83\x42", &[(0, 4)]),
        (
            "a hidden frame and one that shows it",
            b"\x81\x49\x83\x42\0\0\0\0\0\0\0\0\0\x04\0\0\x88\xc1\x10\x01\xc1",
            &[(0, 16), (16, 17)],
        ),
        (
            "first byte of the index isn't the last",
            b"\x82\x49\x83\x42\0\0\0\0\0\0\0\0\0\x04\0\0\0\0\0\0\0\0\0\0\0\0\0\0\0\0\0\0\xc0\x10\x01\xc1",
            &[(0, 36)],
        ),
        ("marker 101", b"\0\0\xa0\x02\xa0", &[(0, 5)]),
        ("marker 111", b"\0\0\xe0\x02\xe0", &[(0, 5)]),
        ("index longer than the payload", b"\xc1\x01\xc1", &[(0, 3)]),
        ("size of 4 bytes", b"\x82\x49\xd8\x02\0\0\0\xd8", &[(0, 2)]),
        ("size of 3 bytes", b"\x82\x49\xd0\x02\0\0\xd0", &[(0, 2)]),
        (
            "8 frames",
            b"abcdefgh\xc7\x01\x01\x01\x01\x01\x01\x01\x01\xc7",
            &[
                (0, 1),
                (1, 2),
                (2, 3),
                (3, 4),
                (4, 5),
                (5, 6),
                (6, 7),
                (7, 8),
            ],
        ),
        (
            "a size of 0 between two",
            b"abc\xc2\x02\0\x01\xc2",
            &[(0, 2), (2, 3)],
        ),
        ("bytes behind the last frame", b"abc\xc0\x01\xc0", &[(0, 1)]),
        ("an index alone", b"\xc0\0\xc0", &[]),
    ];
    for (name, payload, places) in rows {
        assert!(rt; lie_at(payload, places), "{name}");
    }
}

#[test]
fn sizes_too_large(rt: HostRuntime) {
    let rows: [&[u8]; 4] = [
        b"\0\0\0\xc1\x10\x01\xc1",
        b"\0\0\xc0\x03\xc0",
        b"\0\0\xc2\x01\x01\x01\xc2",
        b"\0\xd8\0\0\0\x01\xd8",
    ];
    for payload in rows {
        assert_eq!(rt; split(payload).err(), Some(Rule::SuperframeSizes));
    }
}

// The indexes of two payloads of real streams, with zeros for the frames. `tools/check_packets.py` reads all payloads
// of the streams apart from this crate.
#[test]
fn real_indexes(rt: HostRuntime) {
    let mut two = [0; 818];
    two[812..].copy_from_slice(b"\xc9\x06\x02\x26\x01\xc9");
    assert!(rt; lie_at(&two, &[(0, 518), (518, 812)]));
    let mut four = [0; 7498];
    four[7488..].copy_from_slice(b"\xcb\xc8\x0b\xb7\x07\xd7\x05\xea\x03\xcb");
    assert!(rt;
        lie_at(
            &four,
            &[(0, 3016), (3016, 4991), (4991, 6486), (6486, 7488)]
        )
    );
}
