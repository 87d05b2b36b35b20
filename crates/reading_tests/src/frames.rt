//! Frames of made files, by their numbers.

use file_frames::{FileFrame, FrameCursor};
use vp9_types::{Rule, Stop};

// A payload of two frames and their index, an empty one, one of one frame, and three bytes of a packet's header.
const CUT_SHORT: &[u8] = b"DKIF\0\0 \0VP90\0\0\0\0\0\0\0\0\0\0\0\0\0\0\0\0\0\0\0\0\
\x07\0\0\0\0\0\0\0\0\0\0\0abc\xc1\x02\x01\xc1\
\0\0\0\0\0\0\0\0\0\0\0\0\
\x01\0\0\0\0\0\0\0\0\0\0\0d\
\x01\0\0";

// A frame, a payload whose index has a size larger than what lies before it, and another frame.
const WRONG_SIZES: &[u8] = b"DKIF\0\0 \0VP90\0\0\0\0\0\0\0\0\0\0\0\0\0\0\0\0\0\0\0\0\
\x01\0\0\0\0\0\0\0\0\0\0\0a\
\x07\0\0\0\0\0\0\0\0\0\0\0\0\0\0\xc1\x10\x01\xc1\
\x01\0\0\0\0\0\0\0\0\0\0\0b";

fn frame(number: u64, bytes: &'static [u8]) -> Result<Option<FileFrame<'static>>, Stop> {
    Ok(Some(FileFrame { number, bytes }))
}

fn stop(frame: u64, rule: Rule) -> Result<Option<FileFrame<'static>>, Stop> {
    Err(Stop { frame, rule })
}

#[test]
fn frames_are_numbered_over_payloads(rt: HostRuntime) {
    let mut cursor = FrameCursor::new(CUT_SHORT);
    assert_eq!(rt; cursor.next_frame(), frame(0, b"ab"));
    assert_eq!(rt; cursor.next_frame(), frame(1, b"c"));
    assert_eq!(rt; cursor.next_frame(), frame(2, b"d"));
    assert_eq!(rt; cursor.next_frame(), stop(3, Rule::IvfTruncated));
    assert_eq!(rt; cursor.next_frame(), stop(3, Rule::IvfTruncated));
}

#[test]
fn a_rule_is_at_the_frame_that_would_come_next(rt: HostRuntime) {
    let mut cursor = FrameCursor::new(WRONG_SIZES);
    assert_eq!(rt; cursor.next_frame(), frame(0, b"a"));
    assert_eq!(rt; cursor.next_frame(), stop(1, Rule::SuperframeSizes));
    assert_eq!(rt; cursor.next_frame(), stop(1, Rule::SuperframeSizes));
    let mut cursor = FrameCursor::new(b"DKIX");
    assert_eq!(rt; cursor.next_frame(), stop(0, Rule::IvfSignature));
    let mut cursor = FrameCursor::new(&WRONG_SIZES[..45]);
    assert_eq!(rt; cursor.next_frame(), frame(0, b"a"));
    assert_eq!(rt; cursor.next_frame(), Ok(None));
    assert_eq!(rt; cursor.next_frame(), Ok(None));
}
