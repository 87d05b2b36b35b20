//! Frames taken in groups from sources that give their bytes in pieces, or fail; and which container a source has.

ghost use Rattle.frame_groups.specs.Groups.{IsReady};

use crate::packets::STREAM;
use crate::readers::Pieces;
use edge_io::{Buffered, Failed, MemSource, Source};
use file_frames::{FrameCursor, rate_of_file};
use frame_groups::{Behind, FrameGroup, GroupReader, GroupSize, Opened, open};
use std::alloc::{AllocError, Global};
use std::test::Fail;
use vp9_types::Rule;

// A payload of two frames and their index, an empty one, one of one frame, and three bytes of a packet's header. The rate is 25 to 2.
const CUT_SHORT: &[u8] = b"DKIF\0\0 \0VP90\0\0\0\0\x19\0\0\0\x02\0\0\0\0\0\0\0\0\0\0\0\
\x07\0\0\0\0\0\0\0\0\0\0\0abc\xc1\x02\x01\xc1\
\0\0\0\0\0\0\0\0\0\0\0\0\
\x01\0\0\0\0\0\0\0\0\0\0\0d\
\x01\0\0";

// A frame, a payload whose index has a size larger than what lies before it, and another frame.
const WRONG_SIZES: &[u8] = b"DKIF\0\0 \0VP90\0\0\0\0\0\0\0\0\0\0\0\0\0\0\0\0\0\0\0\0\
\x01\0\0\0\0\0\0\0\0\0\0\0a\
\x07\0\0\0\0\0\0\0\0\0\0\0\0\0\0\xc1\x10\x01\xc1\
\x01\0\0\0\0\0\0\0\0\0\0\0b";

const WEBM: &[u8] = b"\x1aE\xdf\xa3\x80\x18S\x80g\xff";

// The frames of the group are the next ones of the file.
fn are_next(
    alloc: Global,
    group: &FrameGroup,
    cursor: &mut FrameCursor<'_>,
) -> Result<bool, AllocError> {
    for frame in group.frames(alloc)? {
        if !matches!(cursor.next_frame(), Ok(Some(next)) if next.bytes == frame) {
            return Ok(false);
        }
    }
    Ok(true)
}

// How many groups a file has, and what is behind the last one. Their frames are those of the file.
fn groups<S: Source + Drop>(
    alloc: Global,
    bytes: &[u8],
    reader: GroupReader<S>,
    least: usize,
) -> Result<(u32, Behind), Fail>
    requires { IsReady S.can_fill reader }
{
    let mut reader = reader;
    let mut cursor = FrameCursor::new(bytes);
    'groups: for number in 1..20 {
        let group = reader.next_group(GroupSize { least, most: least });
        if !are_next(alloc, &group, &mut cursor)? || reader.rate() != rate_of_file(bytes) {
            return Err(Fail::new(format_args!("at group {number}")));
        }
        match group.behind {
            Behind::More => {}
            behind => return Ok((number, behind)),
        }
    }
    Err(Fail::new(format_args!("there is no end")))
}

// The same by a source that gives so many bytes at a call; and behind the first four, which were looked at.
fn groups_in_pieces(
    alloc: Global,
    bytes: &[u8],
    size: usize,
    least: usize,
) -> Result<(u32, Behind), Fail> {
    let source = MemSource::new(alloc, bytes, &[])?;
    let reader = GroupReader::new(alloc, Pieces { source, size });
    let counts = groups(alloc, bytes, reader, least)?;
    let source = MemSource::new(alloc, bytes, &[])?;
    let Opened::Ivf(looked) = open(Pieces { source, size }) else {
        return Err(Fail::new(format_args!("it isn't opened as an IVF file")));
    };
    let reader = GroupReader::behind(alloc, looked);
    if groups(alloc, bytes, reader, least)? != counts {
        return Err(Fail::new(format_args!("other groups behind four bytes")));
    }
    Ok(counts)
}

#[test]
fn any_pieces(rt: HostRuntime) -> Result<(), Fail> {
    let alloc = rt.alloc();
    for size in [1, 7, 4096] {
        for (least, number) in [(0, 7), (1, 7), (4, 2), (6, 2), (7, 1)] {
            assert_eq!(rt;
                groups_in_pieces(alloc, STREAM, size, least)?,
                (number, Behind::End)
            );
        }
        let cut = Behind::Broken(Rule::IvfTruncated);
        for (least, number) in [(0, 4), (1, 3), (2, 2), (3, 2), (4, 1)] {
            assert_eq!(rt;
                groups_in_pieces(alloc, CUT_SHORT, size, least)?,
                (number, cut)
            );
        }
        let sizes = Behind::Broken(Rule::SuperframeSizes);
        for (least, number) in [(1, 2), (2, 1)] {
            assert_eq!(rt;
                groups_in_pieces(alloc, WRONG_SIZES, size, least)?,
                (number, sizes)
            );
        }
        let header = Behind::Broken(Rule::IvfSignature);
        assert_eq!(rt; groups_in_pieces(alloc, b"DKIX", size, 1)?, (1, header));
    }
    Ok(())
}

// A file of 300 packets of 1,000 bytes.
fn long_file(alloc: Global) -> Result<Vec<u8>, AllocError> {
    let mut file = Vec::new(alloc);
    file.extend_from_slice(&CUT_SHORT[..32])?;
    for _ in 0..300 {
        file.extend_from_slice(b"\xe8\x03\0\0\0\0\0\0\0\0\0\0")?;
        file.extend_from_slice(&[0; 1000])?;
    }
    Ok(file)
}

// How many frames of it the first group has, of a source that gives so many bytes at a call.
fn first_group(alloc: Global, size: usize) -> Result<usize, AllocError> {
    let source = MemSource::new(alloc, &long_file(alloc)?, &[])?;
    let source = Buffered::new(alloc, Pieces { source, size })?;
    let mut reader = GroupReader::new(alloc, source);
    let group = reader.next_group(GroupSize {
        least: 1,
        most: 290,
    });
    Ok(group.frames(alloc)?.len())
}

// What a pipe holds is at hand, and no more is waited for; a file has as many as are enough.
#[test]
fn a_pipe_is_not_waited_for(rt: HostRuntime) -> Result<(), Fail> {
    assert_eq!(rt; first_group(rt.alloc(), 1 << 16)?, 64);
    assert_eq!(rt; first_group(rt.alloc(), 1 << 18)?, 290);
    Ok(())
}

// The header is one call, and each packet two. What was taken before a fault is in the group.
#[test]
fn failing_calls(rt: HostRuntime) -> Result<(), Fail> {
    for call in 1..14u64 {
        let source = MemSource::new(rt.alloc(), STREAM, &[call])?;
        let mut reader = GroupReader::new(rt.alloc(), source);
        let group = reader.next_group(GroupSize {
            least: 100,
            most: 100,
        });
        assert_eq!(rt; group.behind, Behind::Failed);
        let frames = group.frames(rt.alloc())?;
        assert_eq!(rt;
            frames.len() as u64,
            call.saturating_sub(2) / 2,
            "at call {call}"
        );
        if !frames.is_empty() {
            assert_eq!(rt; reader.rate(), rate_of_file(STREAM), "at call {call}");
        }
        assert!(rt; reader.into_source().fill(&mut [0; 4]).is_ok());
    }
    Ok(())
}

fn next_of<S: Source + Drop>(source: S) -> Option<u8>
    requires { S.can_fill source }
{
    let mut source = source;
    let mut byte = [0];
    match source.fill(&mut byte) {
        Ok(1) => Some(byte[0]),
        _ => None,
    }
}

// What a source is opened as, what it gave for that, and the next byte.
fn opened(
    alloc: Global,
    bytes: &[u8],
    size: usize,
    fails: &[u64],
) -> Result<(char, [u8; 4], Option<u8>), AllocError> {
    let source = MemSource::new(alloc, bytes, fails)?;
    match open(Pieces { source, size }) {
        Opened::Webm(looked) => {
            let front = looked.front;
            Ok(('w', front, next_of(looked.source)))
        }
        Opened::Ivf(looked) => {
            let front = looked.front;
            Ok(('i', front, next_of(looked.source)))
        }
        Opened::Short(source) => Ok(('s', [0; 4], next_of(source))),
        Opened::Failed(_source) => Ok(('f', [0; 4], None)),
    }
}

#[test]
fn containers(rt: HostRuntime) -> Result<(), Fail> {
    let alloc = rt.alloc();
    for size in [1, 3, 4096] {
        assert_eq!(rt; opened(alloc, STREAM, size, &[])?, ('i', *b"DKIF", Some(0)));
        assert_eq!(rt;
            opened(alloc, WEBM, size, &[])?,
            ('w', [0x1a, 0x45, 0xdf, 0xa3], Some(0x80))
        );
        assert_eq!(rt; opened(alloc, b"DKIX", size, &[])?, ('i', *b"DKIX", None));
        assert_eq!(rt; opened(alloc, &WEBM[..3], size, &[])?, ('s', [0; 4], None));
        assert_eq!(rt; opened(alloc, b"", size, &[])?, ('s', [0; 4], None));
    }
    assert_eq!(rt; opened(alloc, STREAM, 2, &[2])?, ('f', [0; 4], None));
    Ok(())
}
