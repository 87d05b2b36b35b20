//! Packets taken from sources that give their bytes in pieces, or fail.

use crate::packets::STREAM;
use edge_io::{Failed, MemSource, Source};
use packet_reader::{PacketReader, PacketRefusal};
use std::test::Fail;
use vp9_types::Rule;

// Where the payloads of the stream lie.
const PAYLOADS: [(usize, usize); 6] = [
    (44, 84),
    (96, 136),
    (148, 188),
    (200, 239),
    (251, 291),
    (303, 343),
];

// Gives at most so many bytes at a call, and tells none beforehand.
#[derive(Drop)]
pub(crate) struct Pieces {
    pub source: MemSource,
    pub size: usize,
}

impl Source for Pieces {
    ghost use Rattle.std.specs.Prelude.{None};
    ghost use Rattle.edge_io.specs.Memory.{source_faults, source_given};

    ghost rest = { λ _. None };

    ghost given = { λ pieces. source_given pieces.source };

    ghost faults = { λ pieces. source_faults pieces.source };

    ghost can_fill = { λ _. Unit {0} };

    fn fill(&mut self, buf: &mut [u8]) -> Result<usize, Failed> {
        let n = self.size.min(buf.len());
        self.source.fill(&mut buf[..n])
    }

    fn at_hand(&self) -> &[u8] {
        &[]
    }
}

#[test]
fn any_pieces(rt: HostRuntime) -> Result<(), Fail> {
    for size in [1, 7, 4096] {
        let source = MemSource::new(rt.alloc(), STREAM, &[])?;
        let mut reader = PacketReader::new(rt.alloc(), Pieces { source, size });
        for (from, to) in PAYLOADS {
            let Ok(Some(payload)) = reader.next() else {
                return Err(Fail::new(format_args!("a packet is missing")));
            };
            assert_eq!(rt; &payload[..], &STREAM[from..to]);
        }
        for _ in 0..2 {
            assert!(rt; matches!(reader.next(), Ok(None)));
        }
    }
    Ok(())
}

// A stream cut at a place has the packets that end before it.
#[test]
fn cut_anywhere(rt: HostRuntime) -> Result<(), Fail> {
    for end in 0..STREAM.len() {
        let source = MemSource::new(rt.alloc(), &STREAM[..end], &[])?;
        let mut reader = PacketReader::new(rt.alloc(), source);
        let whole = PAYLOADS.iter().filter(|(_, to)| *to <= end).count();
        for _ in 0..whole {
            assert!(rt; matches!(reader.next(), Ok(Some(_))), "before {end}");
        }
        let is_end = end == 32 || PAYLOADS.iter().any(|(_, to)| *to == end);
        let rule = if end < 32 {
            Rule::IvfHeader
        } else {
            Rule::IvfTruncated
        };
        match reader.next() {
            Ok(None) => assert!(rt; is_end, "the end at {end}"),
            Err(refusal) => assert!(rt;
                !is_end && refusal == PacketRefusal::Rule(rule),
                "at {end}"
            ),
            Ok(Some(_)) => return Err(Fail::new(format_args!("too many packets before {end}"))),
        }
    }
    Ok(())
}

// The header is one call, and each packet two.
#[test]
fn failing_calls(rt: HostRuntime) -> Result<(), Fail> {
    for call in 1..14u64 {
        let source = MemSource::new(rt.alloc(), STREAM, &[call])?;
        let mut reader = PacketReader::new(rt.alloc(), source);
        for _ in 0..call.saturating_sub(2) / 2 {
            assert!(rt; matches!(reader.next(), Ok(Some(_))), "before call {call}");
        }
        for _ in 0..3 {
            assert!(rt;
                matches!(reader.next(), Err(PacketRefusal::Failed)),
                "at call {call}"
            );
        }
        let mut source = reader.into_source();
        assert!(rt; source.fill(&mut [0; 4]).is_ok());
    }
    Ok(())
}
