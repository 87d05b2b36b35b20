//! When the first frame is written.

ghost use Rattle.edge_io.specs.Memory.{sink_bytes, sink_faults, source_faults, source_given, source_left};

use crate::files::{are_grey, file_of};
use crate::runs::words_of;
use crate::sizes::GREY_130_BY_132;
use edge_io::{Failed, MemSink, MemSource, OpenGate, PutFault, Sink, Source};
use std::alloc::Global;
use std::sync::Wait;
use std::sync::atomic::{AtomicU64, Ordering};
use std::test::Fail;
use std::thread::Threads;
use vp9_app::{Status, run};

// Counts the bytes that it takes.
#[derive(Drop)]
struct CountingSink<'a> {
    sink: MemSink,
    taken: &'a AtomicU64,
}

impl Sink for CountingSink<'_> {
    ghost use Rattle.std.specs.Prelude.{Some, true};

    ghost taken = { λ counting. Some (sink_bytes counting.sink) };

    ghost faults = { λ counting. sink_faults counting.sink };

    ghost grows = { λ _. true };

    ghost can_put = { λ _. Unit {0} };

    fn put(&mut self, piece: &[u8]) -> Result<usize, PutFault> {
        let n = self.sink.put(piece)?;
        self.taken.fetch_add(n as u64, Ordering::SeqCst);
        Ok(n)
    }
}

// Notes how many bytes are taken when it is first asked for more than so many bytes.
#[derive(Drop)]
struct NotingSource<'a> {
    source: MemSource,
    before: usize,
    taken: &'a AtomicU64,
    noted: Option<u64>,
}

impl Source for NotingSource<'_> {
    ghost use Rattle.std.specs.Prelude.{Some};

    ghost rest = { λ noting. Some (source_left noting.source) };

    ghost given = { λ noting. source_given noting.source };

    ghost faults = { λ noting. source_faults noting.source };

    ghost can_fill = { λ _. Unit {0} };

    fn fill(&mut self, buf: &mut [u8]) -> Result<usize, Failed> {
        if self.before == 0 && self.noted.is_none() {
            self.noted = Some(self.taken.load(Ordering::SeqCst));
        }
        let n = self.source.fill(buf)?;
        self.before = self.before.saturating_sub(n);
        Ok(n)
    }

    fn at_hand(&self) -> &[u8] {
        &[]
    }
}

// The bytes of a file's header, of the header of a packet, and of a frame.
const FIRST_PACKET: usize = 32 + 12 + 16;

// The samples of a frame of 130x132.
const FIRST_SAMPLES: u64 = 25_740;

// How many bytes are written of four frames when more than the first packet is asked for.
fn written_early<R: Threads + Wait + Sync>(
    rt: &R,
    alloc: Global,
    given: &[&'static str],
) -> Result<Option<u64>, Fail> {
    let file = file_of(alloc, GREY_130_BY_132, 4)?;
    let taken = AtomicU64::new(0);
    let source = NotingSource {
        source: MemSource::new(alloc, &file, &[])?,
        before: FIRST_PACKET,
        taken: &taken,
        noted: None,
    };
    let out = CountingSink {
        sink: MemSink::new(alloc, &[])?,
        taken: &taken,
    };
    let note = MemSink::new(alloc, &[])?;
    let words = words_of(alloc, given)?;
    let ran = run(rt, alloc, words.as_slice(), source, out, note, &OpenGate);
    if ran.status != Status::Done || !are_grey(ran.out.sink.bytes(), 102_960) {
        return Err(Fail::new("not decoded to grey samples"));
    }
    Ok(ran.source.noted)
}

#[test]
fn the_first_frame_is_written_before_more_is_read(rt: HostRuntime) -> Result<(), Fail> {
    let crews: [&[&'static str]; 3] = [
        &["decode"],
        &["decode", "--workers", "1", "--window", "2"],
        &["decode", "--workers", "64", "--window", "16"],
    ];
    for words in crews {
        assert_eq!(rt; written_early(&rt, rt.alloc(), words)?, Some(FIRST_SAMPLES));
    }
    Ok(())
}

// A plain decode reads its source to the end first.
#[test]
fn a_plain_decode_writes_nothing_early(rt: HostRuntime) -> Result<(), Fail> {
    assert_eq!(rt;
        written_early(&rt, rt.alloc(), &["decode", "--plain"])?,
        Some(0)
    );
    Ok(())
}
