ghost use Rattle.std.specs.Prelude.{◌≡◌, ◌++◌, OnOk, Some, List, ℕ};

use edge_io::{
    MemSink, MemSource, Prefixed, PutFault, ReadError, Sink, Source, StdSink, StdSource, put_all,
    read_all,
};
use std::alloc::Global;
use std::io;
use std::io::{ErrorKind, Read, Write};
use std::test::Fail;
use thiserror::Error;

#[derive(Debug, Drop, Error)]
enum CopyError {
    #[error(transparent)]
    Read(#[from] ReadError),
    #[error(transparent)]
    Put(#[from] PutFault),
}

// What a crate above does with the two traits.
fn copied<S: Source, K: Sink>(alloc: Global, source: &mut S, sink: &mut K) -> Result<(), CopyError>
    requires source { S.can_fill source.old }
    requires sink { K.can_put sink.old }
    ensures bytes { (bytes before : List ℕ) → S.rest source.old ≡ Some bytes → K.taken sink.old ≡ Some before
        → OnOk result (K.taken sink.new ≡ Some (before ++ bytes)) }
    ensures faults { OnOk result (S.faults source.new ≡ S.faults source.old) }
{
    let all = read_all(alloc, source)?;
    put_all(sink, &all)?;
    Ok(())
}

// Gives two bytes, one at a call and a signal between them, and then fails.
#[derive(Drop)]
struct Breaking {
    calls: u8,
}

impl Read for Breaking {
    fn read(&mut self, buf: &mut [u8]) -> io::Result<usize> {
        self.calls = self.calls.saturating_add(1);
        match (self.calls, buf) {
            (1 | 3, [first, ..]) => {
                *first = self.calls;
                Ok(1)
            }
            (2, _) => Err(io::Error::from(ErrorKind::Interrupted)),
            _ => Err(io::Error::from(ErrorKind::ConnectionReset)),
        }
    }
}

// Takes a byte at a call, and in the end none.
#[derive(Drop)]
struct Narrow {
    taken: Vec<u8>,
    left: u8,
}

impl Write for Narrow {
    fn write(&mut self, buf: &[u8]) -> io::Result<usize> {
        match buf {
            [first, ..] if self.left > 0 => {
                self.left -= 1;
                self.taken.push(*first)?;
                Ok(1)
            }
            _ => Ok(0),
        }
    }

    fn flush(&mut self) -> io::Result<()> {
        Ok(())
    }
}

fn put_three(sink: &mut MemSink) -> Result<(), PutFault> {
    put_all(sink, b"ab")?;
    put_all(sink, b"cd")?;
    put_all(sink, b"ef")
}

// Two whole pieces of the reading loop, a short one and the end: four calls.
#[test]
fn a_read_fails_where_its_source_does(rt: HostRuntime) -> Result<(), Fail> {
    let alloc = rt.alloc();
    let bytes = vec![in alloc; 7; 150_000]?;
    for k in 1u64..6 {
        let mut source = MemSource::new(alloc, &bytes, &[k])?;
        match read_all(alloc, &mut source) {
            Ok(all) => assert!(rt; k == 5 && all.as_slice() == bytes.as_slice()),
            Err(error) => assert!(rt; k < 5 && error == ReadError::Failed, "at {k}"),
        }
    }
    Ok(())
}

#[test]
fn a_sink_keeps_what_came_before_its_fault(rt: HostRuntime) -> Result<(), Fail> {
    let alloc = rt.alloc();
    let kept: [&[u8]; 4] = [b"", b"ab", b"abcd", b"abcdef"];
    for (k, bytes) in (1u64..5).zip(kept) {
        let mut sink = MemSink::new(alloc, &[k])?;
        let put = put_three(&mut sink);
        assert_eq!(rt; put.is_ok(), k == 4, "at {k}");
        assert_eq!(rt; sink.bytes(), bytes, "at {k}");
    }
    Ok(())
}

#[test]
fn readers_and_writers_of_the_system(rt: HostRuntime) -> Result<(), Fail> {
    let alloc = rt.alloc();
    let text: &[u8] = b"frames";
    let mut source = StdSource::new(text);
    let mut sink = StdSink::new(Vec::new(alloc));
    copied(alloc, &mut source, &mut sink)?;
    assert_eq!(rt; sink.into_inner().as_slice(), text);
    assert_eq!(rt; source.into_inner().len(), 0);
    Ok(())
}

#[test]
fn a_reader_fails_in_mid_stream(rt: HostRuntime) -> Result<(), Fail> {
    let mut source = StdSource::new(Breaking { calls: 0 });
    assert!(rt; read_all(rt.alloc(), &mut source) == Err(ReadError::Failed));
    assert_eq!(rt; source.into_inner().calls, 4);
    Ok(())
}

#[test]
fn short_writes_go_on(rt: HostRuntime) -> Result<(), Fail> {
    let alloc = rt.alloc();
    let kept: [(u8, &[u8]); 2] = [(2, b"ab"), (9, b"abc")];
    for (left, bytes) in kept {
        let taken = Vec::new(alloc);
        let mut sink = StdSink::new(Narrow { taken, left });
        assert_eq!(rt; put_all(&mut sink, b"abc").is_ok(), left == 9);
        assert_eq!(rt; sink.into_inner().taken.as_slice(), bytes);
    }
    Ok(())
}

#[test]
fn bytes_that_were_read_are_put_back(rt: HostRuntime) -> Result<(), Fail> {
    let mut source = MemSource::new(rt.alloc(), b"abcdefgh", &[])?;
    let mut front = [0; 4];
    let Ok(4) = source.fill(&mut front) else {
        return Err(Fail::new("not four bytes"));
    };
    let mut whole = Prefixed::new(front, source);
    let bytes = read_all(rt.alloc(), &mut whole)?;
    assert_eq!(rt; bytes.as_slice(), b"abcdefgh".as_slice());
    let rest = read_all(rt.alloc(), &mut whole.into_source())?;
    assert_eq!(rt; rest.len(), 0);
    Ok(())
}
