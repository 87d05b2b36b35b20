ghost use Rattle.std.specs.Prelude.{◌≡◌, ◌≤◌, ◌<◌, ◌^◌, false, length, IsErr};
ghost use Rattle.edge_io.specs.Filling.{Fills, IsKept, CountsGiven, CountsFaults};
ghost use Rattle.edge_io.specs.Putting.{WritesSome};

use crate::sink::{PutFault, Sink};
use crate::source::{Failed, Source};
use std::io;
use std::io::{ErrorKind, Read, Write};

// A source that never ends is read so far.
const MOST: usize = 1 << 40;

/// The bytes of a reader, up to 2^40 of them. It tells what the reader tells of them, and fails once at most.
#[derive(Drop)]
pub struct StdSource<R> {
    reader: R,
    failed: bool,
    given: usize,
    ghost bounded: { given ≤ 2 ^ 40 },
}

/// A writer, flushed after each write. It tells what the writer tells of what it took, and fails once at most.
#[derive(Drop)]
pub struct StdSink<W> {
    writer: W,
    failed: bool,
}

impl<R> StdSource<R> {
    ghost use Rattle.edge_io.specs.System.{reader_of, reader_failed, reader_given};

    /// Reads from here.
    pub fn new(reader: R) -> StdSource<R>
        ensures reader { reader_of result ≡ reader }
        ensures failed { reader_failed result ≡ false }
        ensures given { reader_given result ≡ 0 }
    {
        StdSource {
            reader,
            failed: false,
            given: 0,
        }
    }

    /// The reader, past the bytes that it gave.
    pub fn into_inner(self) -> R
        ensures { result ≡ reader_of self }
    {
        self.reader
    }
}

impl<W> StdSink<W> {
    ghost use Rattle.edge_io.specs.System.{writer_of, writer_failed};

    /// Writes there.
    pub fn new(writer: W) -> StdSink<W>
        ensures writer { writer_of result ≡ writer }
        ensures failed { writer_failed result ≡ false }
    {
        StdSink {
            writer,
            failed: false,
        }
    }

    /// The writer, with what it took.
    pub fn into_inner(self) -> W
        ensures { result ≡ writer_of self }
    {
        self.writer
    }
}

// One read, tried again where a signal interrupted it.
fn read_some<R: Read>(reader: &mut R, buf: &mut [u8]) -> Result<usize, Failed>
    ensures { Fills (R.remaining reader.old) (R.remaining reader.new) buf.new result }
{
    for _ in 0..u64::MAX {
        match reader.read(buf) {
            Ok(n) => return Ok(n),
            Err(error) => {
                if error.kind() != ErrorKind::Interrupted {
                    return Err(Failed);
                }
            }
        }
    }
    Err(Failed)
}

// One write, tried again where a signal interrupted it. A writer that takes nothing has failed.
fn write_some<W: Write>(writer: &mut W, piece: &[u8]) -> Option<usize>
    ensures { WritesSome (W.contents writer.old) (W.contents writer.new) piece.now result }
{
    for _ in 0..u64::MAX {
        match writer.write(piece) {
            Ok(n) => return if n == 0 { None } else { Some(n) },
            Err(error) => {
                if error.kind() != ErrorKind::Interrupted {
                    return None;
                }
            }
        }
    }
    None
}

// Hands on what a writer holds back, so that a fault counts in the call that met it.
fn flushed<W: Write>(writer: &mut W) -> bool
    ensures { IsKept (W.contents writer.old) (W.contents writer.new) }
{
    for _ in 0..u64::MAX {
        match writer.flush() {
            Ok(()) => return true,
            Err(error) => {
                if error.kind() != ErrorKind::Interrupted {
                    return false;
                }
            }
        }
    }
    false
}

impl<R: Read> Source for StdSource<R> {
    ghost use Rattle.edge_io.specs.System.{reader_of, reader_failed, reader_given, reader_faults};

    ghost rest = { λ source. R.remaining (reader_of source) };

    ghost given = { λ source. reader_given source };

    ghost faults = { λ source. reader_faults source };

    ghost can_fill = { λ source. reader_failed source ≡ false };

    fn fill(&mut self, buf: &mut [u8]) -> Result<usize, Failed>
        requires { reader_failed self.old ≡ false }
        ensures bytes { Fills (R.remaining (reader_of self.old)) (R.remaining (reader_of self.new)) buf.new result }
        ensures given { CountsGiven (reader_given self.old) (reader_given self.new) result }
        ensures most { reader_given self.new ≤ 2 ^ 40 }
        ensures faults { CountsFaults (reader_faults self.old) (reader_faults self.new) result }
        ensures again { reader_faults self.new ≡ reader_faults self.old → reader_failed self.new ≡ false }

        // Where it has given so many bytes, the next of them is a fault.
        ensures last { reader_given self.old ≡ 2 ^ 40 → 0 < length buf.old → IsErr result }
    {
        if buf.is_empty() {
            return Ok(0);
        }
        let room = buf.len().min(MOST - self.given);
        if room > 0
            && let Ok(n) = read_some(&mut self.reader, &mut buf[..room])
        {
            self.given += n;
            return Ok(n);
        }
        self.failed = true;
        Err(Failed)
    }

    fn at_hand(&self) -> &[u8] {
        &[]
    }
}

impl<W: Write> Sink for StdSink<W> {
    ghost use Rattle.edge_io.specs.System.{writer_of, writer_failed, writer_faults};

    ghost taken = { λ sink. W.contents (writer_of sink) };

    ghost faults = { λ sink. writer_faults sink };

    ghost grows = { λ _. false };

    ghost can_put = { λ sink. writer_failed sink ≡ false };

    fn put(&mut self, piece: &[u8]) -> Result<usize, PutFault> {
        if piece.is_empty() {
            return Ok(0);
        }
        if let Some(n) = write_some(&mut self.writer, piece)
            && flushed(&mut self.writer)
        {
            return Ok(n);
        }
        self.failed = true;
        Err(PutFault::Failed)
    }
}
