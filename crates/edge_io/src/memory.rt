ghost use Rattle.std.specs.Prelude.{◌≡◌, ◌≤◌, ◌<◌, ◌+◌, ◌^◌, ◌++◌, ◌↔◌, ℕ, [], length, min, Contains, Some, IsErr, IsErrOf, IfOk};
ghost use Rattle.edge_io.specs.Filling.{Fills, CountsGiven, CountsFaults};
ghost use Rattle.edge_io.specs.declared.sink.PutFault.TheVariants as refused;

use crate::calls::Calls;
use crate::sink::{PutFault, Sink};
use crate::source::{Failed, Source};
use std::alloc::{AllocError, Global};

/// A source in memory. Chosen calls fail.
#[derive(Drop)]
pub struct MemSource {
    bytes: Vec<u8>,
    at: usize,
    calls: Calls,
    ghost inside: { at ≤ length bytes.items },
}

/// A sink in memory. Chosen calls fail.
#[derive(Drop)]
pub struct MemSink {
    bytes: Vec<u8>,
    calls: Calls,
}

impl MemSource {
    ghost use Rattle.edge_io.specs.Memory.{source_left, source_given, source_fails, source_calls, source_faults};

    /// A source of these bytes. `fails` has the numbers of the calls that are to fail, from 1.
    pub fn new(alloc: Global, bytes: &[u8], fails: &[u64]) -> Result<MemSource, AllocError>
        ensures left { IfOk result (λ source. source_left source ≡ bytes.now) }
        ensures given { IfOk result (λ source. source_given source ≡ 0) }
        ensures fails { IfOk result (λ source. source_fails source ≡ fails.now) }
        ensures calls { IfOk result (λ source. source_calls source ≡ 0) }
        ensures faults { IfOk result (λ source. source_faults source ≡ 0) }
    {
        Ok(MemSource {
            bytes: bytes.to_vec(alloc)?,
            at: 0,
            calls: Calls::new(alloc, fails)?,
        })
    }
}

impl Source for MemSource {
    ghost use Rattle.edge_io.specs.Memory.{source_left, source_given, source_fails, source_calls, source_faults};

    ghost rest = { λ source. Some (source_left source) };

    ghost given = { λ source. source_given source };

    ghost faults = { λ source. source_faults source };

    ghost can_fill = { λ _. Unit {0} };

    fn fill(&mut self, buf: &mut [u8]) -> Result<usize, Failed>
        ensures bytes { Fills (Some (source_left self.old)) (Some (source_left self.new)) buf.new result }
        ensures given { CountsGiven (source_given self.old) (source_given self.new) result }
        ensures most { source_given self.new < 2 ^ 63 }
        ensures faults { CountsFaults (source_faults self.old) (source_faults self.new) result }
        ensures again { source_faults self.new ≡ source_faults self.old → Unit {0} }

        // The chosen calls fail, and no other does.
        ensures chosen { IsErr result ↔ Contains (source_fails self.old) (source_calls self.old + 1) }
        ensures calls { source_calls self.new ≡ min (source_calls self.old + 1) u64.MAX }
        ensures fails { source_fails self.new ≡ source_fails self.old }
        ensures all_it_can { IfOk result (λ n. n ≡ min (length buf.new) (length (source_left self.old))) }
    {
        if self.calls.next_fails() {
            return Err(Failed);
        }
        let n = buf.len().min(self.bytes.len() - self.at);
        buf[..n].copy_from_slice(&self.bytes[self.at..self.at + n]);
        self.at += n;
        Ok(n)
    }

    fn at_hand(&self) -> &[u8] {
        &self.bytes[self.at..]
    }
}

impl MemSink {
    ghost use Rattle.edge_io.specs.Memory.{sink_bytes, sink_fails, sink_calls, sink_faults};

    /// A sink that has taken nothing. `fails` has the numbers of the calls that are to fail, from 1.
    pub fn new(alloc: Global, fails: &[u64]) -> Result<MemSink, AllocError>
        ensures bytes { IfOk result (λ sink. sink_bytes sink ≡ []) }
        ensures fails { IfOk result (λ sink. sink_fails sink ≡ fails.now) }
        ensures calls { IfOk result (λ sink. sink_calls sink ≡ 0) }
        ensures faults { IfOk result (λ sink. sink_faults sink ≡ 0) }
    {
        Ok(MemSink {
            bytes: Vec::new(alloc),
            calls: Calls::new(alloc, fails)?,
        })
    }

    /// What it has taken.
    pub fn bytes(&self) -> &[u8]
        ensures { result.now ≡ sink_bytes self.now }
    {
        &self.bytes
    }
}

impl Sink for MemSink {
    ghost use Rattle.std.specs.Prelude.{true};
    ghost use Rattle.edge_io.specs.Putting.{Puts, CountsPutFaults};
    ghost use Rattle.edge_io.specs.Memory.{sink_bytes, sink_fails, sink_calls, sink_faults};

    ghost taken = { λ sink. Some (sink_bytes sink) };

    ghost faults = { λ sink. sink_faults sink };

    ghost grows = { λ _. true };

    ghost can_put = { λ _. Unit {0} };

    fn put(&mut self, piece: &[u8]) -> Result<usize, PutFault>
        ensures bytes { Puts (Some (sink_bytes self.old)) (Some (sink_bytes self.new)) piece.now result }
        ensures faults { CountsPutFaults true (sink_faults self.old) (sink_faults self.new) result }
        ensures grows { true ≡ true }
        ensures again { sink_faults self.new ≡ sink_faults self.old → Unit {0} }

        // The chosen calls fail, and no other does.
        ensures chosen { IsErrOf result refused.Failed ↔ Contains (sink_fails self.old) (sink_calls self.old + 1) }
        ensures calls { sink_calls self.new ≡ min (sink_calls self.old + 1) u64.MAX }
        ensures fails { sink_fails self.new ≡ sink_fails self.old }
        ensures none_taken { IsErr result → sink_bytes self.new ≡ sink_bytes self.old }
        ensures whole { IfOk result (λ n. n ≡ length piece.now) }
    {
        if self.calls.next_fails() {
            return Err(PutFault::Failed);
        }
        self.bytes.extend_from_slice(piece)?;
        Ok(piece.len())
    }
}
