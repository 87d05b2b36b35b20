//! Runs of the program's commands over memory.

use edge_io::{Gate, MemSink, MemSource, OpenGate, Source};
use std::alloc::{AllocError, Global};
use std::sync::Wait;
use std::thread::Threads;
use vp9_app::{Ran, run};

pub type MemRan = Ran<MemSource, MemSink, MemSink>;

/// The numbers of the calls that are to fail, from 1.
#[derive(Clone, Copy)]
pub struct Fails {
    pub source: &'static [u64],
    pub out: &'static [u64],
    pub note: &'static [u64],
}

/// None fails.
pub const NONE: Fails = Fails {
    source: &[],
    out: &[],
    note: &[],
};

/// The program's name and these words.
pub fn words_of(alloc: Global, given: &[&'static str]) -> Result<Vec<String>, AllocError> {
    let mut words = Vec::new(alloc);
    words.push(String::from_str(alloc, "vp9dec")?)?;
    for word in given {
        words.push(String::from_str(alloc, word)?)?;
    }
    Ok(words)
}

/// What they do with a source, where a gate is told of the jobs.
pub fn run_source<R: Threads + Wait + Sync, S: Source + Send + Drop, G: Gate + Sync>(
    rt: &R,
    alloc: Global,
    given: &[&'static str],
    source: S,
    fails: &Fails,
    gate: &G,
) -> Result<Ran<S, MemSink, MemSink>, AllocError>
    requires { S.can_fill source }
{
    let words = words_of(alloc, given)?;
    let out = MemSink::new(alloc, fails.out)?;
    let note = MemSink::new(alloc, fails.note)?;
    Ok(run(rt, alloc, words.as_slice(), source, out, note, gate))
}

/// What they do with an input in memory.
pub fn run_words<R: Threads + Wait + Sync>(
    rt: &R,
    alloc: Global,
    given: &[&'static str],
    input: &[u8],
    fails: &Fails,
) -> Result<MemRan, AllocError> {
    let source = MemSource::new(alloc, input, fails.source)?;
    run_source(rt, alloc, given, source, fails, &OpenGate)
}
