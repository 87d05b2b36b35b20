ghost use Rattle.std.specs.Prelude.{◌≡◌, ◌⊎◌, Some, None, map, string_bytes};
ghost use Rattle.vp9_app.specs.Answers.{Runs, Works};
ghost use Rattle.vp9_app.specs.Making.{Makes, Trials};
ghost use Rattle.vp9_app.specs.ReadingCommands.{Reads, decode_output};
ghost use Rattle.vp9_app.specs.Seen.{sink_seen, source_seen};
ghost use Rattle.command_words.specs.declared.command.Command.TheVariants as command;
ghost use Rattle.command_words.specs.declared.command.MadeStream.{MadeStream};
ghost use Rattle.command_words.specs.Words.{command_of};

use crate::listing::list_file;
use crate::note::report;
use crate::status::{Status, listing_status};
use command_words::{Command, DecodeOptions, MadeStream, read_words};
use edge_io::{Gate, PutFault, ReadError, Sink, Source, put_all, read_all};
use std::alloc::Global;
use std::sync::Wait;
use std::thread::Threads;
use stream_decoder::job_decoder::Crew;
use stream_decoder::seq_decoder::decode_plain;
use stream_decoder::{Streamed, decode_source};
use stream_trial::stream_forge::{NotMade, make_stream};
use stream_trial::{NoLine, trial_line};

/// What is left of a run: how it ended, and the objects that it was given.
#[derive(Drop)]
pub struct Ran<S, K, N> {
    pub status: Status,
    pub source: S,
    pub out: K,
    pub note: N,
}

fn list<S: Source, K: Sink>(alloc: Global, source: &mut S, out: &mut K) -> Status
    requires source { S.can_fill source.old }
    requires out { K.can_put out.old }
    ensures work { Works (Some Command.List)
        (source_seen (S.rest source.old) (S.rest source.new) (S.faults source.old) (S.faults source.new))
        (sink_seen (K.grows out.old) (K.taken out.old) (K.taken out.new) (K.faults out.old) (K.faults out.new)) result }
    ensures source_again { S.faults source.new ≡ S.faults source.old → S.can_fill source.new }
    ensures grows { K.grows out.new ≡ K.grows out.old }
    ensures out_again { K.faults out.new ≡ K.faults out.old → K.can_put out.new }
{
    let bytes = match read_all(alloc, source) {
        Ok(bytes) => bytes,
        Err(ReadError::Failed) => return Status::ReadFault,
        Err(ReadError::OutOfMemory) => return Status::OutOfMemory,
    };
    let listed = match list_file(alloc, bytes.as_slice()) {
        Ok(listed) => listed,
        Err(_) => return Status::OutOfMemory,
    };
    match put_all(out, listed.text.as_bytes()) {
        Ok(()) => listing_status(listed.ending),
        Err(PutFault::Failed) => Status::WriteFault,
        Err(PutFault::OutOfMemory) => Status::OutOfMemory,
    }
}

/// How the work of a command ended, its source, and the sink that it wrote to.
#[derive(Drop)]
struct Worked<S, K> {
    status: Status,
    source: S,
    out: K,
}

/// Decodes what a source has on this thread, when all of it is read.
fn decode_whole<S: Source, K: Sink>(
    alloc: Global,
    options: DecodeOptions,
    source: &mut S,
    out: &mut K,
) -> Status
    requires source { S.can_fill source.old }
    requires out { K.can_put out.old }
    ensures work { Reads (decode_output options)
        (source_seen (S.rest source.old) (S.rest source.new) (S.faults source.old) (S.faults source.new))
        (sink_seen (K.grows out.old) (K.taken out.old) (K.taken out.new) (K.faults out.old) (K.faults out.new)) result }
    ensures source_again { S.faults source.new ≡ S.faults source.old → S.can_fill source.new }
    ensures grows { K.grows out.new ≡ K.grows out.old }
    ensures out_again { K.faults out.new ≡ K.faults out.old → K.can_put out.new }
{
    let bytes = match read_all(alloc, source) {
        Ok(bytes) => bytes,
        Err(ReadError::Failed) => return Status::ReadFault,
        Err(ReadError::OutOfMemory) => return Status::OutOfMemory,
    };
    let outcome = decode_plain(alloc, options.format, bytes.as_slice(), out);
    Status::from(outcome)
}

/// Decodes what a source has, on this thread or, as it comes, by a crew.
fn decode<R: Threads + Wait + Sync, S: Source, K: Sink + Send + Drop, G: Gate + Sync>(
    rt: &R,
    alloc: Global,
    options: DecodeOptions,
    mut source: S,
    mut out: K,
    gate: &G,
) -> Worked<S, K>
    requires source { S.can_fill source }
    requires out { K.can_put out }
    ensures work { Works (Some (Command.Decode options))
        (source_seen (S.rest source) (S.rest result.source) (S.faults source) (S.faults result.source))
        (sink_seen (K.grows out) (K.taken out) (K.taken result.out) (K.faults out) (K.faults result.out)) result.status }
    ensures source_again { S.faults result.source ≡ S.faults source → S.can_fill result.source }
    ensures grows { K.grows result.out ≡ K.grows out }
    ensures out_again { K.faults result.out ≡ K.faults out → K.can_put result.out }
{
    if options.plain {
        let status = decode_whole(alloc, options, &mut source, &mut out);
        return Worked {
            status,
            source,
            out,
        };
    }
    let crew = Crew {
        workers: options.workers,
        window: options.window,
        gate,
    };
    let Streamed {
        outcome,
        source,
        sink,
    } = decode_source(rt, alloc, &crew, options.format, source, out);
    Worked {
        status: Status::from(outcome),
        source,
        out: sink,
    }
}

/// Writes a made stream.
fn make<K: Sink>(alloc: Global, stream: MadeStream, out: &mut K) -> Status
    requires { K.can_put out.old }
    ensures work { Makes stream (sink_seen (K.grows out.old) (K.taken out.old) (K.taken out.new) (K.faults out.old) (K.faults out.new)) result }
    ensures grows { K.grows out.new ≡ K.grows out.old }
    ensures out_again { K.faults out.new ≡ K.faults out.old → K.can_put out.new }
{
    let file = match make_stream(alloc, stream.number, stream.frames) {
        Ok(file) => file,
        Err(NotMade::OutOfMemory) => return Status::OutOfMemory,
    };
    match put_all(out, file.as_slice()) {
        Ok(()) => Status::Done,
        Err(PutFault::Failed) => Status::WriteFault,
        Err(PutFault::OutOfMemory) => Status::OutOfMemory,
    }
}

/// Tries a made stream, and writes the line of what it shows.
fn trial<R: Threads + Wait + Sync, K: Sink, G: Gate + Sync>(
    rt: &R,
    alloc: Global,
    stream: MadeStream,
    out: &mut K,
    gate: &G,
) -> Status
    requires { K.can_put out.old }
    ensures work { Trials stream (sink_seen (K.grows out.old) (K.taken out.old) (K.taken out.new) (K.faults out.old) (K.faults out.new)) result }
    ensures grows { K.grows out.new ≡ K.grows out.old }
    ensures out_again { K.faults out.new ≡ K.faults out.old → K.can_put out.new }
{
    let line = match trial_line(rt, alloc, stream.number, stream.frames, gate) {
        Ok(line) => line,
        Err(NoLine::Broken(stop)) => return Status::Broken(stop),
        Err(NoLine::OutOfMemory) => return Status::OutOfMemory,
    };
    match put_all(out, line.as_bytes()) {
        Ok(()) => Status::Done,
        Err(PutFault::Failed) => Status::WriteFault,
        Err(PutFault::OutOfMemory) => Status::OutOfMemory,
    }
}

/// Does what the words ask for.
fn work<R: Threads + Wait + Sync, S: Source, K: Sink + Send + Drop, G: Gate + Sync>(
    rt: &R,
    alloc: Global,
    words: &[String],
    mut source: S,
    mut out: K,
    gate: &G,
) -> Worked<S, K>
    requires source { S.can_fill source }
    requires out { K.can_put out }
    ensures work { Works (command_of (map string_bytes words.now))
        (source_seen (S.rest source) (S.rest result.source) (S.faults source) (S.faults result.source))
        (sink_seen (K.grows out) (K.taken out) (K.taken result.out) (K.faults out) (K.faults result.out)) result.status }
    ensures untouched { command_of (map string_bytes words.now) ≡ None → (result.source ≡ source) × (result.out ≡ out) }
    ensures unread { (stream : MadeStream) → (command_of (map string_bytes words.now) ≡ Some (command.Make stream)) ⊎ (command_of (map string_bytes words.now) ≡ Some (command.Trial stream)) → result.source ≡ source }
    ensures source_again { S.faults result.source ≡ S.faults source → S.can_fill result.source }
    ensures grows { K.grows result.out ≡ K.grows out }
    ensures out_again { K.faults result.out ≡ K.faults out → K.can_put result.out }
{
    let status = match read_words(alloc, words) {
        Ok(Some(Command::List)) => list(alloc, &mut source, &mut out),
        Ok(Some(Command::Decode(options))) => return decode(rt, alloc, options, source, out, gate),
        Ok(Some(Command::Make(stream))) => make(alloc, stream, &mut out),
        Ok(Some(Command::Trial(stream))) => trial(rt, alloc, stream, &mut out, gate),
        Ok(None) => Status::Usage,
        Err(_) => Status::OutOfMemory,
    };
    Worked {
        status,
        source,
        out,
    }
}

/// Runs the command that the words ask for, the program's name first. What a command reads comes from `source`, what
/// it writes goes to `out`, and how it ended is told to `note` in a line. All three are handed back.
///
/// `rt` and `gate` serve `decode`, which starts threads unless it is asked for a plain decode, and `trial`.
pub fn run<
    R: Threads + Wait + Sync,
    S: Source + Send + Drop,
    K: Sink + Send + Drop,
    N: Sink + Drop,
    G: Gate + Sync,
>(rt: &R, alloc: Global, words: &[String], source: S, out: K, mut note: N, gate: &G) -> Ran<S, K, N>
    requires source { S.can_fill source }
    requires out { K.can_put out }
    requires note { N.can_put note }

    // What is read, written and told. (`answers_have_their_causes` says what follows at each status.)
    ensures answer { Runs (command_of (map string_bytes words.now))
        (source_seen (S.rest source) (S.rest result.source) (S.faults source) (S.faults result.source))
        (sink_seen (K.grows out) (K.taken out) (K.taken result.out) (K.faults out) (K.faults result.out))
        (sink_seen (N.grows note) (N.taken note) (N.taken result.note) (N.faults note) (N.faults result.note)) result.status }

    // Words that are no command touch neither source nor out.
    ensures untouched { command_of (map string_bytes words.now) ≡ None → (result.source ≡ source) × (result.out ≡ out) }

    // A made stream needs no source.
    ensures unread { (stream : MadeStream) → (command_of (map string_bytes words.now) ≡ Some (command.Make stream)) ⊎ (command_of (map string_bytes words.now) ≡ Some (command.Trial stream)) → result.source ≡ source }

    // What didn't fail may be used on.
    ensures source_again { S.faults result.source ≡ S.faults source → S.can_fill result.source }
    ensures out_again { (K.grows result.out ≡ K.grows out) × (K.faults result.out ≡ K.faults out → K.can_put result.out) }
    ensures note_again { (N.grows result.note ≡ N.grows note) × (N.faults result.note ≡ N.faults note → N.can_put result.note) }
{
    let Worked {
        status: first,
        source,
        out,
    } = work(rt, alloc, words, source, out, gate);
    let status = report(alloc, first, &mut note);
    Ran {
        status,
        source,
        out,
        note,
    }
}
