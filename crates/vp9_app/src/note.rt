ghost use Rattle.std.specs.Prelude.{◌≡◌, IfOk, string_bytes};
ghost use Rattle.std.specs.Result.{ForOk};
ghost use Rattle.vp9_app.specs.Answers.{Reports};
ghost use Rattle.vp9_app.specs.Seen.{sink_seen};
ghost use Rattle.vp9_app.specs.Code.{Tells, MayLackMemory};
ghost use Rattle.vp9_app.specs.Notes.{note_line, stop_line};

use crate::status::Status;
use edge_io::{PutFault, Sink, put_all};
use std::alloc::{AllocError, Global};
use vp9_types::Stop;

#[tactic(auto, unfolding(crate::specs::Notes::stop_line))]
fn stop_text(alloc: Global, stop: Stop) -> Result<String, AllocError>
    ensures { IfOk result (λ text. string_bytes text ≡ stop_line stop) }
{
    let frame = stop.frame;
    let number = stop.rule.number();
    let name = stop.rule.name();
    let mut text = String::new(alloc);
    writeln!(text, "frame {frame}: rule {number} {name}")?;
    Ok(text)
}

/// Puts the line of a status, and says how the run ends with that.
fn put_line<N: Sink>(note: &mut N, line: &str, first: Status) -> Status
    requires can { N.can_put note.old }
    requires line { line.now ≡ note_line first }
    ensures reports { Reports (sink_seen (N.grows note.old) (N.taken note.old) (N.taken note.new) (N.faults note.old) (N.faults note.new)) first result }
    ensures grows { N.grows note.new ≡ N.grows note.old }
    ensures again { N.faults note.new ≡ N.faults note.old → N.can_put note.new }
{
    match put_all(note, line.as_bytes()) {
        Ok(()) => first,
        Err(PutFault::Failed) => Status::WriteFault,
        Err(PutFault::OutOfMemory) => match first {
            Status::WriteFault => Status::WriteFault,
            _ => Status::OutOfMemory,
        },
    }
}

/// The same for a line that was to be made in memory.
fn put_text<N: Sink>(note: &mut N, line: Result<String, AllocError>, first: Status) -> Status
    requires can { N.can_put note.old }
    requires line { ForOk line (λ text. string_bytes text ≡ note_line first) }
    requires may_lack { MayLackMemory first Status.OutOfMemory }
    requires may_stay { MayLackMemory first first }
    ensures tells { Tells (sink_seen (N.grows note.old) (N.taken note.old) (N.taken note.new) (N.faults note.old) (N.faults note.new)) first result }
    ensures grows { N.grows note.new ≡ N.grows note.old }
    ensures again { N.faults note.new ≡ N.faults note.old → N.can_put note.new }
{
    match line {
        Ok(text) => put_line(note, text.as_str(), first),
        Err(_) => put_line(note, "out of memory\n", Status::OutOfMemory),
    }
}

/// Puts the line that tells how the work ended, and says how the run ends with that.
pub fn report<N: Sink>(alloc: Global, first: Status, note: &mut N) -> Status
    requires { N.can_put note.old }
    ensures tells { Tells (sink_seen (N.grows note.old) (N.taken note.old) (N.taken note.new) (N.faults note.old) (N.faults note.new)) first result }
    ensures grows { N.grows note.new ≡ N.grows note.old }
    ensures again { N.faults note.new ≡ N.faults note.old → N.can_put note.new }
{
    match first {
        Status::Done => put_line(note, "", first),
        Status::Usage => put_line(note, "usage: vp9dec list / decode / make / trial\n", first),
        Status::ReadFault => put_line(note, "read fault\n", first),
        Status::WriteFault => put_line(note, "write fault\n", first),
        Status::OutOfMemory => put_line(note, "out of memory\n", first),
        Status::Broken(stop) => put_text(note, stop_text(alloc, stop), first),
    }
}
