//! Laws of the definitions, as contracts of functions that do nothing.

ghost use Rattle.std.specs.Prelude.{Option};
ghost use Rattle.command_words.specs.declared.command.Command.{Command};
ghost use Rattle.vp9_app.specs.Answers.{Runs};
ghost use Rattle.vp9_app.specs.Seen.{OfSink, OfSource};
ghost use Rattle.vp9_app.specs.Laws.{HasCause, IsComplete};
ghost use Rattle.vp9_app.specs.declared.status.Status.{Status};

/// Of what a run reads, writes and tells follows that each answer has its cause, and that where no count rose and the source
/// tells its bytes, the answer is that of the words and of the command's output, or want of memory.
pub fn answers_have_their_causes()
    ensures cause { (c : Option Command) (s : OfSource) (o n : OfSink) (last : Status) → Runs c s o n last → HasCause c s o n last }
    ensures complete { (c : Option Command) (s : OfSource) (o n : OfSink) (last : Status) → Runs c s o n last → IsComplete c s o n last }
{}
