//! Laws of the definitions, as contracts of functions that do nothing.

ghost use Rattle.std.specs.Prelude.{◌≡◌, ◌<◌, ◌≤◌, ◌+◌, ℕ, List, ◌++◌, Option, length};
ghost use Rattle.frame_output.specs.declared.rendering.Format.{Format};
ghost use Rattle.vp9_types.specs.declared.outcome.Outcome.{Outcome};
ghost use Rattle.vp9_types.specs.declared.job.JobName.{JobName};
ghost use Rattle.vp9_types.specs.declared.job.JobName.TheVariants.{Head};
ghost use Rattle.job_order.specs.Sound.{IsSound, frame_of, texts_below};
ghost use Rattle.job_order.specs.Worlds.{IsReached, WorldState};
ghost use Rattle.job_crew.specs.Events.{CanDo};
ghost use Rattle.job_order.specs.Truths.{AreTrue};
ghost use Rattle.job_crew.specs.Runs.{IsDue, IsEnded};
ghost use Rattle.job_crew.specs.declared.outlet.Ending.{Ending};
ghost use Rattle.numbered_frames.specs.seq_decoder.Outcomes.{Decodes};
ghost use Rattle.numbered_frames.specs.Films.{Film, GoesOn};
ghost use Rattle.numbered_frames.specs.FrameNumbers.{film_output};
ghost use Rattle.job_results.specs.Endings.{HasRefused, IsOutcome};
ghost use Rattle.job_results.specs.Meaning.{decode_rules, decode_truth};
ghost use Rattle.job_results.specs.Groups.{IsCounted, group_rules, group_truth, in_film};
ghost use Rattle.job_results.specs.JobResults.{IsRight};
ghost use Rattle.job_results.specs.declared.result.JobResult.{JobResult as AnyResult};

/// A run of right results that has ended is the decode of its film: whatever jobs were done by whom and when, the sink has taken the
/// decode's output, or a front of it, and the outcome is the decode's.
pub fn ended_runs_are_decodes()
    ensures { (format : Format) (film : Film) (ending : Ending AnyResult) (outcome : Outcome) (old new : Option (List ℕ)) (faults now : ℕ) →
        IsEnded (decode_rules format film) (decode_truth format film) old ending new (now ≡ faults) (HasRefused faults now) → IsOutcome ending outcome →
        Decodes (film_output format film) old new faults now outcome }
{}

/// The rules of a group's run are true: from right results they make right ones, right results say which frames are built and shown and what is
/// put, and slots hold eight frames. So whatever events lead to a world of such a run, if each is allowed when it comes, the world is sound.
pub fn rules_of_groups_are_true()
    ensures are_true { (n : ℕ) (format : Format) (film : Film) → AreTrue (group_rules n format film) (group_truth n format film) }
    ensures can { (n : ℕ) (format : Format) (film : Film) → CanDo (group_rules n format film) (group_truth n format film) }
    ensures sound { (n window : ℕ) (format : Format) (film : Film) (w : WorldState AnyResult) → 2 ≤ window → IsReached (group_rules n format film) window w →
        IsSound (group_rules n format film) (group_truth n format film) w }
{}

/// A result that is right stays right when more frames come behind those of the film.
pub fn right_results_stay_right()
    ensures { (format : Format) (film more : Film) (job : JobName) (x : AnyResult) → GoesOn film more → frame_of job < length film.frames →
        IsRight format film job x → IsRight format more job x }
{}

/// What is due in a group of frames is due in the film, where the group's first head is, and is of a frame that the film has; and the texts of a
/// group come behind those before it.
pub fn groups_are_of_the_film()
    ensures due { (n : ℕ) (format : Format) (film : Film) (job : JobName) → IsDue (decode_rules format film) (decode_truth format film) (Head n) →
        IsDue (group_rules n format film) (group_truth n format film) job → IsDue (decode_rules format film) (decode_truth format film) (in_film n job) }
    ensures counted { (format : Format) (film : Film) (job : JobName) → IsDue (decode_rules format film) (decode_truth format film) job → IsCounted (length film.frames) job }
    ensures texts { (text : ℕ → List ℕ) (n k : ℕ) → texts_below text (n + k) ≡ texts_below text n ++ texts_below (λ f. text (n + f)) k }
{}
