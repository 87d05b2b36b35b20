//! Laws of the definitions, as contracts of functions that do nothing.

ghost use Rattle.std.specs.Prelude.{◌≡◌, ◌↔◌, ℕ, ◌+◌, ◌<◌, ◌≤◌, List, Option, Some};
ghost use Rattle.vp9_types.specs.declared.job.JobName.{JobName};
ghost use Rattle.vp9_types.specs.declared.job.JobName.TheVariants.{Close, Rows, Filter, End};
ghost use Rattle.job_order.specs.declared.event.Event.{Event};
ghost use Rattle.job_order.specs.declared.event.Event.TheVariants.{Draw, Finish};
ghost use Rattle.job_order.specs.declared.segment.Segment.{Segment};
ghost use Rattle.job_order.specs.declared.segment.Segment.TheVariants.{Build};
ghost use Rattle.job_order.specs.declared.segment.Shown.{Shown};
ghost use Rattle.job_order.specs.JobSegments.{InOrder, IsPublished, job_at};
ghost use Rattle.job_order.specs.Needs.{NeedsBand, Publishes};
ghost use Rattle.job_order.specs.Worlds.{WorldState, HasResult, IsFinished, IsReady, NeedsIn, Does, opening, after, run, IsAllowed, AreAllowed, IsReached, published, and_published};
ghost use Rattle.job_order.specs.declared.order.Mark.{Mark};
ghost use Rattle.job_order.specs.Code.{IsMark};
ghost use Rattle.job_order.specs.Example.{example_rules, example_truth};
ghost use Rattle.job_order.specs.Truths.{AreTrue};
ghost use Rattle.job_order.specs.Sound.{IsSound, HasFailed, written, IsLeast, IsInTurn, AreTotal, AreSettled, MayRead, frame_of};

use crate::meaning::Meaning;

/// A mark stays one when more is published.
pub fn marks_stay()
    ensures { (segments : List Segment) (more : Option Segment) (mark : Mark) → IsMark segments mark → IsMark (and_published segments more) mark }
{}

/// Whatever events come, as long as each is allowed when it comes: the world that they lead to is sound.
pub fn every_list_of_events_is_sound<X, M: Meaning<X>>()
    ensures { (window : ℕ) (events : List (Event X)) → 2 ≤ window → AreTrue M.rules M.truth → AreAllowed M.rules (opening window) events →
        IsSound M.rules M.truth (run M.rules (opening window) events) }
{}

/// The same step by step: a world that was reached is sound, and an event that is allowed in it leads to another that was reached.
pub fn reached_worlds_are_sound<X, M: Meaning<X>>()
    ensures first { (window : ℕ) → IsReached M.rules window (opening window) }
    ensures next { (window : ℕ) (w : WorldState X) (e : Event X) → IsReached M.rules window w → IsAllowed M.rules w e → IsReached M.rules window (after M.rules w e) }
    ensures sound { (window : ℕ) (w : WorldState X) → 2 ≤ window → AreTrue M.rules M.truth → IsReached M.rules window w → IsSound M.rules M.truth w }
{}

/// No later event changes a result, and what the writes have put grows no more once one was refused.
pub fn later_events_change_no_result<X, M: Meaning<X>>()
    ensures stays { (w : WorldState X) (events : List (Event X)) (job : JobName) (x : X) → HasResult w.finished job x → HasResult (run M.rules w events).finished job x }
    ensures one { (w : WorldState X) (job : JobName) (x y : X) → IsSound M.rules M.truth w → HasResult w.finished job x → HasResult w.finished job y → x ≡ y }
    ensures refused { (window : ℕ) (events later : List (Event X)) → 2 ≤ window → AreTrue M.rules M.truth → AreAllowed M.rules (opening window) events →
        HasFailed M.rules (run M.rules (opening window) events).finished → AreAllowed M.rules (run M.rules (opening window) events) later →
        written M.rules (run M.rules (run M.rules (opening window) events) later).finished ≡ written M.rules (run M.rules (opening window) events).finished }
{}

/// Unless the end of the run is finished, there is a job that comes next: the least one in ticket order that isn't finished. It may finish
/// once it is drawn.
pub fn some_job_may_always_finish<X, M: Meaning<X>>()
    ensures there { (window : ℕ) (events : List (Event X)) → 2 ≤ window → AreTrue M.rules M.truth → AreAllowed M.rules (opening window) events →
        ((f : ℕ) → ¬ IsFinished (run M.rules (opening window) events).finished (End f)) →
        (ticket : ℕ) × (job : JobName) × IsLeast (run M.rules (opening window) events) ticket job }
    ensures ready { (w : WorldState X) (ticket : ℕ) (job : JobName) → IsSound M.rules M.truth w → IsLeast w ticket job → ticket < w.drawn → IsReady M.rules w job }
    ensures may_finish { (w : WorldState X) (ticket : ℕ) (job : JobName) → IsSound M.rules M.truth w → AreTotal M.rules M.truth → IsLeast w ticket job → ticket < w.drawn →
        (x : X) × IsAllowed M.rules w (Finish job x (published M.rules job x)) }
{}

/// A band is published by one filter: not by that of its own row, unless the row is the last one.
pub fn each_band_has_one_filter()
    ensures once { (segments : List Segment) (f band a b : ℕ) → InOrder segments → Publishes segments f a band → Publishes segments f b band → a ≡ b }
    ensures below { (segments : List Segment) (f columns rows row : ℕ) (shown : Option Shown) → InOrder segments → IsPublished segments (Build f columns rows shown) →
        row + 1 < rows → ¬ Publishes segments f row row }
{}

/// Each band that a ready job needs was published by a filter that is finished, and is of a frame that the job may read.
pub fn ready_jobs_have_their_bands<X, M: Meaning<X>>()
    ensures { (w : WorldState X) (job : JobName) (g band : ℕ) → IsSound M.rules M.truth w → IsReady M.rules w job →
        NeedsBand w.segments (M.rules.reads job w.finished) job g band →
        ((row : ℕ) × IsFinished w.finished (Filter g row) × Publishes w.segments g row band) × MayRead M.truth (frame_of job) g }
{}

/// Each job has one ticket. One worker may do the jobs in the order of their tickets, each as soon as its ticket is drawn.
pub fn jobs_may_be_done_in_turn<X, M: Meaning<X>>()
    ensures once { (segments : List Segment) (a b : ℕ) (job : JobName) → InOrder segments → job_at segments a ≡ Some job → job_at segments b ≡ Some job → a ≡ b }
    ensures first { (window : ℕ) → IsInTurn {X = X} (opening window) 0 }
    ensures next { (w : WorldState X) (n : ℕ) (job : JobName) (x : X) → IsSound M.rules M.truth w → IsInTurn w n → job_at w.segments n ≡ Some job →
        Does M.rules (after M.rules w Draw) job x →
        IsAllowed M.rules (after M.rules w Draw) (Finish job x (published M.rules job x))
        × IsInTurn (after M.rules (after M.rules w Draw) (Finish job x (published M.rules job x))) (n + 1) }
{}

/// What a job of a superblock row needs stays, once its frame's close is finished, where the rules are settled.
pub fn needs_stay<X, M: Meaning<X>>()
    ensures reads { (window : ℕ) (w : WorldState X) (later : List (Event X)) (f c r : ℕ) → 2 ≤ window → AreTrue M.rules M.truth → AreSettled M.rules M.truth →
        IsReached M.rules window w → AreAllowed M.rules w later → IsFinished w.finished (Close f) →
        M.rules.reads (Rows f c r) (run M.rules w later).finished ≡ M.rules.reads (Rows f c r) w.finished }
    ensures needs { (window : ℕ) (w : WorldState X) (later : List (Event X)) (f c r : ℕ) → 2 ≤ window → AreTrue M.rules M.truth → AreSettled M.rules M.truth →
        IsReached M.rules window w → AreAllowed M.rules w later → IsFinished w.finished (Close f) →
        (need : JobName) → NeedsIn M.rules (run M.rules w later) (Rows f c r) need ↔ NeedsIn M.rules w (Rows f c r) need }
{}

/// There are rules that are true, total and settled: those of an example.
pub fn some_rules_are_true()
    ensures are_true { AreTrue example_rules example_truth }
    ensures total { AreTotal example_rules example_truth }
    ensures settled { AreSettled example_rules example_truth }
    ensures does { (w : WorldState ℕ) (job : JobName) → IsSound example_rules example_truth w → IsReady example_rules w job → Does example_rules w job (frame_of job) }
{}
