//! Laws of the definitions, as contracts of functions that do nothing.

ghost use Rattle.std.specs.Prelude.{◌≡◌, ◌<◌, ◌≤◌, ℕ, List, Option, Some, IfSome, length, take};
ghost use Rattle.std.specs.List.{All};
ghost use Rattle.vp9_types.specs.declared.rule.Rule.{Rule};
ghost use Rattle.frame_output.specs.declared.rendering.Format.{Format};
ghost use Rattle.job_order.specs.Sound.{texts_below};
ghost use Rattle.seq_decoder.specs.Outputs.{Putting, output_of};
ghost use Rattle.numbered_frames.specs.Films.{Film, film_of, GoesOn};
ghost use Rattle.numbered_frames.specs.Coded.{IsFrameBefore, coded};
ghost use Rattle.numbered_frames.specs.NumberedPictures.{pictures};
ghost use Rattle.numbered_frames.specs.FrameNumbers.{EndsAt, before, film_output, text};

/// The texts of the frames, in order, are what is written of a film: all of it up to where its run ends, and a front of it up to any frame.
pub fn frames_are_the_output()
    ensures ends { (format : Format) (film : Film) (f : ℕ) (ending : Option (ℕ × Rule)) → EndsAt format film f ending →
        film_output format film ≡ record { adds = texts_below (text format film) f; ending = ending } }
    ensures front { (format : Format) (film : Film) (f : ℕ) → (n : ℕ) × (texts_below (text format film) f ≡ take n (film_output format film).adds) }
    ensures file { (format : Format) (bytes : List ℕ) → output_of format bytes ≡ film_output format (film_of bytes) }
{}

/// What the slots hold before a frame is frames of the file, each as it was decoded.
pub fn slots_hold_frames()
    ensures { (format : Format) (film : Film) (f : ℕ) (p : Putting) → before format film f ≡ Some p → All (λ slot. IfSome slot (IsFrameBefore format film f)) p.state.slots }
{}

/// Frames that come behind those of a film change nothing of these: not what is kept before one of them, and not what it is, shows and leaves.
pub fn later_frames_change_no_earlier_one()
    ensures before { (format : Format) (film more : Film) (f : ℕ) → GoesOn film more → f ≤ length film.frames → before format more f ≡ before format film f }
    ensures coded { (format : Format) (film more : Film) (f : ℕ) → GoesOn film more → f < length film.frames → coded format more f ≡ coded format film f }
    ensures text { (format : Format) (film more : Film) (f : ℕ) → GoesOn film more → f < length film.frames → text format more f ≡ text format film f }
    ensures pictures { (format : Format) (film more : Film) (f : ℕ) → GoesOn film more → f < length film.frames → pictures format more f ≡ pictures format film f }
{}
