//! Laws of the definitions, as contracts of functions that do nothing.

ghost use Rattle.std.specs.Prelude.{◌≡◌, ◌<◌, ◌≤◌, ◌++◌, ℕ, List, None, false, length};
ghost use Rattle.file_frames.specs.FileFrames.{frames_in, frames_of_file};
ghost use Rattle.packet_reader.specs.declared.reader.Stage.{Stage};
ghost use Rattle.packet_reader.specs.declared.reader.Stage.TheVariants.{Header, Packet};
ghost use Rattle.file_frames.specs.Containers.{is_webm};
ghost use Rattle.frame_groups.specs.Groups.{LeadTo, frames_ahead};
ghost use Rattle.frame_groups.specs.Laws.{IsNoFile};

/// A file that isn't a WebM file has the frames that are ahead of a reader at its beginning, and one of less than four bytes has none.
pub fn file_has_frames_ahead()
    ensures ivf { (bytes : List ℕ) → is_webm bytes ≡ false → frames_of_file bytes ≡ frames_ahead Header bytes }
    ensures short { (bytes : List ℕ) → length bytes < 4 → IsNoFile bytes }
{}

/// Bytes that lead to a packet hold the frames that they lead over, if nothing comes behind them.
pub fn front_has_these_frames()
    ensures frames { (stage : Stage) (front : List ℕ) (frames : List (List ℕ)) → LeadTo stage front frames Packet → frames_in (frames_ahead stage front) ≡ frames }
    ensures ending { (stage : Stage) (front : List ℕ) (frames : List (List ℕ)) → LeadTo stage front frames Packet → (frames_ahead stage front).ending ≡ None }
{}

/// Four bytes tell the container, whatever comes behind them.
pub fn four_bytes_tell_the_container()
    ensures { (front more : List ℕ) → 4 ≤ length front → is_webm (front ++ more) ≡ is_webm front }
{}
