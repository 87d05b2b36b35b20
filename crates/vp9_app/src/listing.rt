ghost use Rattle.std.specs.Prelude.{◌≡◌, ◌++◌, IfOk, OnOk, string_bytes};
ghost use Rattle.frame_headers.specs.Header.{HeadHasFewTiles};
ghost use Rattle.vp9_app.specs.Code.{listing_of, AddsLine};
ghost use Rattle.vp9_app.specs.Listing.{head_line, persist_behind, list_step, listing};

use crate::line::{push_coded, push_shown};
use file_frames::{FileFrame, FrameCursor};
use frame_headers::{FrameHead, Persist, read};
use std::alloc::{AllocError, Global};
use vp9_types::{Rule, Stop};

/// The lines of a file, and the first frame that breaks a rule, if one does.
#[derive(Debug, Drop)]
pub struct Listed {
    pub text: String,
    pub ending: Option<Stop>,
}

/// Adds the line of a frame with this head, of so many bytes, and gives what persists behind it.
fn list_head(
    text: &mut String,
    persist: Persist,
    head: FrameHead,
    number: u64,
    bytes: usize,
) -> Result<Persist, AllocError>
    requires { HeadHasFewTiles head }
    ensures line { OnOk result (string_bytes text.new ≡ string_bytes text.old ++ head_line number bytes head) }
    ensures persist { IfOk result (λ next. next ≡ persist_behind persist head) }
{
    match head {
        FrameHead::Coded { header, .. } => {
            push_coded(text, number, &header, bytes)?;
            Ok(header.next(&persist))
        }
        FrameHead::ShowExisting { slot } => {
            push_shown(text, number, slot, bytes)?;
            Ok(persist)
        }
    }
}

/// Adds the line of a frame, and gives what persists behind it.
#[tactic(auto, unfolding(crate::specs::Listing::list_step))]
fn list_frame(
    text: &mut String,
    persist: Persist,
    frame: FileFrame<'_>,
) -> Result<Result<Persist, Rule>, AllocError>
    ensures { IfOk result (λ r. AddsLine (string_bytes text.old) (list_step frame.entry.number persist frame.entry.bytes.now) r (string_bytes text.new)) }
{
    let head = match read(frame.bytes, &persist) {
        Ok(head) => head,
        Err(rule) => return Ok(Err(rule)),
    };
    let bytes = frame.bytes.len();
    Ok(Ok(list_head(text, persist, head, frame.number, bytes)?))
}

/// The listing of an IVF or a WebM file, up to the first rule that is broken.
pub fn list_file(alloc: Global, bytes: &[u8]) -> Result<Listed, AllocError>
    ensures { IfOk result (λ l. listing bytes.now ≡ listing_of l) }
{
    let mut text = String::new(alloc);
    let mut persist = Persist::START;
    let mut frames = FrameCursor::new(bytes);
    'frames: loop {
        let frame = match frames.next_frame() {
            Ok(Some(frame)) => frame,
            Ok(None) => {
                let ending = None;
                return Ok(Listed { text, ending });
            }
            Err(stop) => {
                let ending = Some(stop);
                return Ok(Listed { text, ending });
            }
        };
        match list_frame(&mut text, persist, frame)? {
            Ok(next) => persist = next,
            Err(rule) => {
                let frame = frame.number;
                let ending = Some(Stop { frame, rule });
                return Ok(Listed { text, ending });
            }
        }
    }
}
