ghost use Rattle.std.specs.Prelude.{◌≡◌, ◌*◌, ◌<◌, ◌≤◌, ◌++◌, ℕ, length};
ghost use Rattle.vp9_types.specs.declared.shape.Depth.TheVariants.{Eight};
ghost use Rattle.vp9_types.specs.declared.shape.Plane.{Plane};
ghost use Rattle.vp9_types.specs.Shapes.{plane_width, plane_height};
ghost use Rattle.edge_io.specs.Putting.{PutsAll, CountsPutFaults};
ghost use Rattle.frame_output.specs.Texts.{frame_text};
ghost use Rattle.frame_output.specs.Formats.{frame_head, output_text};

use crate::digest::frame_digest;
use crate::frame::render;
use crate::lines::{digest_line, frame_head};
use crate::rendering::{Format, Rendering};
use edge_io::{PutFault, Sink, put_all};
use vp9_types::{Samples, Shape};

/// Puts the text that a frame has in a format, as `render` puts its raw text: by the same buffer, and after a refusal
/// the sink has taken a front of the text and is asked for no more. It wants no memory of its own.
pub fn render_as<S: Samples, K: Sink>(
    how: &Rendering,
    shape: &Shape,
    samples: &S,
    buffer: &mut [u8],
    sink: &mut K,
) -> Result<(), PutFault>
    requires room { 2 * shape.now.w ≤ length buffer.old }
    requires wide { (p : Plane) → plane_width shape.now p ≤ S.width samples.now p }
    requires held { (p : Plane) (y : ℕ) → y < plane_height shape.now p → S.holds samples.now p y }
    requires small { shape.now.depth ≡ Eight → (p : Plane) (y x : ℕ) → y < plane_height shape.now p → x < plane_width shape.now p
        → S.map samples.now p y x < 256 }
    requires sink { K.can_put sink.old }
    ensures bytes { PutsAll (K.taken sink.old) (K.taken sink.new)
        (output_text how.now.format how.now.rate how.now.first shape.now (S.map samples.now)) result }
    ensures faults { CountsPutFaults (K.grows sink.old) (K.faults sink.old) (K.faults sink.new) result }
    ensures grows { K.grows sink.new ≡ K.grows sink.old }
    ensures again { K.faults sink.new ≡ K.faults sink.old → K.can_put sink.new }
{
    match how.format {
        Format::Raw => render(shape, samples, buffer, sink),
        Format::Md5 => {
            let digest = frame_digest(shape, samples, buffer);
            put_all(sink, digest_line(digest, shape).as_slice())
        }
        Format::Y4m => render_behind_head(how, shape, samples, buffer, sink),
    }
}

fn render_behind_head<S: Samples, K: Sink>(
    how: &Rendering,
    shape: &Shape,
    samples: &S,
    buffer: &mut [u8],
    sink: &mut K,
) -> Result<(), PutFault>
    requires room { 2 * shape.now.w ≤ length buffer.old }
    requires wide { (p : Plane) → plane_width shape.now p ≤ S.width samples.now p }
    requires held { (p : Plane) (y : ℕ) → y < plane_height shape.now p → S.holds samples.now p y }
    requires small { shape.now.depth ≡ Eight → (p : Plane) (y x : ℕ) → y < plane_height shape.now p → x < plane_width shape.now p
        → S.map samples.now p y x < 256 }
    requires sink { K.can_put sink.old }
    ensures bytes { PutsAll (K.taken sink.old) (K.taken sink.new)
        (frame_head how.now.rate how.now.first shape.now ++ frame_text shape.now (S.map samples.now)) result }
    ensures faults { CountsPutFaults (K.grows sink.old) (K.faults sink.old) (K.faults sink.new) result }
    ensures grows { K.grows sink.new ≡ K.grows sink.old }
    ensures again { K.faults sink.new ≡ K.faults sink.old → K.can_put sink.new }
{
    put_all(sink, frame_head(how, shape).as_slice())?;
    render(shape, samples, buffer, sink)
}
