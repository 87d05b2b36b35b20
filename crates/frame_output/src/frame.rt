ghost use Rattle.std.specs.Prelude.{◌≡◌, ◌*◌, ◌<◌, ◌≤◌, ℕ, length};
ghost use Rattle.vp9_types.specs.declared.shape.Depth.TheVariants.{Eight};
ghost use Rattle.vp9_types.specs.declared.shape.Plane.{Plane};
ghost use Rattle.vp9_types.specs.Shapes.{plane_width, plane_height};
ghost use Rattle.edge_io.specs.Putting.{PutsAll, CountsPutFaults};
ghost use Rattle.frame_output.specs.Texts.{frame_text, plane_text, sample_size};

use crate::rows::{RowForm, rows_with_room, sample_bytes, write_rows};
use edge_io::{PutFault, Sink, put_all};
use vp9_types::{Plane, Samples, Shape};

/// Puts the raw text of a frame into a sink, as many rows at a time as the buffer has room for. What the buffer holds
/// before doesn't matter, nor is it of use afterwards; the more room it has, the fewer calls the sink gets. After a
/// refusal the sink has taken a front of the text, and is asked for no more.
pub fn render<S: Samples, K: Sink>(
    shape: &Shape,
    samples: &S,
    buffer: &mut [u8],
    sink: &mut K,
) -> Result<(), PutFault>
    requires room { 2 * shape.now.w ≤ length buffer.old }
    requires wide { (p : Plane) → plane_width shape.now p ≤ S.width samples.now p }
    requires held { (p : Plane) (y : ℕ) → y < plane_height shape.now p → S.holds samples.now p y }
    requires small { shape.now.depth ≡ Eight → (p : Plane) (y x : ℕ) → y < plane_height shape.now p → x < plane_width shape.now p
        → S.map samples.now p y x < 256 }
    requires sink { K.can_put sink.old }
    ensures bytes { PutsAll (K.taken sink.old) (K.taken sink.new) (frame_text shape.now (S.map samples.now)) result }
    ensures faults { CountsPutFaults (K.grows sink.old) (K.faults sink.old) (K.faults sink.new) result }
    ensures grows { K.grows sink.new ≡ K.grows sink.old }
    ensures again { K.faults sink.new ≡ K.faults sink.old → K.can_put sink.new }
{
    put_plane(shape, samples, Plane::Y, buffer, sink)?;
    put_plane(shape, samples, Plane::U, buffer, sink)?;
    put_plane(shape, samples, Plane::V, buffer, sink)
}

#[tactic(auto, unfolding(crate::specs::Texts::plane_text))]
fn put_plane<S: Samples, K: Sink>(
    shape: &Shape,
    samples: &S,
    plane: Plane,
    buffer: &mut [u8],
    sink: &mut K,
) -> Result<(), PutFault>
    requires room { sample_size shape.now.depth * plane_width shape.now plane ≤ length buffer.old }
    requires wide { plane_width shape.now plane ≤ S.width samples.now plane }
    requires held { (y : ℕ) → y < plane_height shape.now plane → S.holds samples.now plane y }
    requires small { shape.now.depth ≡ Eight → (y x : ℕ) → y < plane_height shape.now plane → x < plane_width shape.now plane
        → S.map samples.now plane y x < 256 }
    requires sink { K.can_put sink.old }
    ensures bytes { PutsAll (K.taken sink.old) (K.taken sink.new) (plane_text shape.now (S.map samples.now) plane) result }
    ensures faults { CountsPutFaults (K.grows sink.old) (K.faults sink.old) (K.faults sink.new) result }
    ensures grows { K.grows sink.new ≡ K.grows sink.old }
    ensures again { K.faults sink.new ≡ K.faults sink.old → K.can_put sink.new }
{
    let (width, height) = shape.plane_size(plane);
    let (width, height) = (width as usize, height as usize);
    let row_bytes = sample_bytes(shape.depth) * width;
    let most = rows_with_room(buffer.len(), row_bytes);
    let mut y = 0;
    while y < height {
        let count = most.min(height - y);
        let form = RowForm {
            depth: shape.depth,
            width,
        };
        write_rows(samples, plane, form, y, count, buffer);
        put_all(sink, &buffer[..count * row_bytes])?;
        y += count;
    }
    Ok(())
}
