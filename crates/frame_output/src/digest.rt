//! The digest of a frame's raw text, a few rows at a time.

ghost use Rattle.std.specs.Prelude.{◌≡◌, ◌*◌, ◌<◌, ◌≤◌, ◌++◌, ℕ, List, length};
ghost use Rattle.md5.specs.Md5.{Holds, md5};
ghost use Rattle.vp9_types.specs.declared.shape.Depth.TheVariants.{Eight};
ghost use Rattle.vp9_types.specs.declared.shape.Plane.{Plane};
ghost use Rattle.vp9_types.specs.Shapes.{plane_width, plane_height};
ghost use Rattle.frame_output.specs.Texts.{frame_text, plane_text, sample_size};

use crate::rows::{RowForm, rows_with_room, sample_bytes, write_rows};
use md5::{Digest, Md5};
use vp9_types::{Plane, Samples, Shape};

/// The MD5 of what `render` puts of a frame.
#[tactic(auto, unfolding(crate::specs::Texts::frame_text))]
pub(crate) fn frame_digest<S: Samples>(shape: &Shape, samples: &S, buffer: &mut [u8]) -> [u8; 16]
    requires room { 2 * shape.now.w ≤ length buffer.old }
    requires wide { (p : Plane) → plane_width shape.now p ≤ S.width samples.now p }
    requires held { (p : Plane) (y : ℕ) → y < plane_height shape.now p → S.holds samples.now p y }
    requires small { shape.now.depth ≡ Eight → (p : Plane) (y x : ℕ) → y < plane_height shape.now p → x < plane_width shape.now p
        → S.map samples.now p y x < 256 }
    ensures { result ≡ md5 (frame_text shape.now (S.map samples.now)) }
{
    let mut hasher = Md5::new();
    add_plane(shape, samples, Plane::Y, buffer, &mut hasher);
    add_plane(shape, samples, Plane::U, buffer, &mut hasher);
    add_plane(shape, samples, Plane::V, buffer, &mut hasher);
    hasher.finalize()
}

#[tactic(auto, unfolding(crate::specs::Texts::plane_text))]
fn add_plane<S: Samples>(
    shape: &Shape,
    samples: &S,
    plane: Plane,
    buffer: &mut [u8],
    hasher: &mut Md5,
)
    requires room { sample_size shape.now.depth * plane_width shape.now plane ≤ length buffer.old }
    requires wide { plane_width shape.now plane ≤ S.width samples.now plane }
    requires held { (y : ℕ) → y < plane_height shape.now plane → S.holds samples.now plane y }
    requires small { shape.now.depth ≡ Eight → (y x : ℕ) → y < plane_height shape.now plane → x < plane_width shape.now plane
        → S.map samples.now plane y x < 256 }
    ensures { (m : List ℕ) → Holds hasher.old m → Holds hasher.new (m ++ plane_text shape.now (S.map samples.now) plane) }
{
    let (width, height) = shape.plane_size(plane);
    let (width, height) = (width as usize, height as usize);
    let row_bytes = sample_bytes(shape.depth) * width;
    let most = rows_with_room(buffer.len(), row_bytes);
    let mut y = 0;
    while y < height {
        let count = most.min(height - y);
        let form = RowForm {
            depth: shape.depth,
            width,
        };
        write_rows(samples, plane, form, y, count, buffer);
        hasher.update(&buffer[..count * row_bytes]);
        y += count;
    }
}
