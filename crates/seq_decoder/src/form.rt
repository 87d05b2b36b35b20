//! How shown frames are put.

ghost use Rattle.std.specs.Prelude.{◌≡◌, ℕ, Some};
ghost use Rattle.vp9_types.specs.Maps.{FrameMap};
ghost use Rattle.seq_decoder.specs.Outputs.{admits, form_after, form_from, is_first, same_shape};

use frame_output::{Format, Rendering};
use vp9_types::Shape;

/// How shown frames are put: in which format, at the rate and scale of their file, and the shape of the first of them, none
/// before it.
#[derive(Clone, Copy)]
pub struct OutputForm {
    pub format: Format,
    pub rate: (u32, u32),
    pub first: Option<Shape>,
}

/// Whether two shapes are the same.
fn same_shape(a: &Shape, b: &Shape) -> bool
    ensures { result ≡ same_shape a.now b.now }
{
    a.w == b.w
        && a.h == b.h
        && a.depth.bits() == b.depth.bits()
        && a.ss_x == b.ss_x
        && a.ss_y == b.ss_y
}

impl OutputForm {
    /// Before the first frame.
    pub fn new(format: Format, rate: (u32, u32)) -> OutputForm
        ensures { result ≡ form_from format rate }
    {
        OutputForm {
            format,
            rate,
            first: None,
        }
    }

    /// Whether a frame of this shape can be put next. Only Y4M has one shape for all.
    pub fn admits(&self, shape: &Shape) -> bool
        ensures { (frame : ℕ) (map : FrameMap) → result ≡ admits self.now (Some (record { frame = frame; shape = shape.now; map = map })) }
    {
        match (self.format, &self.first) {
            (Format::Y4m, Some(first)) => same_shape(first, shape),
            _ => true,
        }
    }

    /// How the next frame is put.
    pub fn rendering(&self) -> Rendering
        ensures { result ≡ record { format = self.now.format; rate = self.now.rate; first = is_first self.now.first } }
    {
        Rendering {
            format: self.format,
            rate: self.rate,
            first: self.first.is_none(),
        }
    }

    /// Behind a frame of this shape.
    pub fn after(self, shape: Shape) -> OutputForm
        ensures { (frame : ℕ) (map : FrameMap) → result ≡ form_after self (Some (record { frame = frame; shape = shape; map = map })) }
    {
        let first = match self.first {
            Some(first) => first,
            None => shape,
        };
        OutputForm {
            first: Some(first),
            ..self
        }
    }
}
