//! Lines that are written beside samples, or in their place.

ghost use Rattle.std.specs.Prelude.{◌≡◌, ◌+◌, ◌≤◌, ◌++◌, length, decimal};
ghost use Rattle.arrayvec.specs.ArrayVec.{array_vec_len};
ghost use Rattle.frame_output.specs.Formats.{digest_line, frame_head, header_line, sampling_name, variant_name};

use crate::rendering::Rendering;
use arrayvec::ArrayVec;
use itoa::Buffer;
use vp9_types::{Depth, Shape};

/// More bytes than any line has.
const LINE: usize = 96;

pub(crate) type Line = ArrayVec<u8, LINE>;

fn push(line: &mut Line, piece: &[u8])
    requires { array_vec_len line.old + length piece.now ≤ LINE }
    ensures bytes { line.new.items ≡ line.old.items ++ piece.now }
    ensures len { array_vec_len line.new ≡ array_vec_len line.old + length piece.now }
{
    // There is room for it.
    let _ = line.try_extend_from_slice(piece);
}

// A label and then a number, of which there are up to ten digits.
fn push_number(line: &mut Line, label: &str, number: u32)
    requires { array_vec_len line.old + length label.now + 10 ≤ LINE }
    ensures bytes { line.new.items ≡ line.old.items ++ label.now ++ decimal number }
    ensures len { array_vec_len line.new ≤ array_vec_len line.old + length label.now + 10 }
{
    let mut digits = Buffer::new();
    push(line, label.as_bytes());
    push(line, digits.format(number).as_bytes());
}

#[tactic(auto, unfolding(crate::specs::Formats::digest_line))]
pub(crate) fn digest_line(digest: [u8; 16], shape: &Shape) -> Line
    ensures { result.items ≡ digest_line digest shape.now }
{
    // Two digits a byte.
    let mut digits = [0; 32];
    let _ = hex::encode_to_slice(digest, &mut digits);
    let mut line = ArrayVec::new();
    push(&mut line, &digits);
    push_number(&mut line, " ", shape.w);
    push_number(&mut line, "x", shape.h);
    push(&mut line, b"\n");
    line
}

fn sampling_name(ss_x: bool, ss_y: bool) -> &'static str
    ensures name { result.now ≡ sampling_name ss_x ss_y }
    ensures short { length result.now ≤ 3 }
{
    match (ss_x, ss_y) {
        (true, true) => "420",
        (true, false) => "422",
        (false, true) => "440",
        (false, false) => "444",
    }
}

fn variant_name(depth: Depth, ss_x: bool, ss_y: bool) -> &'static str
    ensures name { result.now ≡ variant_name depth ss_x ss_y }
    ensures short { length result.now ≤ 4 }
{
    match depth {
        Depth::Eight if ss_x && ss_y => "jpeg",
        Depth::Eight => "",
        Depth::Ten => "p10",
        Depth::Twelve => "p12",
    }
}

#[tactic(auto, unfolding(crate::specs::Formats::header_line))]
fn header_line(rate: (u32, u32), shape: &Shape) -> Line
    ensures text { result.items ≡ header_line rate shape.now }
    ensures short { array_vec_len result ≤ 80 }
{
    let mut line = ArrayVec::new();
    push_number(&mut line, "YUV4MPEG2 W", shape.w);
    push_number(&mut line, " H", shape.h);
    push_number(&mut line, " F", rate.0);
    push_number(&mut line, ":", rate.1);
    push(&mut line, b" Ip C");
    push(&mut line, sampling_name(shape.ss_x, shape.ss_y).as_bytes());
    push(
        &mut line,
        variant_name(shape.depth, shape.ss_x, shape.ss_y).as_bytes(),
    );
    push(&mut line, b"\n");
    line
}

/// What precedes a frame in a YUV4MPEG2 file.
#[tactic(auto, unfolding(crate::specs::Formats::frame_head))]
pub(crate) fn frame_head(how: &Rendering, shape: &Shape) -> Line
    ensures { result.items ≡ frame_head how.now.rate how.now.first shape.now }
{
    let mut line = if how.first {
        header_line(how.rate, shape)
    } else {
        ArrayVec::new()
    };
    push(&mut line, b"FRAME\n");
    line
}
