//! Texts of frames, written out by hand.

ghost use Rattle.std.specs.Prelude.{◌≡◌, ◌+◌, ◌*◌, ◌<◌, ℕ, slice_index};

use edge_io::{MemSink, PutFault};
use frame_output::{Format, Rendering, render, render_as};
use std::test::Fail;
use vp9_types::{Depth, Plane, Samples, Shape};

// Planes of four rows of four samples of two bytes.
#[derive(Drop)]
struct Squares {
    y: [u16; 16],
    u: [u16; 16],
    v: [u16; 16],
}

impl Samples for Squares {
    type Kept = u16;

    ghost use Rattle.vp9_types.specs.Maps.{frame_map};

    ghost holds = { λ _ _ y. y < 4 };

    ghost width = { λ _ _. 4 };

    ghost map = { λ planes. frame_map (λ y x. slice_index planes.y (4 * y + x)) (λ y x. slice_index planes.u (4 * y + x))
        (λ y x. slice_index planes.v (4 * y + x)) };

    fn row(&self, plane: Plane, y: u32) -> &[u16] {
        let at = 4 * y as usize;
        match plane {
            Plane::Y => &self.y[at..at + 4],
            Plane::U => &self.u[at..at + 4],
            Plane::V => &self.v[at..at + 4],
        }
    }
}

// Planes of four rows of four samples of one byte.
#[derive(Drop)]
struct ByteSquares {
    y: [u8; 16],
    u: [u8; 16],
    v: [u8; 16],
}

impl Samples for ByteSquares {
    type Kept = u8;

    ghost use Rattle.vp9_types.specs.Maps.{frame_map};

    ghost holds = { λ _ _ y. y < 4 };

    ghost width = { λ _ _. 4 };

    ghost map = { λ planes. frame_map (λ y x. slice_index planes.y (4 * y + x)) (λ y x. slice_index planes.u (4 * y + x))
        (λ y x. slice_index planes.v (4 * y + x)) };

    fn row(&self, plane: Plane, y: u32) -> &[u8] {
        let at = 4 * y as usize;
        match plane {
            Plane::Y => &self.y[at..at + 4],
            Plane::U => &self.u[at..at + 4],
            Plane::V => &self.v[at..at + 4],
        }
    }
}

// Nothing, where the planes don't have such a frame or the buffer has no room for a row.
fn rendered(
    shape: &Shape,
    planes: &Squares,
    buffer: &mut [u8],
    sink: &mut MemSink,
) -> Option<Result<(), PutFault>> {
    let fits = shape.w <= 4 && shape.h <= 4 && buffer.len() >= 2 * shape.w as usize;
    if !fits || shape.depth == Depth::Eight {
        return None;
    }
    Some(render(shape, planes, buffer, sink))
}

// What no code has to test.
fn are_bytes(samples: &[u8])
    ensures { (k : ℕ) → slice_index samples.now k < 256 }
{
    let _count = samples.len();
}

// As `rendered`, of samples of one byte.
fn rendered_bytes(
    shape: &Shape,
    planes: &ByteSquares,
    buffer: &mut [u8],
    sink: &mut MemSink,
) -> Option<Result<(), PutFault>> {
    let fits = shape.w <= 4 && shape.h <= 4 && buffer.len() >= 2 * shape.w as usize;
    if !fits {
        return None;
    }
    are_bytes(&planes.y);
    are_bytes(&planes.u);
    are_bytes(&planes.v);
    Some(render(shape, planes, buffer, sink))
}

// As `rendered`, in a format.
fn written(
    how: &Rendering,
    shape: &Shape,
    planes: &Squares,
    buffer: &mut [u8],
    sink: &mut MemSink,
) -> Option<Result<(), PutFault>> {
    let fits = shape.w <= 4 && shape.h <= 4 && buffer.len() >= 2 * shape.w as usize;
    if !fits || shape.depth == Depth::Eight {
        return None;
    }
    Some(render_as(how, shape, planes, buffer, sink))
}

// As `rendered_bytes`, in a format.
fn written_bytes(
    how: &Rendering,
    shape: &Shape,
    planes: &ByteSquares,
    buffer: &mut [u8],
    sink: &mut MemSink,
) -> Option<Result<(), PutFault>> {
    let fits = shape.w <= 4 && shape.h <= 4 && buffer.len() >= 2 * shape.w as usize;
    if !fits {
        return None;
    }
    are_bytes(&planes.y);
    are_bytes(&planes.u);
    are_bytes(&planes.v);
    Some(render_as(how, shape, planes, buffer, sink))
}

static BYTES: ByteSquares = ByteSquares {
    y: [
        10, 11, 12, 99, 20, 21, 255, 99, 30, 31, 32, 99, 99, 99, 99, 99,
    ],
    u: [
        40, 41, 42, 98, 50, 51, 98, 98, 98, 98, 98, 98, 98, 98, 98, 98,
    ],
    v: [
        60, 61, 62, 97, 70, 0, 97, 97, 97, 97, 97, 97, 97, 97, 97, 97,
    ],
};

static PAIRS: Squares = Squares {
    y: [
        0x102, 0x3ff, 0x000, 99, 0x200, 0x0ff, 0x100, 99, 99, 99, 99, 99, 99, 99, 99, 99,
    ],
    u: [
        0x304, 0x005, 0x106, 98, 0x307, 0x008, 0x109, 98, 98, 98, 98, 98, 98, 98, 98, 98,
    ],
    v: [
        0x20a, 0x30b, 0x00c, 97, 0x10d, 0x20e, 0x30f, 97, 97, 97, 97, 97, 97, 97, 97, 97,
    ],
};

static GREY: ByteSquares = ByteSquares {
    y: [0x80; 16],
    u: [0x80; 16],
    v: [0x80; 16],
};

fn shape_of(w: u32, h: u32, depth: Depth, halved: bool) -> Shape {
    Shape {
        w,
        h,
        depth,
        ss_x: halved,
        ss_y: halved,
    }
}

#[test]
fn texts_of_bytes(rt: HostRuntime) -> Result<(), Fail> {
    let rows: [(u32, u32, bool, &[u8]); 2] = [
        (
            3,
            3,
            true,
            b"\x0a\x0b\x0c\x14\x15\xff\x1e\x1f\x20\x28\x29\x32\x33\x3c\x3d\x46\0",
        ),
        (3, 1, false, b"\x0a\x0b\x0c\x28\x29\x2a\x3c\x3d\x3e"),
    ];
    for (w, h, halved, text) in rows {
        let shape = shape_of(w, h, Depth::Eight, halved);
        for room in [6usize, 48] {
            let mut buffer = [0u8; 48];
            let mut sink = MemSink::new(rt.alloc(), &[])?;
            let put = rendered_bytes(&shape, &BYTES, &mut buffer[..room], &mut sink);
            assert_eq!(rt; put, Some(Ok(())), "{w}x{h}, room for {room} bytes");
            assert_eq!(rt; sink.bytes(), text, "{w}x{h}, room for {room} bytes");
        }
    }
    Ok(())
}

#[test]
fn texts_of_pairs(rt: HostRuntime) -> Result<(), Fail> {
    let rows: [(u32, u32, bool, &[u8]); 2] = [
        (1, 2, true, b"\x02\x01\0\x02\x04\x03\x0a\x02"),
        (
            3,
            2,
            false,
            b"\x02\x01\xff\x03\0\0\0\x02\xff\0\0\x01\x04\x03\x05\0\x06\x01\x07\x03\x08\0\x09\x01\
              \x0a\x02\x0b\x03\x0c\0\x0d\x01\x0e\x02\x0f\x03",
        ),
    ];
    for (w, h, halved, text) in rows {
        let shape = shape_of(w, h, Depth::Ten, halved);
        for room in [6usize, 48] {
            let mut buffer = [0u8; 48];
            let mut sink = MemSink::new(rt.alloc(), &[])?;
            let put = rendered(&shape, &PAIRS, &mut buffer[..room], &mut sink);
            assert_eq!(rt; put, Some(Ok(())), "{w}x{h}, room for {room} bytes");
            assert_eq!(rt; sink.bytes(), text, "{w}x{h}, room for {room} bytes");
        }
    }
    Ok(())
}

// The buffer has room for a row of luma. The second put fails.
#[test]
fn a_front_is_left_where_a_put_fails(rt: HostRuntime) -> Result<(), Fail> {
    let alloc = rt.alloc();
    let shape = shape_of(3, 2, Depth::Ten, false);
    let mut buffer = [0u8; 6];
    let mut sink = MemSink::new(alloc, &[2])?;
    let put = rendered(&shape, &PAIRS, &mut buffer, &mut sink);
    assert_eq!(rt; put, Some(Err(PutFault::Failed)));
    let front: &[u8] = b"\x02\x01\xff\x03\0\0";
    assert_eq!(rt; sink.bytes(), front);
    Ok(())
}

#[test]
fn formats_of_a_sample(rt: HostRuntime) -> Result<(), Fail> {
    let shape = shape_of(1, 1, Depth::Eight, true);
    let rows: [(Format, &[u8]); 3] = [
        (Format::Raw, b"\x80\x80\x80"),
        (Format::Md5, b"2a5bd8e667b4a7bfc0e930779cff593d 1x1\n"),
        (
            Format::Y4m,
            b"YUV4MPEG2 W1 H1 F0:0 Ip C420jpeg\nFRAME\n\x80\x80\x80",
        ),
    ];
    for (format, text) in rows {
        let how = Rendering {
            format,
            rate: (0, 0),
            first: true,
        };
        let mut buffer = [0u8; 2];
        let mut sink = MemSink::new(rt.alloc(), &[])?;
        let put = written_bytes(&how, &shape, &GREY, &mut buffer, &mut sink);
        assert_eq!(rt; put, Some(Ok(())), "{format:?}");
        assert_eq!(rt; sink.bytes(), text, "{format:?}");
    }
    Ok(())
}

// The smaller buffer has room for a row of luma.
#[test]
fn formats_of_pairs(rt: HostRuntime) -> Result<(), Fail> {
    let shape = shape_of(3, 2, Depth::Ten, false);
    let rows: [(Format, bool, &[u8]); 3] = [
        (
            Format::Md5,
            false,
            b"0994265058f2f1aa565e1c511405e2fc 3x2\n",
        ),
        (
            Format::Y4m,
            true,
            b"YUV4MPEG2 W3 H2 F30000:1001 Ip C444p10\nFRAME\n\
              \x02\x01\xff\x03\0\0\0\x02\xff\0\0\x01\x04\x03\x05\0\x06\x01\x07\x03\x08\0\x09\x01\
              \x0a\x02\x0b\x03\x0c\0\x0d\x01\x0e\x02\x0f\x03",
        ),
        (
            Format::Y4m,
            false,
            b"FRAME\n\
              \x02\x01\xff\x03\0\0\0\x02\xff\0\0\x01\x04\x03\x05\0\x06\x01\x07\x03\x08\0\x09\x01\
              \x0a\x02\x0b\x03\x0c\0\x0d\x01\x0e\x02\x0f\x03",
        ),
    ];
    for (format, first, text) in rows {
        let how = Rendering {
            format,
            rate: (30000, 1001),
            first,
        };
        for room in [6usize, 48] {
            let mut buffer = [0u8; 48];
            let mut sink = MemSink::new(rt.alloc(), &[])?;
            let put = written(&how, &shape, &PAIRS, &mut buffer[..room], &mut sink);
            assert_eq!(rt; put, Some(Ok(())), "{format:?}, room for {room} bytes");
            assert_eq!(rt; sink.bytes(), text, "{format:?}, room for {room} bytes");
        }
    }
    Ok(())
}

// The first put is the line before the frame, the third that of the second row.
#[test]
fn a_front_of_a_format_is_left(rt: HostRuntime) -> Result<(), Fail> {
    let how = Rendering {
        format: Format::Y4m,
        rate: (25, 1),
        first: false,
    };
    let shape = shape_of(3, 2, Depth::Ten, false);
    let mut buffer = [0u8; 6];
    let mut sink = MemSink::new(rt.alloc(), &[3])?;
    let put = written(&how, &shape, &PAIRS, &mut buffer, &mut sink);
    assert_eq!(rt; put, Some(Err(PutFault::Failed)));
    let front: &[u8] = b"FRAME\n\x02\x01\xff\x03\0\0";
    assert_eq!(rt; sink.bytes(), front);
    Ok(())
}
