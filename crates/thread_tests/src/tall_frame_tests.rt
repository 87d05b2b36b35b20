//! The bands of a frame of 13,000 rows, of which there are 204.

ghost use Rattle.std.specs.Prelude.{◌≡◌, ℕ, ◌<◌, Some, IfOk};
ghost use Rattle.vp9_types.specs.Shapes.{bands_of};
ghost use Rattle.band_cells.specs.Code.{name_of};
ghost use Rattle.vp9_types.specs.declared.shape.Depth.TheVariants.{Eight};
ghost use Rattle.std.specs.Prelude.{true};

use crate::filled_bands::filled_band;
use band_cells::{Band, BandRows, Meaning, Store};
use std::alloc::{AllocError, Global};
use std::sync::Wait;
use std::test::Fail;
use vp9_types::{BandSpan, Depth, Plane, Samples, Shape};

// The last band has 8 rows of luma and 4 of chroma.
const SHAPE: Shape = Shape {
    w: 16,
    h: 13_000,
    depth: Depth::Eight,
    ss_x: true,
    ss_y: true,
};

// Each sample of a frame is the frame's number.
struct Numbers;

impl Meaning for Numbers {
    ghost use Rattle.std.specs.Prelude.{true};
    ghost use Rattle.vp9_types.specs.declared.shape.Depth.TheVariants.{Eight};

    ghost pictures = { λ frame.
        record { shape = record { w = 16; h = 13000; depth = Eight; ss_x = true; ss_y = true }; map = λ _ _ _. frame } };
}

fn band_of(alloc: Global, frame: u64, index: u32) -> Result<Box<Band<Numbers, u16>>, AllocError>
    requires frame { frame < 65536 }
    requires index { index < 204 }
    ensures { IfOk result (λ band. band.value ≡ Some (name_of frame index)) }
{
    let samples = filled_band(alloc, &SHAPE, index, frame as u16)?;
    let mut band = Band::blank();
    band.fill(frame, index, samples);
    Ok(Box::new(alloc, band)?)
}

fn publish(
    alloc: Global,
    store: &Store<Numbers, u16>,
    frame: u64,
    index: u32,
) -> Result<(), AllocError>
    requires number { frame < 65536 }
    requires frame { store.now.frame ≡ frame }
    requires shape { bands_of store.now.shape ≡ 204 }
    requires index { index < 204 }
{
    let band = band_of(alloc, frame, index)?;
    let cell = store.cell(index);
    let mut note = cell.note();
    cell.publish(band, &mut note);
    Ok(())
}

// The last band first.
fn publish_all(alloc: Global, store: &Store<Numbers, u16>, frame: u64) -> Result<(), AllocError>
    requires number { frame < 65536 }
    requires frame { store.now.frame ≡ frame }
    requires shape { bands_of store.now.shape ≡ 204 }
{
    for turn in 0..204u32 {
        publish(alloc, store, frame, 203 - turn)?;
    }
    Ok(())
}

// Whether each row of a plane has so many samples, all of this value.
fn is_filled<S: Samples<Kept = u16>>(
    samples: &S,
    plane: Plane,
    rows: u32,
    width: usize,
    value: u16,
) -> bool
    requires { (y : ℕ) → y < rows → S.holds samples.now plane y }
{
    for y in 0..rows {
        let row = samples.row(plane, y);
        if row.len() != width || row.iter().any(|sample| *sample != value) {
            return false;
        }
    }
    true
}

fn read_all<R: Wait>(
    rt: &R,
    alloc: Global,
    store: &Store<Numbers, u16>,
    frame: u16,
) -> Result<bool, AllocError>
    requires frame { store.now.frame ≡ frame }
    requires shape { bands_of store.now.shape ≡ 204 }
{
    let span = BandSpan {
        frame: u64::from(frame),
        first: 0,
        last: 203,
    };
    let mut bands = Vec::new(alloc);
    store.look_up(rt, span, &mut bands)?;
    let rows = BandRows::new(store, span, &bands);
    Ok(
        is_filled(&rows, Plane::Y, 13_000, 16, frame)
            && is_filled(&rows, Plane::U, 6500, 8, frame)
            && is_filled(&rows, Plane::V, 6500, 8, frame),
    )
}

fn is_read<R: Wait>(rt: &R, alloc: Global, frame: u16) -> Result<bool, AllocError> {
    let store = Store::<Numbers, u16>::new(alloc, u64::from(frame), &SHAPE)?;
    publish_all(alloc, &store, u64::from(frame))?;
    read_all(rt, alloc, &store, frame)
}

#[test]
fn rows_of_204_bands_are_read(rt: HostRuntime) -> Result<(), Fail> {
    assert!(rt; is_read(&rt, rt.alloc(), 7777)?);
    Ok(())
}
