ghost use Rattle.std.specs.Prelude.{◌≡◌, ℕ, ◌<◌, true, Some, IfOk};
ghost use Rattle.vp9_types.specs.Shapes.{bands_of};
ghost use Rattle.vp9_types.specs.declared.shape.Depth.TheVariants.{Eight};
ghost use Rattle.band_cells.specs.Code.{name_of};

use crate::filled_bands::filled_band;
use band_cells::{Band, BandCell, BandName, BandRows, Meaning, Store};
use std::alloc::{AllocError, Global};
use std::sync::Wait;
use std::test::Fail;
use std::thread;
use std::thread::{Threads, join};
use vp9_types::{BandSpan, Depth, Plane, Samples, Shape};

// Four bands, the last of 8 rows of luma and 4 of chroma.
const SHAPE: Shape = Shape {
    w: 16,
    h: 200,
    depth: Depth::Eight,
    ss_x: true,
    ss_y: true,
};

// Each sample of a frame is the frame's number.
struct Numbers;

impl Meaning for Numbers {
    ghost use Rattle.std.specs.Prelude.{true};
    ghost use Rattle.vp9_types.specs.declared.shape.Depth.TheVariants.{Eight};

    ghost pictures = { λ frame.
        record { shape = record { w = 16; h = 200; depth = Eight; ss_x = true; ss_y = true }; map = λ _ _ _. frame } };
}

fn band_of(alloc: Global, frame: u64, index: u32) -> Result<Box<Band<Numbers, u16>>, AllocError>
    requires frame { frame < 65536 }
    requires index { index < 4 }
    ensures { IfOk result (λ band. band.value ≡ Some (name_of frame index)) }
{
    let samples = filled_band(alloc, &SHAPE, index, frame as u16)?;
    let mut band = Band::blank();
    band.fill(frame, index, samples);
    Ok(Box::new(alloc, band)?)
}

// All bands of a frame, to be published.
#[derive(Drop)]
struct Bands {
    first: Box<Band<Numbers, u16>>,
    second: Box<Band<Numbers, u16>>,
    third: Box<Band<Numbers, u16>>,
    last: Box<Band<Numbers, u16>>,
}

fn bands_of(alloc: Global, frame: u64) -> Result<Bands, AllocError>
    requires { frame < 65536 }
    ensures first { IfOk result (λ bands. bands.first.value ≡ Some (name_of frame 0)) }
    ensures second { IfOk result (λ bands. bands.second.value ≡ Some (name_of frame 1)) }
    ensures third { IfOk result (λ bands. bands.third.value ≡ Some (name_of frame 2)) }
    ensures last { IfOk result (λ bands. bands.last.value ≡ Some (name_of frame 3)) }
{
    Ok(Bands {
        first: band_of(alloc, frame, 0)?,
        second: band_of(alloc, frame, 1)?,
        third: band_of(alloc, frame, 2)?,
        last: band_of(alloc, frame, 3)?,
    })
}

fn publish(store: &Store<Numbers, u16>, index: u32, band: Box<Band<Numbers, u16>>)
    requires index { index < bands_of store.now.shape }
    requires named { band.value ≡ Some (name_of store.now.frame index) }
{
    let cell = store.cell(index);
    let mut note = cell.note();
    cell.publish(band, &mut note);
}

fn publish_all(store: &Store<Numbers, u16>, bands: Bands)
    requires shape { bands_of store.now.shape ≡ 4 }
    requires first { bands.first.value ≡ Some (name_of store.now.frame 0) }
    requires second { bands.second.value ≡ Some (name_of store.now.frame 1) }
    requires third { bands.third.value ≡ Some (name_of store.now.frame 2) }
    requires last { bands.last.value ≡ Some (name_of store.now.frame 3) }
{
    let Bands {
        first,
        second,
        third,
        last,
    } = bands;
    publish(store, 3, last);
    thread::yield_now();
    publish(store, 0, first);
    publish(store, 2, third);
    thread::yield_now();
    publish(store, 1, second);
}

// Whether each row of a plane has so many samples, all of this value.
fn is_filled<S: Samples<Kept = u16>>(
    samples: &S,
    plane: Plane,
    rows: u32,
    width: usize,
    value: u16,
) -> bool
    requires { (y : ℕ) → y < rows → S.holds samples.now plane y }
{
    for y in 0..rows {
        let row = samples.row(plane, y);
        if row.len() != width || row.iter().any(|sample| *sample != value) {
            return false;
        }
    }
    true
}

// Reads all rows, and waits for those that aren't there yet.
fn read_all<R: Wait>(
    rt: &R,
    alloc: Global,
    store: &Store<Numbers, u16>,
    frame: u16,
) -> Result<bool, AllocError>
    requires frame { store.now.frame ≡ frame }
    requires shape { bands_of store.now.shape ≡ 4 }
{
    let span = BandSpan {
        frame: u64::from(frame),
        first: 0,
        last: 3,
    };
    let mut bands = Vec::new(alloc);
    store.look_up(rt, span, &mut bands)?;
    let rows = BandRows::new(store, span, &bands);
    Ok(
        is_filled(&rows, Plane::Y, 200, 16, frame)
            && is_filled(&rows, Plane::U, 100, 8, frame)
            && is_filled(&rows, Plane::V, 100, 8, frame),
    )
}

// One thread publishes the bands of a frame, and another reads them.
fn hand_over<R: Threads + Wait + Sync>(
    rt: &R,
    alloc: Global,
    frame: u16,
) -> Result<bool, AllocError> {
    let store = Store::<Numbers, u16>::new(alloc, u64::from(frame), &SHAPE)?;
    let bands = bands_of(alloc, u64::from(frame))?;
    let (_, read) = join(
        rt,
        || publish_all(&store, bands),
        || read_all(rt, alloc, &store, frame),
    );
    read
}

#[test]
fn bands_go_from_thread_to_thread(rt: HostRuntime) -> Result<(), Fail> {
    for frame in [0, 7, 1000u16] {
        assert!(rt; hand_over(&rt, rt.alloc(), frame)?, "frame {frame}");
    }
    Ok(())
}

// A cell gives what was published first, to every note.
#[test]
fn the_first_band_stays(rt: HostRuntime) -> Result<(), Fail> {
    let cell = BandCell::new(rt.alloc(), 5, 3);
    let mut note = cell.note();
    assert!(rt; cell.look(&mut note).is_none());
    let band = band_of(rt.alloc(), 5, 3)?;
    assert_eq!(rt;
        cell.publish(band, &mut note).name(),
        Some(BandName { frame: 5, index: 3 })
    );
    let mut fresh = cell.note();
    let again = band_of(rt.alloc(), 5, 3)?;
    assert!(rt; cell.publish(again, &mut fresh).name().is_some());
    let found = cell.look(&mut fresh);
    assert!(rt; found.is_some_and(|band| band.row(Plane::Y, 199)[15] == 5));
    Ok(())
}
