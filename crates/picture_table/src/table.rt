ghost use Rattle.std.specs.Prelude.{◌≡◌, ◌≤◌, ◌<◌, [], None, false, replicate, length, max, IfOk};
ghost use Rattle.planes.specs.Pictures.{FitsPlanes};
ghost use Rattle.picture_table.specs.Code.{is_named, names};

use crate::any::AnyPicture;
use frame_headers::refresh_slots;
use std::alloc::{AllocError, Global};
use vp9_types::Shape;

/// Pictures, and the places in them that the eight slots name. A picture that no slot names is decoded into again.
#[derive(Drop)]
pub struct PictureTable {
    pub pictures: Vec<AnyPicture>,
    pub slots: [Option<usize>; 8],
}

fn is_named(place: usize, slot: Option<usize>) -> bool
    ensures { result ≡ is_named place slot }
{
    match slot {
        Some(named) => named == place,
        None => false,
    }
}

/// Whether a slot names this place.
fn names(slots: &[Option<usize>], place: usize) -> bool
    ensures { result ≡ names place slots.now }
{
    slots.iter().any(|slot| is_named(place, *slot))
}

impl PictureTable {
    ghost use Rattle.picture_table.specs.KeptPictures.{IsBlankAs};
    ghost use Rattle.frame_headers.specs.HeaderState.{refreshed};
    ghost use Rattle.picture_table.specs.Code.{HasPicture, IsSoundAt, IsTable, held};

    /// No picture, and eight slots that hold nothing.
    pub fn new(alloc: Global) -> PictureTable
        ensures pictures { result.pictures.items ≡ [] }
        ensures slots { result.slots ≡ replicate 8 None }
        ensures table { IsTable result }
    {
        PictureTable {
            pictures: Vec::new(alloc),
            slots: [None; 8],
        }
    }

    /// The first place that no slot names.
    fn free_place(&self) -> usize
        requires { IsTable self.now }
        ensures free { names result self.now.slots ≡ false }
        ensures within { result ≤ length self.now.pictures.items }
        ensures low { result ≤ 8 }
    {
        let count = self.pictures.len();
        for place in 0..count {
            if !names(&self.slots, place) {
                return place;
            }
        }
        count
    }

    /// A place that no slot names, with a picture of zeros of this shape. Its memory is that of a picture which was there
    /// if that had the same size and depth. There are never more than nine pictures.
    pub fn blank(&mut self, alloc: Global, shape: Shape) -> Result<usize, AllocError>
        requires table { IsTable self.old }
        requires fits { FitsPlanes shape }
        ensures free { IfOk result (λ place. names place self.new.slots ≡ false) }
        ensures blank { IfOk result (λ place. HasPicture self.new place (IsBlankAs shape)) }
        ensures table { IsTable self.new }
        ensures held { held self.new ≡ held self.old }
        ensures few { length self.new.pictures.items ≤ max 9 (length self.old.pictures.items) }
    {
        let place = self.free_place();
        if place < self.pictures.len() {
            self.pictures[place].renew(alloc, shape)?;
        } else {
            self.pictures.push(AnyPicture::new(alloc, shape)?)?;
        }
        Ok(place)
    }

    /// From now on the slots that `refresh` says name this place: slot i where its bit i is 1.
    pub fn refresh(&mut self, refresh: u8, place: usize)
        requires table { IsTable self.old }
        requires there { place < length self.old.pictures.items }
        requires sound { IsSoundAt self.old.pictures.items place }
        ensures slots { self.new.slots ≡ refreshed refresh place self.old.slots }
        ensures pictures { self.new.pictures ≡ self.old.pictures }
        ensures table { IsTable self.new }
    {
        refresh_slots(&mut self.slots, refresh, place);
    }
}
