ghost use Rattle.std.specs.Prelude.{◌≡◌, Some, None, IfSome, IfNone};
ghost use Rattle.once_cell.specs.Once.{Agrees};
ghost use Rattle.band_cells.specs.Code.{name_of};

use crate::band::Band;
use crate::meaning::Meaning;
use crate::samples::BandName;
use once_cell::race::{Note, OnceBox};
use std::alloc::Global;
use std::marker::Model;
use vp9_types::Sample;

/// A place for one band, which is published once, and from then on read by any thread. A thread's note holds what it knows
/// of the cell.
#[derive(Drop)]
pub struct BandCell<M: Meaning, P: Sample> {
    name: BandName,
    once: OnceBox<Band<M, P>>,
}

impl<M: Meaning, P: Sample> Model for BandCell<M, P> {
    ghost use Rattle.once_cell.specs.Once.{cell_name};
    ghost use Rattle.band_cells.specs.Code.{CellParts};

    ghost Value = { CellParts };

    ghost view = { λ c. record { name = c.name; cell = cell_name c.once } };
}

impl<M: Meaning, P: Sample> BandCell<M, P> {
    /// The empty cell of this band of this frame. It takes no memory yet.
    pub fn new(alloc: Global, frame: u64, index: u32) -> BandCell<M, P>
        ensures { result.name ≡ name_of frame index }
    {
        BandCell {
            name: BandName { frame, index },
            once: OnceBox::new(alloc),
        }
    }

    /// A note that knows no band yet.
    pub fn note(&self) -> Note<Band<M, P>>
        ensures { (result.cell ≡ self.now.cell) × (result.known ≡ None) }
    {
        self.once.note()
    }

    /// Puts a band of the cell's name into it, unless it holds one. The answer is the band that it holds from then on.
    pub fn publish<'a>(
        &'a self,
        band: Box<Band<M, P>>,
        note: &mut Note<Band<M, P>>,
    ) -> &'a Band<M, P>
        requires named { band.value ≡ Some self.now.name }
        requires note { note.old.cell ≡ self.now.cell }
        ensures note { note.new.cell ≡ note.old.cell }
        ensures known { note.new.known ≡ Some result.now }
        ensures same { Agrees note.old.known result.now }
    {
        self.once.get_or_init_as(move || band, note)
    }

    /// The band of the cell's name, once it is there. A note that knows it gets it.
    pub fn look<'a>(&'a self, note: &mut Note<Band<M, P>>) -> Option<&'a Band<M, P>>
        requires { note.old.cell ≡ self.now.cell }
        ensures note { note.new.cell ≡ note.old.cell }
        ensures named { IfSome result (λ band. band.now ≡ Some self.now.name) }
        ensures known { IfSome result (λ band. note.new.known ≡ Some band.now) }
        ensures same { IfSome result (λ band. Agrees note.old.known band.now) }
        ensures none { IfNone result (IfSome note.old.known (λ band. band ≡ Some self.now.name → ⊥)) }
    {
        let band = self.once.get_as(note)?;
        if band.name() == Some(self.name) {
            Some(band)
        } else {
            None
        }
    }
}
