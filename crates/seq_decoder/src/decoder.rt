//! The decoder between two frames.

ghost use Rattle.std.specs.Prelude.{◌≡◌, ℕ, ◌<◌, Some, None, Ok, IfOk, OnOk, get_or, length};
ghost use Rattle.frame_headers.specs.FrameSizes.{IsFrameSize};
ghost use Rattle.frame_headers.specs.Tiles.{AreFewTiles};
ghost use Rattle.frame_decoder.specs.DecodedFrames.{FrameResult};
ghost use Rattle.picture_table.specs.Code.{IsBelow, IsTable, NamesSound, held, held_in};
ghost use Rattle.seq_decoder.specs.After.{Stepped, after_coded, decoded_in, state_after, step};
ghost use Rattle.seq_decoder.specs.Code.{MayDecode, NamesHeld, StandsFor, HasBegun, IsAt, IsCoded, LiesWithin, told_picture, Adds, Puts};
ghost use Rattle.seq_decoder.specs.Outputs.{form_from};
ghost use Rattle.seq_decoder.specs.DecoderState.{State, start_state};

use crate::begun::{BegunFrame, decode_begun};
use crate::coding::{Coded, own_contexts};
use crate::form::OutputForm;
use crate::last::{LastFrame, replace_last};
use crate::outcomes::{halt_outcome, outcome_at, refusal_outcome};
use crate::past::{after_key, place_in, shown_place, vectors_before};
use crate::saved::{SavedContexts, saved_place};
use crate::segments::{begin_segments, keep_segments, segments_of};
use crate::showing::{shape_of_any, show};
use block_plan::SegmentMap;
use edge_io::Sink;
use file_frames::FileFrame;
use frame_headers::{FrameHead, Header, Persist, read};
use frame_output::Format;
use frame_state::{FramePast, FrameSources, Halt, TileColumn, begin_frame};
use picture_table::{AnyPicture, PictureTable};
use std::alloc::Global;
use std::mem::replace;
use vp9_types::{Outcome, Rule, Span};

/// What is kept of the frames so far: what headers read, the saved contexts, the pictures, the map of segments that the
/// last frame left, and that frame's blocks.
#[derive(Drop)]
pub struct Decoder {
    pub persist: Persist,
    pub saved: SavedContexts,
    pub table: PictureTable,
    pub segments: Option<SegmentMap>,
    pub last: Option<LastFrame>,
    // How the frames that are shown are put.
    pub form: OutputForm,
    // Memory that is used again: the tile columns of the frame before the last, and the text of rows.
    pub columns: Vec<TileColumn>,
    pub text: Vec<u8>,
}

impl Decoder {
    /// Before the first frame of a file of this rate and scale, whose shown frames are put in this format.
    pub fn new(alloc: Global, format: Format, rate: (u32, u32)) -> Decoder
        ensures stands { StandsFor result start_state }
        ensures form { result.form ≡ form_from format rate }
        ensures may { MayDecode result }
    {
        Decoder {
            persist: Persist::START,
            saved: SavedContexts::new(),
            table: PictureTable::new(alloc),
            segments: None,
            last: None,
            form: OutputForm::new(format, rate),
            columns: Vec::new(alloc),
            text: Vec::new(alloc),
        }
    }

    /// Decodes a frame into a picture that no slot holds, which is taken when what comes before its tiles breaks no rule, and
    /// makes the saved contexts and the segments those that the frame starts with. Where there is no frame the table of pictures
    /// stays whole.
    fn decode_picture(
        &mut self,
        alloc: Global,
        bytes: &[u8],
        header: &Header,
        compressed: Span,
    ) -> Result<Coded, Halt>
        requires may { MayDecode self.old }
        requires size { IsFrameSize header.now.size }
        requires few { AreFewTiles header.now.params.tiles }
        requires placed { LiesWithin (length bytes.now) compressed }
        requires held { NamesHeld header.now (held self.old.table) }
        ensures coded { (state : State) → StandsFor self.old state → IsCoded header.now (decoded_in state bytes.now header.now compressed) self.new.table result }
        ensures at { IfOk result (λ c. (r : FrameResult) × IsAt header.now self.new.table c r) }
        ensures begun { OnOk result ((state : State) → StandsFor self.old state → HasBegun header.now self.new state) }
        ensures may { OnOk result (MayDecode (record self.new { persist = record self.new.persist { size = Some header.now.size } })) }
        ensures table { IsTable self.new.table × (held self.new.table ≡ held self.old.table) }
        ensures form { self.new.form ≡ self.old.form }
    {
        self.saved.reset(header);
        let before = self.saved.at(saved_place(header));
        let setting = begin_frame(bytes, header, compressed, &before)?;
        begin_segments(alloc, header, self.persist.size, &mut self.segments)?;
        let place = self.table.blank(alloc, header.shape())?;
        let mut picture = replace(&mut self.table.pictures[place], AnyPicture::none(alloc));
        let mut columns = replace(&mut self.columns, Vec::new(alloc));
        let by = BegunFrame {
            reading: FrameSources {
                setting,
                past: FramePast {
                    contexts: &before,
                    segments: segments_of(&self.segments),
                    vectors: vectors_before(header, &self.last),
                },
            },
            table: &self.table,
        };
        let decoded = decode_begun(&mut columns, bytes, by, compressed, &mut picture);
        self.table.pictures[place] = picture;
        self.columns = columns;
        Ok(Coded {
            decoded: decoded?,
            place,
        })
    }

    /// Keeps what a frame leaves, for which the saved contexts and the segments are made those that it starts with.
    fn keep(&mut self, header: &Header, coded: Coded)
        requires size { IsFrameSize header.now.size }
        requires may { MayDecode (record self.old { persist = record self.old.persist { size = Some header.now.size } }) }
        requires at { (r : FrameResult) × IsAt header.now self.old.table coded r }
        ensures stands { (number : ℕ) (state : State) (r : FrameResult) → HasBegun header.now self.old state → IsAt header.now self.old.table coded r
            → StandsFor self.new (state_after number state header.now r) }
        ensures may { MayDecode self.new }
        ensures form { self.new.form ≡ self.old.form }
    {
        let Coded { decoded, place } = coded;
        let before = self.saved.at(saved_place(header));
        let own = own_contexts(header, &before, &decoded, after_key(&self.last));
        self.saved.save(header, &own);
        keep_segments(&mut self.segments, header, &decoded.columns);
        self.table.refresh(header.refresh, place);
        self.persist = header.next(&self.persist);
        let last = LastFrame {
            header: *header,
            columns: decoded.columns,
        };
        replace_last(&mut self.last, &mut self.columns, last);
    }

    /// Writes the picture at a place of the table, if there is one to be shown and it can be put next.
    fn put<K: Sink>(
        &mut self,
        alloc: Global,
        number: u64,
        place: Option<usize>,
        sink: &mut K,
    ) -> Result<(), Outcome>
        requires there { IsBelow (length self.old.table.pictures.items) place }
        requires sound { NamesSound self.old.table.pictures.items place }
        requires sink { K.can_put sink.old }
        ensures puts { Puts number (told_picture (held_in self.old.table.pictures.items place)) self.old.form self.new.form
            (K.taken sink.old) (K.taken sink.new) (K.faults sink.old) (K.faults sink.new) result }
        ensures same { self.new ≡ record self.old { form = self.new.form; text = self.new.text } }
        ensures grows { K.grows sink.new ≡ K.grows sink.old }
        ensures again { K.faults sink.new ≡ K.faults sink.old → K.can_put sink.new }
    {
        let Some(place) = place else {
            return Ok(());
        };
        let picture = &self.table.pictures[place];
        let shape = shape_of_any(picture);
        if !self.form.admits(&shape) {
            return Err(outcome_at(number, Rule::OutputShape));
        }
        if let Err(refusal) = show(alloc, &self.form, picture, &mut self.text, sink) {
            return Err(refusal_outcome(refusal));
        }
        self.form = self.form.after(shape);
        Ok(())
    }

    /// Decodes a coded frame, and writes it if it is shown.
    fn decode_coded<K: Sink>(
        &mut self,
        alloc: Global,
        frame: FileFrame<'_>,
        header: &Header,
        compressed: Span,
        sink: &mut K,
    ) -> Result<(), Outcome>
        requires may { MayDecode self.old }
        requires size { IsFrameSize header.now.size }
        requires few { AreFewTiles header.now.params.tiles }
        requires placed { LiesWithin (length frame.bytes.now) compressed }
        requires held { NamesHeld header.now (held self.old.table) }
        requires sink { K.can_put sink.old }
        ensures adds { (state : State) → StandsFor self.old state → Adds frame.entry.number self.old.form
            (after_coded frame.entry.number state header.now (decoded_in state frame.entry.bytes.now header.now compressed)) self.new
            (K.taken sink.old) (K.taken sink.new) (K.faults sink.old) (K.faults sink.new) result }
        ensures may { OnOk result (MayDecode self.new) }
        ensures grows { K.grows sink.new ≡ K.grows sink.old }
        ensures again { K.faults sink.new ≡ K.faults sink.old → K.can_put sink.new }
    {
        let coded = match self.decode_picture(alloc, frame.bytes, header, compressed) {
            Ok(coded) => coded,
            Err(halt) => return Err(halt_outcome(frame.number, halt)),
        };
        let shown = shown_place(header, coded.place);
        match self.put(alloc, frame.number, shown, sink) {
            Ok(()) => {}
            Err(outcome) => return Err(outcome),
        }
        self.keep(header, coded);
        Ok(())
    }

    /// Writes what a slot holds.
    fn show_slot<K: Sink>(
        &mut self,
        alloc: Global,
        number: u64,
        slot: u8,
        sink: &mut K,
    ) -> Result<(), Outcome>
        requires may { MayDecode self.old }
        requires sink { K.can_put sink.old }
        ensures adds { (state : State) → StandsFor self.old state → Adds number self.old.form (Ok (record { state = state; shown = get_or state.slots slot None })) self.new
            (K.taken sink.old) (K.taken sink.new) (K.faults sink.old) (K.faults sink.new) result }
        ensures may { OnOk result (MayDecode self.new) }
        ensures grows { K.grows sink.new ≡ K.grows sink.old }
        ensures again { K.faults sink.new ≡ K.faults sink.old → K.can_put sink.new }
    {
        let shown = place_in(&self.table.slots, slot);
        self.put(alloc, number, shown, sink)
    }

    /// Decodes a frame, and writes it if it is shown.
    pub fn decode_next<K: Sink>(
        &mut self,
        alloc: Global,
        frame: FileFrame<'_>,
        sink: &mut K,
    ) -> Result<(), Outcome>
        requires may { MayDecode self.old }
        requires sink { K.can_put sink.old }
        ensures adds { (state : State) → StandsFor self.old state → Adds frame.entry.number self.old.form (step frame.entry.number state frame.entry.bytes.now) self.new
            (K.taken sink.old) (K.taken sink.new) (K.faults sink.old) (K.faults sink.new) result }
        ensures may { OnOk result (MayDecode self.new) }
        ensures grows { K.grows sink.new ≡ K.grows sink.old }
        ensures again { K.faults sink.new ≡ K.faults sink.old → K.can_put sink.new }
    {
        match read(frame.bytes, &self.persist) {
            Ok(FrameHead::Coded { header, compressed }) => {
                self.decode_coded(alloc, frame, &header, compressed, sink)
            }
            Ok(FrameHead::ShowExisting { slot }) => self.show_slot(alloc, frame.number, slot, sink),
            Err(rule) => Err(outcome_at(frame.number, rule)),
        }
    }
}
