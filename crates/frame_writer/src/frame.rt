//! A coded frame, as bytes.

ghost use Rattle.std.specs.Prelude.{◌≡◌, ◌≤◌, ◌<◌, ◌^◌, ◌++◌, List, ℕ, IfOk, OnOk, length};
ghost use Rattle.frame_headers.specs.declared.header.Uncompressed.TheVariants.{Coded};
ghost use Rattle.prob_contexts.specs.ProbLists.{lists_of};
ghost use Rattle.compressed_writer.specs.CodedUpdates.{CanForward};
ghost use Rattle.header_writer.specs.HeaderReads.{HoldsHeader};
ghost use Rattle.header_writer.specs.Spelling.{IsSpelled};
ghost use Rattle.header_writer.specs.WellFormed.{CanChoose, IsWellFormed};
ghost use Rattle.frame_headers.specs.Tiles.{AreFewTiles};
ghost use Rattle.frame_state.specs.Code.{sources_of};
ghost use Rattle.frame_state.specs.KeptColumns.{AreTileColumns};
ghost use Rattle.frame_state.specs.Past.{IsPastOf, past_of};
ghost use Rattle.frame_state.specs.FrameReading.{nothing_read};
ghost use Rattle.frame_writer.specs.FrameBytes.{with_size, without_index};
ghost use Rattle.frame_writer.specs.Code.{GivesFrame, GivesHeaders, GivesRest, HoldsColumns, IsBytes};

use crate::symbols::FrameSymbols;
use crate::tile::FrameInProgress;
use crate::tiles::write_tiles;
use crate::written::{NotWritten, Written};
use bool_encoder::BoolEncoder;
use compressed_writer::write_compressed_header;
use frame_headers::{FrameParams, Header, Persist, Uncompressed};
use frame_setting::FrameSetting;
use frame_state::{FramePast, FrameSources, TileColumn, TilePlaces};
use header_writer::{Choices, write_uncompressed_header};
use prob_contexts::Contexts;
use residue_writer::{BlockLevels, PlaneLevels};
use std::alloc::{AllocError, Global};
use vp9_types::Modes;

/// What a coded frame says before its tiles: its header, but for the size of its compressed header, how that is spelled, and
/// what its compressed header makes of modes and contexts.
#[derive(Clone, Copy)]
pub struct FrameToWrite {
    pub header: Header,
    pub choices: Choices,
    pub modes: Modes,
    pub contexts: Contexts,
}

/// The same header, with the size of the compressed header.
fn with_size(header: &Header, size: u16) -> Header
    ensures { result ≡ with_size header.now size }
{
    let params = FrameParams {
        compressed_size: size,
        ..header.params
    };
    Header { params, ..*header }
}

/// A frame's header with the size of its compressed header, and both as bytes.
#[derive(Drop)]
pub struct FrameHeaders {
    pub header: Header,
    pub bytes: Vec<u8>,
}

/// The headers of a frame that starts from the contexts `before`, of which the compressed one is written already.
fn put_headers(
    alloc: Global,
    persist: &Persist,
    frame: &FrameToWrite,
    compressed: &[u8],
) -> Result<FrameHeaders, AllocError>
    requires well { IsWellFormed persist.now (Coded frame.now.header) }
    requires can { CanChoose persist.now frame.now.choices (Coded frame.now.header) }
    requires some { 1 ≤ length compressed.now }
    requires short { length compressed.now < 2 ^ 16 }
    ensures { IfOk result (λ h. (h.header ≡ with_size frame.now.header (length compressed.now))
        × (front : List ℕ) × (h.bytes.items ≡ front ++ compressed.now) × HoldsHeader persist.now (Coded h.header) front × IsSpelled persist.now frame.now.choices (Coded h.header) front) }
{
    let header = with_size(&frame.header, compressed.len() as u16);
    let mut bytes = Vec::new(alloc);
    write_uncompressed_header(
        alloc,
        &mut bytes,
        persist,
        &Uncompressed::Coded(header),
        frame.choices,
    )?;
    bytes.extend_from_slice(compressed)?;
    Ok(FrameHeaders { header, bytes })
}

/// The headers of a frame that starts from the contexts `before`.
fn write_headers(
    alloc: Global,
    persist: &Persist,
    frame: &FrameToWrite,
    before: &Contexts,
) -> Result<FrameHeaders, NotWritten>
    requires well { IsWellFormed persist.now (Coded frame.now.header) }
    requires can { CanChoose persist.now frame.now.choices (Coded frame.now.header) }
    requires forward { CanForward frame.now.header (lists_of before.now) (lists_of frame.now.contexts) frame.now.modes }
    ensures { GivesHeaders persist.now frame.now before.now result }
{
    let FrameToWrite {
        header,
        modes,
        contexts,
        ..
    } = frame;
    let compressed = write_compressed_header(alloc, header, before, contexts, *modes)?;
    if compressed.len() > u16::MAX as usize {
        return Err(NotWritten::TooLong);
    }
    let headers = put_headers(alloc, persist, frame, &compressed)?;
    Ok(headers)
}

/// Ends a frame, so that its last byte isn't taken for that of a superframe index.
#[tactic(auto, unfolding(crate::specs::FrameBytes::without_index))]
fn end_frame(bytes: &mut Vec<u8>) -> Result<(), AllocError>
    requires { 1 ≤ length bytes.old.items }
    ensures ends { OnOk result (bytes.new.items ≡ without_index bytes.old.items) }
    ensures bytes { OnOk result (IsBytes bytes.new.items) }
{
    if bytes[bytes.len() - 1] / 32 == 6 {
        bytes.extend_from_slice(&[0])?;
    }
    Ok(())
}

/// The tiles of a frame behind its headers, and its end.
fn write_rest<S: FrameSymbols>(
    alloc: Global,
    frame: &mut FrameInProgress<'_, S>,
    headers: Vec<u8>,
) -> Result<Written, NotWritten>
    requires past { IsPastOf frame.old.by.now.setting.header frame.old.by.now.past }
    requires few { AreFewTiles frame.old.by.now.setting.header.params.tiles }
    requires columns { AreTileColumns frame.old.by.now.setting.header 0 frame.old.columns.items }
    requires none { HoldsColumns frame.old.columns.items (nothing_read frame.old.by.now.setting.header) }
    ensures { GivesRest S.speaker (sources_of frame.old.by.now) frame.old.symbols headers.items result frame.new.symbols }
{
    let mut bytes = headers;
    let broken = write_tiles(alloc, frame, &mut bytes)?;
    end_frame(&mut bytes)?;
    Ok(Written { bytes, broken })
}

/// Room for the levels of a block in a plane.
fn no_levels() -> PlaneLevels {
    PlaneLevels {
        counts: [0; 256],
        values: [0; 4096],
    }
}

/// The tiles of a frame behind its headers, as `symbols` tells them, which are handed back.
fn write_behind<S: FrameSymbols>(
    alloc: Global,
    by: &FrameSources<'_>,
    headers: Vec<u8>,
    symbols: S,
) -> (Result<Written, NotWritten>, S)
    requires past { IsPastOf by.now.setting.header by.now.past }
    requires few { AreFewTiles by.now.setting.header.params.tiles }
    ensures { GivesRest S.speaker (sources_of by.now) symbols headers.items result.0 result.1 }
{
    let setting = &by.setting;
    let Ok(columns) = TileColumn::new_all(alloc, setting) else {
        return (Err(NotWritten::OutOfMemory), symbols);
    };
    let Ok(column) = TileColumn::new(alloc, setting, 0) else {
        return (Err(NotWritten::OutOfMemory), symbols);
    };
    let mut frame = FrameInProgress {
        by,
        columns,
        column,
        places: TilePlaces::new(setting.places, setting.header.params.tiles, 0),
        encoder: BoolEncoder::new(alloc),
        symbols,
        levels: BlockLevels {
            y: no_levels(),
            u: no_levels(),
            v: no_levels(),
        },
    };
    let written = write_rest(alloc, &mut frame, headers);
    (written, frame.symbols)
}

/// Writes a coded frame behind the frames that left `persist` and `past`, as its blocks are told by `symbols`, which are handed
/// back. It is read back as that, or breaks the rule that what is told breaks first. Its tiles are read by the contexts of
/// `frame`, which its compressed header makes of those before.
pub fn write_frame<S: FrameSymbols>(
    alloc: Global,
    persist: &Persist,
    frame: &FrameToWrite,
    past: FramePast<'_>,
    symbols: S,
) -> (Result<Written, NotWritten>, S)
    requires well { IsWellFormed persist.now (Coded frame.now.header) }
    requires can { CanChoose persist.now frame.now.choices (Coded frame.now.header) }
    requires forward { CanForward frame.now.header (lists_of past.contexts.now) (lists_of frame.now.contexts) frame.now.modes }
    requires past { IsPastOf frame.now.header past }
    ensures { GivesFrame S.speaker persist.now frame.now (past_of past.entry) symbols result.0 result.1 }
{
    let headers = match write_headers(alloc, persist, frame, past.contexts) {
        Ok(headers) => headers,
        Err(why) => return (Err(why), symbols),
    };
    let FrameHeaders { header, bytes } = headers;
    let setting = FrameSetting::new(&header, frame.modes, frame.contexts);
    let by = FrameSources { setting, past };
    write_behind(alloc, &by, bytes, symbols)
}
