ghost use Rattle.std.specs.Prelude.{◌≡◌, ◌≤◌, ◌<◌, length, slice_get, IfOk, IsOk, Some};
ghost use Rattle.frame_headers.specs.Spans.{tile_at, tile_count, tile_spans, ChecksTiles};
ghost use Rattle.frame_headers.specs.Tiles.{AreFewTiles};

use crate::header::Header;
use byteorder::{BigEndian, ByteOrder};
use vp9_types::{Rule, Span};

/// The tile at a place of the frame, where `more` follow it.
#[tactic(auto, unfolding(crate::specs::Spans::tile_at))]
fn read_tile(frame: &[u8], more: u32, at: usize) -> Result<Span, Rule>
    requires { at ≤ length frame.now }
    ensures exact { result ≡ tile_at frame.now more at }
    ensures within { IfOk result (λ span. (at ≤ span.to) × (span.to ≤ length frame.now)) }
    ensures order { IfOk result (λ span. span.from ≤ span.to) }
{
    let left = frame.len() - at;
    if more == 0 {
        if left == 0 {
            return Err(Rule::BoolEmpty);
        }
        return Ok(Span {
            from: at,
            to: frame.len(),
        });
    }
    if left < 4 {
        return Err(Rule::TileSize);
    }
    let size = BigEndian::read_u32(&frame[at..at + 4]) as usize;
    if left - 4 < size {
        return Err(Rule::TileSize);
    }
    if size == 0 {
        return Err(Rule::BoolEmpty);
    }
    let from = at + 4;
    let to = from + size;
    Ok(Span { from, to })
}

/// Tests the sizes of all tiles of a frame, whose compressed header lies at `compressed`, before any is decoded.
pub fn check_tiles(frame: &[u8], header: &Header, compressed: Span) -> Result<(), Rule>
    requires few { AreFewTiles header.now.params.tiles }
    requires within { compressed.to ≤ length frame.now }
    ensures { ChecksTiles (tile_spans frame.now header.now compressed) result }
{
    let count = header.params.tiles.count();
    let mut at = compressed.to;
    for i in 0..count {
        let span = read_tile(frame, count - 1 - i, at)?;
        at = span.to;
    }
    Ok(())
}

/// Where tile `n` of a frame lies, row by row from 0. The tiles were tested.
pub fn tile_span(frame: &[u8], header: &Header, compressed: Span, n: u32) -> Span
    requires few { AreFewTiles header.now.params.tiles }
    requires within { compressed.to ≤ length frame.now }
    requires tested { IsOk (tile_spans frame.now header.now compressed) }
    requires below { n < tile_count header.now }
    ensures is { IfOk (tile_spans frame.now header.now compressed) (λ spans. slice_get spans n ≡ Some result) }
    ensures order { result.from ≤ result.to }
    ensures within { result.to ≤ length frame.now }
{
    let count = header.params.tiles.count();
    let mut at = compressed.to;
    for i in 0..n {
        match read_tile(frame, count - 1 - i, at) {
            Ok(span) => at = span.to,
            Err(_) => unreachable!(),
        }
    }
    match read_tile(frame, count - 1 - n, at) {
        Ok(span) => span,
        Err(_) => unreachable!(),
    }
}
