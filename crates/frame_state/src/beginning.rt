//! What a frame says before its tiles.

ghost use Rattle.std.specs.Prelude.{◌≤◌, length};
ghost use Rattle.frame_headers.specs.FrameSizes.{IsFrameSize};
ghost use Rattle.frame_headers.specs.Tiles.{AreFewTiles};
ghost use Rattle.prob_contexts.specs.ProbLists.{lists_of};
ghost use Rattle.frame_state.specs.Code.{IsBegun};

use compressed_header::read;
use frame_headers::{Header, check_tiles};
use frame_setting::FrameSetting;
use prob_contexts::Contexts;
use vp9_types::{Rule, Span};

/// Reads what a frame says before its tiles, whose compressed header lies at `compressed`, and tests the sizes of its tiles.
pub fn begin_frame(
    bytes: &[u8],
    header: &Header,
    compressed: Span,
    before: &Contexts,
) -> Result<FrameSetting, Rule>
    requires size { IsFrameSize header.now.size }
    requires few { AreFewTiles header.now.params.tiles }
    requires order { compressed.from ≤ compressed.to }
    requires within { compressed.to ≤ length bytes.now }
    ensures { IsBegun header.now bytes.now compressed (lists_of before.now) result }
{
    let (contexts, modes) = read(&bytes[compressed.from..compressed.to], header, before)?;
    check_tiles(bytes, header, compressed)?;
    Ok(FrameSetting::new(header, modes, contexts))
}
