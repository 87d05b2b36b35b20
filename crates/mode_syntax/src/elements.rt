//! Segment and skip of the blocks of intra frames.

ghost use Rattle.std.specs.Prelude.{◌≡◌, ◌+◌, ◌*◌, ◌^◌, ◌<◌, ◌≤◌, ℕ, length};
ghost use Rattle.std.specs.Option.{option_copied};
ghost use Rattle.counting_reader.specs.Counting.{uncounted};
ghost use Rattle.counting_reader.specs.Code.{Reads};
ghost use Rattle.mode_syntax.specs.Elements.{intra_segment_id, skips_segment, skip_beside, skip_context, read_skip};

use block_plan::BlockInfo;
use counting_reader::CountingReader;
use frame_headers::Segmentation;
use prob_contexts::ProbKind;
use vp9_tables::segment_tree;

/// The segment of a block of an intra frame.
#[tactic(auto, unfolding(crate::specs::Elements::intra_segment_id, crate::specs::Elements::coded_segment), using(crate::proofs::Uncounted::uncounted_done))]
pub(crate) fn read_intra_segment_id<const COUNTS: bool>(
    reader: &mut CountingReader<COUNTS>,
    segmentation: &Segmentation,
) -> u8
    ensures read { Reads (uncounted (intra_segment_id segmentation.now)) reader.old result reader.new }
    ensures most { result ≤ 7 }
{
    if !segmentation.enabled {
        return 0;
    }
    match segmentation.map {
        Some(update) => reader.tree(segment_tree(), &update.tree),
        None => 0,
    }
}

/// Whether the blocks of a segment are skipped.
pub fn skips_segment(segmentation: &Segmentation, segment: u8) -> bool
    requires { segment ≤ 7 }
    ensures { result ≡ skips_segment segmentation.now segment }
{
    segmentation.enabled && segmentation.features.segments[segment as usize].skip
}

fn skip_beside(block: Option<&BlockInfo>) -> u8
    ensures is { result ≡ skip_beside (option_copied block.entry) }
    ensures most { result ≤ 1 }
{
    match block {
        Some(block) => u8::from(block.skip),
        None => 0,
    }
}

/// The context of a block's skip, 0 to 2.
pub fn skip_context(above: Option<&BlockInfo>, left: Option<&BlockInfo>) -> u8
    ensures is { result ≡ skip_context (option_copied above.entry) (option_copied left.entry) }
    ensures most { result ≤ 2 }
{
    skip_beside(above) + skip_beside(left)
}

/// Whether a block is skipped.
#[tactic(auto, unfolding(crate::specs::Elements::read_skip), using(counting_reader::proofs::CountingRuns::run_settle))]
pub fn read_skip<const COUNTS: bool>(
    reader: &mut CountingReader<COUNTS>,
    segmentation: &Segmentation,
    probs: &[u8; 3],
    context: u8,
    segment: u8,
) -> bool
    requires segment { segment ≤ 7 }
    requires context { context ≤ 2 }
    ensures { Reads (read_skip segmentation.now probs.now context segment) reader.old result reader.new }
{
    if skips_segment(segmentation, segment) {
        return true;
    }
    reader.counted_bit(ProbKind::Skip, u16::from(context), probs[context as usize])
}
