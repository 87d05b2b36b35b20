//! One coded frame: what it leaves beside its samples, and the contexts behind it.

ghost use Rattle.std.specs.Prelude.{◌≡◌};
ghost use Rattle.prob_contexts.specs.ProbLists.{lists_of};
ghost use Rattle.frame_state.specs.Code.{counts_if};
ghost use Rattle.frame_decoder.specs.DecodedFrames.{FrameResult};
ghost use Rattle.frame_state.specs.Sources.{adapts};
ghost use Rattle.seq_decoder.specs.SavedContexts.{adapt_kind, own_contexts};

use backward_adapt::{AdaptKind, InterKind, adapt};
use frame_decoder::Decoded;
use frame_headers::{FrameKind, Header};
use frame_state::adapts;
use prob_contexts::Contexts;

/// A decoded frame: what it leaves beside its samples, and their place in the table of pictures.
#[derive(Drop)]
pub struct Coded {
    pub decoded: Decoded,
    pub place: usize,
}

/// What the adaptation of a frame asks of it. `after_key`: the last decoded frame was a key frame.
fn adapt_kind(kind: &FrameKind, after_key: bool) -> AdaptKind
    ensures { result ≡ adapt_kind kind.now after_key }
{
    match kind {
        FrameKind::Key | FrameKind::IntraOnly => AdaptKind::Intra,
        FrameKind::Inter(fields) => AdaptKind::Inter(InterKind {
            after_key,
            high_precision: fields.high_precision,
        }),
    }
}

/// The contexts that a frame leaves, which it started from `before`.
pub fn own_contexts(
    header: &Header,
    before: &Contexts,
    decoded: &Decoded,
    after_key: bool,
) -> Contexts
    ensures { (r : FrameResult) → lists_of decoded.now.contexts ≡ r.contexts → decoded.now.counts ≡ counts_if (adapts header.now) r.counted →
        lists_of result ≡ own_contexts header.now after_key r (lists_of before.now) }
{
    if !adapts(header) {
        return decoded.contexts;
    }
    let kind = adapt_kind(&header.kind, after_key);
    adapt(before, &decoded.contexts, &decoded.counts, &kind)
}
