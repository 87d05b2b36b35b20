//! What is left of a decode.

use vp9_types::Outcome;

/// How a decode ended, its source and its sink.
#[derive(Drop)]
pub struct Streamed<S, K> {
    pub outcome: Outcome,
    pub source: S,
    pub sink: K,
}
