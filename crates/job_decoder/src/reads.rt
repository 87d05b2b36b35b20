//! Whether a frame's superblock rows read other frames.

use job_rows::job_results::RowReads;
use vp9_types::BandSpan;

fn is_none(spans: &[Option<BandSpan>; 3]) -> bool {
    spans[0].is_none() && spans[1].is_none() && spans[2].is_none()
}

fn are_none(rows: &[[Option<BandSpan>; 3]]) -> bool {
    for row in 0..rows.len() {
        if !is_none(&rows[row]) {
            return false;
        }
    }
    true
}

/// None of them does.
pub(crate) fn is_apart(reads: &RowReads) -> bool {
    for column in 0..reads.columns.len() {
        if !are_none(&reads.columns[column]) {
            return false;
        }
    }
    true
}
