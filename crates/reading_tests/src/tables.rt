//! Entries of tables by their indices, read off the standard.

use vp9_tables::{ac_q, category_probs, cosine, dc_q, kf_y_mode, scan, tap, taps};
use vp9_types::{Depth, InterpFilter, IntraMode, TxSize, TxType};

#[test]
fn steps_of_8_bits_begin_as_stated(rt: HostRuntime) {
    for (index, step) in [(0, 4), (1, 8), (2, 8), (3, 9), (255, 1336)] {
        assert_eq!(rt; dc_q(Depth::Eight, index), step);
    }
    assert_eq!(rt; ac_q(Depth::Twelve, 255), 29247);
}

#[test]
fn rows_stand_by_their_indices(rt: HostRuntime) {
    assert_eq!(rt; taps(InterpFilter::Sharp, 0)[3], 128);
    assert_eq!(rt; tap(InterpFilter::Bilinear, 8, 4), 64);
    assert_eq!(rt; scan(TxSize::T4x4, TxType::AdstDct)[1], 1);
    assert_eq!(rt; scan(TxSize::T4x4, TxType::DctAdst)[1], 4);
    assert_eq!(rt; kf_y_mode(IntraMode::Dc, IntraMode::Dc)[0], 137);
    assert_eq!(rt; category_probs(6, Depth::Ten)[2], 254);
    assert_eq!(rt; cosine(16), 11585);
    assert_eq!(rt; cosine(48), -11585);
}
