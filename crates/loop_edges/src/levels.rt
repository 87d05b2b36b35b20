//! The filter's level at a block, and the limits of a level.

ghost use Rattle.std.specs.Prelude.{◌≡◌, ◌≤◌, ◌-◌, ◌*◌, ◌/◌, ◌^◌, ◌+ℤ◌, ◌*ℤ◌, pos, unsigned_abs, nat_lt, min, if◌then◌else◌};
ghost use Rattle.loop_edges.specs.FilterLevels.{to_level, level_with_feature, lvl_seg, mode_delta, reference_delta, delta_of, filter_level, edge_limit, limits_of, one_of};

use crate::setting::EdgeSetting;
use block_plan::{BlockInfo, Prediction};
use frame_headers::LoopDeltas;
use line_filter::Limits;
use vp9_types::{Depth, InterMode, ReferenceFrame};

/// Clipped to 0 to 63.
#[inline(always)]
fn to_level(value: i32) -> u8
    ensures value { result ≡ to_level value }
    ensures most { result ≤ 63 }
{
    value.clamp(0, 63) as u8
}

#[inline(always)]
fn level_with_feature(absolute: bool, level: u8, feature: Option<i16>) -> u8
    ensures { result ≡ level_with_feature absolute level feature }
{
    match feature {
        None => level,
        Some(value) if absolute => to_level(value as i32),
        Some(value) => to_level(level as i32 + value as i32),
    }
}

/// The level of a segment's blocks, without the deltas.
#[inline(always)]
pub(crate) fn lvl_seg(f: &EdgeSetting, segment: u8) -> u8
    ensures { result ≡ lvl_seg f.now segment }
{
    if !f.segmentation.enabled {
        return f.filter.level;
    }
    match f.segmentation.features.segments.get(segment as usize) {
        None => f.filter.level,
        Some(features) => level_with_feature(
            f.segmentation.features.absolute,
            f.filter.level,
            features.level,
        ),
    }
}

#[inline(always)]
fn reference_delta(deltas: &LoopDeltas, reference: ReferenceFrame) -> i16
    ensures { result ≡ reference_delta deltas.now reference }
{
    match reference {
        ReferenceFrame::Last => deltas.reference[1],
        ReferenceFrame::Golden => deltas.reference[2],
        ReferenceFrame::Altref => deltas.reference[3],
    }
}

#[inline(always)]
fn mode_delta(deltas: &LoopDeltas, mode: InterMode) -> i16
    ensures { result ≡ mode_delta deltas.now mode }
{
    if mode == InterMode::Zero {
        deltas.mode[0]
    } else {
        deltas.mode[1]
    }
}

#[inline(always)]
pub(crate) fn sum_of(x: i16, y: i16) -> i32
    ensures value { result ≡ x +ℤ y }
    ensures size { unsigned_abs result ≤ 65536 }
{
    x as i32 + y as i32
}

/// What a block's level is changed by, before it is scaled.
#[inline(always)]
fn delta_of(deltas: &LoopDeltas, prediction: &Prediction) -> i32
    ensures value { result ≡ delta_of deltas.now prediction.now }
    ensures size { unsigned_abs result ≤ 65536 }
{
    match prediction {
        Prediction::Intra(_) => deltas.reference[0] as i32,
        Prediction::Inter(b) => {
            sum_of(
                reference_delta(deltas, b.references.first),
                mode_delta(deltas, b.modes[3]),
            )
        }
    }
}

/// What the deltas are multiplied by.
#[inline(always)]
pub(crate) fn scale_of(level: u8) -> i32
    ensures value { result ≡ pos (2 ^ (level / 32)) }
    ensures size { unsigned_abs result ≤ 128 }
{
    1 << (level / 32)
}

#[inline(always)]
pub(crate) fn scaled(delta: i32, scale: i32) -> i32
    requires delta { unsigned_abs delta ≤ 65536 }
    requires scale { unsigned_abs scale ≤ 128 }
    ensures value { result ≡ delta *ℤ scale }
    ensures size { unsigned_abs result ≤ 65536 * 128 }
{
    delta * scale
}

/// A level with a delta added.
#[inline(always)]
pub(crate) fn changed(level: u8, delta: i32) -> u8
    requires { unsigned_abs delta ≤ 65536 * 128 }
    ensures { result ≡ to_level (pos level +ℤ delta) }
{
    to_level(level as i32 + delta)
}

/// The filter's level at a block: 0 for none.
#[inline(always)]
#[tactic(auto, unfolding(crate::specs::FilterLevels::filter_level))]
pub fn filter_level(f: &EdgeSetting, block: &BlockInfo) -> u8
    ensures { result ≡ filter_level f.now block.now }
{
    let level = lvl_seg(f, block.segment);
    if f.filter.delta_enabled {
        let delta = delta_of(&f.filter.deltas, &block.prediction);
        changed(level, scaled(delta, scale_of(f.filter.level)))
    } else {
        level
    }
}

#[inline(always)]
fn one_of(depth: Depth) -> u16
    ensures value { result ≡ one_of depth }
    ensures most { result ≤ 16 }
{
    match depth {
        Depth::Eight => 1,
        Depth::Ten => 4,
        Depth::Twelve => 16,
    }
}

/// How far neighbours may differ, in steps of 8 bits.
#[inline(always)]
fn edge_limit(sharpness: u8, level: u8) -> u8
    ensures value { result ≡ edge_limit sharpness level }
{
    let shifted = if sharpness > 4 {
        level / 4
    } else if sharpness > 0 {
        level / 2
    } else {
        level
    };
    limited(sharpness, shifted).max(1)
}

#[inline(always)]
fn limited(sharpness: u8, shifted: u8) -> u8
    ensures { result ≡ (if nat_lt 0 sharpness then min shifted (9 - sharpness) else shifted) }
{
    if sharpness > 0 {
        shifted.min(9u8.saturating_sub(sharpness))
    } else {
        shifted
    }
}

/// What the filter compares with at a level, in steps of the depth.
#[inline(always)]
#[tactic(auto, unfolding(crate::specs::FilterLevels::limits_of))]
pub fn limits_of(depth: Depth, sharpness: u8, level: u8) -> Limits
    ensures value { result ≡ limits_of depth sharpness level }
    ensures half { result.half ≤ 2048 }
{
    let one = one_of(depth);
    let limit = edge_limit(sharpness, level) as u16;
    let level = level as u16;
    Limits {
        limit: limit * one,
        blimit: (2 * (level + 2) + limit) * one,
        thresh: level / 16 * one,
        one,
        half: 128 * one,
    }
}
