//! Levels and limits of a frame, found once.

ghost use Rattle.std.specs.Prelude.{◌≡◌, ◌≤◌, ◌<◌, ◌*◌, ◌/◌, ◌%◌, ◌^◌, ◌+ℤ◌, ◌*ℤ◌, pos, unsigned_abs, nat_lt, length, slice_index_or, if◌then◌else◌};
ghost use Rattle.loop_edges.specs.FilterLevels.{mode_delta_index, filter_level, limits_of};
ghost use Rattle.loop_edges.specs.Code.{reference_kind, kind_of, delta_by, level_by, AreLevelsOfSegment, AreLevels, AreLimits};
ghost use Rattle.loop_edges.specs.declared.setting.EdgeSetting.{EdgeSetting};

use crate::levels::{changed, filter_level, limits_of, lvl_seg, scale_of, scaled, sum_of};
use crate::setting::EdgeSetting;
use block_plan::{BlockInfo, Prediction};
use frame_headers::LoopDeltas;
use line_filter::Limits;
use vp9_types::{InterMode, ReferenceFrame};

/// What the edges of a frame come from, with the levels of its blocks by segment and kind, and the limits of each level.
#[derive(Drop)]
pub struct EdgeTables {
    pub setting: EdgeSetting,
    levels: [[u8; 8]; 8],
    limits: [Limits; 256],
    ghost are_levels: { AreLevels setting 8 levels },
    ghost are_limits: { AreLimits setting 256 limits },
}

#[inline(always)]
fn reference_kind(reference: ReferenceFrame) -> usize
    ensures value { result ≡ reference_kind reference }
    ensures few { result ≤ 6 }
{
    match reference {
        ReferenceFrame::Last => 2,
        ReferenceFrame::Golden => 4,
        ReferenceFrame::Altref => 6,
    }
}

#[inline(always)]
fn mode_kind(mode: InterMode) -> usize
    ensures value { result ≡ mode_delta_index mode }
    ensures few { result ≤ 1 }
{
    match mode {
        InterMode::Zero => 0,
        InterMode::Nearest | InterMode::Near | InterMode::New => 1,
    }
}

/// What a block's deltas go by: 0 for an intra block, else its reference and the mode of its last quarter.
#[inline(always)]
fn kind_of(prediction: &Prediction) -> usize
    ensures value { result ≡ kind_of prediction.now }
    ensures few { result < 8 }
{
    match prediction {
        Prediction::Intra(_) => 0,
        Prediction::Inter(b) => { reference_kind(b.references.first) + mode_kind(b.modes[3]) }
    }
}

#[inline(always)]
fn delta_by(deltas: &LoopDeltas, kind: usize) -> i32
    requires { kind < 8 }
    ensures value { result ≡ delta_by deltas.now kind }
    ensures size { unsigned_abs result ≤ 65536 }
{
    if kind < 2 {
        deltas.reference[0] as i32
    } else {
        sum_of(deltas.reference[kind / 2], deltas.mode[kind % 2])
    }
}

/// The level of the blocks of a segment and kind.
#[inline(always)]
#[tactic(auto, unfolding(crate::specs::Code::level_by))]
fn level_by(f: &EdgeSetting, segment: u8, kind: usize) -> u8
    requires { kind < 8 }
    ensures { result ≡ level_by f.now segment kind }
{
    let level = lvl_seg(f, segment);
    if f.filter.delta_enabled {
        let delta = delta_by(&f.filter.deltas, kind);
        changed(level, scaled(delta, scale_of(f.filter.level)))
    } else {
        level
    }
}

fn levels_of_segment(f: &EdgeSetting, segment: u8) -> [u8; 8]
    ensures { AreLevelsOfSegment f.now segment 8 result }
{
    let mut levels = [0; 8];
    for kind in 0..8 {
        levels[kind] = level_by(f, segment, kind);
    }
    levels
}

fn levels_of(f: &EdgeSetting) -> [[u8; 8]; 8]
    ensures { AreLevels f.now 8 result }
{
    let mut levels = [[0; 8]; 8];
    for segment in 0..8 {
        levels[segment as usize] = levels_of_segment(f, segment);
    }
    levels
}

fn limits_by_level(f: &EdgeSetting) -> [Limits; 256]
    ensures { AreLimits f.now 256 result }
{
    let none = limits_of(f.shape.depth, f.filter.sharpness, 0);
    let mut limits = [none; 256];
    for level in 0..256 {
        limits[level] = limits_of(f.shape.depth, f.filter.sharpness, level as u8);
    }
    limits
}

/// The level of a block whose segment is in no table.
#[inline(never)]
fn other_level(f: &EdgeSetting, block: &BlockInfo) -> u8
    ensures { result ≡ filter_level f.now block.now }
{
    filter_level(f, block)
}

impl EdgeTables {
    ghost use Rattle.loop_edges.specs.FilterLevels.{filter_level, limits_of};

    /// Finds them.
    #[inline(never)]
    pub fn new(setting: &EdgeSetting) -> EdgeTables
        ensures { result.setting ≡ setting.now }
    {
        EdgeTables {
            setting: *setting,
            levels: levels_of(setting),
            limits: limits_by_level(setting),
        }
    }

    /// The filter's level at a block: 0 for none.
    #[inline(always)]
    pub fn level(&self, block: &BlockInfo) -> u8
        ensures { result ≡ filter_level self.now.setting block.now }
    {
        if block.segment < 8 {
            self.levels[block.segment as usize][kind_of(&block.prediction)]
        } else {
            other_level(&self.setting, block)
        }
    }

    /// What the filter compares with at a level, in steps of the depth.
    #[inline(always)]
    pub fn limits(&self, level: u8) -> Limits
        ensures value { result ≡ limits_of self.now.setting.shape.depth self.now.setting.filter.sharpness level }
        ensures half { result.half ≤ 2048 }
    {
        self.limits[level as usize]
    }
}
