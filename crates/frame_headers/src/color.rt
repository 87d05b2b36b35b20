ghost use Rattle.std.specs.Prelude.{◌≡◌};
ghost use Rattle.frame_headers.specs.Fields.{Reads};
ghost use Rattle.frame_headers.specs.Color.{color_space_of, is_odd_profile, bit_depth, reserved_zero, subsampling, yuv_config, rgb_config, color_config, intra_only_color};

use crate::bits::BitReader;
use crate::field::FieldName;
use vp9_types::{Depth, Rule};

/// What the samples stand for (7.2.2 of the standard).
#[derive(Clone, Copy, Debug, PartialEq, Eq)]
pub enum ColorSpace {
    Unknown,
    Bt601,
    Bt709,
    Smpte170,
    Smpte240,
    Bt2020,
    Reserved,
    Rgb,
}

/// The colour configuration of a frame: what the samples stand for, their depth, and the subsampling of chroma.
#[derive(Clone, Copy, Debug, PartialEq, Eq)]
pub struct ColorConfig {
    pub depth: Depth,
    pub space: ColorSpace,
    pub full_range: bool,
    pub ss_x: bool,
    pub ss_y: bool,
}

impl ColorConfig {
    /// That of profile 0 where a frame doesn't code it: 8 bits, 4:2:0.
    pub const DEFAULT: ColorConfig = ColorConfig {
        depth: Depth::Eight,
        space: ColorSpace::Bt601,
        full_range: false,
        ss_x: true,
        ss_y: true,
    };
}

fn color_space(code: u8) -> ColorSpace
    ensures { result ≡ color_space_of code }
{
    match code {
        0 => ColorSpace::Unknown,
        1 => ColorSpace::Bt601,
        2 => ColorSpace::Bt709,
        3 => ColorSpace::Smpte170,
        4 => ColorSpace::Smpte240,
        5 => ColorSpace::Bt2020,
        6 => ColorSpace::Reserved,
        _ => ColorSpace::Rgb,
    }
}

fn is_odd(profile: u8) -> bool
    ensures { result ≡ is_odd_profile profile }
{
    profile % 2 == 1
}

#[tactic(auto, unfolding(crate::specs::Color::bit_depth), using(vp9_types::proofs::Runs::run_bind))]
fn read_bit_depth(bits: &mut BitReader<'_>, profile: u8) -> Result<Depth, Rule>
    ensures { Reads (bit_depth profile) bits.old result bits.new }
{
    if profile < 2 {
        return Ok(Depth::Eight);
    }
    if bits.flag_field(FieldName::TenOrTwelveBit)? {
        Ok(Depth::Twelve)
    } else {
        Ok(Depth::Ten)
    }
}

#[tactic(auto, unfolding(crate::specs::Color::reserved_zero), using(vp9_types::proofs::Runs::run_bind))]
pub fn read_reserved_zero(bits: &mut BitReader<'_>) -> Result<(), Rule>
    ensures { Reads reserved_zero bits.old result bits.new }
{
    if bits.flag_field(FieldName::ReservedZero)? {
        return Err(Rule::ReservedBit);
    }
    Ok(())
}

/// Chroma's subsampling in x and y, where the space isn't RGB.
#[tactic(auto, unfolding(crate::specs::Color::subsampling, crate::specs::Color::coded_subsampling), using(vp9_types::proofs::Runs::run_bind))]
fn read_subsampling(bits: &mut BitReader<'_>, profile: u8) -> Result<(bool, bool), Rule>
    ensures { Reads (subsampling profile) bits.old result bits.new }
{
    if !is_odd(profile) {
        return Ok((true, true));
    }
    let ss_x = bits.flag_field(FieldName::SubsamplingX)?;
    let ss_y = bits.flag_field(FieldName::SubsamplingY)?;
    if ss_x && ss_y {
        return Err(Rule::ColourConfig);
    }
    read_reserved_zero(bits)?;
    Ok((ss_x, ss_y))
}

#[tactic(auto, unfolding(crate::specs::Color::yuv_config), using(vp9_types::proofs::Runs::run_bind))]
fn read_yuv_config(
    bits: &mut BitReader<'_>,
    profile: u8,
    depth: Depth,
    code: u8,
) -> Result<ColorConfig, Rule>
    ensures { Reads (yuv_config profile depth code) bits.old result bits.new }
{
    let full_range = bits.flag_field(FieldName::ColorRange)?;
    let (ss_x, ss_y) = read_subsampling(bits, profile)?;
    Ok(ColorConfig {
        depth,
        space: color_space(code),
        full_range,
        ss_x,
        ss_y,
    })
}

/// RGB isn't subsampled, and has the full range.
#[tactic(auto, unfolding(crate::specs::Color::rgb_config), using(vp9_types::proofs::Runs::run_bind))]
fn read_rgb_config(bits: &mut BitReader<'_>, profile: u8, depth: Depth) -> Result<ColorConfig, Rule>
    ensures { Reads (rgb_config profile depth) bits.old result bits.new }
{
    if !is_odd(profile) {
        return Err(Rule::ColourConfig);
    }
    read_reserved_zero(bits)?;
    Ok(ColorConfig {
        depth,
        space: ColorSpace::Rgb,
        full_range: true,
        ss_x: false,
        ss_y: false,
    })
}

/// Reads `color_config` (6.2.2 of the standard).
#[tactic(auto, unfolding(crate::specs::Color::color_config), using(vp9_types::proofs::Runs::run_bind))]
pub fn read_color_config(bits: &mut BitReader<'_>, profile: u8) -> Result<ColorConfig, Rule>
    ensures { Reads (color_config profile) bits.old result bits.new }
{
    let depth = read_bit_depth(bits, profile)?;
    let code = bits.byte(FieldName::ColorSpace, 3)?;
    if code == 7 {
        read_rgb_config(bits, profile, depth)
    } else {
        read_yuv_config(bits, profile, depth, code)
    }
}

/// The colour configuration of an intra-only frame, which codes none in profile 0.
#[tactic(auto, unfolding(crate::specs::Color::intra_only_color), using(vp9_types::proofs::Runs::run_bind))]
pub fn read_intra_only_color(bits: &mut BitReader<'_>, profile: u8) -> Result<ColorConfig, Rule>
    ensures { Reads (intra_only_color profile) bits.old result bits.new }
{
    if profile == 0 {
        return Ok(ColorConfig::DEFAULT);
    }
    read_color_config(bits, profile)
}
