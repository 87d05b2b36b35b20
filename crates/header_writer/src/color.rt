//! Colour configurations.

ghost use Rattle.std.specs.Prelude.{◌≡◌, ◌≢◌, ◌<◌, ◌≤◌, ◌++◌, IfOk, true, false};
ghost use Rattle.frame_headers.specs.Color.{color_space_of, is_odd_profile, bit_depth, reserved_zero, subsampling, yuv_config, rgb_config, color_config, intra_only_color};
ghost use Rattle.frame_headers.specs.declared.color.ColorSpace.TheVariants as spaces;
ghost use Rattle.vp9_types.specs.declared.shape.Depth.TheVariants as depths;
ghost use Rattle.header_writer.specs.Code.{HasPut};
ghost use Rattle.header_writer.specs.WrittenFields.{Puts};
ghost use Rattle.header_writer.specs.Spelling.{bit, space_code, spelled_color, spelled_depth, spelled_intra_only_color, spelled_subsampling};
ghost use Rattle.header_writer.specs.WellFormed.{IsColor, IsIntraOnlyColor};

use crate::bits::BitWriter;
use frame_headers::{ColorConfig, ColorSpace, FieldName};
use std::alloc::AllocError;
use vp9_types::Depth;

/// The code of RGB.
const RGB: u8 = 7;

fn space_code(space: ColorSpace) -> u8
    ensures is { color_space_of result ≡ space }
    ensures code { result ≡ space_code space }
    ensures fits { result < 8 }
    ensures rgb { result ≡ 7 → space ≡ spaces.Rgb }
    ensures other { result ≢ 7 → space ≢ spaces.Rgb }
{
    match space {
        ColorSpace::Unknown => 0,
        ColorSpace::Bt601 => 1,
        ColorSpace::Bt709 => 2,
        ColorSpace::Smpte170 => 3,
        ColorSpace::Smpte240 => 4,
        ColorSpace::Bt2020 => 5,
        ColorSpace::Reserved => 6,
        ColorSpace::Rgb => RGB,
    }
}

#[tactic(auto, unfolding(frame_headers::specs::Color::bit_depth, crate::specs::Spelling::spelled_depth), using(vp9_types::proofs::Binds::writes_bind, crate::proofs::Spells::spells_on, crate::proofs::Spells::spells_none))]
fn put_bit_depth(bits: &mut BitWriter, profile: u8, depth: Depth) -> Result<(), AllocError>
    requires eight { profile < 2 → depth ≡ depths.Eight }
    requires more { 2 ≤ profile → depth ≢ depths.Eight }
    ensures puts { IfOk result (λ _. Puts (bit_depth profile) bits.old depth bits.new) }
    ensures spells { IfOk result (λ _. HasPut bits.old (spelled_depth profile depth) bits.new) }
{
    if profile < 2 {
        return Ok(());
    }
    match depth {
        Depth::Twelve => bits.flag_field(FieldName::TenOrTwelveBit, true),
        _ => bits.flag_field(FieldName::TenOrTwelveBit, false),
    }
}

#[tactic(auto, unfolding(frame_headers::specs::Color::reserved_zero), using(vp9_types::proofs::Binds::writes_bind, crate::proofs::Spells::spells_on))]
pub fn put_reserved_zero(bits: &mut BitWriter) -> Result<(), AllocError>
    ensures puts { IfOk result (λ u. Puts reserved_zero bits.old u bits.new) }
    ensures spells { IfOk result (λ _. HasPut bits.old (bit false) bits.new) }
{
    bits.flag_field(FieldName::ReservedZero, false)
}

#[tactic(auto, unfolding(frame_headers::specs::Color::subsampling, frame_headers::specs::Color::coded_subsampling, crate::specs::Spelling::spelled_subsampling), using(vp9_types::proofs::Binds::writes_bind, crate::proofs::Spells::spells_on, crate::proofs::Spells::spells_none))]
fn put_subsampling(
    bits: &mut BitWriter,
    profile: u8,
    ss_x: bool,
    ss_y: bool,
) -> Result<(), AllocError>
    requires even { is_odd_profile profile ≡ false → (ss_x ≡ true) × (ss_y ≡ true) }
    requires odd { is_odd_profile profile ≡ true → ss_x ≡ true → ss_y ≡ false }
    ensures puts { IfOk result (λ _. Puts (subsampling profile) bits.old (ss_x, ss_y) bits.new) }
    ensures spells { IfOk result (λ _. HasPut bits.old (spelled_subsampling profile ss_x ss_y) bits.new) }
{
    if profile % 2 == 0 {
        return Ok(());
    }
    bits.flag_field(FieldName::SubsamplingX, ss_x)?;
    bits.flag_field(FieldName::SubsamplingY, ss_y)?;
    put_reserved_zero(bits)
}

/// What isn't RGB.
#[tactic(auto, unfolding(frame_headers::specs::Color::yuv_config), using(vp9_types::proofs::Binds::writes_bind, crate::proofs::Spells::spells_on))]
fn put_yuv_config(
    bits: &mut BitWriter,
    profile: u8,
    code: u8,
    color: ColorConfig,
) -> Result<(), AllocError>
    requires space { color_space_of code ≡ color.space }
    requires even { is_odd_profile profile ≡ false → (color.ss_x ≡ true) × (color.ss_y ≡ true) }
    requires odd { is_odd_profile profile ≡ true → color.ss_x ≡ true → color.ss_y ≡ false }
    ensures puts { IfOk result (λ _. Puts (yuv_config profile color.depth code) bits.old color bits.new) }
    ensures spells { IfOk result (λ _. HasPut bits.old (bit color.full_range ++ spelled_subsampling profile color.ss_x color.ss_y) bits.new) }
{
    bits.flag_field(FieldName::ColorRange, color.full_range)?;
    put_subsampling(bits, profile, color.ss_x, color.ss_y)
}

/// RGB, which odd profiles have.
#[tactic(auto, unfolding(frame_headers::specs::Color::rgb_config), using(vp9_types::proofs::Binds::writes_bind, crate::proofs::Spells::spells_on))]
fn put_rgb_config(bits: &mut BitWriter, profile: u8, color: ColorConfig) -> Result<(), AllocError>
    requires odd { is_odd_profile profile ≡ true }
    requires rgb { color ≡ record { depth = color.depth; space = spaces.Rgb; full_range = true; ss_x = false; ss_y = false } }
    ensures puts { IfOk result (λ _. Puts (rgb_config profile color.depth) bits.old color bits.new) }
    ensures spells { IfOk result (λ _. HasPut bits.old (bit false) bits.new) }
{
    put_reserved_zero(bits)
}

#[tactic(auto, unfolding(frame_headers::specs::Color::color_config, crate::specs::Spelling::spelled_color), using(vp9_types::proofs::Binds::writes_bind, crate::proofs::Spells::spells_on))]
pub fn put_color_config(
    bits: &mut BitWriter,
    profile: u8,
    color: ColorConfig,
) -> Result<(), AllocError>
    requires { IsColor profile color }
    ensures puts { IfOk result (λ _. Puts (color_config profile) bits.old color bits.new) }
    ensures spells { IfOk result (λ _. HasPut bits.old (spelled_color profile color) bits.new) }
{
    put_bit_depth(bits, profile, color.depth)?;
    let code = space_code(color.space);
    bits.byte(FieldName::ColorSpace, 3, code)?;
    if code == RGB {
        put_rgb_config(bits, profile, color)
    } else {
        put_yuv_config(bits, profile, code, color)
    }
}

/// The colours of an intra-only frame, which codes none in profile 0.
#[tactic(auto, unfolding(frame_headers::specs::Color::intra_only_color, crate::specs::Spelling::spelled_intra_only_color), using(vp9_types::proofs::Binds::writes_bind, crate::proofs::Spells::spells_on, crate::proofs::Spells::spells_none))]
pub fn put_intra_only_color(
    bits: &mut BitWriter,
    profile: u8,
    color: ColorConfig,
) -> Result<(), AllocError>
    requires { IsIntraOnlyColor profile color }
    ensures puts { IfOk result (λ _. Puts (intra_only_color profile) bits.old color bits.new) }
    ensures spells { IfOk result (λ _. HasPut bits.old (spelled_intra_only_color profile color) bits.new) }
{
    if profile == 0 {
        return Ok(());
    }
    put_color_config(bits, profile, color)
}
