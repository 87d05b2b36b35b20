//! Tests of colours.

ghost use Rattle.std.specs.Prelude.{◌≡◌, ◌≢◌, ◌<◌, ◌≤◌, true};
ghost use Rattle.vp9_types.specs.declared.shape.Depth.TheVariants as depths;
ghost use Rattle.frame_headers.specs.Color.{is_odd_profile};
ghost use Rattle.header_writer.specs.WellFormed.{IsColor, IsIntraOnlyColor};
ghost use Rattle.header_checks.specs.Code.{IsSampling};
ghost use Rattle.header_checks.specs.ColorTests.{is_color, is_depth, is_even_sampling, is_intra_only_color, is_odd_sampling, is_sampling};

use crate::same::same_color;
use frame_headers::{ColorConfig, ColorSpace};
use vp9_types::Depth;

fn is_depth(profile: u8, depth: Depth) -> bool
    ensures is { result ≡ is_depth profile depth }
    ensures eight { result ≡ true → profile < 2 → depth ≡ depths.Eight }
    ensures more { result ≡ true → 2 ≤ profile → depth ≢ depths.Eight }
    ensures complete { (profile < 2 → depth ≡ depths.Eight) → (2 ≤ profile → depth ≢ depths.Eight) → result ≡ true }
{
    if profile < 2 {
        matches!(depth, Depth::Eight)
    } else {
        !matches!(depth, Depth::Eight)
    }
}

fn is_sampling(profile: u8, color: &ColorConfig) -> bool
    ensures is { result ≡ is_sampling profile color.now }
    ensures sampling { result ≡ true → IsSampling profile color.now }
    ensures complete { IsSampling profile color.now → result ≡ true }
{
    let rgb = matches!(color.space, ColorSpace::Rgb);
    if profile % 2 != 1 {
        return !rgb && color.ss_x && color.ss_y;
    }
    if rgb {
        color.full_range && !color.ss_x && !color.ss_y
    } else {
        !(color.ss_x && color.ss_y)
    }
}

#[tactic(auto, unfolding(crate::specs::ColorTests::is_color))]
pub(crate) fn is_color(profile: u8, color: &ColorConfig) -> bool
    ensures is { result ≡ is_color profile color.now }
    ensures color { result ≡ true → IsColor profile color.now }
    ensures complete { IsColor profile color.now → result ≡ true }
{
    is_depth(profile, color.depth) && is_sampling(profile, color)
}

/// Whether an intra-only frame can have these colours.
#[tactic(auto, unfolding(crate::specs::ColorTests::is_intra_only_color))]
pub(crate) fn is_intra_only_color(profile: u8, color: &ColorConfig) -> bool
    ensures is { result ≡ is_intra_only_color profile color.now }
    ensures color { result ≡ true → IsIntraOnlyColor profile color.now }
    ensures complete { IsIntraOnlyColor profile color.now → result ≡ true }
{
    if profile == 0 {
        same_color(color, &ColorConfig::DEFAULT)
    } else {
        is_color(profile, color)
    }
}
