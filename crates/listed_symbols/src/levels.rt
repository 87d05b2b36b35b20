//! The levels of a transform block.

ghost use Rattle.std.specs.Prelude.{◌≡◌, ◌<◌, ◌≤◌, true, length};
ghost use Rattle.std.specs.List.{All, list_all};
ghost use Rattle.listed_symbols.specs.ListedLevels.{by_position, can_levels, ends, is_coded, is_zero};

use vp9_types::Depth;

/// Whether the last category of tokens can say a level.
fn is_coded(depth: Depth, level: i32) -> bool
    ensures { result ≡ is_coded depth level }
{
    let limit: u32 = match depth {
        Depth::Eight => 67 + (1 << 14),
        Depth::Ten => 67 + (1 << 16),
        Depth::Twelve => 67 + (1 << 18),
    };
    level.unsigned_abs() < limit
}

fn are_coded(depth: Depth, levels: &[i32]) -> bool
    ensures { result ≡ list_all (is_coded depth) levels.now }
{
    levels.iter().all(|level| is_coded(depth, *level))
}

fn is_zero(level: i32) -> bool
    ensures { result ≡ is_zero level }
{
    level.unsigned_abs() == 0
}

/// Whether the last of so many levels isn't zero.
fn ends(levels: &[i32]) -> bool
    ensures { result ≡ ends levels.now }
{
    levels.is_empty() || !is_zero(levels[levels.len() - 1])
}

/// Whether tokens can say levels in the first places of a scan of so many.
#[tactic(auto, unfolding(crate::specs::ListedLevels::can_levels))]
pub(crate) fn can_levels(depth: Depth, places: usize, levels: &[i32]) -> bool
    ensures is { result ≡ can_levels depth places levels.now }
    ensures few { result ≡ true → length levels.now ≤ places }
{
    levels.len() <= places && are_coded(depth, levels) && (levels.len() == places || ends(levels))
}

/// Puts levels in the first places of a scan, and zeros in the others.
#[tactic(auto, unfolding(crate::specs::ListedLevels::by_position), using(crate::proofs::Placed::placed_step, crate::proofs::Placed::placed_all))]
pub(crate) fn place_levels(values: &mut [i32], scan: &[u16], levels: &[i32])
    requires within { All (λ p. p < length values.old) scan.now }
    requires whole { length scan.now ≡ length values.old }
    requires few { length levels.now ≤ length scan.now }
    ensures { values.new ≡ by_position (length scan.now) scan.now levels.now }
{
    values.fill(0);
    for k in 0..levels.len() {
        let level = levels[k];
        values[scan[k] as usize] = level;
    }
}
