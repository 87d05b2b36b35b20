//! The levels of transform blocks.

ghost use Rattle.std.specs.Prelude.{◌≡◌, ◌<◌, ◌≤◌, ℤ, pos, List, length};
ghost use Rattle.std.specs.List.{All};
ghost use Rattle.coef_tokens.specs.Places.{Tables};
ghost use Rattle.token_writer.specs.TokenFits.{CanPut};
ghost use Rattle.drawn_symbols.specs.Draws.{IsDrawn};
ghost use Rattle.drawn_symbols.specs.LevelDraws.{IsDrawnLevel, draw_level, draw_levels, draw_run, draw_some, levels_of, placed_from};

use crate::draws::Draws;

/// The levels of a transform block in the order of its scan, so many of the three.
#[derive(Clone, Copy, Debug, PartialEq, Eq)]
pub struct Levels {
    pub count: u32,
    pub values: [i32; 3],
}

#[tactic(auto, unfolding(crate::specs::LevelDraws::draw_level))]
fn draw_level(draws: &mut Draws) -> i32
    ensures drawn { IsDrawn draw_level draws.old result draws.new }
    ensures level { IsDrawnLevel result }
{
    let more = draws.draw(4);
    let sign = draws.flag();
    let level = 1 + more as i32;
    if sign { -level } else { level }
}

#[tactic(auto, unfolding(crate::specs::LevelDraws::draw_some, crate::specs::LevelDraws::draw_run))]
fn draw_some(draws: &mut Draws) -> Levels
    ensures drawn { draw_some draws.old.x ≡ (levels_of result, draws.new.x) }
    ensures levels { All IsDrawnLevel (levels_of result) }
    ensures counted { length (levels_of result) ≡ result.count }
    ensures most { result.count ≤ 3 }
{
    match draws.draw(3) {
        0 => {
            let first = draw_level(draws);
            Levels {
                count: 1,
                values: [first, 0, 0],
            }
        }
        1 => {
            let first = draw_level(draws);
            let second = draw_level(draws);
            Levels {
                count: 2,
                values: [first, second, 0],
            }
        }
        _ => {
            let first = draw_level(draws);
            let second = draw_level(draws);
            let third = draw_level(draws);
            Levels {
                count: 3,
                values: [first, second, third],
            }
        }
    }
}

#[tactic(auto, unfolding(crate::specs::LevelDraws::draw_levels))]
fn draw_in_order(draws: &mut Draws) -> Levels
    ensures drawn { draw_levels draws.old.x ≡ (levels_of result, draws.new.x) }
    ensures levels { All IsDrawnLevel (levels_of result) }
    ensures counted { length (levels_of result) ≡ result.count }
    ensures most { result.count ≤ 3 }
{
    if draws.draw(8) == 0 {
        return draw_some(draws);
    }
    Levels {
        count: 0,
        values: [0; 3],
    }
}

/// Puts levels in the first places of a scan.
fn place_levels(values: &mut [i32], scan: &[u16], levels: &Levels)
    requires long { 3 < length scan.now }
    requires within { All (λ p. p < length values.old) scan.now }
    requires most { levels.now.count ≤ 3 }
    ensures { values.new ≡ placed_from 0 scan.now (levels_of levels.now) values.old }
{
    let [first, second, third] = levels.values;
    match levels.count {
        0 => {}
        1 => {
            values[scan[0] as usize] = first;
        }
        2 => {
            values[scan[0] as usize] = first;
            values[scan[1] as usize] = second;
        }
        _ => {
            values[scan[0] as usize] = first;
            values[scan[1] as usize] = second;
            values[scan[2] as usize] = third;
        }
    }
}

/// Draws the levels of a transform block that begins inside its frame and isn't skipped, by position, and how many places of
/// its scan are coded. Its values are zeros before.
pub(crate) fn draw_levels(draws: &mut Draws, scan: &[u16], values: &mut [i32]) -> u32
    requires long { 3 < length scan.now }
    requires within { All (λ p. p < length values.old) scan.now }
    requires zeros { All (λ v. v ≡ pos 0) values.old }
    ensures drawn { (levels : List ℤ) × (draw_levels draws.old.x ≡ (levels, draws.new.x)) × (values.new ≡ placed_from 0 scan.now levels values.old) × (result ≡ length levels) }
    ensures can { (t : Tables) → t.scan ≡ scan.now → CanPut t values.new result }
{
    let levels = draw_in_order(draws);
    place_levels(values, scan, &levels);
    levels.count
}
