//! The difference that makes a probability of another one.

ghost use Rattle.std.specs.Prelude.{◌≡◌, ◌≢◌, ◌≤◌, slice_index};
ghost use Rattle.vp9_tables.specs.declared.data.coefficients.TheConstants.{INV_MAP};
ghost use Rattle.compressed_header.specs.Updates.{recentred, remapped};
ghost use Rattle.compressed_writer.specs.Spelling.{place_around, difference_to, place_in_map};

/// What stands for `n` around `m`.
#[tactic(auto, unfolding(compressed_header::specs::Updates::recentred, crate::specs::Spelling::place_around))]
fn place_around(n: u8, m: u8) -> u8
    requires number { n ≤ 254 }
    requires middle { m ≤ 127 }
    requires other { n ≢ m }
    ensures is { recentred result m ≡ n }
    ensures spells { result ≡ place_around n m }
    ensures least { 1 ≤ result }
    ensures most { result ≤ 254 }
{
    if n > 2 * m {
        n
    } else if n < m {
        2 * (m - n) - 1
    } else {
        2 * (n - m)
    }
}

/// Where the map has `v`: 20 numbers, 13 apart, stand first, and the others behind them in order.
#[tactic(auto, unfolding(crate::specs::Spelling::place_in_map))]
fn place_in_map(v: u8) -> u8
    requires least { 1 ≤ v }
    requires most { v ≤ 254 }
    ensures is { slice_index INV_MAP result ≡ v }
    ensures spells { result ≡ place_in_map v }
    ensures most { result ≤ 253 }
{
    let v = u16::from(v);
    if v % 13 == 7 {
        (v / 13) as u8
    } else {
        (19 + v - (v + 5) / 13) as u8
    }
}

/// The coded difference that makes a new probability of an old one. Each has one for each other.
#[tactic(auto, unfolding(compressed_header::specs::Updates::remapped, crate::specs::Spelling::difference_to))]
pub fn difference_to(new: u8, old: u8) -> u8
    requires new { 1 ≤ new }
    requires old { 1 ≤ old }
    requires other { new ≢ old }
    ensures is { remapped result old ≡ new }
    ensures spells { result ≡ difference_to new old }
    ensures most { result ≤ 253 }
{
    let m = old - 1;
    if m <= 127 {
        place_in_map(place_around(new - 1, m))
    } else {
        place_in_map(place_around(255 - new, 254 - m))
    }
}
