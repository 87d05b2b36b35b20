//! One probability.

ghost use Rattle.std.specs.Prelude.{◌≡◌, ◌+◌, ◌*◌, ◌/◌, ◌<◌, ◌≤◌};
ghost use Rattle.backward_adapt.specs.Merge.{counted_prob, update_factor, merge_prob};

/// How fast probabilities follow their counts.
#[derive(Clone, Copy, Debug, PartialEq, Eq)]
pub enum Rate {
    Coefs,
    /// Coefficients of an inter frame after a key frame.
    CoefsAfterKey,
    Others,
}

/// The share of the zeros, of 256, rounded: by a division of 64 bits where they suffice, since one of 128 is slow.
fn rounded_share(zeros: u64, ones: u64) -> u128
    requires { 0 < zeros + ones }
    ensures { result ≡ (256 * zeros + (zeros + ones) / 2) / (zeros + ones) }
{
    if zeros < 1 << 48 && ones < 1 << 48 {
        let all = zeros + ones;
        return u128::from((256 * zeros + all / 2) / all);
    }
    let all = u128::from(zeros) + u128::from(ones);
    (256 * u128::from(zeros) + all / 2) / all
}

#[tactic(auto, unfolding(crate::specs::Merge::counted_prob))]
fn counted_prob(zeros: u64, ones: u64) -> u32
    ensures value { result ≡ counted_prob zeros ones }
    ensures least { 1 ≤ result }
    ensures most { result ≤ 255 }
{
    if zeros == 0 && ones == 0 {
        return 128;
    }
    let share = rounded_share(zeros, ones);
    if share < 1 {
        1
    } else if share > 255 {
        255
    } else {
        share as u32
    }
}

#[tactic(auto, unfolding(crate::specs::Merge::update_factor))]
fn update_factor(rate: Rate, zeros: u64, ones: u64) -> u32
    ensures value { result ≡ update_factor rate (zeros + ones) }
    ensures most { result ≤ 128 }
{
    let all = zeros.saturating_add(ones);
    match rate {
        Rate::Coefs => 112 * (all.min(24) as u32) / 24,
        Rate::CoefsAfterKey => 128 * (all.min(24) as u32) / 24,
        Rate::Others => 128 * (all.min(20) as u32) / 20,
    }
}

/// What a probability becomes whose node was left so often by a 0 and by a 1.
#[tactic(auto, unfolding(crate::specs::Merge::merge_prob))]
pub(crate) fn merge_prob(rate: Rate, before: u8, zeros: u64, ones: u64) -> u8
    requires { 1 ≤ before }
    ensures value { result ≡ merge_prob rate before zeros ones }
    ensures least { 1 ≤ result }
{
    let factor = update_factor(rate, zeros, ones);
    let counted = counted_prob(zeros, ones);
    ((u32::from(before) * (256 - factor) + counted * factor + 128) / 256) as u8
}
