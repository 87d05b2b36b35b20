//! One probability, and several in a row.

ghost use Rattle.std.specs.Prelude.{◌≡◌, ◌+◌, ◌≤◌, length};
ghost use Rattle.std.specs.List.{All};
ghost use Rattle.vp9_types.specs.Each.{each};
ghost use Rattle.bool_decoder.specs.Bools.{Reads, flag};
ghost use Rattle.bool_decoder.specs.Held.{window_of};
ghost use Rattle.compressed_header.specs.Updates.{recentred, remapped, diff_update_prob, update_mv_prob, updates_if, mv_updates};

use bool_decoder::BoolDecoder;
use vp9_tables::inv_map;

/// The probability that one isn't updated.
const STAYS: u8 = 252;

#[tactic(auto, unfolding(bool_decoder::specs::Bools::flag))]
fn read_flag(decoder: &mut BoolDecoder<'_>, p: u8) -> bool
    ensures { Reads (flag p) (window_of decoder.old) result (window_of decoder.new) }
{
    decoder.bit(p)
}

#[tactic(auto, unfolding(crate::specs::Updates::recentred))]
fn recentred(v: u8, m: u8) -> u8
    requires least { 1 ≤ v }
    requires most { v ≤ 254 }
    requires middle { m ≤ 127 }
    ensures value { result ≡ recentred v m }
    ensures fits { result ≤ 254 }
{
    if v > 2 * m {
        v
    } else if v % 2 == 1 {
        m - (v + 1) / 2
    } else {
        m + v / 2
    }
}

#[tactic(auto, unfolding(crate::specs::Updates::remapped))]
fn remapped(number: u8, prob: u8) -> u8
    requires number { number ≤ 254 }
    requires prob { 1 ≤ prob }
    ensures value { result ≡ remapped number prob }
    ensures least { 1 ≤ result }
{
    let v = inv_map(number);
    let m = prob - 1;
    if m <= 127 {
        1 + recentred(v, m)
    } else {
        255 - recentred(v, 254 - m)
    }
}

#[tactic(auto, unfolding(crate::specs::Updates::diff_update_prob), using(vp9_types::proofs::Runs::run_bind))]
fn read_update(decoder: &mut BoolDecoder<'_>, prob: u8) -> u8
    requires { 1 ≤ prob }
    ensures read { Reads (diff_update_prob prob) (window_of decoder.old) result (window_of decoder.new) }
    ensures least { 1 ≤ result }
{
    if !read_flag(decoder, STAYS) {
        return prob;
    }
    remapped(decoder.difference(), prob)
}

#[tactic(auto, unfolding(crate::specs::Updates::update_mv_prob), using(vp9_types::proofs::Runs::run_bind))]
fn read_vector_update(decoder: &mut BoolDecoder<'_>, prob: u8) -> u8
    requires { 1 ≤ prob }
    ensures read { Reads (update_mv_prob prob) (window_of decoder.old) result (window_of decoder.new) }
    ensures least { 1 ≤ result }
{
    if read_flag(decoder, STAYS) {
        2 * decoder.literal(7) as u8 + 1
    } else {
        prob
    }
}

pub fn read_updates(decoder: &mut BoolDecoder<'_>, probs: &mut [u8])
    requires { All (λ p. 1 ≤ p) probs.old }
    ensures read { Reads (each diff_update_prob probs.old) (window_of decoder.old) probs.new (window_of decoder.new) }
    ensures kept { All (λ p. 1 ≤ p) probs.new }
{
    let mut local = *decoder;
    for i in 0..probs.len() {
        probs[i] = read_update(&mut local, probs[i]);
    }
    *decoder = local;
}

pub fn read_vector_updates(decoder: &mut BoolDecoder<'_>, probs: &mut [u8])
    requires { All (λ p. 1 ≤ p) probs.old }
    ensures read { Reads (each update_mv_prob probs.old) (window_of decoder.old) probs.new (window_of decoder.new) }
    ensures kept { All (λ p. 1 ≤ p) probs.new }
{
    let mut local = *decoder;
    for i in 0..probs.len() {
        probs[i] = read_vector_update(&mut local, probs[i]);
    }
    *decoder = local;
}

#[tactic(auto, unfolding(crate::specs::Updates::updates_if))]
pub fn read_updates_if(decoder: &mut BoolDecoder<'_>, coded: bool, probs: &mut [u8])
    requires { All (λ p. 1 ≤ p) probs.old }
    ensures read { Reads (updates_if coded probs.old) (window_of decoder.old) probs.new (window_of decoder.new) }
    ensures kept { All (λ p. 1 ≤ p) probs.new }
{
    if coded {
        read_updates(decoder, probs);
    }
}

#[tactic(auto, unfolding(crate::specs::Updates::mv_updates), using(vp9_types::proofs::Runs::run_bind))]
pub fn read_vector_range(decoder: &mut BoolDecoder<'_>, from: usize, n: usize, probs: &mut [u8])
    requires fits { from + n ≤ length probs.old }
    requires positive { All (λ p. 1 ≤ p) probs.old }
    ensures read { Reads (mv_updates from n probs.old) (window_of decoder.old) probs.new (window_of decoder.new) }
    ensures kept { All (λ p. 1 ≤ p) probs.new }
{
    read_vector_updates(decoder, &mut probs[from..from + n]);
}
