//! The candidates of a block.

ghost use Rattle.std.specs.Prelude.{◌≡◌, ◌<◌, ◌≤◌, ◌-◌, ℕ, [], None, Some, IfSome, length};
ghost use Rattle.std.specs.List.{All};
ghost use Rattle.std.specs.Option.{option_copied};
ghost use Rattle.block_plan.specs.declared.block.Prediction.TheVariants.{Inter};
ghost use Rattle.mv_prediction.specs.Vectors.{IsSmallVector};
ghost use Rattle.mv_prediction.specs.Candidates.{is_reference, is_second, turned, own_vectors, first_turned, second_turned, other_vectors, own_of, others_of, own_at, others_at, neighbour, candidate_vectors, ref_list_mv, mode_context};
ghost use Rattle.mv_prediction.specs.Code.{IsSite, HasSmallVectors, PredictsSmall, IsSmallFound, with_vectors, with_places, blocks_of, AreSmall};
ghost use Rattle.mv_prediction.specs.declared.found.Found.TheVariants.{Nothing};

use crate::found::Found;
use crate::neighbourhood::{block_before, counter_of, neighbour, quarter_for};
use crate::search::{MvSearch, SignBiases};
use crate::vector::{clamped, is_same, negated};
use block_plan::{BlockInfo, InterPrediction, Mv, Neighbours, Prediction};
use vp9_tables::{counter_to_context, mv_ref_offset};
use vp9_types::ReferenceFrame;

/// Whose vectors are wanted: of which reference, and for which quarter of a block below 8x8 by its number, or for all.
#[derive(Clone, Copy)]
pub(crate) struct Wanted {
    pub reference: ReferenceFrame,
    pub sub: Option<u8>,
}

fn is_reference(a: ReferenceFrame, b: ReferenceFrame) -> bool
    ensures { result ≡ is_reference a b }
{
    a as u8 == b as u8
}

fn is_second(second: Option<ReferenceFrame>, reference: ReferenceFrame) -> bool
    ensures { result ≡ is_second second reference }
{
    match second {
        Some(other) => is_reference(other, reference),
        None => false,
    }
}

/// With a block's vector of a reference.
#[inline(always)]
#[tactic(auto, unfolding(crate::specs::Code::with_vectors))]
fn with_own(
    found: Found,
    reference: ReferenceFrame,
    quarter: usize,
    prediction: &Prediction,
) -> Found
    requires quarter { quarter < 4 }
    requires found { IsSmallFound found }
    requires small { PredictsSmall prediction.now }
    ensures is { result ≡ with_vectors found (own_vectors reference quarter prediction.now) }
    ensures small { IsSmallFound result }
{
    match prediction {
        Prediction::Intra(_) => found,
        Prediction::Inter(p) => {
            if is_reference(p.references.first, reference) {
                found.with(p.vectors[quarter][0])
            } else if is_second(p.references.second, reference) {
                found.with(p.vectors[quarter][1])
            } else {
                found
            }
        }
    }
}

#[inline(always)]
fn turned(biases: &SignBiases, wanted: ReferenceFrame, other: ReferenceFrame, v: Mv) -> Mv
    requires { IsSmallVector v }
    ensures is { result ≡ turned biases.now wanted other v }
    ensures small { IsSmallVector result }
{
    if biases.bias_of(wanted) == biases.bias_of(other) {
        v
    } else {
        negated(v)
    }
}

#[inline(always)]
#[tactic(auto, unfolding(crate::specs::Code::with_vectors))]
fn with_first(
    found: Found,
    biases: &SignBiases,
    wanted: ReferenceFrame,
    p: &InterPrediction,
) -> Found
    requires found { IsSmallFound found }
    requires small { PredictsSmall (Inter p.now) }
    ensures is { result ≡ with_vectors found (first_turned biases.now wanted p.now) }
    ensures small { IsSmallFound result }
{
    if is_reference(p.references.first, wanted) {
        found
    } else {
        found.with(turned(biases, wanted, p.references.first, p.vectors[3][0]))
    }
}

#[inline(always)]
#[tactic(auto, unfolding(crate::specs::Code::with_vectors))]
fn with_second(
    found: Found,
    biases: &SignBiases,
    wanted: ReferenceFrame,
    p: &InterPrediction,
) -> Found
    requires found { IsSmallFound found }
    requires small { PredictsSmall (Inter p.now) }
    ensures is { result ≡ with_vectors found (second_turned biases.now wanted p.now p.now.references.second) }
    ensures small { IsSmallFound result }
{
    match p.references.second {
        None => found,
        Some(other) => {
            if is_reference(other, wanted) || is_same(p.vectors[3][0], p.vectors[3][1]) {
                found
            } else {
                found.with(turned(biases, wanted, other, p.vectors[3][1]))
            }
        }
    }
}

/// With a block's vectors of other references.
#[inline(always)]
#[tactic(auto, using(crate::proofs::Founds::both_parts, crate::proofs::Founds::with_none))]
fn with_others(
    found: Found,
    biases: &SignBiases,
    wanted: ReferenceFrame,
    prediction: &Prediction,
) -> Found
    requires found { IsSmallFound found }
    requires small { PredictsSmall prediction.now }
    ensures is { result ≡ with_vectors found (other_vectors biases.now wanted prediction.now) }
    ensures small { IsSmallFound result }
{
    match prediction {
        Prediction::Intra(_) => found,
        Prediction::Inter(p) => {
            let found = with_first(found, biases, wanted, p);
            with_second(found, biases, wanted, p)
        }
    }
}

/// With the vector that the neighbour at an offset has of the wanted reference.
#[inline(always)]
#[tactic(auto, using(crate::proofs::Founds::with_none))]
fn with_own_at<N: Neighbours>(
    found: Found,
    earlier: &N,
    search: &MvSearch,
    wanted: Wanted,
    k: u8,
) -> Found
    requires k { k < 8 }
    requires sub { IfSome wanted.sub (λ k. k < 4) }
    requires held { (r c : ℕ) → r < search.now.places.rows → search.now.at.tile_from ≤ c → c < search.now.at.tile_to → N.holds earlier.now r c }
    requires small { All HasSmallVectors (N.blocks earlier.now) }
    requires found { IsSmallFound found }
    ensures is { result ≡ with_vectors found (own_at (N.blocks earlier.now) search.now wanted.reference wanted.sub k) }
    ensures small { IsSmallFound result }
{
    match neighbour(earlier, search, k) {
        Some(block) => {
            let offset = mv_ref_offset(search.at.size, k);
            let quarter = quarter_for(wanted.sub, offset, block.size);
            with_own(found, wanted.reference, quarter, &block.prediction)
        }
        None => found,
    }
}

/// With those that it has of other references.
#[inline(always)]
#[tactic(auto, using(crate::proofs::Founds::with_none))]
fn with_others_at<N: Neighbours>(
    found: Found,
    earlier: &N,
    search: &MvSearch,
    wanted: ReferenceFrame,
    k: u8,
) -> Found
    requires k { k < 8 }
    requires held { (r c : ℕ) → r < search.now.places.rows → search.now.at.tile_from ≤ c → c < search.now.at.tile_to → N.holds earlier.now r c }
    requires small { All HasSmallVectors (N.blocks earlier.now) }
    requires found { IsSmallFound found }
    ensures is { result ≡ with_vectors found (others_at (N.blocks earlier.now) search.now wanted k) }
    ensures small { IsSmallFound result }
{
    match neighbour(earlier, search, k) {
        Some(block) => with_others(found, &search.biases, wanted, &block.prediction),
        None => found,
    }
}

/// With those of the first two neighbours, which a quarter asks by their quarters.
#[tactic(auto, using(crate::proofs::Founds::two_places))]
fn with_first_two<N: Neighbours>(earlier: &N, search: &MvSearch, wanted: Wanted) -> Found
    requires sub { IfSome wanted.sub (λ k. k < 4) }
    requires held { (r c : ℕ) → r < search.now.places.rows → search.now.at.tile_from ≤ c → c < search.now.at.tile_to → N.holds earlier.now r c }
    requires small { All HasSmallVectors (N.blocks earlier.now) }
    ensures is { result ≡ with_places (own_at (N.blocks earlier.now) search.now wanted.reference wanted.sub) Nothing 0 2 }
    ensures small { IsSmallFound result }
{
    let found = with_own_at(Found::Nothing, earlier, search, wanted, 0);
    with_own_at(found, earlier, search, wanted, 1)
}

/// With those of the other six.
fn with_other_six<N: Neighbours>(
    found: Found,
    earlier: &N,
    search: &MvSearch,
    reference: ReferenceFrame,
) -> Found
    requires held { (r c : ℕ) → r < search.now.places.rows → search.now.at.tile_from ≤ c → c < search.now.at.tile_to → N.holds earlier.now r c }
    requires small { All HasSmallVectors (N.blocks earlier.now) }
    requires found { IsSmallFound found }
    ensures is { result ≡ with_places (own_at (N.blocks earlier.now) search.now reference None) found 2 6 }
    ensures small { IsSmallFound result }
{
    let wanted = Wanted {
        reference,
        sub: None,
    };
    let mut all = found;
    for k in 2..8u8 {
        all = with_own_at(all, earlier, search, wanted, k);
        if all.is_full() {
            return all;
        }
    }
    all
}

/// With those of all eight that are of other references.
fn with_turned<N: Neighbours>(
    found: Found,
    earlier: &N,
    search: &MvSearch,
    wanted: ReferenceFrame,
) -> Found
    requires held { (r c : ℕ) → r < search.now.places.rows → search.now.at.tile_from ≤ c → c < search.now.at.tile_to → N.holds earlier.now r c }
    requires small { All HasSmallVectors (N.blocks earlier.now) }
    requires found { IsSmallFound found }
    ensures is { result ≡ with_places (others_at (N.blocks earlier.now) search.now wanted) found 0 8 }
    ensures small { IsSmallFound result }
{
    let mut all = found;
    for k in 0..8u8 {
        all = with_others_at(all, earlier, search, wanted, k);
        if all.is_full() {
            return all;
        }
    }
    all
}

/// With the vector that the block of the frame before has of a reference.
#[tactic(auto, using(crate::proofs::Founds::with_none))]
fn with_own_before(found: Found, before: Option<&BlockInfo>, reference: ReferenceFrame) -> Found
    requires found { IsSmallFound found }
    requires small { IfSome (option_copied before) HasSmallVectors }
    ensures is { result ≡ with_vectors found (own_of reference None [] (option_copied before.entry)) }
    ensures small { IsSmallFound result }
{
    match before {
        Some(block) => with_own(found, reference, 3, &block.prediction),
        None => found,
    }
}

/// With those that it has of other references.
#[tactic(auto, using(crate::proofs::Founds::with_none))]
fn with_others_before(
    found: Found,
    before: Option<&BlockInfo>,
    biases: &SignBiases,
    wanted: ReferenceFrame,
) -> Found
    requires found { IsSmallFound found }
    requires small { IfSome (option_copied before) HasSmallVectors }
    ensures is { result ≡ with_vectors found (others_of biases.now wanted (option_copied before.entry)) }
    ensures small { IsSmallFound result }
{
    match before {
        Some(block) => with_others(found, biases, wanted, &block.prediction),
        None => found,
    }
}

/// The first two of all that differ.
fn search_all<N: Neighbours, Q: Neighbours>(
    search: &MvSearch,
    wanted: Wanted,
    earlier: &N,
    before: Option<&Q>,
) -> Found
    requires sub { IfSome wanted.sub (λ k. k < 4) }
    requires held { (r c : ℕ) → r < search.now.places.rows → search.now.at.tile_from ≤ c → c < search.now.at.tile_to → N.holds earlier.now r c }
    requires held_before { IfSome (option_copied before) (λ q. Q.holds q search.now.at.row search.now.at.col) }
    requires small { All HasSmallVectors (N.blocks earlier.now) }
    requires small_before { All HasSmallVectors (blocks_of Q.blocks (option_copied before)) }
    ensures is { result ≡ with_vectors Nothing (candidate_vectors (N.blocks earlier.now) (blocks_of Q.blocks (option_copied before.entry)) search.now wanted.reference wanted.sub) }
    ensures small { IsSmallFound result }
{
    let reference = wanted.reference;
    let found = with_first_two(earlier, search, wanted);
    if found.is_full() {
        return found;
    }
    let found = with_other_six(found, earlier, search, reference);
    if found.is_full() {
        return found;
    }
    let block = block_before(before, search);
    let found = with_own_before(found, block, reference);
    if found.is_full() {
        return found;
    }
    let found = with_turned(found, earlier, search, reference);
    with_others_before(found, block, &search.biases, reference)
}

/// The vectors that other blocks suggest for a block of this reference, or for a quarter of one below 8x8, 0 to 3: those of
/// the blocks before it in its frame, and of the block that stood there in the frame before, where its vectors are used.
#[tactic(auto, unfolding(crate::specs::Candidates::ref_list_mv), using(crate::proofs::Founds::first_two_are_found))]
pub fn candidates<N: Neighbours, Q: Neighbours>(
    search: &MvSearch,
    reference: ReferenceFrame,
    sub: Option<u8>,
    earlier: &N,
    before: Option<&Q>,
) -> [Mv; 2]
    requires site { IsSite search.now }
    requires sub { IfSome sub (λ k. k < 4) }
    requires held { (r c : ℕ) → r < search.now.places.rows → search.now.at.tile_from ≤ c → c < search.now.at.tile_to → N.holds earlier.now r c }
    requires held_before { IfSome (option_copied before) (λ q. Q.holds q search.now.at.row search.now.at.col) }
    requires small { All HasSmallVectors (N.blocks earlier.now) }
    requires small_before { All HasSmallVectors (blocks_of Q.blocks (option_copied before)) }
    ensures is { result ≡ ref_list_mv (N.blocks earlier.now) (blocks_of Q.blocks (option_copied before.entry)) search.now reference sub }
    ensures small { AreSmall result }
{
    let [first, second] = search_all(search, Wanted { reference, sub }, earlier, before).vectors();
    [clamped(search, first), clamped(search, second)]
}

/// The context of a block's inter mode, 0 to 6.
#[inline(always)]
#[tactic(auto, unfolding(crate::specs::Candidates::mode_context))]
pub fn mode_context<N: Neighbours>(search: &MvSearch, earlier: &N) -> u8
    requires held { (r c : ℕ) → r < search.now.places.rows → search.now.at.tile_from ≤ c → c < search.now.at.tile_to → N.holds earlier.now r c }
    requires small { All HasSmallVectors (N.blocks earlier.now) }
    ensures is { result ≡ mode_context (N.blocks earlier.now) search.now }
    ensures most { result ≤ 6 }
{
    let first = counter_of(neighbour(earlier, search, 0));
    let second = counter_of(neighbour(earlier, search, 1));
    counter_to_context(first, second)
}
