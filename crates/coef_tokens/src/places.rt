//! The places of a block, one after another.

ghost use Rattle.std.specs.Prelude.{◌≡◌, ◌+◌, ◌*◌, ◌<◌, ◌≤◌, ◌^◌, ℕ, List, [], length, unsigned_abs};
ghost use Rattle.std.specs.List.{All};
ghost use Rattle.counting_reader.specs.Code.{ReadsAway};
ghost use Rattle.vp9_tables.specs.Scans.{area};
ghost use Rattle.coef_tokens.specs.Places.{Tokens, Read, block_tokens, token_context};
ghost use Rattle.coef_tokens.specs.Code.{tables_of, HoldsClasses, HoldsLevels, StandsAt};

use crate::step::{Step, read_step};
use crate::tables::TokenTables;
use bool_decoder::BoolDecoder;
use counting_reader::CountingReader;

/// The context of a place behind the first, by the classes of what was read before it.
#[inline(always)]
fn context_of(tables: &TokenTables, cache: &[u8], place: usize) -> u8
    requires long { area tables.now.tx ≤ length cache.now }
    requires later { 1 ≤ place }
    requires place { place < length tables.now.scan.now }
    requires low { All (λ class. class ≤ 5) cache.now }
    ensures value { (first : ℕ) (reads : List Read) → HoldsClasses cache.now reads → result ≡ token_context (tables_of tables.now) first place reads }
    ensures most { result ≤ 5 }
{
    let above = cache[tables.neighbours[2 * place] as usize];
    let left = cache[tables.neighbours[2 * place + 1] as usize];
    (1 + above + left) / 2
}

/// The row of probabilities of a place behind the first.
#[inline(always)]
fn row_of(tables: &TokenTables, cache: &[u8], place: usize) -> usize
    requires long { area tables.now.tx ≤ length cache.now }
    requires later { 1 ≤ place }
    requires place { place < length tables.now.scan.now }
    requires low { All (λ class. class ≤ 5) cache.now }
    ensures value { (first : ℕ) → StandsAt (tables_of tables.now) first place cache.now result }
    ensures within { result + 2 < 99 }
{
    let band = tables.bands[place] as usize;
    let context = context_of(tables, cache, place) as usize;
    3 * (6 * band + context - 3)
}

/// Where the probabilities of the next place stand, if there is one: by the classes of the tokens before it, by position.
#[inline(always)]
pub fn next_row(tables: &TokenTables, cache: &[u8], place: usize) -> usize
    requires long { area tables.now.tx ≤ length cache.now }
    requires later { 1 ≤ place }
    requires low { All (λ class. class ≤ 5) cache.now }
    ensures value { place < length tables.now.scan.now → (first : ℕ) → StandsAt (tables_of tables.now) first place cache.now result }
    ensures within { result + 2 < 99 }
{
    if place < tables.scan.len() {
        row_of(tables, cache, place)
    } else {
        0
    }
}

/// Reads the tokens of a block into levels that are 0, and answers how many places it read.
#[inline(always)]
pub(crate) fn read_places<const COUNTS: bool>(
    decoder: &mut BoolDecoder,
    reader: &mut CountingReader<COUNTS>,
    tables: &TokenTables,
    first: u8,
    cache: &mut [u8],
    levels: &mut [i32],
) -> u32
    requires first { first ≤ 2 }
    requires places { length cache.old ≡ area tables.now.tx }
    requires long { length levels.old ≡ length cache.old }
    requires empty { HoldsClasses cache.old [] }
    requires clear { HoldsLevels levels.old [] }
    ensures read { (p : Tokens) × ReadsAway (block_tokens (tables_of tables.now) first) reader.old decoder.old p reader.new decoder.new
        × (result ≡ p.count) × HoldsLevels levels.new p.reads }
    ensures most { result ≤ length tables.now.scan.now }
    ensures none { result ≡ 0 → levels.new ≡ levels.old }
    ensures small { All (λ level. unsigned_abs level < 2 ^ 19) levels.new }
{
    let mut check = true;
    let mut row = 3 * first as usize;
    for place in 0..tables.scan.len() {
        let node = tables.base + row as u16;
        let probs = &tables.probs[row..];
        match read_step(decoder, reader, tables.depth, check, node, probs) {
            Step::End => return place as u32,
            Step::Zero => check = false,
            Step::Level { level, class } => {
                let position = tables.scan[place] as usize;
                levels[position] = level;
                cache[position] = class;
                check = true;
            }
        }
        row = next_row(tables, cache, place + 1);
    }
    tables.scan.len() as u32
}
