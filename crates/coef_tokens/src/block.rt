//! The tokens of a transform block.

ghost use Rattle.std.specs.Prelude.{◌≡◌, ◌<◌, ◌≤◌, ◌^◌, [], length, unsigned_abs};
ghost use Rattle.std.specs.List.{All};
ghost use Rattle.counting_reader.specs.Code.{Reads, ReadsAway};
ghost use Rattle.vp9_tables.specs.Scans.{area};
ghost use Rattle.coef_tokens.specs.Places.{Tokens, block_tokens};
ghost use Rattle.coef_tokens.specs.Code.{tables_of, HoldsLevels};

use crate::places::read_places;
use crate::tables::TokenTables;
use bool_decoder::BoolDecoder;
use counting_reader::CountingReader;
use vp9_types::TxSize;

/// Reads the tokens of a block whose places are known before the program runs, so that its classes stand in an array of
/// their number.
#[inline(always)]
fn read_by<const COUNTS: bool, const PLACES: usize>(
    decoder: &mut BoolDecoder,
    reader: &mut CountingReader<COUNTS>,
    tables: &TokenTables,
    first: u8,
    levels: &mut [i32],
) -> u32
    requires first { first ≤ 2 }
    requires places { PLACES ≡ area tables.now.tx }
    requires long { length levels.old ≡ PLACES }
    requires clear { HoldsLevels levels.old [] }
    ensures read { (p : Tokens) × ReadsAway (block_tokens (tables_of tables.now) first) reader.old decoder.old p reader.new decoder.new
        × (result ≡ p.count) × HoldsLevels levels.new p.reads }
    ensures most { result ≤ PLACES }
    ensures none { result ≡ 0 → levels.new ≡ levels.old }
    ensures small { All (λ level. unsigned_abs level < 2 ^ 19) levels.new }
{
    let mut cache = [0; PLACES];
    read_places(decoder, reader, tables, first, &mut cache, levels)
}

/// Reads the tokens of a transform block: its levels, by position, into `levels`, which has one for each coefficient, all
/// of them 0. `first` is the context of its first place: how many of the sides above and on the left have a coefficient,
/// 0 to 2. It answers how many places of the scan are coded. The bools of a place's three nodes are counted.
#[inline(never)]
pub fn tokens<const COUNTS: bool>(
    reader: &mut CountingReader<COUNTS>,
    tables: &TokenTables,
    first: u8,
    levels: &mut [i32],
) -> u32
    requires first { first ≤ 2 }
    requires long { length levels.old ≡ area tables.now.tx }
    requires clear { HoldsLevels levels.old [] }
    ensures read { (p : Tokens) × Reads (block_tokens (tables_of tables.now) first) reader.old p reader.new
        × (result ≡ p.count) × HoldsLevels levels.new p.reads }
    ensures most { result ≤ area tables.now.tx }
    ensures none { result ≡ 0 → levels.new ≡ levels.old }
    ensures small { All (λ level. unsigned_abs level < 2 ^ 19) levels.new }
{
    // Copies, since behind references each bool would be stored, and the tables read again after each store.
    let mut decoder = reader.decoder();
    let tables = *tables;
    let count = match tables.tx {
        TxSize::T4x4 => read_by::<COUNTS, 16>(&mut decoder, reader, &tables, first, levels),
        TxSize::T8x8 => read_by::<COUNTS, 64>(&mut decoder, reader, &tables, first, levels),
        TxSize::T16x16 => read_by::<COUNTS, 256>(&mut decoder, reader, &tables, first, levels),
        TxSize::T32x32 => read_by::<COUNTS, 1024>(&mut decoder, reader, &tables, first, levels),
    };
    reader.go_on(decoder);
    count
}
