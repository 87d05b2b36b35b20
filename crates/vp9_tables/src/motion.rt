ghost use Rattle.std.specs.Prelude.{◌≡◌, ℕ, ◌+◌, ◌*◌, ◌<◌, ◌≤◌, ◌∷◌, ◌++◌, [], pos, slice_index, slice_index_or, get_or, length, replicate, nat_le, nat_lt, IsTrue};
ghost use Rattle.std.specs.List.{list_all};
ghost use Rattle.vp9_types.specs.declared.block.BlockSize.{BlockSize};
ghost use Rattle.vp9_tables.specs.Numbers.{block_number, flag_number};
ghost use Rattle.vp9_tables.specs.Motion.{is_beside, offsets_of, context_place, is_counter};

use crate::data::motion::{
    COUNTER_TO_CONTEXT, MODE_COUNTERS, MV_REF_OFFSETS, REF_CONTEXTS, SUBBLOCK_OF_NEIGHBOUR,
};
use crate::kinds::{NeighbourKind, ReferenceBool};
use vp9_types::{BlockSize, ReferenceFrame};

/// Where the candidates of a block lie, in the order of their use: the row and the column, in 8x8 blocks from the
/// block's own first.
pub fn mv_ref_offset(size: BlockSize, candidate: u8) -> &'static [i8; 2]
    requires { candidate < 8 }
    ensures entry { result.now ≡ get_or MV_REF_OFFSETS (8 * block_number size + candidate) [] }
{
    &MV_REF_OFFSETS[8 * size as usize + candidate as usize]
}

/// Candidates lie above or on the left of the block, within its span or before it.
pub fn candidates_are_beside()
    ensures { (size : BlockSize) → IsTrue (list_all (is_beside size) (offsets_of size)) }
{}

/// The context of a bool of the references. Cases that can't arise, a variable reference that is the fixed one, have an
/// entry of no meaning.
pub fn ref_context(
    which: ReferenceBool,
    fixed: ReferenceFrame,
    above: NeighbourKind,
    left: NeighbourKind,
) -> u8
    ensures entry { result ≡ slice_index REF_CONTEXTS (context_place which fixed above left) }
    ensures most { result ≤ 4 }
{
    let table = 3 * which as usize + fixed as usize;
    context_at(
        &REF_CONTEXTS,
        64 * table + 8 * above as usize + left as usize,
    )
}

fn context_at(table: &[u8], place: usize) -> u8
    requires index { place < length table.now }
    requires law { IsTrue (list_all (λ n. nat_le n 4) table.now) }
    ensures entry { result ≡ slice_index table.now place }
    ensures most { result ≤ 4 }
{
    table[place]
}

/// What a neighbour of a mode counts for the context of the inter mode: modes 0 to 9 are intra, 10 to 13 nearest, near,
/// zero and new.
pub fn mode_counter(mode: u8) -> u8
    requires { mode < 14 }
    ensures entry { result ≡ slice_index MODE_COUNTERS mode }
    ensures counter { IsTrue (is_counter result) }
{
    counter_at(&MODE_COUNTERS, mode)
}

fn counter_at(table: &[u8], mode: u8) -> u8
    requires index { mode < length table.now }
    requires law { IsTrue (list_all is_counter table.now) }
    ensures entry { result ≡ slice_index table.now mode }
    ensures counter { IsTrue (is_counter result) }
{
    table[mode as usize]
}

/// The counters of all modes.
pub fn counters_of_modes()
    ensures { MODE_COUNTERS ≡ replicate 10 9 ++ (0 ∷ 0 ∷ 3 ∷ 1 ∷ []) }
{}

/// The context of the inter mode by the counters of two neighbours, 0 for one that isn't there.
pub fn counter_to_context(first: u8, second: u8) -> u8
    requires first { IsTrue (is_counter first) }
    requires second { IsTrue (is_counter second) }
    ensures entry { result ≡ slice_index COUNTER_TO_CONTEXT (first + second) }
    ensures most { result ≤ 6 }
{
    COUNTER_TO_CONTEXT[first as usize + second as usize]
}

/// The place of the vector that a neighbour below 8x8 gives to a sub-block, by whether the neighbour's offset has the
/// block's own column.
pub fn subblock_of_neighbour(own: u8, same_column: bool) -> u8
    requires { own < 4 }
    ensures entry { result ≡ slice_index SUBBLOCK_OF_NEIGHBOUR (2 * own + flag_number same_column) }
    ensures most { result < 4 }
{
    subblock_at(
        &SUBBLOCK_OF_NEIGHBOUR,
        2 * own as usize + usize::from(same_column),
    )
}

fn subblock_at(table: &[u8], place: usize) -> u8
    requires index { place < length table.now }
    requires law { IsTrue (list_all (λ n. nat_lt n 4) table.now) }
    ensures entry { result ≡ slice_index table.now place }
    ensures most { result < 4 }
{
    table[place]
}
