//! The probabilities that a decoder starts with (section 10 of the standard).

ghost use Rattle.std.specs.Prelude.{◌≡◌, ℕ, ◌+◌, ◌*◌, ◌<◌, ◌≤◌, slice_index, length, IsTrue};
ghost use Rattle.std.specs.List.{list_all};
ghost use Rattle.vp9_tables.specs.Numbers.{component_number, intra_number};
ghost use Rattle.vp9_tables.specs.Coefficients.{is_probability, coef_place, contexts_of_band, default_tables};

use crate::data::defaults::{
    PROB_COEF, PROB_COMP_FLAG, PROB_COMP_REF, PROB_FILTER, PROB_INTER_MODE, PROB_IS_INTER,
    PROB_MV_BITS, PROB_MV_CLASS, PROB_MV_CLASS0, PROB_MV_CLASS0_FR, PROB_MV_CLASS0_HP, PROB_MV_FR,
    PROB_MV_HP, PROB_MV_JOINT, PROB_MV_SIGN, PROB_PARTITION, PROB_SINGLE_REF, PROB_SKIP, PROB_TX8,
    PROB_TX16, PROB_TX32, PROB_UV_MODE, PROB_Y_MODE,
};
use crate::kinds::Component;
use vp9_types::{IntraMode, TxSize};

/// For what starts from whole tables: none of them holds a 0.
pub fn defaults_are_probabilities()
    ensures { IsTrue (list_all (list_all is_probability) default_tables) }
{}

fn probability(table: &[u8], place: usize) -> u8
    requires index { place < length table.now }
    requires law { IsTrue (list_all is_probability table.now) }
    ensures entry { result ≡ slice_index table.now place }
    ensures least { 1 ≤ result }
{
    table[place]
}

/// Where 8x8 is the greatest transform size.
pub fn prob_tx8(context: u8) -> u8
    requires { context < 2 }
    ensures entry { result ≡ slice_index PROB_TX8 context }
    ensures least { 1 ≤ result }
{
    probability(&PROB_TX8, context as usize)
}

/// Where 16x16 is the greatest transform size.
pub fn prob_tx16(context: u8, node: u8) -> u8
    requires context { context < 2 }
    requires node { node < 2 }
    ensures entry { result ≡ slice_index PROB_TX16 (2 * context + node) }
    ensures least { 1 ≤ result }
{
    probability(&PROB_TX16, 2 * context as usize + node as usize)
}

/// Where 32x32 is the greatest transform size.
pub fn prob_tx32(context: u8, node: u8) -> u8
    requires context { context < 2 }
    requires node { node < 3 }
    ensures entry { result ≡ slice_index PROB_TX32 (3 * context + node) }
    ensures least { 1 ≤ result }
{
    probability(&PROB_TX32, 3 * context as usize + node as usize)
}

pub fn prob_skip(context: u8) -> u8
    requires { context < 3 }
    ensures entry { result ≡ slice_index PROB_SKIP context }
    ensures least { 1 ≤ result }
{
    probability(&PROB_SKIP, context as usize)
}

pub fn prob_inter_mode(context: u8, node: u8) -> u8
    requires context { context < 7 }
    requires node { node < 3 }
    ensures entry { result ≡ slice_index PROB_INTER_MODE (3 * context + node) }
    ensures least { 1 ≤ result }
{
    probability(&PROB_INTER_MODE, 3 * context as usize + node as usize)
}

pub fn prob_filter(context: u8, node: u8) -> u8
    requires context { context < 4 }
    requires node { node < 2 }
    ensures entry { result ≡ slice_index PROB_FILTER (2 * context + node) }
    ensures least { 1 ≤ result }
{
    probability(&PROB_FILTER, 2 * context as usize + node as usize)
}

pub fn prob_is_inter(context: u8) -> u8
    requires { context < 4 }
    ensures entry { result ≡ slice_index PROB_IS_INTER context }
    ensures least { 1 ≤ result }
{
    probability(&PROB_IS_INTER, context as usize)
}

pub fn prob_comp_flag(context: u8) -> u8
    requires { context < 5 }
    ensures entry { result ≡ slice_index PROB_COMP_FLAG context }
    ensures least { 1 ≤ result }
{
    probability(&PROB_COMP_FLAG, context as usize)
}

/// Node 0 is the first bool, node 1 the second.
pub fn prob_single_ref(context: u8, node: u8) -> u8
    requires context { context < 5 }
    requires node { node < 2 }
    ensures entry { result ≡ slice_index PROB_SINGLE_REF (2 * context + node) }
    ensures least { 1 ≤ result }
{
    probability(&PROB_SINGLE_REF, 2 * context as usize + node as usize)
}

pub fn prob_comp_ref(context: u8) -> u8
    requires { context < 5 }
    ensures entry { result ≡ slice_index PROB_COMP_REF context }
    ensures least { 1 ≤ result }
{
    probability(&PROB_COMP_REF, context as usize)
}

/// The group is that of the block's size.
pub fn prob_y_mode(group: u8, node: u8) -> u8
    requires group { group < 4 }
    requires node { node < 9 }
    ensures entry { result ≡ slice_index PROB_Y_MODE (9 * group + node) }
    ensures least { 1 ≤ result }
{
    probability(&PROB_Y_MODE, 9 * group as usize + node as usize)
}

/// The mode is that of luma.
pub fn prob_uv_mode(mode: IntraMode, node: u8) -> u8
    requires { node < 9 }
    ensures entry { result ≡ slice_index PROB_UV_MODE (9 * intra_number mode + node) }
    ensures least { 1 ≤ result }
{
    probability(&PROB_UV_MODE, 9 * mode as usize + node as usize)
}

pub fn prob_partition(context: u8, node: u8) -> u8
    requires context { context < 16 }
    requires node { node < 3 }
    ensures entry { result ≡ slice_index PROB_PARTITION (3 * context + node) }
    ensures least { 1 ≤ result }
{
    probability(&PROB_PARTITION, 3 * context as usize + node as usize)
}

pub fn prob_mv_joint(node: u8) -> u8
    requires { node < 3 }
    ensures entry { result ≡ slice_index PROB_MV_JOINT node }
    ensures least { 1 ≤ result }
{
    probability(&PROB_MV_JOINT, node as usize)
}

pub fn prob_mv_sign(component: Component) -> u8
    ensures entry { result ≡ slice_index PROB_MV_SIGN (component_number component) }
    ensures least { 1 ≤ result }
{
    probability(&PROB_MV_SIGN, component as usize)
}

pub fn prob_mv_class(component: Component, node: u8) -> u8
    requires { node < 10 }
    ensures entry { result ≡ slice_index PROB_MV_CLASS (10 * component_number component + node) }
    ensures least { 1 ≤ result }
{
    probability(&PROB_MV_CLASS, 10 * component as usize + node as usize)
}

pub fn prob_mv_class0(component: Component) -> u8
    ensures entry { result ≡ slice_index PROB_MV_CLASS0 (component_number component) }
    ensures least { 1 ≤ result }
{
    probability(&PROB_MV_CLASS0, component as usize)
}

/// Bit 0 is the lowest.
pub fn prob_mv_bits(component: Component, bit: u8) -> u8
    requires { bit < 10 }
    ensures entry { result ≡ slice_index PROB_MV_BITS (10 * component_number component + bit) }
    ensures least { 1 ≤ result }
{
    probability(&PROB_MV_BITS, 10 * component as usize + bit as usize)
}

pub fn prob_mv_class0_fr(component: Component, class0: u8, node: u8) -> u8
    requires class0 { class0 < 2 }
    requires node { node < 3 }
    ensures entry { result ≡ slice_index PROB_MV_CLASS0_FR (6 * component_number component + 3 * class0 + node) }
    ensures least { 1 ≤ result }
{
    probability(
        &PROB_MV_CLASS0_FR,
        6 * component as usize + 3 * class0 as usize + node as usize,
    )
}

pub fn prob_mv_fr(component: Component, node: u8) -> u8
    requires { node < 3 }
    ensures entry { result ≡ slice_index PROB_MV_FR (3 * component_number component + node) }
    ensures least { 1 ≤ result }
{
    probability(&PROB_MV_FR, 3 * component as usize + node as usize)
}

pub fn prob_mv_class0_hp(component: Component) -> u8
    ensures entry { result ≡ slice_index PROB_MV_CLASS0_HP (component_number component) }
    ensures least { 1 ≤ result }
{
    probability(&PROB_MV_CLASS0_HP, component as usize)
}

pub fn prob_mv_hp(component: Component) -> u8
    ensures entry { result ≡ slice_index PROB_MV_HP (component_number component) }
    ensures least { 1 ≤ result }
{
    probability(&PROB_MV_HP, component as usize)
}

/// Band 0 has three contexts, each other band six.
pub fn prob_coef(size: TxSize, chroma: bool, inter: bool, band: u8, context: u8, node: u8) -> u8
    requires band { band < 6 }
    requires context { context < contexts_of_band band }
    requires node { node < 3 }
    ensures entry { result ≡ slice_index PROB_COEF (3 * coef_place size chroma inter band context + node) }
    ensures least { 1 ≤ result }
{
    probability(
        &PROB_COEF,
        3 * place_of(size, chroma, inter, band, context) + node as usize,
    )
}

fn place_of(size: TxSize, chroma: bool, inter: bool, band: u8, context: u8) -> usize
    requires band { band < 6 }
    requires context { context < contexts_of_band band }
    ensures place { result ≡ coef_place size chroma inter band context }
    ensures most { result < 528 }
{
    let table = 4 * size as usize + 2 * usize::from(chroma) + usize::from(inter);
    let row = if band == 0 {
        context as usize
    } else {
        6 * band as usize + context as usize - 3
    };
    33 * table + row
}
