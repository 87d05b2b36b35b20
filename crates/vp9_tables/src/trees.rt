//! The trees by which symbols are coded (9.3 of the standard), as arrays: places 2k and 2k + 1 are the branches of
//! node k, whose probability has the number k. A positive entry is the place of another node, any other is minus a symbol.
#![tactic(auto, unfolding(vp9_types::specs::Trees::tree_of, vp9_types::specs::Trees::subtree))]

ghost use Rattle.std.specs.Prelude.{ℕ, ◌*◌, length, ◌≡◌, IsTrue};
ghost use Rattle.vp9_types.specs.Trees.{tree_of, is_tree, greatest_leaf};
ghost use Rattle.vp9_tables.specs.SymbolTrees.{symbols, differ, coef_tail_from, coef_tree, filter_tree, inter_mode_tree, intra_mode_tree, mv_class0_tree, mv_class_tree, mv_fr_tree, mv_joint_tree, partition_tree, segment_tree, tx16_tree, tx32_tree, tx8_tree};

use crate::data::trees::{
    TREE_COEF, TREE_COEF_TAIL, TREE_FILTER, TREE_INTER_MODE, TREE_INTRA_MODE, TREE_MV_CLASS,
    TREE_MV_CLASS0, TREE_MV_FR, TREE_MV_JOINT, TREE_PARTITION, TREE_SEGMENT, TREE_TX8, TREE_TX16,
    TREE_TX32,
};

/// Symbols: the partitions in order.
pub fn partition_tree() -> &'static [i8]
    ensures table { result.now ≡ TREE_PARTITION }
    ensures tree { tree_of result.now ≡ partition_tree }
    ensures formed { IsTrue (is_tree result.now) }
    ensures size { length result.now ≡ 2 * 3 }
    ensures greatest { greatest_leaf result.now ≡ 3 }
    ensures once { IsTrue (differ (symbols result.now)) }
{
    &TREE_PARTITION
}

/// Symbols: the intra modes in order.
pub fn intra_mode_tree() -> &'static [i8]
    ensures table { result.now ≡ TREE_INTRA_MODE }
    ensures tree { tree_of result.now ≡ intra_mode_tree }
    ensures formed { IsTrue (is_tree result.now) }
    ensures size { length result.now ≡ 2 * 9 }
    ensures greatest { greatest_leaf result.now ≡ 9 }
    ensures once { IsTrue (differ (symbols result.now)) }
{
    &TREE_INTRA_MODE
}

/// Symbols: the inter modes in order.
pub fn inter_mode_tree() -> &'static [i8]
    ensures table { result.now ≡ TREE_INTER_MODE }
    ensures tree { tree_of result.now ≡ inter_mode_tree }
    ensures formed { IsTrue (is_tree result.now) }
    ensures size { length result.now ≡ 2 * 3 }
    ensures greatest { greatest_leaf result.now ≡ 3 }
    ensures once { IsTrue (differ (symbols result.now)) }
{
    &TREE_INTER_MODE
}

/// Symbols: the filters in order, but the last.
pub fn filter_tree() -> &'static [i8]
    ensures table { result.now ≡ TREE_FILTER }
    ensures tree { tree_of result.now ≡ filter_tree }
    ensures formed { IsTrue (is_tree result.now) }
    ensures size { length result.now ≡ 2 * 2 }
    ensures greatest { greatest_leaf result.now ≡ 2 }
    ensures once { IsTrue (differ (symbols result.now)) }
{
    &TREE_FILTER
}

pub fn segment_tree() -> &'static [i8]
    ensures table { result.now ≡ TREE_SEGMENT }
    ensures tree { tree_of result.now ≡ segment_tree }
    ensures formed { IsTrue (is_tree result.now) }
    ensures size { length result.now ≡ 2 * 7 }
    ensures greatest { greatest_leaf result.now ≡ 7 }
    ensures once { IsTrue (differ (symbols result.now)) }
{
    &TREE_SEGMENT
}

/// Symbols: no component, the column, the row, both.
pub fn mv_joint_tree() -> &'static [i8]
    ensures table { result.now ≡ TREE_MV_JOINT }
    ensures tree { tree_of result.now ≡ mv_joint_tree }
    ensures formed { IsTrue (is_tree result.now) }
    ensures size { length result.now ≡ 2 * 3 }
    ensures greatest { greatest_leaf result.now ≡ 3 }
    ensures once { IsTrue (differ (symbols result.now)) }
{
    &TREE_MV_JOINT
}

pub fn mv_class_tree() -> &'static [i8]
    ensures table { result.now ≡ TREE_MV_CLASS }
    ensures tree { tree_of result.now ≡ mv_class_tree }
    ensures formed { IsTrue (is_tree result.now) }
    ensures size { length result.now ≡ 2 * 10 }
    ensures greatest { greatest_leaf result.now ≡ 10 }
    ensures once { IsTrue (differ (symbols result.now)) }
{
    &TREE_MV_CLASS
}

pub fn mv_class0_tree() -> &'static [i8]
    ensures table { result.now ≡ TREE_MV_CLASS0 }
    ensures tree { tree_of result.now ≡ mv_class0_tree }
    ensures formed { IsTrue (is_tree result.now) }
    ensures size { length result.now ≡ 2 * 1 }
    ensures greatest { greatest_leaf result.now ≡ 1 }
    ensures once { IsTrue (differ (symbols result.now)) }
{
    &TREE_MV_CLASS0
}

pub fn mv_fr_tree() -> &'static [i8]
    ensures table { result.now ≡ TREE_MV_FR }
    ensures tree { tree_of result.now ≡ mv_fr_tree }
    ensures formed { IsTrue (is_tree result.now) }
    ensures size { length result.now ≡ 2 * 3 }
    ensures greatest { greatest_leaf result.now ≡ 3 }
    ensures once { IsTrue (differ (symbols result.now)) }
{
    &TREE_MV_FR
}

/// Symbols: the tokens 0 to 10, and 11 for the end of the block.
pub fn coef_tree() -> &'static [i8]
    ensures table { result.now ≡ TREE_COEF }
    ensures tree { tree_of result.now ≡ coef_tree }
    ensures formed { IsTrue (is_tree result.now) }
    ensures size { length result.now ≡ 2 * 11 }
    ensures greatest { greatest_leaf result.now ≡ 11 }
    ensures once { IsTrue (differ (symbols result.now)) }
{
    &TREE_COEF
}

/// The tree of a token behind its third node. Symbols: the tokens 2 to 10.
pub fn coef_tail_tree() -> &'static [i8]
    ensures table { result.now ≡ TREE_COEF_TAIL }
    ensures tree { tree_of result.now ≡ coef_tail_from 0 }
    ensures formed { IsTrue (is_tree result.now) }
    ensures size { length result.now ≡ 2 * 8 }
    ensures greatest { greatest_leaf result.now ≡ 10 }
    ensures once { IsTrue (differ (symbols result.now)) }
{
    &TREE_COEF_TAIL
}

/// Symbols: the transform sizes in order. Such are also the next two.
pub fn tx8_tree() -> &'static [i8]
    ensures table { result.now ≡ TREE_TX8 }
    ensures tree { tree_of result.now ≡ tx8_tree }
    ensures formed { IsTrue (is_tree result.now) }
    ensures size { length result.now ≡ 2 * 1 }
    ensures greatest { greatest_leaf result.now ≡ 1 }
    ensures once { IsTrue (differ (symbols result.now)) }
{
    &TREE_TX8
}

pub fn tx16_tree() -> &'static [i8]
    ensures table { result.now ≡ TREE_TX16 }
    ensures tree { tree_of result.now ≡ tx16_tree }
    ensures formed { IsTrue (is_tree result.now) }
    ensures size { length result.now ≡ 2 * 2 }
    ensures greatest { greatest_leaf result.now ≡ 2 }
    ensures once { IsTrue (differ (symbols result.now)) }
{
    &TREE_TX16
}

pub fn tx32_tree() -> &'static [i8]
    ensures table { result.now ≡ TREE_TX32 }
    ensures tree { tree_of result.now ≡ tx32_tree }
    ensures formed { IsTrue (is_tree result.now) }
    ensures size { length result.now ≡ 2 * 3 }
    ensures greatest { greatest_leaf result.now ≡ 3 }
    ensures once { IsTrue (differ (symbols result.now)) }
{
    &TREE_TX32
}
