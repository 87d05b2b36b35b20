//! Tree-coded symbols.

ghost use Rattle.std.specs.Prelude.{ℕ, ◌≡◌, ◌+◌, ◌*◌, ◌%◌, ◌<◌, ◌≤◌, ℤ, pos, neg_ℤ, length, Contains, IsTrue, IfOk};
ghost use Rattle.vp9_types.specs.Trees.{entry_at, is_tree, tree_of, tree_symbol, greatest_leaf};
ghost use Rattle.bool_encoder.specs.WrittenBools.{Puts};
ghost use Rattle.bool_encoder.specs.Code.{IsWhole, LeadsTo};
ghost use Rattle.bool_encoder.specs.TreeEntries.{is_full};

use crate::encoder::BoolEncoder;
use std::alloc::AllocError;

/// The first place of an entry.
fn place_of(tree: &[i8], entry: i8) -> usize
    requires { Contains tree.now entry }
    ensures within { result < length tree.now }
    ensures is { entry_at tree.now result ≡ entry }
{
    for (i, other) in tree.iter().enumerate() {
        if *other == entry {
            return i;
        }
    }
    0
}

/// Puts the bools that lead to an entry.
fn put_entry(
    encoder: &mut BoolEncoder,
    tree: &[i8],
    probs: &[u8],
    at: usize,
) -> Result<(), AllocError>
    requires formed { IsTrue (is_tree tree.now) }
    requires whole { IsWhole tree.now }
    requires short { length tree.now ≤ 128 }
    requires enough { length tree.now ≤ 2 * length probs.now }
    requires within { at < length tree.now }
    ensures { IfOk result (λ _. LeadsTo tree.now probs.now at encoder.old encoder.new) }
{
    let node = at - at % 2;
    if 0 < node {
        let up = place_of(tree, node as i8);
        put_entry(encoder, tree, probs, up)?;
        encoder.bit(probs[at / 2], at % 2 == 1)?;
        return Ok(());
    }
    encoder.bit(probs[0], at == 1)?;
    Ok(())
}

/// Puts a symbol, a leaf of a tree that has all leaves from 0 on.
pub fn put_tree(
    encoder: &mut BoolEncoder,
    tree: &[i8],
    probs: &[u8],
    leaf: u8,
) -> Result<(), AllocError>
    requires formed { IsTrue (is_tree tree.now) }
    requires full { IsTrue (is_full tree.now) }
    requires short { length tree.now ≤ 128 }
    requires enough { length tree.now ≤ 2 * length probs.now }
    requires low { greatest_leaf tree.now < 128 }
    requires leaf { leaf ≤ greatest_leaf tree.now }
    ensures { IfOk result (λ _. Puts (tree_symbol (tree_of tree.now) probs.now) encoder.old leaf encoder.new) }
{
    let at = place_of(tree, -(leaf as i8));
    put_entry(encoder, tree, probs, at)?;
    Ok(())
}
