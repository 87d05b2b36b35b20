//! Entries of a tree's array.

ghost use Rattle.std.specs.Prelude.{◌≡◌, ◌+◌, ◌<◌, ◌≤◌, drop, length};
ghost use Rattle.vp9_types.specs.Trees.{entry_at};
ghost use Rattle.counting_reader.specs.Code.{branch_of};

/// What an entry stands for.
#[derive(Clone, Copy)]
pub(crate) enum Branch {
    Leaf(u8),
    /// The place of the node's two branches.
    Node(u8),
}

/// The branch that is stored at a place.
#[inline(always)]
pub(crate) fn branch_at(tree: &[i8], place: usize) -> Branch
    requires { place < length tree.now }
    ensures { result ≡ branch_of (entry_at tree.now place) }
{
    let entry = tree[place];
    if entry > 0 {
        Branch::Node(entry.unsigned_abs())
    } else {
        Branch::Leaf(entry.unsigned_abs())
    }
}

/// The probabilities of a tree's nodes, from a place on.
#[inline(always)]
pub fn nodes_from(probs: &[u8], first: u16) -> &[u8]
    requires { first ≤ length probs.now }
    ensures list { result.now ≡ drop first probs.now }
    ensures long { first + length result.now ≡ length probs.now }
{
    &probs[first as usize..]
}
