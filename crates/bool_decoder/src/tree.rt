//! Entries of a tree's array.

ghost use Rattle.std.specs.Prelude.{◌≡◌, ◌<◌, length};

/// What an entry stands for.
#[derive(Clone, Copy)]
pub(crate) enum Branch {
    Leaf(u8),
    /// The place of the node's two branches.
    Node(usize),
}

ghost use Rattle.vp9_types.specs.Trees.{entry_at};
ghost use Rattle.bool_decoder.specs.Branches.{branch_of, FitsEntry};

/// The branch that is stored at a place.
#[inline(always)]
pub(crate) fn branch_at(tree: &[i8], place: usize) -> Branch
    requires { place < length tree.now }
    ensures is { result ≡ branch_of (entry_at tree.now place) }
    ensures fits { FitsEntry result }
{
    let entry = tree[place];
    if entry > 0 {
        Branch::Node(usize::from(entry.unsigned_abs()))
    } else {
        Branch::Leaf(entry.unsigned_abs())
    }
}
