//! The fixed probabilities of intra frames (section 10 of the standard).

ghost use Rattle.std.specs.Prelude.{◌≡◌, ℕ, ◌+◌, ◌*◌, ◌<◌, ◌≤◌, [], get_or, length, IsTrue};
ghost use Rattle.std.specs.List.{All, list_all};
ghost use Rattle.vp9_tables.specs.Coefficients.{is_probability};
ghost use Rattle.vp9_tables.specs.Numbers.{intra_number};

use crate::data::intra::{KF_PARTITION, KF_UV_MODE, KF_Y_MODE};
use vp9_types::IntraMode;

/// By the modes above and on the left, the nodes of the tree of intra modes.
pub fn kf_y_mode(above: IntraMode, left: IntraMode) -> &'static [u8; 9]
    ensures row { result.now ≡ get_or KF_Y_MODE (10 * intra_number above + intra_number left) [] }
    ensures range { All (λ p. 1 ≤ p) result.now }
{
    nodes_of(&KF_Y_MODE, 10 * above as usize + left as usize)
}

/// By the mode of luma, the nodes of the tree of intra modes.
pub fn kf_uv_mode(mode: IntraMode) -> &'static [u8; 9]
    ensures row { result.now ≡ get_or KF_UV_MODE (intra_number mode) [] }
    ensures range { All (λ p. 1 ≤ p) result.now }
{
    nodes_of(&KF_UV_MODE, mode as usize)
}

/// The nodes of the tree of partitions.
pub fn kf_partition(context: u8) -> &'static [u8; 3]
    requires { context < 16 }
    ensures row { result.now ≡ get_or KF_PARTITION context [] }
    ensures range { All (λ p. 1 ≤ p) result.now }
{
    &KF_PARTITION[context as usize]
}

fn nodes_of(table: &'static [[u8; 9]], place: usize) -> &'static [u8; 9]
    requires index { place < length table.now }
    requires law { IsTrue (list_all (list_all is_probability) table.now) }
    ensures row { result.now ≡ get_or table.now place [] }
    ensures range { All (λ p. 1 ≤ p) result.now }
{
    &table[place]
}
