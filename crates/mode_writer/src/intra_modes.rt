//! Modes of the blocks of intra frames.

ghost use Rattle.std.specs.Prelude.{◌≡◌, IfOk, ◌∷◌, []};
ghost use Rattle.bool_encoder.specs.WrittenBools.{Puts};
ghost use Rattle.mode_syntax.specs.IntraModes.{intra_mode_symbol, default_intra_mode, default_uv_mode, default_luma_modes};
ghost use Rattle.mode_syntax.specs.Code.{one_mode, two_rows, two_columns, four_modes, modes_by_size};
ghost use Rattle.mode_writer.specs.ModeFits.{CanLuma};

use bool_encoder::{BoolEncoder, put_tree};
use mode_syntax::EdgeModes;
use std::alloc::AllocError;
use vp9_tables::{intra_mode_tree, kf_uv_mode, kf_y_mode};
use vp9_types::{BlockSize, IntraMode};

#[tactic(auto, unfolding(mode_syntax::specs::IntraModes::intra_mode_symbol), using(vp9_types::proofs::Binds::writes_bind, crate::proofs::Numbers::intra_of_its_number))]
fn put_mode(encoder: &mut BoolEncoder, probs: &[u8; 9], mode: IntraMode) -> Result<(), AllocError>
    ensures { IfOk result (λ _. Puts (intra_mode_symbol probs.now) encoder.old mode encoder.new) }
{
    put_tree(encoder, intra_mode_tree(), probs, mode as u8)
}

#[tactic(auto, unfolding(mode_syntax::specs::IntraModes::default_intra_mode))]
fn put_default_intra_mode(
    encoder: &mut BoolEncoder,
    above: IntraMode,
    left: IntraMode,
    mode: IntraMode,
) -> Result<(), AllocError>
    ensures { IfOk result (λ _. Puts (default_intra_mode above left) encoder.old mode encoder.new) }
{
    put_mode(encoder, kf_y_mode(above, left), mode)
}

#[tactic(auto, unfolding(mode_syntax::specs::IntraModes::default_uv_mode))]
pub(crate) fn put_default_uv_mode(
    encoder: &mut BoolEncoder,
    luma: IntraMode,
    mode: IntraMode,
) -> Result<(), AllocError>
    ensures { IfOk result (λ _. Puts (default_uv_mode luma) encoder.old mode encoder.new) }
{
    put_mode(encoder, kf_uv_mode(luma), mode)
}

/// One mode for all quarters.
#[tactic(auto, unfolding(mode_syntax::specs::Code::one_mode), using(vp9_types::proofs::Binds::writes_bind))]
fn put_one_mode(
    encoder: &mut BoolEncoder,
    edge: EdgeModes,
    mode: IntraMode,
) -> Result<(), AllocError>
    ensures { IfOk result (λ _. Puts (one_mode edge) encoder.old (mode ∷ mode ∷ mode ∷ mode ∷ []) encoder.new) }
{
    put_default_intra_mode(encoder, edge.above_first, edge.left_first, mode)
}

#[tactic(auto, unfolding(mode_syntax::specs::Code::two_rows), using(vp9_types::proofs::Binds::writes_bind))]
fn put_two_rows(
    encoder: &mut BoolEncoder,
    edge: EdgeModes,
    upper: IntraMode,
    lower: IntraMode,
) -> Result<(), AllocError>
    ensures { IfOk result (λ _. Puts (two_rows edge) encoder.old (upper ∷ upper ∷ lower ∷ lower ∷ []) encoder.new) }
{
    put_default_intra_mode(encoder, edge.above_first, edge.left_first, upper)?;
    put_default_intra_mode(encoder, upper, edge.left_second, lower)
}

#[tactic(auto, unfolding(mode_syntax::specs::Code::two_columns), using(vp9_types::proofs::Binds::writes_bind))]
fn put_two_columns(
    encoder: &mut BoolEncoder,
    edge: EdgeModes,
    left: IntraMode,
    right: IntraMode,
) -> Result<(), AllocError>
    ensures { IfOk result (λ _. Puts (two_columns edge) encoder.old (left ∷ right ∷ left ∷ right ∷ []) encoder.new) }
{
    put_default_intra_mode(encoder, edge.above_first, edge.left_first, left)?;
    put_default_intra_mode(encoder, edge.above_second, left, right)
}

#[tactic(auto, unfolding(mode_syntax::specs::Code::four_modes), using(vp9_types::proofs::Binds::writes_bind))]
fn put_four_modes(
    encoder: &mut BoolEncoder,
    edge: EdgeModes,
    first: IntraMode,
    second: IntraMode,
    third: IntraMode,
    fourth: IntraMode,
) -> Result<(), AllocError>
    ensures { IfOk result (λ _. Puts (four_modes edge) encoder.old (first ∷ second ∷ third ∷ fourth ∷ []) encoder.new) }
{
    put_default_intra_mode(encoder, edge.above_first, edge.left_first, first)?;
    put_default_intra_mode(encoder, edge.above_second, first, second)?;
    put_default_intra_mode(encoder, first, edge.left_second, third)?;
    put_default_intra_mode(encoder, second, third, fourth)
}

#[tactic(auto, unfolding(mode_syntax::specs::Code::modes_by_size))]
fn put_by_size(
    encoder: &mut BoolEncoder,
    size: BlockSize,
    edge: EdgeModes,
    modes: [IntraMode; 4],
) -> Result<(), AllocError>
    requires { CanLuma size modes }
    ensures { IfOk result (λ _. Puts (modes_by_size size edge) encoder.old modes encoder.new) }
{
    let [first, second, third, fourth] = modes;
    match size {
        BlockSize::B4x4 => put_four_modes(encoder, edge, first, second, third, fourth),
        BlockSize::B4x8 => put_two_columns(encoder, edge, first, second),
        BlockSize::B8x4 => put_two_rows(encoder, edge, first, third),
        _ => put_one_mode(encoder, edge, first),
    }
}

/// The modes of the quarters of a block.
pub(crate) fn put_luma_modes(
    encoder: &mut BoolEncoder,
    size: BlockSize,
    edge: EdgeModes,
    modes: [IntraMode; 4],
) -> Result<(), AllocError>
    requires { CanLuma size modes }
    ensures { IfOk result (λ _. Puts (default_luma_modes size edge) encoder.old modes encoder.new) }
{
    put_by_size(encoder, size, edge, modes)
}
