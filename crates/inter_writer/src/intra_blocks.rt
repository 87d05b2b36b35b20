//! Intra blocks of inter frames.

ghost use Rattle.std.specs.Prelude.{◌≡◌, ◌≤◌, ◌∷◌, [], IfOk, length};
ghost use Rattle.bool_encoder.specs.CountedBools.{PutsValue};
ghost use Rattle.inter_modes.specs.IntraBlocks.{intra_mode, uv_mode, luma_modes, intra_block_mode_info};
ghost use Rattle.inter_modes.specs.Code.{one_coded_mode, coded_mode_rows, coded_mode_columns, four_coded_modes, coded_by_size};
ghost use Rattle.mode_writer.specs.ModeFits.{CanLuma};

use block_plan::IntraPrediction;
use bool_encoder::{BoolEncoder, put_tree};
use counting_reader::nodes_from;
use std::alloc::AllocError;
use vp9_tables::{intra_mode_tree, size_group};
use vp9_types::{BlockSize, IntraMode};

#[tactic(auto, unfolding(inter_modes::specs::IntraBlocks::intra_mode), using(bool_encoder::proofs::CountedPuts::valued_in_order, bool_encoder::proofs::CountedPuts::valued_settle, bool_encoder::proofs::CountedPuts::valued_tree, vp9_types::proofs::Binds::writes_bind, crate::proofs::Modes::intra_of_number))]
fn put_mode(
    encoder: &mut BoolEncoder,
    probs: &[u8; 36],
    group: u8,
    mode: IntraMode,
) -> Result<(), AllocError>
    requires { group ≤ 3 }
    ensures { IfOk result (λ _. PutsValue (intra_mode probs.now group) encoder.old mode encoder.new) }
{
    let nodes = nodes_from(probs, 9 * u16::from(group));
    put_tree(encoder, intra_mode_tree(), nodes, mode as u8)
}

#[tactic(auto, unfolding(inter_modes::specs::IntraBlocks::uv_mode), using(bool_encoder::proofs::CountedPuts::valued_in_order, bool_encoder::proofs::CountedPuts::valued_settle, bool_encoder::proofs::CountedPuts::valued_tree, vp9_types::proofs::Binds::writes_bind, crate::proofs::Modes::intra_of_number))]
fn put_uv_mode(
    encoder: &mut BoolEncoder,
    probs: &[u8; 90],
    luma: IntraMode,
    mode: IntraMode,
) -> Result<(), AllocError>
    ensures { IfOk result (λ _. PutsValue (uv_mode probs.now luma) encoder.old mode encoder.new) }
{
    let nodes = nodes_from(probs, 9 * luma as u16);
    put_tree(encoder, intra_mode_tree(), nodes, mode as u8)
}

#[tactic(auto, unfolding(inter_modes::specs::Code::one_coded_mode), using(bool_encoder::proofs::CountedPuts::valued_in_order, bool_encoder::proofs::CountedPuts::valued_settle, vp9_types::proofs::Binds::writes_bind))]
fn put_one_mode(
    encoder: &mut BoolEncoder,
    probs: &[u8; 36],
    group: u8,
    mode: IntraMode,
) -> Result<(), AllocError>
    requires { group ≤ 3 }
    ensures { IfOk result (λ _. PutsValue (one_coded_mode probs.now group) encoder.old (mode ∷ mode ∷ mode ∷ mode ∷ []) encoder.new) }
{
    put_mode(encoder, probs, group, mode)
}

/// 8x4: an upper and a lower one.
#[tactic(auto, unfolding(inter_modes::specs::Code::coded_mode_rows), using(bool_encoder::proofs::CountedPuts::valued_in_order, bool_encoder::proofs::CountedPuts::valued_settle, vp9_types::proofs::Binds::writes_bind))]
fn put_two_rows(
    encoder: &mut BoolEncoder,
    probs: &[u8; 36],
    upper: IntraMode,
    lower: IntraMode,
) -> Result<(), AllocError>
    ensures { IfOk result (λ _. PutsValue (coded_mode_rows probs.now) encoder.old (upper ∷ upper ∷ lower ∷ lower ∷ []) encoder.new) }
{
    put_mode(encoder, probs, 0, upper)?;
    put_mode(encoder, probs, 0, lower)
}

/// 4x8: one at the left and one at the right.
#[tactic(auto, unfolding(inter_modes::specs::Code::coded_mode_columns), using(bool_encoder::proofs::CountedPuts::valued_in_order, bool_encoder::proofs::CountedPuts::valued_settle, vp9_types::proofs::Binds::writes_bind))]
fn put_two_columns(
    encoder: &mut BoolEncoder,
    probs: &[u8; 36],
    left: IntraMode,
    right: IntraMode,
) -> Result<(), AllocError>
    ensures { IfOk result (λ _. PutsValue (coded_mode_columns probs.now) encoder.old (left ∷ right ∷ left ∷ right ∷ []) encoder.new) }
{
    put_mode(encoder, probs, 0, left)?;
    put_mode(encoder, probs, 0, right)
}

/// 4x4: one for each quarter.
#[tactic(auto, unfolding(inter_modes::specs::Code::four_coded_modes), using(bool_encoder::proofs::CountedPuts::valued_in_order, bool_encoder::proofs::CountedPuts::valued_settle, vp9_types::proofs::Binds::writes_bind))]
fn put_four_modes(
    encoder: &mut BoolEncoder,
    probs: &[u8; 36],
    first: IntraMode,
    second: IntraMode,
    third: IntraMode,
    fourth: IntraMode,
) -> Result<(), AllocError>
    ensures { IfOk result (λ _. PutsValue (four_coded_modes probs.now) encoder.old (first ∷ second ∷ third ∷ fourth ∷ []) encoder.new) }
{
    put_mode(encoder, probs, 0, first)?;
    put_mode(encoder, probs, 0, second)?;
    put_mode(encoder, probs, 0, third)?;
    put_mode(encoder, probs, 0, fourth)
}

#[tactic(auto, unfolding(inter_modes::specs::Code::coded_by_size), using(crate::proofs::Modes::four_of))]
fn put_by_size(
    encoder: &mut BoolEncoder,
    probs: &[u8; 36],
    size: BlockSize,
    luma: [IntraMode; 4],
) -> Result<(), AllocError>
    requires { CanLuma size luma }
    ensures { IfOk result (λ _. PutsValue (coded_by_size probs.now size) encoder.old luma encoder.new) }
{
    match size {
        BlockSize::B4x4 => put_four_modes(encoder, probs, luma[0], luma[1], luma[2], luma[3]),
        BlockSize::B4x8 => put_two_columns(encoder, probs, luma[0], luma[1]),
        BlockSize::B8x4 => put_two_rows(encoder, probs, luma[0], luma[2]),
        _ => put_one_mode(encoder, probs, size_group(size), luma[0]),
    }
}

fn put_luma_modes(
    encoder: &mut BoolEncoder,
    probs: &[u8; 36],
    size: BlockSize,
    luma: [IntraMode; 4],
) -> Result<(), AllocError>
    requires { CanLuma size luma }
    ensures { IfOk result (λ _. PutsValue (luma_modes probs.now size) encoder.old luma encoder.new) }
{
    put_by_size(encoder, probs, size, luma)
}

/// Puts the modes of an intra block of an inter frame.
#[tactic(auto, unfolding(inter_modes::specs::IntraBlocks::intra_block_mode_info), using(bool_encoder::proofs::CountedPuts::valued_in_order, bool_encoder::proofs::CountedPuts::valued_settle, vp9_types::proofs::Binds::writes_bind))]
pub(crate) fn put_intra_prediction(
    encoder: &mut BoolEncoder,
    y_modes: &[u8; 36],
    uv_modes: &[u8; 90],
    size: BlockSize,
    prediction: IntraPrediction,
) -> Result<(), AllocError>
    requires { CanLuma size prediction.luma }
    ensures { IfOk result (λ _. PutsValue (intra_block_mode_info y_modes.now uv_modes.now size) encoder.old prediction encoder.new) }
{
    put_luma_modes(encoder, y_modes, size, prediction.luma)?;
    put_uv_mode(encoder, uv_modes, prediction.luma[3], prediction.chroma)
}
