//! The whole header.

ghost use Rattle.std.specs.Prelude.{◌≡◌};
ghost use Rattle.bool_decoder.specs.Bools.{Reads};
ghost use Rattle.bool_decoder.specs.Held.{window_of};
ghost use Rattle.prob_contexts.specs.ProbLists.{lists_of};
ghost use Rattle.compressed_header.specs.CompressedHeader.{inter_part, kind_part, compressed_header, IsForward};

use crate::modes::read_tx_mode;
use crate::references::read_inter_probs;
use crate::transforms::{read_coefficients, read_tx_probs};
use crate::update::read_updates;
use crate::vectors::read_vectors;
use bool_decoder::BoolDecoder;
use frame_headers::{FrameKind, Header, InterFields};
use prob_contexts::Contexts;
use vp9_types::{Modes, ReferenceMode, Rule};

#[tactic(auto, unfolding(crate::specs::CompressedHeader::inter_part, crate::specs::ReferenceProbs::read_partition_probs), using(vp9_types::proofs::Runs::run_bind))]
fn read_inter_part(
    decoder: &mut BoolDecoder<'_>,
    fields: &InterFields,
    contexts: &mut Contexts,
) -> ReferenceMode
    ensures { Reads (inter_part fields.now (lists_of contexts.old)) (window_of decoder.old) (lists_of contexts.new, result) (window_of decoder.new) }
{
    let mode = read_inter_probs(decoder, fields, &mut contexts.inter);
    read_updates(decoder, &mut contexts.partitions);
    read_vectors(decoder, fields.high_precision, &mut contexts.vectors);
    mode
}

#[tactic(auto, unfolding(crate::specs::CompressedHeader::kind_part))]
fn read_kind_part(
    decoder: &mut BoolDecoder<'_>,
    kind: &FrameKind,
    contexts: &mut Contexts,
) -> ReferenceMode
    ensures { Reads (kind_part kind.now (lists_of contexts.old)) (window_of decoder.old) (lists_of contexts.new, result) (window_of decoder.new) }
{
    match kind {
        FrameKind::Key | FrameKind::IntraOnly => ReferenceMode::Single,
        FrameKind::Inter(fields) => read_inter_part(decoder, fields, contexts),
    }
}

#[tactic(auto, unfolding(crate::specs::CompressedHeader::compressed_header, crate::specs::TransformProbs::read_skip_prob), using(vp9_types::proofs::Runs::run_bind))]
fn read_modes(decoder: &mut BoolDecoder<'_>, header: &Header, contexts: &mut Contexts) -> Modes
    ensures { Reads (compressed_header header.now (lists_of contexts.old)) (window_of decoder.old) (lists_of contexts.new, result) (window_of decoder.new) }
{
    let tx_mode = read_tx_mode(decoder, header.params.quantizer.lossless());
    read_tx_probs(decoder, tx_mode, &mut contexts.tx);
    read_coefficients(decoder, tx_mode, &mut contexts.coef);
    read_updates(decoder, &mut contexts.skip);
    let reference_mode = read_kind_part(decoder, &header.kind, contexts);
    Modes {
        tx_mode,
        reference_mode,
    }
}

/// Reads the compressed header of a frame that starts from the contexts `before`. An intra frame has single references.
#[tactic(auto, unfolding(crate::specs::CompressedHeader::forward))]
pub fn read(bytes: &[u8], header: &Header, before: &Contexts) -> Result<(Contexts, Modes), Rule>
    ensures { IsForward header.now before.now bytes.now result }
{
    let mut decoder = BoolDecoder::start(bytes)?;
    let mut contexts = *before;
    let modes = read_modes(&mut decoder, header, &mut contexts);
    Ok((contexts, modes))
}
