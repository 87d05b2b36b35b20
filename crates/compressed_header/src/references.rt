//! Inter frames, but for vectors.

ghost use Rattle.std.specs.Prelude.{◌≡◌, ◌≤◌, not};
ghost use Rattle.bool_decoder.specs.Bools.{Reads};
ghost use Rattle.bool_decoder.specs.Held.{window_of};
ghost use Rattle.prob_contexts.specs.ProbLists.{inter_lists};
ghost use Rattle.compressed_header.specs.ReferenceProbs.{is_switchable, is_single, is_compound, is_chosen, frame_reference_mode_probs, inter_probs};

use crate::modes::{is_compound_allowed, read_reference_mode};
use crate::update::{read_updates, read_updates_if};
use bool_decoder::BoolDecoder;
use frame_headers::{FrameFilter, InterFields};
use prob_contexts::InterProbs;
use vp9_types::ReferenceMode;

fn is_switchable(filter: FrameFilter) -> bool
    ensures { result ≡ is_switchable filter }
{
    match filter {
        FrameFilter::Fixed(_) => false,
        FrameFilter::Switchable => true,
    }
}

#[tactic(auto, unfolding(crate::specs::ReferenceProbs::frame_reference_mode_probs), using(vp9_types::proofs::Runs::run_bind))]
fn read_reference_probs(decoder: &mut BoolDecoder<'_>, mode: ReferenceMode, inter: &mut InterProbs)
    ensures { Reads (frame_reference_mode_probs mode (inter_lists inter.old)) (window_of decoder.old) (inter_lists inter.new) (window_of decoder.new) }
{
    let (chosen, single, compound) = match mode {
        ReferenceMode::Single => (false, true, false),
        ReferenceMode::Compound => (false, false, true),
        ReferenceMode::Selected => (true, true, true),
    };
    read_updates_if(decoder, chosen, &mut inter.compound_flag);
    read_updates_if(decoder, single, &mut inter.single_references);
    read_updates_if(decoder, compound, &mut inter.compound_references);
}

#[tactic(auto, unfolding(crate::specs::ReferenceProbs::inter_probs, crate::specs::ReferenceProbs::read_inter_mode_probs, crate::specs::ReferenceProbs::read_interp_filter_probs, crate::specs::ReferenceProbs::read_is_inter_probs, crate::specs::ReferenceProbs::read_y_mode_probs), using(vp9_types::proofs::Runs::run_bind))]
pub fn read_inter_probs(
    decoder: &mut BoolDecoder<'_>,
    fields: &InterFields,
    inter: &mut InterProbs,
) -> ReferenceMode
    ensures { Reads (inter_probs fields.now (inter_lists inter.old)) (window_of decoder.old) (inter_lists inter.new, result) (window_of decoder.new) }
{
    read_updates(decoder, &mut inter.modes);
    read_updates_if(decoder, is_switchable(fields.filter), &mut inter.filters);
    read_updates(decoder, &mut inter.is_inter);
    let mode = read_reference_mode(decoder, is_compound_allowed(&fields.references));
    read_reference_probs(decoder, mode, inter);
    read_updates(decoder, &mut inter.y_modes);
    mode
}
