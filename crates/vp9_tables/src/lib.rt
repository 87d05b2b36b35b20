//! The constant tables of VP9, with one accessor each and the laws of their shape.
#![tactic(auto)]

mod blocks;
mod coefficients;
pub mod data;
mod defaults;
mod filters;
mod flow_row;
mod intra;
mod kinds;
mod motion;
mod quantisers;
mod scans;
mod transforms;
mod trees;

pub use blocks::{
    biggest_tx_size, block_size, intra_tx_type, max_tx_size, size_group, ss_size, subsize,
    update_factor, uv_tx_size,
};
pub use coefficients::{
    band, bands, bands_are_runs, category_probs, coarse_numbers_come_first, energy_class, inv_map,
    pareto,
};
pub use defaults::{
    defaults_are_probabilities, prob_coef, prob_comp_flag, prob_comp_ref, prob_filter,
    prob_inter_mode, prob_is_inter, prob_mv_bits, prob_mv_class, prob_mv_class0, prob_mv_class0_fr,
    prob_mv_class0_hp, prob_mv_fr, prob_mv_hp, prob_mv_joint, prob_mv_sign, prob_partition,
    prob_single_ref, prob_skip, prob_tx8, prob_tx16, prob_tx32, prob_uv_mode, prob_y_mode,
};
pub use filters::{tap, taps, taps_are_filters};
pub use flow_row::FlowRow;
pub use intra::{kf_partition, kf_uv_mode, kf_y_mode};
pub use kinds::{Component, NeighbourKind, ReferenceBool};
pub use motion::{
    candidates_are_beside, counter_to_context, counters_of_modes, mode_counter, mv_ref_offset,
    ref_context, subblock_of_neighbour,
};
pub use quantisers::{ac_q, dc_q, quantisers_never_fall};
pub use scans::{area_of, neighbours, neighbours_are_above_and_left, scan, scans_are_orders};
pub use transforms::{
    adst_8_flow, adst_16_flow, constants_of_transforms, cos64, cosine, dct_flow, sinpi,
};
pub use trees::{
    coef_tail_tree, coef_tree, filter_tree, inter_mode_tree, intra_mode_tree, mv_class_tree,
    mv_class0_tree, mv_fr_tree, mv_joint_tree, partition_tree, segment_tree, tx8_tree, tx16_tree,
    tx32_tree,
};
