//! The residue of a transform block (8.6.2 and 8.7.2 of the standard): its levels are dequantised, and its rows and
//! then its columns are transformed.
#![tactic(auto)]

mod cross;
mod dequantise;
mod first;
mod group;
mod kind;
mod levels;
mod quant;
mod repeats;
mod scale;
mod turn;

pub use kind::Kind;
pub use levels::residue;
pub use quant::Quant;
