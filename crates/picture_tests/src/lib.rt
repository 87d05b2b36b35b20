//! Tests of the layers that make samples: transforms, residue, prediction, the filter, and the text of a frame.
#![tactic(auto)]

#[cfg(test)]
mod filter;
#[cfg(test)]
mod inter;
#[cfg(test)]
mod intra;
#[cfg(test)]
mod output;
#[cfg(test)]
mod pictures;
#[cfg(test)]
mod places;
#[cfg(test)]
mod residues;
#[cfg(test)]
mod transforms;
