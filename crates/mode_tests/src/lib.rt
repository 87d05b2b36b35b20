//! Tests of the layers that read modes and vectors of blocks.
#![tactic(auto)]

#[cfg(test)]
mod candidates;
#[cfg(test)]
mod counted;
#[cfg(test)]
mod drawn_blocks;
#[cfg(test)]
mod inter_blocks;
#[cfg(test)]
mod modes;
#[cfg(test)]
mod vectors;
