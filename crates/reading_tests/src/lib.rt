//! Tests of the layers that read containers, headers, bools and tokens, and of what adaptation makes of counts.
#![tactic(auto)]

#[cfg(test)]
mod adaptation;
#[cfg(test)]
mod bools;
#[cfg(test)]
mod compressed;
#[cfg(test)]
mod frames;
#[cfg(test)]
mod geometry;
#[cfg(test)]
mod groups;
#[cfg(test)]
mod packets;
#[cfg(test)]
mod readers;
#[cfg(test)]
mod superframes;
#[cfg(test)]
mod tables;
#[cfg(test)]
mod tokens;
#[cfg(test)]
mod webm;
