//! Tests of what writes: bools, headers, the symbols of blocks, packets and indexes.
#![tactic(auto)]

#[cfg(test)]
mod bool_encoder_tests;
#[cfg(test)]
mod compressed_tests;
#[cfg(test)]
mod container_writer_tests;
#[cfg(test)]
mod header_test_tests;
#[cfg(test)]
mod mode_tests;
#[cfg(test)]
mod odd_values_tests;
#[cfg(test)]
mod residue_tests;
#[cfg(test)]
mod token_tests;
#[cfg(test)]
mod uncompressed_tests;
#[cfg(test)]
mod vector_tests;
