//! Tests of what writes whole frames and files: lists of symbols, frames of them, made streams; and of what reads them ahead.
#![tactic(auto)]

#[cfg(test)]
mod column_tests;
#[cfg(test)]
mod listed_frames_tests;
#[cfg(test)]
mod listed_symbols_tests;
#[cfg(test)]
mod stream_forge_tests;
