//! Tests of the program's edge: its input and outputs, and the words of its commands.
#![tactic(auto)]

#[cfg(test)]
mod command_words_tests;
#[cfg(test)]
mod edge_io_tests;
