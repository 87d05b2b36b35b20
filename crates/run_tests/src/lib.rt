//! Tests of whole runs of the program's commands, some of sizes and numbers that no one would choose, where a needless want of memory would show.
#![tactic(auto)]

#[cfg(test)]
mod files;
#[cfg(test)]
mod first_frame;
#[cfg(test)]
mod meetings;
#[cfg(test)]
mod odd_values;
#[cfg(test)]
mod read_faults;
#[cfg(test)]
mod runs;
#[cfg(test)]
mod sizes;
#[cfg(test)]
mod vp9_app_tests;
