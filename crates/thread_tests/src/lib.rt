//! Tests of what threads share: the board of tickets, lanes and slots, and the cells of bands.
#![tactic(auto)]

#[cfg(test)]
mod band_cells_tests;
#[cfg(test)]
mod filled_bands;
#[cfg(test)]
mod progress_board_tests;
#[cfg(test)]
mod tall_frame_tests;
