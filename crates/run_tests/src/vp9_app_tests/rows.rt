//! Worked runs: what a command reads, writes and tells, and how it ends.

pub mod drawn_streams;
pub mod formats;
pub mod inter_decode;
pub mod intra_decode;
pub mod list;
pub mod long_runs;
pub mod overflow_frames;
pub mod webm;

pub struct Row {
    pub name: &'static str,
    pub words: &'static [&'static str],
    pub input: &'static [u8],
    pub status: u8,
    pub output: &'static [u8],
    pub note: &'static str,
}
