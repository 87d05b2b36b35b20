//! The tables, as tools/vectors.py tables writes them.

pub mod blocks;
pub mod coefficients;
pub mod cosines;
pub mod defaults;
pub mod filters;
pub mod flows;
pub mod intra;
pub mod motion;
pub mod neighbours;
pub mod quantisers;
pub mod scans;
pub mod trees;
