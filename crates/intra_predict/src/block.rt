use crate::place::IntraPlace;
use vp9_types::{IntraMode, TxSize};

/// An intra transform block of a plane.
#[derive(Clone, Copy, Debug, PartialEq, Eq)]
pub struct IntraBlock {
    pub place: IntraPlace,
    pub size: TxSize,
    pub mode: IntraMode,
}
