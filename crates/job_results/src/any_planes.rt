//! Planes, whatever they keep a sample as.

use planes::FramePlanes;

/// Planes, by what they keep a sample as: one byte where the depth is 8, else two.
#[derive(Drop)]
pub enum AnyPlanes {
    Bytes(FramePlanes<u8>),
    Words(FramePlanes<u16>),
}
