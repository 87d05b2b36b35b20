/// The samples that a block of n rows of n samples is predicted from.
#[derive(Clone, Copy, Debug)]
pub struct Edges {
    /// The first 2n are those above the block, and above and right of it.
    pub above: [u16; 64],
    /// The first n are those left of the block.
    pub left: [u16; 32],
    /// The one above and left of the block.
    pub corner: u16,
    /// Whether what is above and left comes from the frame, and not from the values for what is missing.
    pub has_above: bool,
    pub has_left: bool,
}

impl Edges {
    /// Edges to be read into.
    pub fn new() -> Self {
        Edges {
            above: [0; 64],
            left: [0; 32],
            corner: 0,
            has_above: false,
            has_left: false,
        }
    }
}
