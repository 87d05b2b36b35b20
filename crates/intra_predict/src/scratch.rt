use crate::edges::Edges;

/// How many samples the greatest block has.
const GREATEST_BLOCK: usize = 1024;

/// Room to predict a block in. It is made once, since making it clears it; what it holds between blocks doesn't matter.
#[derive(Drop)]
pub struct Scratch {
    pub(crate) edges: Edges,
    pub(crate) block: [u16; GREATEST_BLOCK],
}

impl Scratch {
    pub fn new() -> Self {
        Scratch {
            edges: Edges::new(),
            block: [0; GREATEST_BLOCK],
        }
    }
}
