//! The residue of a block.

/// The residue of a block in a plane: for each of its transform blocks, in order, whether it has any, and its values, row
/// by row. A transform block has as many values as samples, so that the k-th of n values has those from `k * n` on.
/// Where there is no residue, the values say nothing.
#[derive(Drop)]
pub struct PlaneResidues {
    pub some: [bool; 256],
    pub values: [i32; 4096],
}

/// The residue of a block in each plane.
#[derive(Drop)]
pub struct BlockResidues {
    pub y: PlaneResidues,
    pub u: PlaneResidues,
    pub v: PlaneResidues,
}

impl PlaneResidues {
    fn new() -> PlaneResidues {
        PlaneResidues {
            some: [false; 256],
            values: [0; 4096],
        }
    }
}

impl BlockResidues {
    /// Room for the residue of any block. It is made once a tile.
    pub fn new() -> BlockResidues {
        BlockResidues {
            y: PlaneResidues::new(),
            u: PlaneResidues::new(),
            v: PlaneResidues::new(),
        }
    }
}
