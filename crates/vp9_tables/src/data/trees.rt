/// Leaves: whole, horizontal, vertical, split.
pub static TREE_PARTITION: [i8; 6] = [0, 2, -1, 4, -2, -3];

/// Leaves: mode order DC, V, H, D45, D135, D117, D153, D207, D63, TM.
pub static TREE_INTRA_MODE: [i8; 18] = [
    0, 2, -9, 4, -1, 6, 8, 12, -2, 10, -4, -5, -3, 14, -8, 16, -6, -7,
];

/// Leaves: 0 nearest, 1 near, 2 zero, 3 new.
pub static TREE_INTER_MODE: [i8; 6] = [-2, 2, 0, 4, -1, -3];

/// Leaves: regular, smooth, sharp.
pub static TREE_FILTER: [i8; 4] = [0, 2, -1, -2];

/// Leaves: segments.
pub static TREE_SEGMENT: [i8; 14] = [2, 4, 6, 8, 10, 12, 0, -1, -2, -3, -4, -5, -6, -7];

/// Leaves: 0 none, 1 column, 2 row, 3 both.
pub static TREE_MV_JOINT: [i8; 6] = [0, 2, -1, 4, -2, -3];

/// Leaves: classes.
pub static TREE_MV_CLASS: [i8; 20] = [
    0, 2, -1, 4, 6, 8, -2, -3, 10, 12, -4, -5, -6, 14, 16, 18, -7, -8, -9, -10,
];

/// Leaves: the bit of class 0.
pub static TREE_MV_CLASS0: [i8; 2] = [0, -1];

/// Leaves: fractions.
pub static TREE_MV_FR: [i8; 6] = [0, 2, -1, 4, -2, -3];

/// Leaves: tokens 0 to 10 and 11, the end of the block.
pub static TREE_COEF: [i8; 22] = [
    -11, 2, 0, 4, -1, 6, 8, 12, -2, 10, -3, -4, 14, 16, -5, -6, 18, 20, -7, -8, -9, -10,
];

/// The token's tree behind its third node. Leaves: tokens 2 to 10.
pub static TREE_COEF_TAIL: [i8; 16] = [2, 6, -2, 4, -3, -4, 8, 10, -5, -6, 12, 14, -7, -8, -9, -10];

/// Leaves: transform sizes.
pub static TREE_TX8: [i8; 2] = [0, -1];

/// Leaves: transform sizes.
pub static TREE_TX16: [i8; 4] = [0, 2, -1, -2];

/// Leaves: transform sizes.
pub static TREE_TX32: [i8; 6] = [0, 2, -1, 4, -2, -3];
