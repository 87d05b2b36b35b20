/// A step of a transform on a list of coefficients. Places are below the size of the transform, angles are in 64ths of
/// pi and below 128.
#[derive(Clone, Copy, Debug, PartialEq, Eq)]
pub enum FlowRow {
    /// What stands at each place comes from the place that is given for it. Zeros fill the list up behind the size.
    Perm([u8; 32]),
    /// Turns the pair a, b by an angle, rounded.
    Rot {
        a: u8,
        b: u8,
        angle: u8,
    },
    /// Sum and difference of a and b.
    Sum {
        a: u8,
        b: u8,
    },
    Neg {
        a: u8,
    },
    /// Turns the pairs a, b and c, d by an angle each, and rounds the sums and differences of the results alone.
    Wide {
        a: u8,
        b: u8,
        first_angle: u8,
        c: u8,
        d: u8,
        second_angle: u8,
    },
}
