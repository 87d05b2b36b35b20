/// What a step makes of two values.
#[derive(Clone, Copy, Debug, PartialEq, Eq)]
pub struct Two {
    pub first: i32,
    pub second: i32,
}

/// What a step makes of four values, and whether the values on the way to them are in range.
#[derive(Clone, Copy, Debug, PartialEq, Eq)]
pub struct Four {
    pub in_range: bool,
    pub first: i32,
    pub second: i32,
    pub third: i32,
    pub fourth: i32,
}
