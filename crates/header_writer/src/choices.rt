/// What the bits of a header can say in more than one way. All else is coded in the shortest way: no size to show the frame
/// at, no delta that is 0 or stays, no probability of 255, no zero below 0.
#[derive(Clone, Copy, Debug, PartialEq, Eq)]
pub struct Choices {
    /// The sign biases that an error-resilient inter frame codes for last, golden and altref, which all count as 0.
    pub biases: [bool; 3],
    /// Whether an inter frame codes its size even where a reference has it.
    pub own_size: bool,
    /// Whether the loop filter's deltas are coded. Where they aren't, they are those before.
    pub deltas: bool,
    /// Whether the segments' features are coded. Where they aren't, they are those before.
    pub features: bool,
}
