/// The components of a vector, the row's first.
#[derive(Clone, Copy, Debug, PartialEq, Eq)]
pub enum Component {
    Row,
    Column,
}

/// What the block above or on the left refers to. A compound block goes by its variable reference.
#[derive(Clone, Copy, Debug, PartialEq, Eq)]
pub enum NeighbourKind {
    Missing,
    Intra,
    SingleLast,
    SingleGolden,
    SingleAltref,
    CompoundLast,
    CompoundGolden,
    CompoundAltref,
}

/// The bools by which a block says what it refers to.
#[derive(Clone, Copy, Debug, PartialEq, Eq)]
pub enum ReferenceBool {
    IsCompound,
    /// Which of the two variable references a compound block has.
    CompoundVariable,
    /// Whether a single reference isn't the last frame.
    SingleFirst,
    /// Whether it then is altref.
    SingleSecond,
}
