//! The kinds of probabilities, and a bool that counts for one.

/// The lists of probabilities, in the order in which counts keep them.
#[derive(Clone, Copy, Debug, PartialEq, Eq)]
pub enum ProbKind {
    Tx8x8,
    Tx16x16,
    Tx32x32,
    /// All sizes, the smallest first.
    Coef,
    Skip,
    InterMode,
    Filter,
    IsInter,
    CompoundFlag,
    SingleReference,
    CompoundReference,
    YMode,
    UvMode,
    Partition,
    VectorJoint,
    VectorSign,
    VectorClass,
    VectorClass0,
    VectorBit,
    VectorClass0Fraction,
    VectorFraction,
    VectorClass0High,
    VectorHigh,
}

/// A bool that leaves the node of a probability: its kind, its place in the list of that kind, and the bool.
#[derive(Clone, Copy, Debug, PartialEq, Eq)]
pub struct CountedBool {
    pub kind: ProbKind,
    pub place: u16,
    pub one: bool,
}

ghost use Rattle.std.specs.Prelude.{◌≡◌, ◌+◌, ◌≤◌, ℕ};
ghost use Rattle.prob_contexts.specs.Code.{kind_start};
ghost use Rattle.prob_contexts.specs.Kinds.{kind_size};

impl ProbKind {
    /// Where the list of a kind starts in all lists joined.
    #[inline(always)]
    pub(crate) fn start(self) -> usize
        ensures value { result ≡ kind_start self }
        ensures within { result + kind_size self ≤ 1895 }
    {
        match self {
            ProbKind::Tx8x8 => 0,
            ProbKind::Tx16x16 => 2,
            ProbKind::Tx32x32 => 6,
            ProbKind::Coef => 12,
            ProbKind::Skip => 1596,
            ProbKind::InterMode => 1599,
            ProbKind::Filter => 1620,
            ProbKind::IsInter => 1628,
            ProbKind::CompoundFlag => 1632,
            ProbKind::SingleReference => 1637,
            ProbKind::CompoundReference => 1647,
            ProbKind::YMode => 1652,
            ProbKind::UvMode => 1688,
            ProbKind::Partition => 1778,
            ProbKind::VectorJoint => 1826,
            ProbKind::VectorSign => 1829,
            ProbKind::VectorClass => 1831,
            ProbKind::VectorClass0 => 1851,
            ProbKind::VectorBit => 1853,
            ProbKind::VectorClass0Fraction => 1873,
            ProbKind::VectorFraction => 1885,
            ProbKind::VectorClass0High => 1891,
            ProbKind::VectorHigh => 1893,
        }
    }
}
