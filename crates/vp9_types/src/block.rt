/// The sizes of blocks, width by height in luma samples.
#[derive(Clone, Copy, Debug, PartialEq, Eq)]
pub enum BlockSize {
    B4x4,
    B4x8,
    B8x4,
    B8x8,
    B8x16,
    B16x8,
    B16x16,
    B16x32,
    B32x16,
    B32x32,
    B32x64,
    B64x32,
    B64x64,
}

/// How a square block is split.
#[derive(Clone, Copy, Debug, PartialEq, Eq)]
pub enum Partition {
    Whole,
    /// Two blocks of full width and half height.
    Horizontal,
    /// Two blocks of half width and full height.
    Vertical,
    Split,
}

/// The sizes of transform blocks, which are square.
#[derive(Clone, Copy, Debug, PartialEq, Eq)]
pub enum TxSize {
    T4x4,
    T8x8,
    T16x16,
    T32x32,
}

/// The transforms of columns and rows, the columns' first.
#[derive(Clone, Copy, Debug, PartialEq, Eq)]
pub enum TxType {
    DctDct,
    AdstDct,
    DctAdst,
    AdstAdst,
}

/// The transform sizes that a frame allows.
#[derive(Clone, Copy, Debug, PartialEq, Eq)]
pub enum TxMode {
    Only4x4,
    UpTo8x8,
    UpTo16x16,
    UpTo32x32,
    /// Each block says which.
    Selected,
}

/// The modes of intra prediction, in the order of their numbers.
#[derive(Clone, Copy, Debug, PartialEq, Eq)]
pub enum IntraMode {
    Dc,
    V,
    H,
    D45,
    D135,
    D117,
    D153,
    D207,
    D63,
    Tm,
}

/// Which vector an inter block takes.
#[derive(Clone, Copy, Debug, PartialEq, Eq)]
pub enum InterMode {
    Nearest,
    Near,
    Zero,
    New,
}

/// The kinds of interpolation filters, in the order of their numbers.
#[derive(Clone, Copy, Debug, PartialEq, Eq)]
pub enum InterpFilter {
    Regular,
    Smooth,
    Sharp,
    Bilinear,
}

/// The three references of an inter frame.
#[derive(Clone, Copy, Debug, PartialEq, Eq)]
pub enum ReferenceFrame {
    Last,
    Golden,
    Altref,
}

/// Whether the blocks of a frame have one reference or two.
#[derive(Clone, Copy, Debug, PartialEq, Eq)]
pub enum ReferenceMode {
    Single,
    Compound,
    /// Each block says which.
    Selected,
}

/// The modes of a frame that its compressed header gives.
#[derive(Clone, Copy, Debug, PartialEq, Eq)]
pub struct Modes {
    pub tx_mode: TxMode,
    pub reference_mode: ReferenceMode,
}
