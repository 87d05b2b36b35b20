/// How frames are written.
#[derive(Clone, Copy, Debug, PartialEq, Eq)]
pub enum Format {
    /// The samples alone.
    Raw,
    /// A line for each frame: the MD5 of its samples, and its size.
    Md5,
    /// YUV4MPEG2: a header, and each frame behind a line of its own.
    Y4m,
}

/// How a frame is put.
#[derive(Clone, Copy, Debug, PartialEq, Eq)]
pub struct Rendering {
    pub format: Format,
    /// The frame rate: a number of frames, and in how many seconds.
    pub rate: (u32, u32),
    /// No frame was put before.
    pub first: bool,
}
