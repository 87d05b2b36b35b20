use frame_output::Format;

/// What the words after the program's name ask for.
#[derive(Clone, Copy, Debug, PartialEq, Eq)]
pub enum Command {
    /// A line for each frame.
    List,
    /// The frames that are shown.
    Decode(DecodeOptions),
    /// A made stream.
    Make(MadeStream),
    /// What a made stream is decoded to, in a line.
    Trial(MadeStream),
}

/// How a file is decoded and its frames are written. All but the format changes nothing of what is written.
#[derive(Clone, Copy, Debug, PartialEq, Eq)]
pub struct DecodeOptions {
    /// On one thread.
    pub plain: bool,
    /// How many workers, 1 to 64.
    pub workers: u8,
    /// How many frames may be under way at once, 2 to 16.
    pub window: u8,
    pub format: Format,
}

/// Which stream is made.
#[derive(Clone, Copy, Debug, PartialEq, Eq)]
pub struct MadeStream {
    /// The number that all of it is drawn from.
    pub number: u32,
    /// How many frames it has, 1 to 1000.
    pub frames: u32,
}
