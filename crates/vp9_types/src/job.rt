/// The jobs of a decode. `frame` is the frame's number in the file, `column` a tile column, `row` a superblock row.
#[derive(Clone, Copy, Debug, PartialEq, Eq)]
pub enum JobName {
    /// Finds the frame, and reads its headers.
    Head { frame: u64 },
    /// Parses a tile column.
    Column { frame: u64, column: u32 },
    /// Takes the verdicts of the columns, and the state after the frame.
    Close { frame: u64 },
    /// Predicts and adds a superblock row of a tile column.
    Rows { frame: u64, column: u32, row: u32 },
    /// Filters a superblock row.
    Filter { frame: u64, row: u32 },
    /// Writes what the frame shows.
    Write { frame: u64 },
    /// Ends the run.
    End { frame: u64 },
}

/// Bands of a frame, from `first` to `last`. A band is 64 rows of luma and their share of chroma.
#[derive(Clone, Copy, Debug, PartialEq, Eq)]
pub struct BandSpan {
    pub frame: u64,
    pub first: u32,
    pub last: u32,
}

/// The bytes from `from` up to `to`, which isn't one of them.
#[derive(Clone, Copy, Debug, Default, PartialEq, Eq)]
pub struct Span {
    pub from: usize,
    pub to: usize,
}
