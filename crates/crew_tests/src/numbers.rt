ghost use Rattle.std.specs.Prelude.{◌≡◌, ◌<◌};

use crate::tally::{Number, Tally};
use job_crew::{Building, Jobs, LIVE, LastResult, Layout, Output, Results, Start};
use job_order::{Meaning, Shown};
use vp9_types::{BandSpan, JobName};

/// What was written: a number for each frame. A write that it refuses tears it.
#[derive(Drop)]
pub struct Paper {
    pub numbers: Vec<u64>,
    pub is_torn: bool,
}

impl<'a> Output<Number<'a>> for Paper {
    ghost use Rattle.std.specs.Prelude.{◌≡◌, true, false, Some};

    ghost taken = { λ p. Some p.numbers.items };

    ghost may_put = { λ p. p.is_torn ≡ false };

    ghost has_refused = { λ p x. p.is_torn ≡ true };
}

/// A run of so many frames, each of so many tile columns and superblock rows.
pub struct Numbers<const FRAMES: u64, const COLUMNS: u32, const ROWS: u32>;

impl<'a, const FRAMES: u64, const COLUMNS: u32, const ROWS: u32> Meaning<Number<'a>>
    for Numbers<FRAMES, COLUMNS, ROWS> {
    ghost use Rattle.crew_tests.specs.Numbers.{number_rules, number_truth};

    ghost rules = { number_rules FRAMES COLUMNS ROWS };

    ghost truth = { number_truth ROWS };
}

impl<const FRAMES: u64, const COLUMNS: u32, const ROWS: u32> Start
    for Numbers<FRAMES, COLUMNS, ROWS> {
    ghost use Rattle.std.specs.Prelude.{[], Some};

    ghost taken = { Some [] };
}

/// Does the jobs of such a run. The output refuses one frame, and there is no memory for another. A tally counts the results.
#[derive(Drop)]
pub struct NumberJobs<'a> {
    pub refused: u64,
    pub starved: u64,
    pub tally: &'a Tally,
}

// What the slots hold behind a frame: one the frame itself, the next what had an even number last, and so on to the multiples of 128.
fn slots_after(frame: u64) -> [Option<u64>; LIVE] {
    let mut slots = [None; LIVE];
    for slot in 0..8u32 {
        slots[slot as usize] = Some((frame >> slot) << slot);
    }
    slots
}

impl<'a, const FRAMES: u64, const COLUMNS: u32, const ROWS: u32> Jobs<
    Number<'a>,
    Numbers<FRAMES, COLUMNS, ROWS>,
    Paper,
> for NumberJobs<'a> {
    fn layout(&self, head: &Number<'a>) -> Option<Layout> {
        if head.value() < FRAMES {
            Some(Layout {
                columns: COLUMNS,
                rows: if head.value() == self.starved {
                    u32::MAX
                } else {
                    ROWS
                },
            })
        } else {
            None
        }
    }

    fn building(&self, close: &Number<'a>) -> Option<Building> {
        Some(Building {
            columns: COLUMNS,
            rows: ROWS,
            shown: Some(Shown {
                frame: close.value(),
                bands: ROWS,
            }),
        })
    }

    fn live(&self, close: &Number<'a>) -> [Option<u64>; LIVE] {
        slots_after(close.value())
    }

    fn is_apart(&self, close: &Number<'a>) -> bool {
        close.value() == 0
    }

    fn reads<R: Results<Number<'a>, Numbers<FRAMES, COLUMNS, ROWS>>>(
        &self,
        frame: u64,
        _column: u32,
        row: u32,
        _results: &R,
    ) -> [Option<BandSpan>; 3] {
        spans_of(frame, row, ROWS)
    }

    fn run<
        R: Results<Number<'a>, Numbers<FRAMES, COLUMNS, ROWS>>
            + LastResult<Number<'a>, Numbers<FRAMES, COLUMNS, ROWS>>,
    >(&self, job: JobName, results: &R) -> Number<'a> {
        let value = match job {
            JobName::Head { frame } => {
                if frame > 0 {
                    results.result(JobName::Close { frame: frame - 1 }).value() + 1
                } else {
                    0
                }
            }
            JobName::Column { frame, .. } => {
                results.result(JobName::Head { frame });
                frame
            }
            JobName::Close { frame } => {
                see_columns::<Numbers<FRAMES, COLUMNS, ROWS>, R>(results, frame, COLUMNS);
                frame
            }
            JobName::Rows { frame, column, row } => {
                see_bands::<Numbers<FRAMES, COLUMNS, ROWS>, R>(results, frame, row, ROWS);
                if row > 0 {
                    results
                        .result(JobName::Rows {
                            frame,
                            column,
                            row: row - 1,
                        })
                        .value()
                } else {
                    results.result(JobName::Close { frame }).value()
                }
            }
            JobName::Filter { frame, row } => {
                see_row::<Numbers<FRAMES, COLUMNS, ROWS>, R>(results, frame, row, COLUMNS);
                frame
            }
            JobName::End { frame } => {
                results.last(frame);
                frame
            }
            JobName::Write { .. } => unreachable!(),
        };
        Number::new(self.tally, value)
    }

    fn starved(&self, _frame: u64) -> Number<'a> {
        Number::new(self.tally, u64::MAX)
    }

    fn write<R: Results<Number<'a>, Numbers<FRAMES, COLUMNS, ROWS>>>(
        &self,
        frame: u64,
        results: &R,
        output: &mut Paper,
    ) -> Number<'a> {
        results.result(JobName::Close { frame });
        if frame == self.refused || frame == u64::MAX || output.numbers.push(frame).is_err() {
            output.is_torn = true;
            return Number::new(self.tally, u64::MAX);
        }
        Number::new(self.tally, frame)
    }

    fn is_refused(&self, write: &Number<'a>) -> bool {
        write.value() == u64::MAX
    }
}

// The bands that a superblock row reads of the frame that this slot holds, to the one below the row.
fn span(before: u64, slot: u32, row: u32, rows: u32) -> Option<BandSpan>
    requires { slot < 8 }
{
    Some(BandSpan {
        frame: (before >> slot) << slot,
        first: 0,
        last: row.saturating_add(1).min(rows.saturating_sub(1)),
    })
}

// Those of three frames: the one before it, the one that changes least often, and another slot's in each row.
fn spans_of(frame: u64, row: u32, rows: u32) -> [Option<BandSpan>; 3] {
    let Some(before) = frame.checked_sub(1) else {
        return [None, None, None];
    };
    [
        span(before, 0, row, rows),
        span(before, 1 + row % 6, row, rows),
        span(before, 7, row, rows),
    ]
}

// A close takes what was read of the frame before, and the results of all tile columns.
fn see_columns<'a, M: Meaning<Number<'a>>, R: Results<Number<'a>, M>>(
    results: &R,
    frame: u64,
    columns: u32,
) {
    see_frame_before::<M, R>(results, frame);
    for column in 0..columns {
        results.result(JobName::Column { frame, column });
    }
}

// A filter takes a superblock row in all tile columns.
fn see_row<'a, M: Meaning<Number<'a>>, R: Results<Number<'a>, M>>(
    results: &R,
    frame: u64,
    row: u32,
    columns: u32,
) {
    for column in 0..columns {
        results.result(JobName::Rows { frame, column, row });
    }
}

// What was read of the frame before.
fn see_frame_before<'a, M: Meaning<Number<'a>>, R: Results<Number<'a>, M>>(
    results: &R,
    frame: u64,
) {
    if let Some(before) = frame.checked_sub(1) {
        results.result(JobName::Head { frame: before });
        results.result(JobName::Close { frame: before });
    }
}

// A superblock row of a column takes what was read of the frame before, and the rows of other frames that it reads.
fn see_bands<'a, M: Meaning<Number<'a>>, R: Results<Number<'a>, M>>(
    results: &R,
    frame: u64,
    row: u32,
    rows: u32,
) {
    see_frame_before::<M, R>(results, frame);
    for span in spans_of(frame, row, rows) {
        if let Some(span) = span {
            results.result(JobName::Filter {
                frame: span.frame,
                row: span.last,
            });
        }
    }
}
