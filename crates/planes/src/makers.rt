//! Blocks whose rows are made where they stand in a plane.

ghost use Rattle.std.specs.Prelude.{◌≡◌, ◌+◌, ◌*◌, ◌≤◌, ◌<◌, ℕ, length, map, slice_index};
ghost use Rattle.vp9_types.specs.Maps.{rows_of, with_block};

use vp9_types::Sample;

/// What makes rows of N samples, one by one.
pub trait RowMaker<P: Sample, const N: usize> {
    ghost use Rattle.std.specs.Prelude.{ℕ};
    ghost use Rattle.vp9_types.specs.Maps.{Map};

    /// Which rows it makes.
    ghost makes: { Self → ℕ → Type 0 };

    /// Their samples.
    ghost made: { Self → Map };

    /// Makes row i.
    fn make(&self, i: usize, row: &mut [P])
        requires makes { makes self.now i }
        requires long { length row.old ≡ N }
        ensures { (j : ℕ) → j < N → slice_index (map P.value row.new) j ≡ made self.now i j };
}

/// Makes rows of N samples at a row and column of rows of `width` samples.
#[inline(always)]
pub(crate) fn make_rows<P: Sample, const N: usize, M: RowMaker<P, N>>(
    samples: &mut [P],
    width: usize,
    row: usize,
    column: usize,
    rows: usize,
    maker: &M,
)
    requires few { N ≤ 64 }
    requires low { rows ≤ 64 }
    requires wide { column + N ≤ width }
    requires near { row + rows ≤ 65536 }
    requires apart { width ≤ 65536 }
    requires high { (row + rows) * width ≤ length samples.old }
    requires makes { (i : ℕ) → i < rows → M.makes maker.now i }
    ensures { rows_of width (map P.value samples.new) ≡ with_block (rows_of width (map P.value samples.old)) row column rows N (M.made maker.now) }
{
    let mut place = row * width + column;
    for i in 0..rows {
        maker.make(i, &mut samples[place..place + N]);
        place += width;
    }
}
