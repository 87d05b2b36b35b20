ghost use Rattle.std.specs.Prelude.{◌≡◌, ◌<◌, ◌-◌};

/// Rows and columns of a frame's plane, counted in its samples.
#[derive(Clone, Copy, Debug, PartialEq, Eq)]
pub struct Area {
    pub first_row: usize,
    pub first_column: usize,
    pub rows: usize,
    pub columns: usize,
}

impl Area {
    ghost use Rattle.planes.specs.Planes.{whole_area, IsArea, StartsIn, lower_end, right_end};
    ghost use Rattle.planes.specs.Code.{place_in};

    /// The whole of a plane.
    pub fn whole(rows: usize, columns: usize) -> Area
        ensures { result ≡ whole_area rows columns }
    {
        Area {
            first_row: 0,
            first_column: 0,
            rows,
            columns,
        }
    }

    /// The first row below it.
    #[inline(always)]
    pub fn lower_end(&self) -> usize
        requires { IsArea self.now }
        ensures { result ≡ lower_end self.now }
    {
        self.first_row + self.rows
    }

    /// The first column right of it.
    #[inline(always)]
    pub fn right_end(&self) -> usize
        requires { IsArea self.now }
        ensures { result ≡ right_end self.now }
    {
        self.first_column + self.columns
    }

    /// Where the list of its samples, row after row, has the one of a row and column.
    #[inline(always)]
    pub(crate) fn place_of(&self, row: usize, column: usize) -> usize
        requires area { IsArea self.now }
        requires inside { StartsIn self.now row column }
        ensures { result ≡ place_in self.now row column }
    {
        (row - self.first_row) * self.columns + (column - self.first_column)
    }

    /// As `place_of`, in the row above. It takes the same product, so that both need it once.
    #[inline(always)]
    #[tactic(auto, using(crate::proofs::PlaneLemmas::row_up, crate::proofs::PlaneLemmas::some_row))]
    pub(crate) fn place_above(&self, row: usize, column: usize) -> usize
        requires area { IsArea self.now }
        requires inside { StartsIn self.now row column }
        requires below { self.now.first_row < row }
        ensures { result ≡ place_in self.now (row - 1) column }
    {
        self.place_of(row, column) - self.columns
    }
}
