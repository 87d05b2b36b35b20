ghost use Rattle.std.specs.Prelude.{◌≡◌, ◌≤◌, ◌<◌, ◌+◌, ◌-◌, ◌*◌, ℕ, List, IfOk, length, map, slice_index};
ghost use Rattle.std.specs.Borrow.{sem};
ghost use Rattle.vp9_types.specs.Maps.{IsAtMost, IsPiece, rows_of, row_of, with_block};
ghost use Rattle.planes.specs.Planes.{PlaneSamples, IsArea, StartsIn, HasRow, HasColumn, lower_end, right_end, plane_map, with_part};

use crate::area::Area;
use crate::copies::{copy_columns, copy_rows, read_apart};
use crate::makers::{RowMaker, make_rows};
use std::alloc::{AllocError, Global};
use std::marker::Model;
use vp9_types::Sample;

/// The samples of a plane of a frame, or of a part of one. Rows and columns are those of the whole plane.
#[derive(Drop)]
pub struct SamplePlane<P: Sample> {
    area: Area,
    samples: Vec<P>,
}

impl<P: Sample> Model for SamplePlane<P> {
    ghost Value = { PlaneSamples };

    ghost view = { λ p. record { area = p.area; samples = map P.value p.samples.items } };

    ghost invariant = { λ p. IsArea p.area × (length p.samples.items ≡ p.area.rows * p.area.columns) };
}

impl<P: Sample> SamplePlane<P> {
    ghost use Rattle.planes.specs.Code.{LendsRow, with_row};

    /// Zeros. An area with a first row or column past 0 is a part of a plane.
    #[tactic(auto, using(crate::proofs::PlaneLemmas::zero_map))]
    pub fn new(alloc: Global, area: Area) -> Result<SamplePlane<P>, AllocError>
        requires { IsArea area }
        ensures area { IfOk result (λ p. p.area ≡ area) }
        ensures zero { IfOk result (λ p. plane_map p ≡ (λ _ _. 0)) }
    {
        let samples = P::zeros(alloc, area.rows * area.columns)?;
        Ok(SamplePlane { area, samples })
    }

    /// No samples, which needs no memory.
    pub(crate) fn none(alloc: Global) -> SamplePlane<P> {
        SamplePlane {
            area: Area::whole(0, 0),
            samples: Vec::new(alloc),
        }
    }

    /// Which rows and columns of the plane there are.
    #[inline(always)]
    pub fn area(&self) -> Area
        ensures value { result ≡ self.now.area }
        ensures near { IsArea result }
    {
        self.area
    }

    /// Below its area a plane has no samples: its map is 0 there.
    #[inline(always)]
    #[tactic(auto, using(crate::proofs::PlaneLemmas::below_zero))]
    pub fn zero_below(&self)
        ensures { (row column : ℕ) → lower_end self.now.area ≤ row → plane_map self.now row column ≡ 0 }
    {
        let _area = self.area;
    }

    /// So many samples of a row, from a column on.
    #[inline(always)]
    #[tactic(auto, using(crate::proofs::PlaneLemmas::row_fits, crate::proofs::PlaneLemmas::row_is))]
    pub fn row(&self, row: usize, column: usize, count: usize) -> &[P]
        requires { HasRow self.now.area row column count }
        ensures long { length result.now ≡ count }
        ensures value { map P.value result.now ≡ row_of (plane_map self.now) row column count }
        ensures samples { (j : ℕ) → j < count → slice_index (map P.value result.now) j ≡ plane_map self.now row (column + j) }
    {
        let at = self.area.place_of(row, column);
        &self.samples[at..at + count]
    }

    /// So many whole rows, and how far each of them begins behind the one above.
    #[inline(always)]
    pub fn rows(&self, row: usize, count: usize) -> (&[P], usize)
        requires some { 0 < count }
        requires few { count ≤ 256 }
        requires inside { (r : ℕ) → r < count → HasRow self.now.area (row + r) 0 self.now.area.columns }
        ensures { IsPiece (plane_map self.now) self.now.area.columns row count (map P.value result.0.now) result.1 }
    {
        let columns = self.area.columns;
        let at = self.area.place_of(row, 0);
        (&self.samples[at..at + count * columns], columns)
    }

    /// The samples of so many rows and columns, and what stands between them: from a place on to the last one of the last row.
    /// And how far each of the rows begins behind the one above.
    #[inline(always)]
    pub fn part(&self, row: usize, column: usize, rows: usize, columns: usize) -> (&[P], usize)
        requires inside { StartsIn self.now.area row column }
        requires some { 0 < rows }
        requires below { row + rows ≤ lower_end self.now.area }
        requires right { column + columns ≤ right_end self.now.area }
        ensures apart { result.1 ≡ self.now.area.columns }
        ensures near { result.1 ≤ 65536 }
        ensures long { length result.0.now ≡ (rows - 1) * result.1 + columns }
        ensures samples { (i j : ℕ) → i < rows → j < columns → slice_index (map P.value result.0.now) (i * result.1 + j) ≡ plane_map self.now (row + i) (column + j) }
    {
        let width = self.area.columns;
        let at = self.area.place_of(row, column);
        let long = (rows - 1) * width + columns;
        (&self.samples[at..at + long], width)
    }

    /// As `row`, of the row above.
    #[inline(always)]
    #[tactic(auto, using(crate::proofs::PlaneLemmas::row_fits, crate::proofs::PlaneLemmas::row_is))]
    pub fn row_above(&self, row: usize, column: usize, count: usize) -> &[P]
        requires some { 0 < row }
        requires inside { HasRow self.now.area (row - 1) column count }
        ensures long { length result.now ≡ count }
        ensures samples { (j : ℕ) → j < count → slice_index (map P.value result.now) j ≡ plane_map self.now (row - 1) (column + j) }
    {
        let from = self.area.place_above(row, column);
        &self.samples[from..from + count]
    }

    /// The sample at a row and column.
    #[inline(always)]
    #[tactic(auto, using(crate::proofs::PlaneLemmas::row_fits, crate::proofs::PlaneLemmas::sample_is))]
    pub fn sample(&self, row: usize, column: usize) -> u16
        requires { HasRow self.now.area row column 1 }
        ensures { result ≡ plane_map self.now row column }
    {
        self.samples[self.area.place_of(row, column)].widen()
    }

    /// Reads so many samples of a column, from a row on.
    #[inline(always)]
    pub fn read_column(&self, row: usize, column: usize, count: usize, to: &mut [u16])
        requires inside { HasColumn self.now.area row column count }
        requires room { count ≤ length to.old }
        ensures read { (i : ℕ) → i < count → slice_index to.new i ≡ plane_map self.now (row + i) column }
        ensures after { (i : ℕ) → count ≤ i → slice_index to.new i ≡ slice_index to.old i }
    {
        let width = self.area.columns;
        let at = self.area.place_of(row, column);
        read_apart(&self.samples, at, width, count, to);
    }

    /// Puts a block of so many rows and columns at a row and column. What lies below or right of the plane is left out.
    #[inline(always)]
    pub fn put_block(&mut self, row: usize, column: usize, rows: usize, columns: usize, block: &[P])
        requires inside { StartsIn self.old.area row column }
        requires low { rows ≤ 65536 }
        requires narrow { columns ≤ 65536 }
        requires whole { rows * columns ≤ length block.now }
        ensures area { self.new.area ≡ self.old.area }
        ensures map { plane_map self.new ≡ with_part self.old.area (plane_map self.old) row column rows columns (rows_of columns (map P.value block.now)) }
    {
        let area = self.area;
        let to = Area {
            first_row: row - area.first_row,
            first_column: column - area.first_column,
            rows: rows.min(area.lower_end() - row),
            columns: columns.min(area.right_end() - column),
        };
        copy_rows(&mut self.samples, area.columns, &to, block, columns);
    }

    /// Puts rows of N samples at a row and column, all of them inside of the plane.
    #[inline(always)]
    pub fn put_inside<const N: usize>(
        &mut self,
        row: usize,
        column: usize,
        rows: usize,
        block: &[P],
    )
        requires inside { StartsIn self.old.area row column }
        requires few { N ≤ 64 }
        requires low { rows ≤ 64 }
        requires below { row + rows ≤ lower_end self.old.area }
        requires right { column + N ≤ right_end self.old.area }
        requires whole { rows * N ≤ length block.now }
        ensures area { self.new.area ≡ self.old.area }
        ensures map { plane_map self.new ≡ with_part self.old.area (plane_map self.old) row column rows N (rows_of N (map P.value block.now)) }
    {
        let area = self.area;
        copy_columns::<P, N>(
            &mut self.samples,
            area.columns,
            row - area.first_row,
            column - area.first_column,
            rows,
            block,
        );
    }

    /// Puts rows of N samples at a row and column, as `put_block` does.
    #[inline(always)]
    pub fn put_columns<const N: usize>(
        &mut self,
        row: usize,
        column: usize,
        rows: usize,
        block: &[P],
    )
        requires inside { StartsIn self.old.area row column }
        requires few { N ≤ 64 }
        requires low { rows ≤ 64 }
        requires whole { rows * N ≤ length block.now }
        ensures area { self.new.area ≡ self.old.area }
        ensures map { plane_map self.new ≡ with_part self.old.area (plane_map self.old) row column rows N (rows_of N (map P.value block.now)) }
    {
        let area = self.area;
        if rows <= area.lower_end() - row && N <= area.right_end() - column {
            self.put_inside::<N>(row, column, rows, block);
        } else {
            self.put_block(row, column, rows, N, block);
        }
    }

    /// Puts rows of N samples at a row and column, all of them inside of the plane, each of which is made where it stands.
    #[inline(always)]
    pub fn put_made<const N: usize, M: RowMaker<P, N>>(
        &mut self,
        row: usize,
        column: usize,
        rows: usize,
        maker: &M,
    )
        requires inside { StartsIn self.old.area row column }
        requires few { N ≤ 64 }
        requires low { rows ≤ 64 }
        requires below { row + rows ≤ lower_end self.old.area }
        requires right { column + N ≤ right_end self.old.area }
        requires makes { (i : ℕ) → i < rows → M.makes maker.now i }
        ensures area { self.new.area ≡ self.old.area }
        ensures map { plane_map self.new ≡ with_part self.old.area (plane_map self.old) row column rows N (M.made maker.now) }
    {
        let area = self.area;
        make_rows::<P, N, M>(
            &mut self.samples,
            area.columns,
            row - area.first_row,
            column - area.first_column,
            rows,
            maker,
        );
    }

    /// Puts a square block at a row and column, as `put_block` does.
    #[inline(always)]
    pub fn put_square<const N: usize>(&mut self, row: usize, column: usize, block: &[P])
        requires inside { StartsIn self.old.area row column }
        requires few { N ≤ 64 }
        requires whole { N * N ≤ length block.now }
        ensures area { self.new.area ≡ self.old.area }
        ensures map { plane_map self.new ≡ with_part self.old.area (plane_map self.old) row column N N (rows_of N (map P.value block.now)) }
    {
        self.put_columns::<N>(row, column, N, block);
    }

    /// So many samples of a row, from a column on, for writing.
    #[inline(always)]
    pub fn row_mut(&mut self, row: usize, column: usize, count: usize) -> &mut [P]
        requires { HasRow self.old.area row column count }
        ensures* writes_back { sem 𝓛 (LendsRow P.row P.Sample self.entry row column result) }
        ensures long { length result.now ≡ count }
        ensures value { map P.value result.now ≡ row_of (plane_map self.old) row column count }
        // what the plane is once these samples are written
        ensures written { (w : List ℕ) → length w ≡ count →
            plane_map (with_row self.old row column w) ≡ with_block (plane_map self.old) row column 1 count (λ _ j. slice_index w j) }
    {
        let at = self.area.place_of(row, column);
        self.samples.slice_mut(at..at + count)
    }

    /// All zeros.
    pub fn clear(&mut self)
        ensures area { self.new.area ≡ self.old.area }
        ensures zero { plane_map self.new ≡ (λ _ _. 0) }
    {
        P::clear(&mut self.samples);
    }
}
