//! Where blocks have coefficients.

ghost use Rattle.std.specs.Prelude.{◌≡◌, ◌≤◌, ◌*◌, ◌/◌, if◌then◌else◌};
ghost use Rattle.frame_headers.specs.FrameSizes.{HasFrameSize};
ghost use Rattle.vp9_types.specs.Shapes.{coded_height, coded_width};
ghost use Rattle.coef_tokens.specs.Flags.{flags_of};

use crate::in_plane::{flag_column, flag_row};
use block_geometry::{PlaneBlock, height_8, width_8};
use coef_tokens::{first_context, mark};
use std::alloc::{AllocError, Global};
use std::marker::Model;
use vp9_types::{Plane, Shape, TxSize, halved};

/// Where the blocks of a plane above and at the left have coefficients: a flag for each 4 samples of the plane's width and
/// height.
#[derive(Drop)]
pub struct Sides {
    above: Vec<bool>,
    left: Vec<bool>,
}

impl Model for Sides {
    ghost use Rattle.residue_syntax.specs.Sides.{Sides};

    ghost Value = { Sides };

    ghost view = { λ s. record { above = s.above.items; left = s.left.items } };
}

/// The sides in each plane, of a tile while it is read.
#[derive(Drop)]
pub struct TileSides {
    pub y: Sides,
    pub u: Sides,
    pub v: Sides,
}

impl Sides {
    ghost use Rattle.std.specs.Prelude.{◌≡◌, ◌<◌, ◌≤◌, IfOk, IsOk, OnOk};
    ghost use Rattle.frame_headers.specs.FrameSizes.{HasFrameSize};
    ghost use Rattle.residue_syntax.specs.Sides.{no_sides, nothing_left};
    ghost use Rattle.residue_syntax.specs.Residues.{first_context, with_sides, skipped_sides};
    ghost use Rattle.residue_syntax.specs.Code.{FitPlane, IsBeside, KeepsLengths};

    /// Those of a frame's plane of which no block is read.
    pub(crate) fn new(alloc: Global, shape: &Shape, plane: Plane) -> Result<Sides, AllocError>
        requires { HasFrameSize shape.now }
        ensures { IfOk result (λ s. s ≡ no_sides shape.now plane) }
    {
        let (columns, rows) = flags_along(shape, plane);
        Ok(Sides {
            above: Vec::from_elem(alloc, false, columns)?,
            left: Vec::from_elem(alloc, false, rows)?,
        })
    }

    /// Makes these as `new` does. They take no memory where they have the length.
    fn renew(&mut self, alloc: Global, shape: &Shape, plane: Plane) -> Result<(), AllocError>
        requires { HasFrameSize shape.now }
        ensures start { OnOk result (self.new ≡ no_sides shape.now plane) }
        ensures again { FitPlane shape.now plane self.old → IsOk result }
    {
        let (columns, rows) = flags_along(shape, plane);
        if self.above.len() != columns || self.left.len() != rows {
            *self = Sides::new(alloc, shape, plane)?;
            return Ok(());
        }
        self.above.fill(false);
        self.clear_left();
        Ok(())
    }

    /// A tile begins: there is nothing at its left.
    pub(crate) fn clear_left(&mut self)
        ensures { self.new ≡ nothing_left self.old }
    {
        self.left.fill(false);
    }

    /// How many sides of the transform block at row `y` and column `x`, in 4s, have coefficients.
    #[inline(always)]
    pub fn first_context(&self, block: &PlaneBlock, y: usize, x: usize) -> u8
        requires y { y < 16 }
        requires x { x < 16 }
        requires beside { IsBeside block.now y x self.now }
        ensures value { result ≡ first_context block.now y x self.now }
        ensures most { result ≤ 2 }
    {
        first_context(
            &self.above,
            flag_column(block, x),
            &self.left,
            flag_row(block, y),
            block.tx,
        )
    }

    /// Says whether the transform block at row `y` and column `x`, in 4s, has coefficients.
    #[inline(always)]
    pub fn mark(&mut self, block: &PlaneBlock, y: usize, x: usize, some: bool)
        requires y { y < 16 }
        requires x { x < 16 }
        requires beside { IsBeside block.now y x self.old }
        ensures value { self.new ≡ with_sides block.now y x some self.old }
        ensures long { KeepsLengths self.old self.new }
    {
        let side = side_in_4s(block.tx);
        mark(&mut self.above, flag_column(block, x), side, some);
        mark(&mut self.left, flag_row(block, y), side, some);
    }

    /// Says that a block has no coefficients.
    #[inline(always)]
    pub fn mark_skipped(&mut self, block: &PlaneBlock)
        requires beside { IsBeside block.now 0 0 self.old }
        ensures value { self.new ≡ skipped_sides block.now self.old }
        ensures long { KeepsLengths self.old self.new }
    {
        let width = block_in_4s(width_8(block.size), block.ss_x);
        let height = block_in_4s(height_8(block.size), block.ss_y);
        mark(&mut self.above, flag_column(block, 0), width, false);
        mark(&mut self.left, flag_row(block, 0), height, false);
    }
}

impl TileSides {
    ghost use Rattle.std.specs.Prelude.{◌≡◌, IfOk, IsOk, OnOk};
    ghost use Rattle.vp9_types.specs.declared.shape.Plane.TheVariants as plane;
    ghost use Rattle.frame_headers.specs.FrameSizes.{HasFrameSize};
    ghost use Rattle.residue_syntax.specs.Sides.{no_sides, nothing_left};
    ghost use Rattle.residue_syntax.specs.Code.{FitPlanes};

    /// Those of a frame of which no block is read.
    pub fn new(alloc: Global, shape: &Shape) -> Result<TileSides, AllocError>
        requires { HasFrameSize shape.now }
        ensures start { IfOk result (λ s. s ≡ record { y = no_sides shape.now plane.Y; u = no_sides shape.now plane.U; v = no_sides shape.now plane.V }) }
        ensures fit { IfOk result (λ s. FitPlanes shape.now s) }
    {
        Ok(TileSides {
            y: Sides::new(alloc, shape, Plane::Y)?,
            u: Sides::new(alloc, shape, Plane::U)?,
            v: Sides::new(alloc, shape, Plane::V)?,
        })
    }

    /// Makes these those of a frame of which no block is read. They take no memory where they have the lengths.
    pub fn renew(&mut self, alloc: Global, shape: &Shape) -> Result<(), AllocError>
        requires { HasFrameSize shape.now }
        ensures start { OnOk result (self.new ≡ record { y = no_sides shape.now plane.Y; u = no_sides shape.now plane.U; v = no_sides shape.now plane.V }) }
        ensures fit { OnOk result (FitPlanes shape.now self.new) }
        ensures again { FitPlanes shape.now self.old → IsOk result }
    {
        self.y.renew(alloc, shape, Plane::Y)?;
        self.u.renew(alloc, shape, Plane::U)?;
        self.v.renew(alloc, shape, Plane::V)
    }

    /// A tile begins: there is nothing at its left.
    pub fn clear_left(&mut self)
        ensures { self.new ≡ record { y = nothing_left self.old.y; u = nothing_left self.old.u; v = nothing_left self.old.v } }
    {
        self.y.clear_left();
        self.u.clear_left();
        self.v.clear_left();
    }
}

/// How many flags there are along a plane of a frame: of its columns and of its rows.
fn flags_along(shape: &Shape, plane: Plane) -> (usize, usize)
    requires { HasFrameSize shape.now }
    ensures columns { result.0 ≡ coded_width shape.now plane / 4 }
    ensures rows { result.1 ≡ coded_height shape.now plane / 4 }
{
    let (columns, rows) = shape.coded_size(plane);
    (columns / 4, rows / 4)
}

#[inline(always)]
fn side_in_4s(tx: TxSize) -> usize
    ensures is { result ≡ flags_of tx }
    ensures most { result ≤ 8 }
{
    match tx {
        TxSize::T4x4 => 1,
        TxSize::T8x8 => 2,
        TxSize::T16x16 => 4,
        TxSize::T32x32 => 8,
    }
}

/// A side of a block in a plane, in 4s, from that in 8s of luma.
#[inline(always)]
fn block_in_4s(eights: u8, ss: bool) -> usize
    requires { eights ≤ 8 }
    ensures value { result ≡ (if ss then eights else 2 * eights) }
    ensures most { result ≤ 16 }
{
    if ss {
        eights as usize
    } else {
        2 * eights as usize
    }
}
