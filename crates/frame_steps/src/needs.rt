//! The bands of its references that each row of superblocks of a tile column is predicted from.

ghost use Rattle.std.specs.Prelude.{◌≡◌, ◌<◌, ℕ, All, IfOk, get_or, length};
ghost use Rattle.vp9_types.specs.Shapes.{mi_rows};
ghost use Rattle.vp9_types.specs.Sizes.{superblocks_along};
ghost use Rattle.frame_headers.specs.FrameSizes.{IsFrameSize};
ghost use Rattle.frame_headers.specs.HeaderState.{shape_of};
ghost use Rattle.band_needs.specs.Code.{CanBePlaced};
ghost use Rattle.recon_rows.specs.tile_syntax.Code.{IsKept};
ghost use Rattle.frame_steps.specs.StepResults.{AreRowNeeds, row_needs_of, shapes_by};

use band_needs::{BandNeeds, ReferenceShapes, needs};
use frame_headers::{FrameKind, Header};
use recon_rows::tile_syntax::ColumnPlan;
use std::alloc::{AllocError, Global};

/// The shapes of the pictures that a frame may refer to.
pub fn shapes_by(header: &Header) -> ReferenceShapes
    ensures { result ≡ shapes_by header.now.kind }
{
    match &header.kind {
        FrameKind::Key | FrameKind::IntraOnly => ReferenceShapes {
            last: None,
            golden: None,
            altref: None,
        },
        FrameKind::Inter(fields) => ReferenceShapes {
            last: Some(fields.references.last.shape),
            golden: Some(fields.references.golden.shape),
            altref: Some(fields.references.altref.shape),
        },
    }
}

/// What one of them needs.
fn needs_of_row(header: &Header, plan: &ColumnPlan, row: u32) -> BandNeeds
    requires size { IsFrameSize header.now.size }
    requires kept { IsKept header.now plan.now }
    requires placed { All (CanBePlaced (shape_of header.now) (shapes_by header.now.kind)) plan.now.column.grid.blocks }
    requires row { row < superblocks_along (mi_rows (shape_of header.now)) }
    ensures { result ≡ row_needs_of header.now row plan.now.column.grid.blocks }
{
    let blocks = plan.column.grid.blocks();
    let first = plan.row_place(row);
    let next = plan.row_place(row + 1);
    needs(
        &header.shape(),
        &shapes_by(header),
        &blocks[first.block..next.block],
    )
}

/// What each of them needs.
pub fn row_needs(
    alloc: Global,
    header: &Header,
    plan: &ColumnPlan,
) -> Result<Vec<BandNeeds>, AllocError>
    requires size { IsFrameSize header.now.size }
    requires kept { IsKept header.now plan.now }
    requires placed { All (CanBePlaced (shape_of header.now) (shapes_by header.now.kind)) plan.now.column.grid.blocks }
    ensures { IfOk result (λ v. AreRowNeeds header.now plan.now.column.grid.blocks v.items) }
{
    let count = header.shape().superblock_rows();
    let mut list = Vec::with_capacity(alloc, count as usize)?;
    for row in 0..count {
        list.push_reserved(needs_of_row(header, plan, row));
    }
    Ok(list)
}
