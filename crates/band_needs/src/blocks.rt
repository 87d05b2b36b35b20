//! The bands that blocks need.

ghost use Rattle.std.specs.Prelude.{◌≡◌, ◌<◌, ◌≤◌, ℕ, length};
ghost use Rattle.std.specs.List.{All};
ghost use Rattle.std.specs.Option.{option_copied};
ghost use Rattle.vp9_types.specs.Shapes.{mi_rows, mi_cols};
ghost use Rattle.vp9_types.specs.declared.block.ReferenceFrame.{ReferenceFrame};
ghost use Rattle.block_plan.specs.declared.block.Prediction.TheVariants.{Inter};
ghost use Rattle.inter_places.specs.Places.{IsPart, IsReference, parts_of};
ghost use Rattle.band_needs.specs.BandReads.{part_in, AreRead, BlocksRead};
ghost use Rattle.band_needs.specs.Ranges.{needs_at};
ghost use Rattle.band_needs.specs.Needs.{part_range, plane_range, list_range, with_inter, with_prediction, with_block, needs_of};
ghost use Rattle.band_needs.specs.Code.{shape_at, shapes_of, HasShape, HasShapes, CanBePlaced};

use crate::ranges::{BandNeeds, BandRange};
use crate::rows::rows_range;
use block_plan::{BlockInfo, InterPrediction, Prediction};
use inter_places::{BlockPart, part_count, place_rows};
use vp9_types::{Plane, ReferenceFrame, Shape};

/// The shapes of the pictures that a frame may refer to.
#[derive(Clone, Copy, Debug, PartialEq, Eq)]
pub struct ReferenceShapes {
    pub last: Option<Shape>,
    pub golden: Option<Shape>,
    pub altref: Option<Shape>,
}

impl ReferenceShapes {
    fn of(&self, reference: ReferenceFrame) -> Option<&Shape>
        ensures { option_copied result ≡ shape_at self.now reference }
    {
        match reference {
            ReferenceFrame::Last => self.last.as_ref(),
            ReferenceFrame::Golden => self.golden.as_ref(),
            ReferenceFrame::Altref => self.altref.as_ref(),
        }
    }
}

/// An inter block of a frame.
#[derive(Clone, Copy)]
struct InterBlock<'a> {
    shape: &'a Shape,
    block: &'a BlockInfo,
    modes: &'a InterPrediction,
}

fn part_range(b: &InterBlock<'_>, part: BlockPart, reference: &Shape) -> BandRange
    requires part { IsPart b.now.shape.now b.now.block.now part }
    requires reference { IsReference b.now.shape.now reference.now }
    ensures { result ≡ part_range b.now.shape.now reference.now b.now.block.now b.now.modes.now part }
{
    let at = place_rows(b.shape, b.block, b.modes, part, reference);
    rows_range(reference, part.plane, &at)
}

/// All parts of a block in a plane.
fn plane_range(b: &InterBlock<'_>, plane: Plane, list: usize, reference: &Shape) -> BandRange
    requires row { b.now.block.now.row < mi_rows b.now.shape.now }
    requires column { b.now.block.now.col < mi_cols b.now.shape.now }
    requires list { list < 2 }
    requires reference { IsReference b.now.shape.now reference.now }
    ensures { result ≡ plane_range b.now.shape.now reference.now b.now.block.now b.now.modes.now list plane }
{
    let count = part_count(b.shape, b.block.size, plane);
    let mut range = part_range(
        b,
        BlockPart {
            plane,
            number: 0,
            list,
        },
        reference,
    );
    for number in 1..count {
        let part = BlockPart {
            plane,
            number,
            list,
        };
        range = range.with(part_range(b, part, reference));
    }
    range
}

/// In all planes, by the first vectors (0) or by the second ones (1). Rows of V are predicted from where those of U are.
fn list_range(b: &InterBlock<'_>, list: usize, reference: &Shape) -> BandRange
    requires row { b.now.block.now.row < mi_rows b.now.shape.now }
    requires column { b.now.block.now.col < mi_cols b.now.shape.now }
    requires list { list < 2 }
    requires reference { IsReference b.now.shape.now reference.now }
    ensures { result ≡ list_range b.now.shape.now reference.now b.now.block.now b.now.modes.now list }
{
    let y = plane_range(b, Plane::Y, list, reference);
    let u = plane_range(b, Plane::U, list, reference);
    y.with(u)
}

/// By the vectors for one of its references.
fn reference_range(
    b: &InterBlock<'_>,
    references: &ReferenceShapes,
    reference: ReferenceFrame,
    list: usize,
) -> BandRange
    requires row { b.now.block.now.row < mi_rows b.now.shape.now }
    requires column { b.now.block.now.col < mi_cols b.now.shape.now }
    requires list { list < 2 }
    requires reference { HasShape b.now.shape.now references.now reference }
    ensures { result ≡ list_range b.now.shape.now (shapes_of references.now reference) b.now.block.now b.now.modes.now list }
{
    let Some(shape) = references.of(reference) else {
        unreachable!()
    };
    list_range(b, list, shape)
}

fn with_inter(needs: BandNeeds, b: &InterBlock<'_>, references: &ReferenceShapes) -> BandNeeds
    requires row { b.now.block.now.row < mi_rows b.now.shape.now }
    requires column { b.now.block.now.col < mi_cols b.now.shape.now }
    requires references { HasShapes b.now.shape.now references.now (Inter b.now.modes.now) }
    ensures { result ≡ with_inter b.now.shape.now (shapes_of references.now) b.now.block.now needs b.now.modes.now }
{
    let first = b.modes.references.first;
    let needs = needs.with(first, reference_range(b, references, first, 0));
    match b.modes.references.second {
        None => needs,
        Some(second) => needs.with(second, reference_range(b, references, second, 1)),
    }
}

#[tactic(auto, unfolding(crate::specs::Needs::with_block))]
fn with_block(
    needs: BandNeeds,
    shape: &Shape,
    references: &ReferenceShapes,
    block: &BlockInfo,
) -> BandNeeds
    requires { CanBePlaced shape.now references.now block.now }
    ensures { result ≡ with_block shape.now (shapes_of references.now) needs block.now }
{
    match block.prediction {
        Prediction::Intra(_) => needs,
        Prediction::Inter(modes) => with_inter(
            needs,
            &InterBlock {
                shape,
                block,
                modes: &modes,
            },
            references,
        ),
    }
}

/// The bands of each reference that blocks of a frame are predicted from, as of a row of superblocks of a tile column: the
/// first and the last of them are read, and so are none outside.
pub fn needs(shape: &Shape, references: &ReferenceShapes, blocks: &[BlockInfo]) -> BandNeeds
    requires { All (CanBePlaced shape.now references.now) blocks.now }
    ensures value { result ≡ needs_of shape.now (shapes_of references.now) blocks.now }
    ensures exact { (r : ReferenceFrame) → AreRead (BlocksRead shape.now (shapes_of references.now) blocks.now (length blocks.now) r) (needs_at result r) }
{
    let mut needs = BandNeeds::none();
    for k in 0..blocks.len() {
        needs = with_block(needs, shape, references, &blocks[k]);
    }
    needs
}
