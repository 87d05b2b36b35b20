//! An inter block put into a plane.

ghost use Rattle.std.specs.Prelude.{◌≡◌, ◌+◌, ◌<◌, ◌≤◌, ◌*◌, None, length, map};
ghost use Rattle.std.specs.Bool.{OnTrue, OnFalse};
ghost use Rattle.vp9_types.specs.Maps.{HoldsRows, IsAtMost, rows_of};
ghost use Rattle.vp9_types.specs.Shapes.{mi_rows, mi_cols};
ghost use Rattle.vp9_types.specs.Sizes.{greatest};
ghost use Rattle.vp9_types.specs.declared.shape.Plane.TheVariants.{Y, U, V};
ghost use Rattle.vp9_tables.specs.BlockTables.{greatest_of as greatest_transform};
ghost use Rattle.vp9_tables.specs.Numbers.{tx_number};
ghost use Rattle.frame_headers.specs.FrameSizes.{HasFrameSize};
ghost use Rattle.block_plan.specs.Code.{AreSmall};
ghost use Rattle.block_plan.specs.declared.block.Prediction.TheVariants.{Inter};
ghost use Rattle.inter_places.specs.Axes.{IsPlace};
ghost use Rattle.inter_places.specs.Places.{IsPart, place_of};
ghost use Rattle.planes.specs.Planes.{StartsIn, plane_map, with_part};
ghost use Rattle.inter_predict.specs.Code.{LiesIn, with_place};
ghost use Rattle.block_rebuild.specs.InterBlocks.{part_of, predicted_from, predicted_part, put_part, put_prediction, put_inter};
ghost use Rattle.block_rebuild.specs.Code.{IsPartOf, IsServed, AreInV, AreServed, AreTwoPlaces, picture_of, reference_of, rebuilding_of};
ghost use Rattle.block_rebuild.specs.Residues.{HoldsAll, residues_of};

use crate::references::Rebuilding;
use crate::residue::add_residues;
use crate::residues::TransformResidues;
use crate::room::GREATEST_BLOCK;
use block_geometry::{FramePlaces, transform_grid};
use block_plan::{BlockInfo, InterPrediction, plane_block};
use inter_places::{BlockPart, Place, part_count, place};
use inter_predict::{LINES, average, predict, predict_in_plane};
use planes::SamplePlane;
use tap_filter::FilterSample;
use vp9_types::{Plane, ReferenceFrame, Sample, Samples};

/// An inter block: what its planes share.
#[derive(Clone, Copy)]
pub(crate) struct InterCoded<'a, S> {
    pub by: &'a Rebuilding<'a, S>,
    pub block: &'a BlockInfo,
    pub modes: &'a InterPrediction,
}

#[inline(always)]
fn part_of(plane: Plane, number: usize, list: usize) -> BlockPart
    ensures { result ≡ part_of plane number list }
{
    BlockPart {
        plane,
        number,
        list,
    }
}

/// Where a part of a block is predicted from in a reference, by its number in a plane and by its list of vectors.
#[inline(always)]
fn place_in<S: Samples>(
    b: &InterCoded<'_, S>,
    reference: ReferenceFrame,
    plane: Plane,
    number: usize,
    list: usize,
) -> Place
    requires part { IsPart b.now.by.now.shape b.now.block.now (part_of plane number list) }
    requires reference { IsServed S.holds S.width S.map b.now.by.now b.now.block.now b.now.modes.now list reference }
    ensures place { result ≡ place_of b.now.by.now.shape b.now.block.now b.now.modes.now (part_of plane number list) (picture_of S.map (reference_of b.now.by.now reference)).shape }
    ensures plane { result.plane ≡ plane }
    ensures fits { IsPlace result }
{
    let Some(picture) = b.by.reference(reference) else {
        unreachable!()
    };
    let part = BlockPart {
        plane,
        number,
        list,
    };
    place(&b.by.shape, b.block, b.modes, part, &picture.shape)
}

/// Predicts a part of a block from a reference, in rows of a block buffer.
fn predict_part<P: FilterSample, S: Samples<Kept = P>>(
    b: &InterCoded<'_, S>,
    reference: ReferenceFrame,
    part: BlockPart,
    place: &Place,
    lines: &mut [P],
    block: &mut [P],
)
    requires part { IsPart b.now.by.now.shape b.now.block.now part }
    requires takes { P.takes (greatest b.now.by.now.shape.depth) }
    requires reference { IsServed S.holds S.width S.map b.now.by.now b.now.block.now b.now.modes.now part.list reference }
    requires place { place.now ≡ place_of b.now.by.now.shape b.now.block.now b.now.modes.now part (picture_of S.map (reference_of b.now.by.now reference)).shape }
    requires fits { IsPlace place.now }
    requires lines { LINES ≤ length lines.old }
    requires room { 4096 ≤ length block.old }
    ensures room { length block.new ≡ length block.old }
    ensures rest { length lines.new ≡ length lines.old }
    ensures samples { HoldsRows (map P.value block.new) place.now.columns place.now.rows (predicted_from b.now.by.now.shape b.now.block.now b.now.modes.now part (picture_of S.map (reference_of b.now.by.now reference))) }
{
    let Some(picture) = b.by.reference(reference) else {
        unreachable!()
    };
    let most = b.by.shape.depth.greatest();
    predict(picture.samples, place, b.modes.filter, most, lines, block);
}

/// Predicts a part of a block from a reference where it stands in a plane, and says whether it did.
fn predict_in_place<P: FilterSample, S: Samples<Kept = P>>(
    b: &InterCoded<'_, S>,
    reference: ReferenceFrame,
    part: BlockPart,
    place: &Place,
    lines: &mut [P],
    samples: &mut SamplePlane<P>,
) -> bool
    requires part { IsPart b.now.by.now.shape b.now.block.now part }
    requires takes { P.takes (greatest b.now.by.now.shape.depth) }
    requires reference { IsServed S.holds S.width S.map b.now.by.now b.now.block.now b.now.modes.now part.list reference }
    requires place { place.now ≡ place_of b.now.by.now.shape b.now.block.now b.now.modes.now part (picture_of S.map (reference_of b.now.by.now reference)).shape }
    requires fits { IsPlace place.now }
    requires lines { LINES ≤ length lines.old }
    requires inside { LiesIn samples.old.area place.now }
    ensures rest { length lines.new ≡ length lines.old }
    ensures kept { OnFalse result (samples.new ≡ samples.old) }
    ensures area { samples.new.area ≡ samples.old.area }
    ensures map { OnTrue result (plane_map samples.new ≡ with_place samples.old.area (plane_map samples.old) place.now
        (predicted_from b.now.by.now.shape b.now.block.now b.now.modes.now part (picture_of S.map (reference_of b.now.by.now reference)))) }
{
    let Some(picture) = b.by.reference(reference) else {
        unreachable!()
    };
    let most = b.by.shape.depth.greatest();
    predict_in_plane(picture.samples, place, b.modes.filter, most, lines, samples)
}

/// Puts rows of samples at their place in a plane. Rows of each width are copied by a loop of their own.
fn put_rows<P: Sample>(samples: &mut SamplePlane<P>, place: &Place, rows: &[P])
    requires place { IsPlace place.now }
    requires inside { StartsIn samples.old.area place.now.row place.now.column }
    requires whole { place.now.rows * place.now.columns ≤ length rows.now }
    ensures area { samples.new.area ≡ samples.old.area }
    ensures map { plane_map samples.new ≡ with_part samples.old.area (plane_map samples.old) place.now.row place.now.column place.now.rows place.now.columns (rows_of place.now.columns (map P.value rows.now)) }
{
    let (row, column, count) = (place.row, place.column, place.rows);
    match place.columns {
        4 => samples.put_columns::<4>(row, column, count, rows),
        8 => samples.put_columns::<8>(row, column, count, rows),
        16 => samples.put_columns::<16>(row, column, count, rows),
        32 => samples.put_columns::<32>(row, column, count, rows),
        64 => samples.put_columns::<64>(row, column, count, rows),
        columns => samples.put_block(row, column, count, columns, rows),
    }
}

/// Puts a part of a block with one reference into its plane.
#[inline(always)]
fn put_one<P: FilterSample, S: Samples<Kept = P>>(
    samples: &mut SamplePlane<P>,
    b: &InterCoded<'_, S>,
    number: usize,
    place: &Place,
    first: &mut [P],
    rest: &mut [P],
)
    requires part { IsPart b.now.by.now.shape b.now.block.now (part_of place.now.plane number 0) }
    requires takes { P.takes (greatest b.now.by.now.shape.depth) }
    requires references { AreServed S.holds S.width S.map b.now.by.now b.now.block.now (Inter b.now.modes.now) }
    requires one { b.now.modes.now.references.second ≡ None }
    requires place { place.now ≡ place_of b.now.by.now.shape b.now.block.now b.now.modes.now (part_of place.now.plane number 0) (picture_of S.map (reference_of b.now.by.now b.now.modes.now.references.first)).shape }
    requires fits { IsPlace place.now }
    requires is { IsPartOf b.now.by.now.shape place.now.plane b.now.block.now.col b.now.block.now samples.old }
    requires room { 4096 ≤ length first.old }
    requires rest { 4096 + LINES ≤ length rest.old }
    ensures map { plane_map samples.new ≡ put_part (rebuilding_of S.map b.now.by.now) b.now.block.now b.now.modes.now place.now.plane (plane_map samples.old) number }
    ensures area { samples.new.area ≡ samples.old.area }
    ensures range { IsAtMost (greatest b.now.by.now.shape.depth) (plane_map samples.new) }
    ensures room { length first.new ≡ length first.old }
    ensures rest { length rest.new ≡ length rest.old }
{
    let part = part_of(place.plane, number, 0);
    let reference = b.modes.references.first;
    if predict_in_place(b, reference, part, place, rest, samples) {
        return;
    }
    predict_part(b, reference, part, place, rest, first);
    put_rows(samples, place, first);
}

/// The places of a part of a block in its two references.
#[derive(Clone, Copy)]
pub struct TwoPlaces {
    pub second: ReferenceFrame,
    pub at: Place,
    pub other: Place,
}

/// The places in V of the part that has these in U.
#[inline(always)]
fn both_in_v(places: &TwoPlaces) -> TwoPlaces
    requires { places.now.at.plane ≡ U }
    ensures places { AreInV places.now result }
    ensures plane { result.at.plane ≡ V }
{
    TwoPlaces {
        second: places.second,
        at: places.at.in_v(),
        other: places.other.in_v(),
    }
}

/// Puts a part of a block with two references into its plane. What is made on the way goes behind the block.
fn put_two<P: FilterSample, S: Samples<Kept = P>>(
    samples: &mut SamplePlane<P>,
    b: &InterCoded<'_, S>,
    number: usize,
    places: &TwoPlaces,
    first: &mut [P],
    rest: &mut [P],
)
    requires part { IsPart b.now.by.now.shape b.now.block.now (part_of places.now.at.plane number 0) }
    requires takes { P.takes (greatest b.now.by.now.shape.depth) }
    requires references { AreServed S.holds S.width S.map b.now.by.now b.now.block.now (Inter b.now.modes.now) }
    requires places { AreTwoPlaces (rebuilding_of S.map b.now.by.now) b.now.block.now b.now.modes.now number places.now }
    requires is { IsPartOf b.now.by.now.shape places.now.at.plane b.now.block.now.col b.now.block.now samples.old }
    requires room { 4096 ≤ length first.old }
    requires rest { 4096 + LINES ≤ length rest.old }
    ensures map { plane_map samples.new ≡ put_part (rebuilding_of S.map b.now.by.now) b.now.block.now b.now.modes.now places.now.at.plane (plane_map samples.old) number }
    ensures area { samples.new.area ≡ samples.old.area }
    ensures range { IsAtMost (greatest b.now.by.now.shape.depth) (plane_map samples.new) }
    ensures room { length first.new ≡ length first.old }
    ensures rest { length rest.new ≡ length rest.old }
{
    let at = &places.at;
    let (second, lines) = rest.split_at_mut(GREATEST_BLOCK);
    let part = part_of(at.plane, number, 0);
    predict_part(b, b.modes.references.first, part, at, lines, first);
    let other = part_of(at.plane, number, 1);
    predict_part(b, places.second, other, &places.other, lines, second);
    average(first, second, at.rows * at.columns);
    put_rows(samples, at, first);
}

/// Puts a part of a block into the plane of luma.
#[inline(always)]
fn put_luma_part<P: FilterSample, S: Samples<Kept = P>>(
    samples: &mut SamplePlane<P>,
    b: &InterCoded<'_, S>,
    number: usize,
    first: &mut [P],
    rest: &mut [P],
)
    requires part { IsPart b.now.by.now.shape b.now.block.now (part_of Y number 0) }
    requires takes { P.takes (greatest b.now.by.now.shape.depth) }
    requires references { AreServed S.holds S.width S.map b.now.by.now b.now.block.now (Inter b.now.modes.now) }
    requires is { IsPartOf b.now.by.now.shape Y b.now.block.now.col b.now.block.now samples.old }
    requires room { 4096 ≤ length first.old }
    requires rest { 4096 + LINES ≤ length rest.old }
    ensures map { plane_map samples.new ≡ put_part (rebuilding_of S.map b.now.by.now) b.now.block.now b.now.modes.now Y (plane_map samples.old) number }
    ensures area { samples.new.area ≡ samples.old.area }
    ensures range { IsAtMost (greatest b.now.by.now.shape.depth) (plane_map samples.new) }
    ensures room { length first.new ≡ length first.old }
    ensures rest { length rest.new ≡ length rest.old }
{
    let references = b.modes.references;
    let at = place_in(b, references.first, Plane::Y, number, 0);
    match references.second {
        None => put_one(samples, b, number, &at, first, rest),
        Some(second) => {
            let other = place_in(b, second, Plane::Y, number, 1);
            let places = TwoPlaces { second, at, other };
            put_two(samples, b, number, &places, first, rest);
        }
    }
}

/// Puts a part of a block into both planes of chroma. Its places in U are those in V, so they are found once.
#[inline(always)]
fn put_chroma_part<P: FilterSample, S: Samples<Kept = P>>(
    u: &mut SamplePlane<P>,
    v: &mut SamplePlane<P>,
    b: &InterCoded<'_, S>,
    number: usize,
    first: &mut [P],
    rest: &mut [P],
)
    requires part { IsPart b.now.by.now.shape b.now.block.now (part_of U number 0) }
    requires takes { P.takes (greatest b.now.by.now.shape.depth) }
    requires references { AreServed S.holds S.width S.map b.now.by.now b.now.block.now (Inter b.now.modes.now) }
    requires u { IsPartOf b.now.by.now.shape U b.now.block.now.col b.now.block.now u.old }
    requires v { IsPartOf b.now.by.now.shape V b.now.block.now.col b.now.block.now v.old }
    requires room { 4096 ≤ length first.old }
    requires rest { 4096 + LINES ≤ length rest.old }
    ensures u { plane_map u.new ≡ put_part (rebuilding_of S.map b.now.by.now) b.now.block.now b.now.modes.now U (plane_map u.old) number }
    ensures v { plane_map v.new ≡ put_part (rebuilding_of S.map b.now.by.now) b.now.block.now b.now.modes.now V (plane_map v.old) number }
    ensures u_area { u.new.area ≡ u.old.area }
    ensures v_area { v.new.area ≡ v.old.area }
    ensures u_range { IsAtMost (greatest b.now.by.now.shape.depth) (plane_map u.new) }
    ensures v_range { IsAtMost (greatest b.now.by.now.shape.depth) (plane_map v.new) }
    ensures room { length first.new ≡ length first.old }
    ensures rest { length rest.new ≡ length rest.old }
{
    let references = b.modes.references;
    let at = place_in(b, references.first, Plane::U, number, 0);
    match references.second {
        None => {
            put_one(u, b, number, &at, first, rest);
            put_one(v, b, number, &at.in_v(), first, rest);
        }
        Some(second) => {
            let other = place_in(b, second, Plane::U, number, 1);
            let places = TwoPlaces { second, at, other };
            put_two(u, b, number, &places, first, rest);
            put_two(v, b, number, &both_in_v(&places), first, rest);
        }
    }
}

/// Puts the predicted samples of a block into the plane of luma.
fn predict_luma<P: FilterSample, S: Samples<Kept = P>>(
    samples: &mut SamplePlane<P>,
    b: &InterCoded<'_, S>,
    first: &mut [P],
    rest: &mut [P],
)
    requires row { b.now.block.now.row < mi_rows b.now.by.now.shape }
    requires column { b.now.block.now.col < mi_cols b.now.by.now.shape }
    requires takes { P.takes (greatest b.now.by.now.shape.depth) }
    requires references { AreServed S.holds S.width S.map b.now.by.now b.now.block.now (Inter b.now.modes.now) }
    requires is { IsPartOf b.now.by.now.shape Y b.now.block.now.col b.now.block.now samples.old }
    requires room { 4096 ≤ length first.old }
    requires rest { 4096 + LINES ≤ length rest.old }
    ensures map { plane_map samples.new ≡ put_prediction (rebuilding_of S.map b.now.by.now) b.now.block.now b.now.modes.now Y (plane_map samples.old) }
    ensures area { samples.new.area ≡ samples.old.area }
    ensures range { IsAtMost (greatest b.now.by.now.shape.depth) (plane_map samples.new) }
    ensures room { length first.new ≡ length first.old }
    ensures rest { length rest.new ≡ length rest.old }
{
    let count = part_count(&b.by.shape, b.block.size, Plane::Y);
    for number in 0..count {
        put_luma_part(samples, b, number, first, rest);
    }
}

/// Puts the predicted samples of a block into both planes of chroma, part after part, each of whose places is found once.
fn predict_chroma<P: FilterSample, S: Samples<Kept = P>>(
    u: &mut SamplePlane<P>,
    v: &mut SamplePlane<P>,
    b: &InterCoded<'_, S>,
    first: &mut [P],
    rest: &mut [P],
)
    requires row { b.now.block.now.row < mi_rows b.now.by.now.shape }
    requires column { b.now.block.now.col < mi_cols b.now.by.now.shape }
    requires takes { P.takes (greatest b.now.by.now.shape.depth) }
    requires references { AreServed S.holds S.width S.map b.now.by.now b.now.block.now (Inter b.now.modes.now) }
    requires u { IsPartOf b.now.by.now.shape U b.now.block.now.col b.now.block.now u.old }
    requires v { IsPartOf b.now.by.now.shape V b.now.block.now.col b.now.block.now v.old }
    requires room { 4096 ≤ length first.old }
    requires rest { 4096 + LINES ≤ length rest.old }
    ensures u { plane_map u.new ≡ put_prediction (rebuilding_of S.map b.now.by.now) b.now.block.now b.now.modes.now U (plane_map u.old) }
    ensures v { plane_map v.new ≡ put_prediction (rebuilding_of S.map b.now.by.now) b.now.block.now b.now.modes.now V (plane_map v.old) }
    ensures u_area { u.new.area ≡ u.old.area }
    ensures v_area { v.new.area ≡ v.old.area }
    ensures u_range { IsAtMost (greatest b.now.by.now.shape.depth) (plane_map u.new) }
    ensures v_range { IsAtMost (greatest b.now.by.now.shape.depth) (plane_map v.new) }
    ensures room { length first.new ≡ length first.old }
    ensures rest { length rest.new ≡ length rest.old }
{
    let count = part_count(&b.by.shape, b.block.size, Plane::U);
    for number in 0..count {
        put_chroma_part(u, v, b, number, first, rest);
    }
}

/// Puts an inter block into the plane of luma: all of its samples are predicted before any residue is added.
pub(crate) fn put_luma<P: FilterSample, S: Samples<Kept = P>, R: TransformResidues>(
    samples: &mut SamplePlane<P>,
    b: &InterCoded<'_, S>,
    residues: &R,
    first: &mut [P],
    rest: &mut [P],
)
    requires size { HasFrameSize b.now.by.now.shape }
    requires row { b.now.block.now.row < mi_rows b.now.by.now.shape }
    requires column { b.now.block.now.col < mi_cols b.now.by.now.shape }
    requires fits { tx_number b.now.block.now.tx ≤ greatest_transform b.now.block.now.size }
    requires takes { P.takes (greatest b.now.by.now.shape.depth) }
    requires references { AreServed S.holds S.width S.map b.now.by.now b.now.block.now (Inter b.now.modes.now) }
    requires is { IsPartOf b.now.by.now.shape Y b.now.block.now.col b.now.block.now samples.old }
    requires held { HoldsAll (R.holds residues.now) b.now.by.now.shape b.now.block.now Y }
    requires small { AreSmall (residues_of (R.residue residues.now) b.now.by.now.shape b.now.block.now Y) }
    requires room { 4096 ≤ length first.old }
    requires rest { 4096 + LINES ≤ length rest.old }
    ensures map { plane_map samples.new ≡ put_inter (rebuilding_of S.map b.now.by.now) b.now.block.now b.now.modes.now Y (residues_of (R.residue residues.now) b.now.by.now.shape b.now.block.now Y) (plane_map samples.old) }
    ensures area { samples.new.area ≡ samples.old.area }
    ensures range { IsAtMost (greatest b.now.by.now.shape.depth) (plane_map samples.new) }
    ensures room { length first.new ≡ length first.old }
    ensures rest { length rest.new ≡ length rest.old }
{
    predict_luma(samples, b, first, rest);
    let shape = &b.by.shape;
    let block = plane_block(shape, b.block, Plane::Y);
    let grid = transform_grid(FramePlaces::of(shape), block);
    add_residues(samples, &block, &grid, Plane::Y, residues, shape.depth);
}

/// The same for both planes of chroma.
pub(crate) fn put_chroma<P: FilterSample, S: Samples<Kept = P>, R: TransformResidues>(
    u: &mut SamplePlane<P>,
    v: &mut SamplePlane<P>,
    b: &InterCoded<'_, S>,
    residues: &R,
    first: &mut [P],
    rest: &mut [P],
)
    requires size { HasFrameSize b.now.by.now.shape }
    requires row { b.now.block.now.row < mi_rows b.now.by.now.shape }
    requires column { b.now.block.now.col < mi_cols b.now.by.now.shape }
    requires fits { tx_number b.now.block.now.tx ≤ greatest_transform b.now.block.now.size }
    requires takes { P.takes (greatest b.now.by.now.shape.depth) }
    requires references { AreServed S.holds S.width S.map b.now.by.now b.now.block.now (Inter b.now.modes.now) }
    requires u { IsPartOf b.now.by.now.shape U b.now.block.now.col b.now.block.now u.old }
    requires v { IsPartOf b.now.by.now.shape V b.now.block.now.col b.now.block.now v.old }
    requires held_u { HoldsAll (R.holds residues.now) b.now.by.now.shape b.now.block.now U }
    requires held_v { HoldsAll (R.holds residues.now) b.now.by.now.shape b.now.block.now V }
    requires small_u { AreSmall (residues_of (R.residue residues.now) b.now.by.now.shape b.now.block.now U) }
    requires small_v { AreSmall (residues_of (R.residue residues.now) b.now.by.now.shape b.now.block.now V) }
    requires room { 4096 ≤ length first.old }
    requires rest { 4096 + LINES ≤ length rest.old }
    ensures u { plane_map u.new ≡ put_inter (rebuilding_of S.map b.now.by.now) b.now.block.now b.now.modes.now U (residues_of (R.residue residues.now) b.now.by.now.shape b.now.block.now U) (plane_map u.old) }
    ensures v { plane_map v.new ≡ put_inter (rebuilding_of S.map b.now.by.now) b.now.block.now b.now.modes.now V (residues_of (R.residue residues.now) b.now.by.now.shape b.now.block.now V) (plane_map v.old) }
    ensures u_area { u.new.area ≡ u.old.area }
    ensures v_area { v.new.area ≡ v.old.area }
    ensures u_range { IsAtMost (greatest b.now.by.now.shape.depth) (plane_map u.new) }
    ensures v_range { IsAtMost (greatest b.now.by.now.shape.depth) (plane_map v.new) }
    ensures room { length first.new ≡ length first.old }
    ensures rest { length rest.new ≡ length rest.old }
{
    predict_chroma(u, v, b, first, rest);
    let shape = &b.by.shape;
    let block = plane_block(shape, b.block, Plane::U);
    let grid = transform_grid(FramePlaces::of(shape), block);
    add_residues(u, &block, &grid, Plane::U, residues, shape.depth);
    add_residues(v, &block, &grid, Plane::V, residues, shape.depth);
}
