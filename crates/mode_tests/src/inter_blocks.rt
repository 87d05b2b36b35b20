//! Blocks of inter frames without residue, as tools/vectors.py inter_modes reads them.

ghost use Rattle.std.specs.Prelude.{◌≡◌, ◌<◌, ◌≤◌, ◌+◌, [], IfSome};
ghost use Rattle.std.specs.List.{All};
ghost use Rattle.std.specs.Option.{option_copied};
ghost use Rattle.frame_headers.specs.FrameSizes.{IsFrameSize};
ghost use Rattle.mv_prediction.specs.Code.{HasSmallVectors, blocks_of};

use crate::counted::{add_counts, add_vector_counts};
use crate::drawn_blocks::{FROM, ROWS, TO, add_blocks, drawn_size};
use block_plan::{
    BlockAt, BlockGrid, BlockInfo, InterPrediction, IntraPrediction, Prediction, SegmentMap,
};
use counting_reader::CountingReader;
use frame_headers::{
    ColorConfig, FeatureReference, Features, FrameContexts, FrameFilter, FrameKind, FrameParams,
    FrameSize, Header, InterFields, LoopDeltas, LoopFilter, MapUpdate, Quantizer, Reference,
    SegmentFeatures, Segmentation, TileInfo,
};
use frame_setting::FrameSetting;
use inter_modes::mode_info;
use prob_contexts::{Counts, ProbKind, default_contexts};
use std::alloc::Global;
use std::test::Fail;
use test_draws::{Digest, Draws};
use vp9_types::{InterpFilter, Modes, ReferenceMode, Rule, TxMode};

const COLS: u32 = 30;

fn add_block(digest: &mut Digest, block: &BlockInfo) {
    digest.add_shifted(u64::from(block.row));
    digest.add_shifted(u64::from(block.col));
    digest.add_shifted(block.size as u64);
    digest.add_shifted(u64::from(block.segment));
    digest.add_shifted(u64::from(block.segment_predicted));
    digest.add_shifted(u64::from(block.skip));
    digest.add_shifted(block.tx as u64);
    match &block.prediction {
        Prediction::Inter(p) => add_inter(digest, p),
        Prediction::Intra(p) => add_intra(digest, p),
    }
}

fn add_intra(digest: &mut Digest, p: &IntraPrediction) {
    for mode in p.luma {
        digest.add_shifted(mode as u64);
    }
    digest.add_shifted(p.chroma as u64);
}

fn add_inter(digest: &mut Digest, p: &InterPrediction) {
    for mode in p.modes {
        digest.add_shifted(mode as u64);
    }
    digest.add_shifted(p.references.first as u64);
    match p.references.second {
        Some(reference) => digest.add_shifted(reference as u64),
        None => digest.add_shifted(3),
    }
    digest.add_shifted(p.filter as u64);
    for quarter in p.vectors {
        for v in quarter {
            digest.add_signed(v.row);
            digest.add_signed(v.column);
        }
    }
}

/// The counters of all kinds but coefficients and partitions.
fn digest_counts(counts: &Counts) -> u32 {
    let mut digest = Digest::new();
    add_counts(&mut digest, counts, ProbKind::Tx8x8, 2);
    add_counts(&mut digest, counts, ProbKind::Tx16x16, 4);
    add_counts(&mut digest, counts, ProbKind::Tx32x32, 6);
    add_counts(&mut digest, counts, ProbKind::Skip, 3);
    add_counts(&mut digest, counts, ProbKind::InterMode, 21);
    add_counts(&mut digest, counts, ProbKind::Filter, 8);
    add_counts(&mut digest, counts, ProbKind::IsInter, 4);
    add_counts(&mut digest, counts, ProbKind::CompoundFlag, 5);
    add_counts(&mut digest, counts, ProbKind::SingleReference, 10);
    add_counts(&mut digest, counts, ProbKind::CompoundReference, 5);
    add_counts(&mut digest, counts, ProbKind::YMode, 36);
    add_counts(&mut digest, counts, ProbKind::UvMode, 90);
    add_vector_counts(&mut digest, counts);
    digest.sum_32()
}

const NO_SEGMENTS: Segmentation = Segmentation {
    enabled: false,
    map: None,
    features: Features::NONE,
};

fn feature(reference: Option<FeatureReference>, skip: bool) -> SegmentFeatures {
    SegmentFeatures {
        quantizer: None,
        level: None,
        reference,
        skip,
    }
}

/// Segments that take references or are skipped, with a map that is updated or not.
fn segments(map: Option<MapUpdate>) -> Segmentation {
    let mut segments = [SegmentFeatures::NONE; 8];
    segments[2] = feature(Some(FeatureReference::Golden), false);
    segments[3] = feature(None, true);
    segments[4] = feature(Some(FeatureReference::Intra), false);
    segments[5] = feature(Some(FeatureReference::Altref), false);
    Segmentation {
        enabled: true,
        map,
        features: Features {
            absolute: false,
            segments,
        },
    }
}

fn map_update(temporal: bool) -> MapUpdate {
    MapUpdate {
        tree: [128, 100, 150, 60, 200, 90, 170],
        temporal,
        prediction: [100, 140, 200],
    }
}

fn reference(slot: u8, sign_bias: bool, scale: u32) -> Reference
    requires { scale ≤ 64 }
{
    Reference {
        slot,
        sign_bias,
        shape: vp9_types::Shape {
            w: 8 * COLS * scale,
            h: 8 * ROWS * scale,
            depth: vp9_types::Depth::Eight,
            ss_x: true,
            ss_y: true,
        },
    }
}

/// An inter frame whose golden reference is so many times larger.
fn inter_fields(
    biases: [bool; 3],
    high_precision: bool,
    filter: FrameFilter,
    scale: u32,
) -> InterFields
    requires { scale ≤ 64 }
{
    InterFields {
        references: frame_headers::References {
            last: reference(0, biases[0], 1),
            golden: reference(1, biases[1], scale),
            altref: reference(2, biases[2], 1),
        },
        high_precision,
        filter,
    }
}

fn frame(fields: InterFields, segmentation: Segmentation) -> Header
    ensures size { result.size.width ≡ 240 }
    ensures high { result.size.height ≡ 160 }
{
    Header {
        profile: 0,
        kind: FrameKind::Inter(fields),
        show_frame: true,
        error_resilient: false,
        reset_context: 0,
        color: ColorConfig::DEFAULT,
        size: FrameSize {
            width: 240,
            height: 160,
        },
        refresh: 255,
        contexts: FrameContexts {
            refresh: false,
            parallel: true,
            index: 0,
        },
        params: FrameParams {
            loop_filter: LoopFilter {
                level: 0,
                sharpness: 0,
                delta_enabled: false,
                deltas: LoopDeltas::DEFAULT,
            },
            quantizer: Quantizer {
                base: 1,
                y_dc_delta: 0,
                uv_dc_delta: 0,
                uv_ac_delta: 0,
            },
            segmentation,
            tiles: TileInfo {
                columns_log2: 0,
                rows_log2: 0,
            },
            compressed_size: 1,
        },
    }
}

fn draw_map(map: &mut SegmentMap, draws: &mut Draws)
    requires rows { map.old.rows ≡ 20 }
    requires cols { map.old.cols ≡ 30 }
    ensures rows { map.new.rows ≡ 20 }
    ensures cols { map.new.cols ≡ 30 }
{
    for i in 0..20u8 {
        let row = draws.below(ROWS);
        let col = draws.below(COLS);
        let size = drawn_size(draws);
        let id = draws.below(8) as u8;
        map.set(row, col, size, id);
        prove!(i < 20);
    }
}

/// How many blocks were read, the rule that ended them, and their digest.
fn read_blocks(
    reader: &mut CountingReader<'_, true>,
    setting: &FrameSetting,
    draws: &mut Draws,
    grid: &mut BlockGrid,
    map: &SegmentMap,
    before: Option<&BlockGrid>,
) -> (u32, Option<Rule>, u32)
    requires places { (setting.now.places.rows ≡ 20) × (setting.now.places.cols ≡ 30) }
    requires map { (map.now.rows ≡ 20) × (map.now.cols ≡ 30) }
    requires room { 60 ≤ grid.old.room }
    requires tile { (grid.old.rows ≡ 20) × (grid.old.from ≡ 8) × (grid.old.to ≡ 24) }
    requires before { IfSome (option_copied before) (λ g. (g.rows ≡ 20) × (g.from ≡ 8) × (g.to ≡ 24)) }
    requires small { All HasSmallVectors grid.old.blocks }
    requires small_before { All HasSmallVectors (blocks_of (λ g. g.blocks) (option_copied before)) }
{
    let mut digest = Digest::new();
    for i in 0..60u32 {
        let at = BlockAt {
            row: draws.below(ROWS),
            col: FROM + draws.below(TO - FROM),
            size: drawn_size(draws),
            tile_from: FROM,
            tile_to: TO,
        };
        match mode_info(reader, setting, at, grid, map, before) {
            Ok(block) => {
                add_block(&mut digest, &block);
                grid.put(block);
            }
            Err(rule) => return (i, Some(rule), digest.sum_32()),
        }
    }
    (60, None, digest.sum_32())
}

/// The blocks of a tile of drawn bytes: how many, the rule that ended them, and digests of the blocks and of the counts.
fn read(
    alloc: Global,
    header: &Header,
    modes: Modes,
    seed: u32,
    ones: u8,
    uses_before: bool,
) -> Result<(u32, Option<Rule>, u32, u32), Fail>
    requires wide { header.now.size.width ≡ 240 }
    requires high { header.now.size.height ≡ 160 }
{
    let setting = FrameSetting::new(header, modes, default_contexts());
    let mut draws = Draws::new(seed);
    let mut before = BlockGrid::new(alloc, ROWS, FROM, TO, 12)?;
    add_blocks(&mut before, &mut draws, 12);
    let mut map = SegmentMap::new(alloc, ROWS, COLS)?;
    draw_map(&mut map, &mut draws);
    let mut bytes = [0; 3000];
    draws.fill_bytes(&mut bytes, ones);
    let mut reader: CountingReader<'_, true> = CountingReader::start(&bytes, Counts::new(alloc)?)?;
    let mut grid = BlockGrid::new(alloc, ROWS, FROM, TO, 60)?;
    let (count, rule, blocks) = if uses_before {
        read_blocks(
            &mut reader,
            &setting,
            &mut draws,
            &mut grid,
            &map,
            Some(&before),
        )
    } else {
        read_blocks(&mut reader, &setting, &mut draws, &mut grid, &map, None)
    };
    Ok((count, rule, blocks, digest_counts(&reader.into_counts())))
}

fn modes(tx_mode: TxMode, reference_mode: ReferenceMode) -> Modes {
    Modes {
        tx_mode,
        reference_mode,
    }
}

#[test]
fn compound_and_single(rt: HostRuntime) -> Result<(), Fail> {
    let fields = inter_fields([false, false, true], true, FrameFilter::Switchable, 1);
    let header = frame(fields, NO_SEGMENTS);
    let selected = modes(TxMode::Selected, ReferenceMode::Selected);
    let read = read(rt.alloc(), &header, selected, 11, 0, true)?;
    assert_eq!(rt; read, (60, None, 3479490188, 1776664693));
    Ok(())
}

#[test]
fn temporal_segments(rt: HostRuntime) -> Result<(), Fail> {
    let fixed = FrameFilter::Fixed(InterpFilter::Smooth);
    let fields = inter_fields([false, false, false], false, fixed, 1);
    let header = frame(fields, segments(Some(map_update(true))));
    let single = modes(TxMode::UpTo16x16, ReferenceMode::Single);
    let read = read(rt.alloc(), &header, single, 12, 0, false)?;
    assert_eq!(rt; read, (60, None, 2061017901, 4016026094));
    Ok(())
}

#[test]
fn segments_of_the_map_before(rt: HostRuntime) -> Result<(), Fail> {
    let fields = inter_fields([true, false, false], true, FrameFilter::Switchable, 1);
    let header = frame(fields, segments(None));
    let compound = modes(TxMode::Selected, ReferenceMode::Compound);
    let read = read(rt.alloc(), &header, compound, 13, 0, true)?;
    assert_eq!(rt; read, (60, None, 429089430, 3062880492));
    Ok(())
}

#[test]
fn coded_segments(rt: HostRuntime) -> Result<(), Fail> {
    let fields = inter_fields([false, true, false], true, FrameFilter::Switchable, 1);
    let header = frame(fields, segments(Some(map_update(false))));
    let selected = modes(TxMode::Only4x4, ReferenceMode::Selected);
    let read = read(rt.alloc(), &header, selected, 14, 0, true)?;
    assert_eq!(rt; read, (60, None, 3717235596, 2959636755));
    Ok(())
}

/// A reference that is three times larger, and bytes of many ones.
#[test]
fn rules(rt: HostRuntime) -> Result<(), Fail> {
    let fields = inter_fields([false, false, true], true, FrameFilter::Switchable, 3);
    let header = frame(fields, NO_SEGMENTS);
    let selected = modes(TxMode::Selected, ReferenceMode::Selected);
    let scale = read(rt.alloc(), &header, selected, 15, 0, true)?;
    assert_eq!(rt; scale, (1, Some(Rule::BlockScale), 1290503389, 2297965920));
    let fixed = FrameFilter::Fixed(InterpFilter::Regular);
    let fields = inter_fields([false, false, false], true, fixed, 1);
    let header = frame(fields, NO_SEGMENTS);
    let single = modes(TxMode::Selected, ReferenceMode::Single);
    let range = read(rt.alloc(), &header, single, 24, 254, true)?;
    assert_eq!(rt; range, (12, Some(Rule::MvRange), 3095656330, 2160565911));
    Ok(())
}
