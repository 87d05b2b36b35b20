//! Lists that can be told, and lists that can't.

use block_plan::{BlockInfo, IntraPrediction, Prediction, SegmentMap};
use frame_headers::{
    ColorConfig, Features, FrameContexts, FrameKind, FrameParams, FrameSize, Header, LoopDeltas,
    LoopFilter, Quantizer, Segmentation, TileInfo,
};
use frame_setting::FrameSetting;
use inter_modes::{BlockStart, SegmentOf};
use listed_frames::frame_writer::FrameSymbols;
use listed_frames::inter_writer::{BlockSymbols, PredictionSymbols};
use listed_frames::listed_symbols::{ListedBlock, ListedLevels, ListedSymbols};
use listed_frames::residue_writer::{BlockLevels, PlaneLevels};
use prob_contexts::default_contexts;
use std::alloc::{AllocError, Global};
use std::process::Abort;
use std::test::Fail;
use tile_syntax::frame_state::{FramePast, FrameSources};
use vp9_types::{BlockSize, IntraMode, Modes, Partition, ReferenceMode, TxMode, TxSize};

/// A lossless key frame of 8x8.
const KEY_FRAME: Header = Header {
    profile: 0,
    kind: FrameKind::Key,
    show_frame: true,
    error_resilient: true,
    reset_context: 0,
    color: ColorConfig::DEFAULT,
    size: FrameSize {
        width: 8,
        height: 8,
    },
    refresh: 255,
    contexts: FrameContexts {
        refresh: false,
        parallel: true,
        index: 0,
    },
    params: FrameParams {
        loop_filter: LoopFilter {
            level: 0,
            sharpness: 0,
            delta_enabled: false,
            deltas: LoopDeltas::DEFAULT,
        },
        quantizer: Quantizer {
            base: 0,
            y_dc_delta: 0,
            uv_dc_delta: 0,
            uv_ac_delta: 0,
        },
        segmentation: Segmentation {
            enabled: false,
            map: None,
            features: Features::NONE,
        },
        tiles: TileInfo {
            columns_log2: 0,
            rows_log2: 0,
        },
        compressed_size: 1,
    },
};

const BLOCK: BlockInfo = BlockInfo {
    row: 0,
    col: 0,
    size: BlockSize::B8x8,
    skip: false,
    segment: 0,
    segment_predicted: false,
    tx: TxSize::T4x4,
    prediction: Prediction::Intra(IntraPrediction {
        luma: [IntraMode::Dc; 4],
        chroma: IntraMode::Dc,
    }),
};

const SYMBOLS: BlockSymbols = BlockSymbols {
    start: BlockStart {
        segment: SegmentOf {
            id: 0,
            predicted: false,
        },
        skip: false,
        is_inter: false,
        tx: TxSize::T4x4,
    },
    prediction: PredictionSymbols::Intra(IntraPrediction {
        luma: [IntraMode::Dc; 4],
        chroma: IntraMode::Dc,
    }),
};

const ONLY_4X4: Modes = Modes {
    tx_mode: TxMode::Only4x4,
    reference_mode: ReferenceMode::Single,
};

fn plane() -> PlaneLevels {
    PlaneLevels {
        counts: [9; 256],
        values: [9; 4096],
    }
}

#[test]
fn partitions_in_order(rt: HostRuntime) {
    let all = [Partition::Split, Partition::Whole];
    let mut symbols = ListedSymbols::new(&all, &[]);
    assert!(rt; symbols.partition(false, false) == Some(Partition::Split));
    assert!(rt; symbols.partition(true, false).is_none());
    assert!(rt; symbols.partition(true, true) == Some(Partition::Whole));
    assert!(rt; symbols.partition(true, true).is_none());
}

/// The levels of the block that was told last, and whether they can be said.
fn told(alloc: Global, listed: ListedLevels<'static>) -> Result<(bool, BlockLevels), AllocError> {
    let contexts = default_contexts();
    let segments = SegmentMap::new(alloc, 1, 1)?;
    let by = FrameSources {
        setting: FrameSetting::new(&KEY_FRAME, ONLY_4X4, contexts),
        past: FramePast {
            contexts: &contexts,
            segments: &segments,
            vectors: None,
        },
    };
    let blocks = [ListedBlock {
        symbols: SYMBOLS,
        levels: listed,
    }];
    let mut symbols = ListedSymbols {
        blocks_told: 1,
        ..ListedSymbols::new(&[], &blocks)
    };
    let mut levels = BlockLevels {
        y: plane(),
        u: plane(),
        v: plane(),
    };
    let can = symbols.levels(&by, &BLOCK, &mut levels);
    Ok((can, levels))
}

#[test]
fn levels_stand_by_position(rt: HostRuntime) -> Result<(), Fail> {
    let listed = ListedLevels {
        y: &[&[24], &[], &[25, 0, -17]],
        u: &[],
        v: &[],
    };
    let (can, levels) = told(rt.alloc(), listed)?;
    assert!(rt; can);
    assert!(rt; levels.y.counts[0] == 1 && levels.y.counts[1] == 0 && levels.y.counts[2] == 3);
    assert!(rt; levels.y.values[0] == 24 && levels.y.values[16] == 0);
    assert!(rt; levels.y.values[32] == 25 && levels.y.values[33] == -17);
    assert!(rt; levels.u.counts[0] == 0 && levels.v.values[0] == 0);
    Ok(())
}

#[test]
fn levels_that_cannot_be_said(rt: HostRuntime) -> Result<(), Fail> {
    let ending_in_zero = ListedLevels {
        y: &[&[24, 0]],
        ..ListedLevels::NONE
    };
    assert!(rt; !told(rt.alloc(), ending_in_zero)?.0);
    let too_large = ListedLevels {
        y: &[&[16451]],
        ..ListedLevels::NONE
    };
    assert!(rt; !told(rt.alloc(), too_large)?.0);
    let too_many = ListedLevels {
        u: &[&[1], &[1]],
        ..ListedLevels::NONE
    };
    assert!(rt; !told(rt.alloc(), too_many)?.0);
    Ok(())
}
