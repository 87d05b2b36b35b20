//! Bytes of tools/vectors.py residue_writings: an intra block of 8x8 with transforms of 4x4, which have a level at their first place
//! or none.

ghost use Rattle.std.specs.Prelude.{◌≡◌, ◌≢◌, ◌<◌, ◌⊎◌, ℕ, pos, length, slice_index, unsigned_abs};
ghost use Rattle.coef_tokens.specs.Places.{Tables};
ghost use Rattle.token_writer.specs.TokenFits.{CanPut};
ghost use Rattle.residue_writer.specs.SaidResidues.{levels_at};

use block_plan::{BlockInfo, IntraPrediction, Prediction};
use bool_encoder::BoolEncoder;
use frame_headers::{
    ColorConfig, Features, FrameContexts, FrameKind, FrameParams, FrameSize, Header, LoopDeltas,
    LoopFilter, Quantizer, Segmentation, TileInfo,
};
use frame_setting::FrameSetting;
use prob_contexts::default_contexts;
use residue_syntax::TileSides;
use residue_writer::{BlockLevels, PlaneLevels, put_block};
use std::alloc::Global;
use std::process::Abort;
use std::test::Fail;
use vp9_types::{BlockSize, IntraMode, Modes, ReferenceMode, Rule, TxMode, TxSize};

const KEY_FRAME: Header = Header {
    profile: 0,
    kind: FrameKind::Key,
    show_frame: true,
    error_resilient: true,
    reset_context: 0,
    color: ColorConfig::DEFAULT,
    size: FrameSize {
        width: 8,
        height: 8,
    },
    refresh: 255,
    contexts: FrameContexts {
        refresh: false,
        parallel: true,
        index: 0,
    },
    params: FrameParams {
        loop_filter: LoopFilter {
            level: 0,
            sharpness: 0,
            delta_enabled: false,
            deltas: LoopDeltas::DEFAULT,
        },
        quantizer: Quantizer {
            base: 1,
            y_dc_delta: 0,
            uv_dc_delta: 0,
            uv_ac_delta: 0,
        },
        segmentation: Segmentation {
            enabled: false,
            map: None,
            features: Features::NONE,
        },
        tiles: TileInfo {
            columns_log2: 0,
            rows_log2: 0,
        },
        compressed_size: 1,
    },
};

const BLOCK: BlockInfo = BlockInfo {
    row: 0,
    col: 0,
    size: BlockSize::B8x8,
    skip: false,
    segment: 0,
    segment_predicted: false,
    tx: TxSize::T4x4,
    prediction: Prediction::Intra(IntraPrediction {
        luma: [IntraMode::Dc; 4],
        chroma: IntraMode::Dc,
    }),
};

/// A level that each depth can code.
fn coded_level(level: i32) -> i32
    ensures { unsigned_abs result < 16451 }
{
    if level.unsigned_abs() < 16451 {
        level
    } else {
        0
    }
}

/// How many places are coded, of which the first alone can have a level.
fn count_of(level: i32) -> u32
    ensures { ((result ≡ 0) × (level ≡ pos 0)) ⊎ ((result ≡ 1) × (level ≢ pos 0)) }
{
    if level == 0 { 0 } else { 1 }
}

/// The levels of four transform blocks of 4x4.
fn lone(levels: [i32; 4]) -> PlaneLevels
    ensures { (t : Tables) → length t.scan ≡ 16 → slice_index t.scan 0 ≡ 0 → (k : ℕ) → k < 4 → CanPut t (levels_at result 16 k) (slice_index result.counts k) }
{
    let first = coded_level(levels[0]);
    let second = coded_level(levels[1]);
    let third = coded_level(levels[2]);
    let fourth = coded_level(levels[3]);
    let mut counts = [0; 256];
    let mut values = [0; 4096];
    counts[0] = count_of(first);
    values[0] = first;
    counts[1] = count_of(second);
    values[16] = second;
    counts[2] = count_of(third);
    values[32] = third;
    counts[3] = count_of(fourth);
    values[48] = fourth;
    PlaneLevels { counts, values }
}

fn writes(
    rt: &impl Abort,
    alloc: Global,
    luma: [i32; 4],
    told: Result<BlockInfo, Rule>,
    bytes: &[u8],
) -> Result<(), Fail> {
    let modes = Modes {
        tx_mode: TxMode::Only4x4,
        reference_mode: ReferenceMode::Single,
    };
    let setting = FrameSetting::new(&KEY_FRAME, modes, default_contexts());
    let levels = BlockLevels {
        y: lone(luma),
        u: lone([0; 4]),
        v: lone([-2, 0, 0, 0]),
    };
    let mut encoder = BoolEncoder::new(alloc);
    let mut sides = TileSides::new(alloc, &KEY_FRAME.shape())?;
    let answer = put_block(&mut encoder, &setting, &BLOCK, &mut sides, &levels)?;
    assert!(rt; answer == told);
    let written = encoder.finish()?;
    assert_eq!(rt; written.as_slice(), bytes);
    Ok(())
}

#[test]
fn levels_of_a_block(rt: HostRuntime) -> Result<(), Fail> {
    let bytes = [127, 255, 119, 10, 127, 255, 226, 1, 60, 169, 160];
    writes(&rt, rt.alloc(), [17, 0, -70, 1], Ok(BLOCK), &bytes)
}

#[test]
fn level_that_breaks_a_rule(rt: HostRuntime) -> Result<(), Fail> {
    let bytes = [
        127, 255, 119, 31, 255, 255, 255, 255, 255, 255, 255, 255, 184, 0, 0,
    ];
    let broken = Err(Rule::CoefRange);
    writes(&rt, rt.alloc(), [17, 16450, 0, 0], broken, &bytes)
}
