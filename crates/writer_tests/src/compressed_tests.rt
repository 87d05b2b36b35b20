//! Bytes of the standard's arithmetic over numbers without bound, by tools/vectors.py compressed_writings.
//! They hold headers that make some changes to the default probabilities.

ghost use Rattle.std.specs.Prelude.{◌≡◌, ◌<◌, ◌≤◌, ◌%◌, length, true, false};
ghost use Rattle.std.specs.List.{All};
ghost use Rattle.frame_headers.specs.Quantizer.{is_lossless};
ghost use Rattle.frame_headers.specs.declared.header.FrameFilter.TheVariants as filter;
ghost use Rattle.prob_contexts.specs.ProbLists.{lists_of, vector_lists};
ghost use Rattle.compressed_writer.specs.CodedUpdates.{AreOddUpdates, AreVectorUpdates, CanForward};

use compressed_header::read;
use compressed_writer::write_compressed_header;
use frame_headers::{
    ColorConfig, Features, FrameContexts, FrameFilter, FrameKind, FrameParams, FrameSize, Header,
    InterFields, LoopDeltas, LoopFilter, Quantizer, Reference, References, Segmentation, TileInfo,
};
use prob_contexts::{CoefProbs, Contexts, InterProbs, TxProbs, VectorProbs, default_contexts};
use std::alloc::Global;
use std::process::Abort;
use std::test::Fail;
use vp9_types::{Depth, Modes, ReferenceMode, Shape, TxMode};

const INTER_BYTES: [u8; 45] = [
    127, 188, 95, 145, 245, 226, 224, 5, 43, 158, 237, 196, 128, 132, 255, 160, 7, 78, 18, 207,
    179, 109, 187, 179, 66, 207, 250, 178, 124, 159, 244, 251, 173, 50, 138, 241, 233, 145, 160,
    155, 253, 76, 30, 100, 0,
];

fn params(base: u8) -> FrameParams
    ensures { is_lossless result.quantizer ≡ true → base ≡ 0 }
{
    FrameParams {
        loop_filter: LoopFilter {
            level: 0,
            sharpness: 0,
            delta_enabled: false,
            deltas: LoopDeltas::DEFAULT,
        },
        quantizer: Quantizer {
            base,
            y_dc_delta: 0,
            uv_dc_delta: 0,
            uv_ac_delta: 0,
        },
        segmentation: Segmentation {
            enabled: false,
            map: None,
            features: Features::NONE,
        },
        tiles: TileInfo {
            columns_log2: 0,
            rows_log2: 0,
        },
        compressed_size: 1,
    }
}

fn header(kind: FrameKind, base: u8) -> Header
    ensures kind { result.kind ≡ kind }
    ensures lossless { is_lossless result.params.quantizer ≡ true → base ≡ 0 }
{
    Header {
        profile: 0,
        kind,
        show_frame: true,
        error_resilient: false,
        reset_context: 0,
        color: ColorConfig::DEFAULT,
        size: FrameSize {
            width: 64,
            height: 64,
        },
        refresh: 0,
        contexts: FrameContexts {
            refresh: false,
            parallel: true,
            index: 0,
        },
        params: params(base),
    }
}

fn reference(sign_bias: bool) -> Reference
    ensures { result.sign_bias ≡ sign_bias }
{
    let shape = Shape {
        w: 64,
        h: 64,
        depth: Depth::Eight,
        ss_x: true,
        ss_y: true,
    };
    Reference {
        slot: 0,
        sign_bias,
        shape,
    }
}

/// The golden reference lies on the other side.
fn fields() -> InterFields
    ensures last { result.references.last.sign_bias ≡ false }
    ensures golden { result.references.golden.sign_bias ≡ true }
    ensures precise { result.high_precision ≡ true }
    ensures filter { result.filter ≡ filter.Switchable }
{
    InterFields {
        references: References {
            last: reference(false),
            golden: reference(true),
            altref: reference(false),
        },
        high_precision: true,
        filter: FrameFilter::Switchable,
    }
}

fn changed_vectors(before: VectorProbs) -> VectorProbs
    ensures { AreVectorUpdates true (vector_lists before) (vector_lists result) }
{
    let mut after = before;
    after.joints[1] = 33;
    after.classes[15] = 255;
    after.bits[3] = 1;
    after.fractions[5] = 65;
    after.high[1] = 201;
    after
}

fn changed_inter(before: InterProbs) -> InterProbs {
    let mut after = before;
    after.modes[20] = 200;
    after.filters[3] = 99;
    after.is_inter[0] = 16;
    after.compound_flag[4] = 240;
    after.single_references[9] = 20;
    after.compound_references[0] = 129;
    after.y_modes[35] = 127;
    after
}

fn changed_tx(before: TxProbs) -> TxProbs {
    let mut after = before;
    after.of_8x8[1] = 1;
    after.of_16x16[3] = 255;
    after.of_32x32[5] = 130;
    after
}

fn changed_coef(before: CoefProbs) -> CoefProbs {
    let mut after = before;
    after.of_4x4[395] = 77;
    after.of_16x16[100] = 128;
    after.of_32x32[0] = 254;
    after
}

/// One of nearly each kind.
fn changed(before: Contexts) -> Contexts
    ensures vectors { AreVectorUpdates true (lists_of before).vectors (lists_of result).vectors }
    ensures uv_modes { result.uv_modes ≡ before.uv_modes }
{
    let mut after = before;
    after.tx = changed_tx(before.tx);
    after.coef = changed_coef(before.coef);
    after.skip[2] = 3;
    after.partitions[47] = 90;
    after.inter = changed_inter(before.inter);
    after.vectors = changed_vectors(before.vectors);
    after
}

fn writes(
    rt: &impl Abort,
    alloc: Global,
    header: &Header,
    contexts: (Contexts, Contexts),
    modes: Modes,
    bytes: &[u8],
) -> Result<(), Fail>
    requires { CanForward header.now (lists_of contexts.0) (lists_of contexts.1) modes }
{
    let (before, after) = contexts;
    let written = write_compressed_header(alloc, header, &before, &after, modes)?;
    assert_eq!(rt; written.as_slice(), bytes);
    assert_eq!(rt; read(&written, header, &before)?, (after, modes));
    Ok(())
}

#[test]
fn no_update(rt: HostRuntime) -> Result<(), Fail> {
    let before = default_contexts();
    let modes = Modes {
        tx_mode: TxMode::UpTo32x32,
        reference_mode: ReferenceMode::Single,
    };
    let key = header(FrameKind::Key, 1);
    writes(&rt, rt.alloc(), &key, (before, before), modes, &[96, 0])?;
    Ok(())
}

#[test]
fn lossless(rt: HostRuntime) -> Result<(), Fail> {
    let before = default_contexts();
    let modes = Modes {
        tx_mode: TxMode::Only4x4,
        reference_mode: ReferenceMode::Single,
    };
    let intra = header(FrameKind::IntraOnly, 0);
    writes(&rt, rt.alloc(), &intra, (before, before), modes, &[0, 0])?;
    Ok(())
}

#[test]
fn updates_of_all_kinds(rt: HostRuntime) -> Result<(), Fail> {
    let before = default_contexts();
    let modes = Modes {
        tx_mode: TxMode::Selected,
        reference_mode: ReferenceMode::Selected,
    };
    let inter = header(FrameKind::Inter(fields()), 1);
    let after = changed(before);
    writes(
        &rt,
        rt.alloc(),
        &inter,
        (before, after),
        modes,
        &INTER_BYTES,
    )?;
    Ok(())
}
