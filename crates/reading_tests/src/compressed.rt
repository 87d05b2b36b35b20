//! Compressed headers of real streams and made ones, over the default probabilities, as tools/vectors.py
//! reads them.

mod made;
mod streams;

use compressed_header::read;
use frame_headers::{
    ColorConfig, Features, FrameContexts, FrameFilter, FrameKind, FrameParams, FrameSize, Header,
    InterFields, LoopDeltas, LoopFilter, Quantizer, Reference, References, Segmentation, TileInfo,
};
use prob_contexts::{Contexts, default_contexts};
use std::process::Abort;
use std::test::Fail;
use vp9_types::{Depth, InterpFilter, Modes, ReferenceMode, Rule, Shape, TxMode};

pub enum Kind {
    Key,
    IntraOnly,
    Inter,
}

/// The bytes of a header, what it needs of its frame, and what it says: the modes, and the probabilities that aren't
/// the default ones by field, place and value.
pub struct Case {
    pub bytes: &'static [u8],
    pub lossless: bool,
    pub kind: Kind,
    pub biases: [bool; 3],
    pub switchable: bool,
    pub precise: bool,
    pub tx_mode: TxMode,
    pub reference_mode: ReferenceMode,
    pub changes: &'static [(u8, u16, u8)],
}

const FIELDS: u8 = 26;

fn reference(sign_bias: bool) -> Reference {
    let shape = Shape {
        w: 64,
        h: 64,
        depth: Depth::Eight,
        ss_x: true,
        ss_y: true,
    };
    Reference {
        slot: 0,
        sign_bias,
        shape,
    }
}

fn kind_of(case: &Case) -> FrameKind {
    let [last, golden, altref] = case.biases;
    match case.kind {
        Kind::Key => FrameKind::Key,
        Kind::IntraOnly => FrameKind::IntraOnly,
        Kind::Inter => FrameKind::Inter(InterFields {
            references: References {
                last: reference(last),
                golden: reference(golden),
                altref: reference(altref),
            },
            high_precision: case.precise,
            filter: if case.switchable {
                FrameFilter::Switchable
            } else {
                FrameFilter::Fixed(InterpFilter::Regular)
            },
        }),
    }
}

fn params(lossless: bool) -> FrameParams {
    FrameParams {
        loop_filter: LoopFilter {
            level: 0,
            sharpness: 0,
            delta_enabled: false,
            deltas: LoopDeltas::DEFAULT,
        },
        quantizer: Quantizer {
            base: u8::from(!lossless),
            y_dc_delta: 0,
            uv_dc_delta: 0,
            uv_ac_delta: 0,
        },
        segmentation: Segmentation {
            enabled: false,
            map: None,
            features: Features::NONE,
        },
        tiles: TileInfo {
            columns_log2: 0,
            rows_log2: 0,
        },
        compressed_size: 1,
    }
}

fn header(case: &Case) -> Header {
    Header {
        profile: 0,
        kind: kind_of(case),
        show_frame: true,
        error_resilient: false,
        reset_context: 0,
        color: ColorConfig::DEFAULT,
        size: FrameSize {
            width: 64,
            height: 64,
        },
        refresh: 0,
        contexts: FrameContexts {
            refresh: false,
            parallel: true,
            index: 0,
        },
        params: params(case.lossless),
    }
}

fn field(contexts: &Contexts, number: u8) -> &[u8] {
    match number {
        0 => &contexts.tx.of_8x8,
        1 => &contexts.tx.of_16x16,
        2 => &contexts.tx.of_32x32,
        3 => &contexts.coef.of_4x4,
        4 => &contexts.coef.of_8x8,
        5 => &contexts.coef.of_16x16,
        6 => &contexts.coef.of_32x32,
        7 => &contexts.skip,
        8 => &contexts.inter.modes,
        9 => &contexts.inter.filters,
        10 => &contexts.inter.is_inter,
        11 => &contexts.inter.compound_flag,
        12 => &contexts.inter.single_references,
        13 => &contexts.inter.compound_references,
        14 => &contexts.inter.y_modes,
        15 => &contexts.partitions,
        16 => &contexts.vectors.joints,
        17 => &contexts.vectors.signs,
        18 => &contexts.vectors.classes,
        19 => &contexts.vectors.class0,
        20 => &contexts.vectors.bits,
        21 => &contexts.vectors.class0_fractions,
        22 => &contexts.vectors.fractions,
        23 => &contexts.vectors.class0_high,
        24 => &contexts.vectors.high,
        _ => &contexts.uv_modes,
    }
}

/// What a place of a field has after the changes.
fn changed(changes: &[(u8, u16, u8)], number: u8, place: usize, old: u8) -> u8 {
    for (field, at, new) in changes {
        if *field == number && usize::from(*at) == place {
            return *new;
        }
    }
    old
}

fn is_read(rt: &impl Abort, case: &Case) -> Result<(), Rule> {
    let before = default_contexts();
    let (after, modes) = read(case.bytes, &header(case), &before)?;
    assert_eq!(rt;
        modes,
        Modes {
            tx_mode: case.tx_mode,
            reference_mode: case.reference_mode
        }
    );
    for number in 0..FIELDS {
        let probs = field(&after, number).iter().zip(field(&before, number));
        for (place, (new, old)) in probs.enumerate() {
            assert_eq!(rt; *new, changed(case.changes, number, place, *old));
        }
    }
    Ok(())
}

#[test]
fn headers(rt: HostRuntime) -> Result<(), Fail> {
    for case in &streams::CASES {
        is_read(&rt, case)?;
    }
    for case in &made::CASES {
        is_read(&rt, case)?;
    }
    Ok(())
}
