//! Headers that can be written, and headers that can't.

use frame_headers::{
    ColorConfig, ColorSpace, Features, FrameContexts, FrameFilter, FrameKind, FrameParams,
    FrameSize, Header, InterFields, LoopDeltas, LoopFilter, Persist, Quantizer, Reference,
    References, Segmentation, TileInfo, Uncompressed,
};
use header_checks::{can_choose, can_say_modes, is_well_formed};
use header_writer::Choices;
use std::process::Abort;
use vp9_types::{Depth, Modes, ReferenceMode, Shape, TxMode};

const SHAPE: Shape = Shape {
    w: 520,
    h: 136,
    depth: Depth::Eight,
    ss_x: true,
    ss_y: true,
};

const PARAMS: FrameParams = FrameParams {
    loop_filter: LoopFilter {
        level: 63,
        sharpness: 7,
        delta_enabled: true,
        deltas: LoopDeltas::DEFAULT,
    },
    quantizer: Quantizer {
        base: 0,
        y_dc_delta: 0,
        uv_dc_delta: 0,
        uv_ac_delta: 0,
    },
    segmentation: Segmentation {
        enabled: false,
        map: None,
        features: Features::NONE,
    },
    tiles: TileInfo {
        columns_log2: 1,
        rows_log2: 2,
    },
    compressed_size: 1,
};

const KEY: Header = Header {
    profile: 0,
    kind: FrameKind::Key,
    show_frame: true,
    error_resilient: false,
    reset_context: 0,
    color: ColorConfig::DEFAULT,
    size: FrameSize {
        width: 520,
        height: 136,
    },
    refresh: 255,
    contexts: FrameContexts {
        refresh: true,
        parallel: false,
        index: 3,
    },
    params: PARAMS,
};

const ALL_CODED: Choices = Choices {
    biases: [false; 3],
    own_size: true,
    deltas: true,
    features: true,
};

fn reference(slot: u8, sign_bias: bool) -> Reference {
    Reference {
        slot,
        sign_bias,
        shape: SHAPE,
    }
}

/// An inter frame of a size, whose altref stands in a slot and lies on the other side or not.
fn inter(width: u32, slot: u8, sign_bias: bool) -> Header {
    let kind = FrameKind::Inter(InterFields {
        references: References {
            last: reference(0, false),
            golden: reference(1, false),
            altref: reference(slot, sign_bias),
        },
        high_precision: true,
        filter: FrameFilter::Switchable,
    });
    let size = FrameSize { width, height: 136 };
    let tiles = TileInfo {
        columns_log2: 0,
        rows_log2: 0,
    };
    Header {
        kind,
        size,
        params: FrameParams { tiles, ..PARAMS },
        ..KEY
    }
}

/// Behind frames that left the last slot empty.
fn before() -> Persist {
    let held = Some(SHAPE);
    Persist {
        slots: [held, held, held, held, held, held, held, None],
        ..Persist::START
    }
}

fn is_good(header: Header) -> bool {
    is_well_formed(&before(), &Uncompressed::Coded(header))
}

#[test]
fn slots_that_are_shown(rt: HostRuntime) {
    assert!(rt; is_well_formed(&before(), &Uncompressed::ShowExisting { slot: 6 }));
    assert!(rt; !is_well_formed(&before(), &Uncompressed::ShowExisting { slot: 7 }));
    assert!(rt; !is_well_formed(&before(), &Uncompressed::ShowExisting { slot: 8 }));
}

#[test]
fn key_frames(rt: HostRuntime) {
    assert!(rt; is_good(KEY));
    assert!(rt;
        !is_good(Header {
            refresh: 254,
            ..KEY
        })
    );
    assert!(rt; !is_good(Header { profile: 1, ..KEY }));
    assert!(rt;
        !is_good(Header {
            error_resilient: true,
            ..KEY
        })
    );
    let color = ColorConfig {
        space: ColorSpace::Rgb,
        ..ColorConfig::DEFAULT
    };
    assert!(rt; !is_good(Header { color, ..KEY }));
    let rgb = ColorConfig {
        full_range: true,
        ss_x: false,
        ss_y: false,
        ..color
    };
    assert!(rt;
        is_good(Header {
            profile: 1,
            color: rgb,
            ..KEY
        })
    );
    assert!(rt;
        !is_good(Header {
            profile: 3,
            color: rgb,
            ..KEY
        })
    );
}

#[test]
fn references_of_inter_frames(rt: HostRuntime) {
    assert!(rt; is_good(inter(260, 6, false)));
    assert!(rt; !is_good(inter(260, 7, false)));
    assert!(rt; !is_good(inter(259, 6, false)));
}

#[test]
fn parameters(rt: HostRuntime) {
    let mut params = PARAMS;
    params.loop_filter.deltas.mode[1] = -63;
    assert!(rt; is_good(Header { params, ..KEY }));
    params.loop_filter.deltas.mode[1] = -64;
    assert!(rt; !is_good(Header { params, ..KEY }));
    let mut params = PARAMS;
    params.tiles.rows_log2 = 3;
    assert!(rt; !is_good(Header { params, ..KEY }));
    params.tiles = TileInfo {
        columns_log2: 2,
        rows_log2: 0,
    };
    assert!(rt; !is_good(Header { params, ..KEY }));
    let mut params = PARAMS;
    params.segmentation.enabled = true;
    params.segmentation.features.segments[7].quantizer = Some(-255);
    assert!(rt; is_good(Header { params, ..KEY }));
    params.segmentation.features.segments[7].quantizer = Some(256);
    assert!(rt; !is_good(Header { params, ..KEY }));
}

#[test]
fn choices(rt: HostRuntime) {
    let mut header = KEY;
    header.params.loop_filter.deltas.reference[0] = 2;
    let header = Uncompressed::Coded(header);
    let none = Choices {
        deltas: false,
        ..ALL_CODED
    };
    assert!(rt; can_choose(&before(), ALL_CODED, &header));
    assert!(rt; !can_choose(&before(), none, &header));
    assert!(rt; can_choose(&before(), none, &Uncompressed::Coded(KEY)));
}

#[test]
fn modes(rt: HostRuntime) {
    let mut said = Modes {
        tx_mode: TxMode::Only4x4,
        reference_mode: ReferenceMode::Compound,
    };
    assert!(rt; can_say_modes(&inter(520, 2, true), said));
    assert!(rt; !can_say_modes(&inter(520, 2, false), said));
    assert!(rt; !can_say_modes(&KEY, said));
    said.reference_mode = ReferenceMode::Single;
    assert!(rt; can_say_modes(&KEY, said));
    said.tx_mode = TxMode::Selected;
    assert!(rt; !can_say_modes(&KEY, said));
}
