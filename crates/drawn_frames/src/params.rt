//! The parameters that end a header.

ghost use Rattle.std.specs.Prelude.{◌≡◌, ◌≤◌, max};
ghost use Rattle.frame_headers.specs.Tiles.{max_log2, min_log2, superblocks};
ghost use Rattle.header_writer.specs.WellFormed.{IsTileInfo};
ghost use Rattle.drawn_symbols.specs.Draws.{IsDrawn};
ghost use Rattle.drawn_frames.specs.Code.{AreMadeParams, AreMadeSegments};
ghost use Rattle.drawn_frames.specs.MadeFrames.{IsMadeSize};
ghost use Rattle.drawn_frames.specs.Params.{draw_columns, draw_params, draw_segmentation, draw_tiles, mapped_segments, segmentation_off};

use crate::starts::draw_chance;
use drawn_symbols::Draws;
use frame_headers::{
    Features, FrameParams, FrameSize, LoopDeltas, LoopFilter, MapUpdate, Quantizer, Segmentation,
    TileInfo,
};

#[tactic(auto, unfolding(crate::specs::Params::draw_segmentation))]
fn draw_segmentation(draws: &mut Draws) -> Segmentation
    ensures drawn { IsDrawn draw_segmentation draws.old result draws.new }
    ensures made { AreMadeSegments result }
{
    if draw_chance(draws, 4) {
        mapped_segments()
    } else {
        segmentation_off()
    }
}

fn mapped_segments() -> Segmentation
    ensures is { result ≡ mapped_segments }
    ensures made { AreMadeSegments result }
{
    Segmentation {
        enabled: true,
        map: Some(MapUpdate {
            tree: [128; 7],
            temporal: false,
            prediction: [255; 3],
        }),
        features: Features::NONE,
    }
}

fn segmentation_off() -> Segmentation
    ensures is { result ≡ segmentation_off }
    ensures made { AreMadeSegments result }
{
    Segmentation {
        enabled: false,
        map: None,
        features: Features::NONE,
    }
}

#[tactic(auto, unfolding(crate::specs::Params::draw_columns, frame_headers::specs::Tiles::min_log2, frame_headers::specs::Tiles::max_log2))]
fn draw_columns(draws: &mut Draws, size: FrameSize) -> u8
    requires { IsMadeSize size }
    ensures drawn { IsDrawn (draw_columns size.width) draws.old result draws.new }
    ensures least { min_log2 (superblocks size.width) ≤ result }
    ensures most { result ≤ max (min_log2 (superblocks size.width)) (max_log2 (superblocks size.width)) }
    ensures few { result ≤ 1 }
{
    if size.width == 520 {
        return draws.draw(2) as u8;
    }
    0
}

#[tactic(auto, unfolding(crate::specs::Params::draw_tiles))]
fn draw_tiles(draws: &mut Draws, size: FrameSize) -> TileInfo
    requires { IsMadeSize size }
    ensures drawn { IsDrawn (draw_tiles size.width) draws.old result draws.new }
    ensures are { IsTileInfo size.width result }
    ensures few { result.columns_log2 ≤ 1 }
{
    let columns_log2 = draw_columns(draws, size);
    let rows_log2 = draws.draw(3) as u8;
    TileInfo {
        columns_log2,
        rows_log2,
    }
}

/// The parameters of a frame of a size.
#[tactic(auto, unfolding(crate::specs::Params::draw_params))]
pub(crate) fn draw_params(draws: &mut Draws, size: FrameSize) -> FrameParams
    requires { IsMadeSize size }
    ensures drawn { IsDrawn (draw_params size.width) draws.old result draws.new }
    ensures made { AreMadeParams size.width result }
{
    let level = draws.draw(64) as u8;
    let sharpness = draws.draw(8) as u8;
    let base = draws.draw(128) as u8;
    let segmentation = draw_segmentation(draws);
    let tiles = draw_tiles(draws, size);
    FrameParams {
        loop_filter: LoopFilter {
            level,
            sharpness,
            delta_enabled: true,
            deltas: LoopDeltas::DEFAULT,
        },
        quantizer: Quantizer {
            base,
            y_dc_delta: 0,
            uv_dc_delta: 0,
            uv_ac_delta: 0,
        },
        segmentation,
        tiles,
        compressed_size: 1,
    }
}
