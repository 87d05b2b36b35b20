//! Bytes of the standard's arithmetic over numbers without bound, as tools/vectors.py vector_writings has them.

ghost use Rattle.std.specs.Prelude.{◌≡◌, ℕ, true, false, None};
ghost use Rattle.std.specs.List.{All};
ghost use Rattle.std.specs.Option.{option_copied};
ghost use Rattle.vp9_types.specs.declared.block.BlockSize.TheVariants.{B4x4};
ghost use Rattle.vp9_types.specs.declared.block.InterpFilter.TheVariants.{Sharp};
ghost use Rattle.block_plan.specs.BlockMvs.{vector_at};
ghost use Rattle.mv_prediction.specs.Code.{HasSmallVectors};
ghost use Rattle.inter_modes.specs.BlockVectors.{row_vectors};
ghost use Rattle.vector_writer.specs.VectorFits.{IsDifference, CanDiffer};

use block_geometry::FramePlaces;
use block_plan::{BlockAt, BlockGrid, InterPrediction, Mv, ReferenceFrames};
use bool_encoder::BoolEncoder;
use frame_headers::FrameFilter;
use inter_modes::{FilterSource, NO_VECTORS, Sources};
use mv_prediction::{MvSearch, SignBiases, mode_context};
use prob_contexts::default_contexts;
use std::alloc::Global;
use std::process::Abort;
use std::test::Fail;
use vector_writer::{InterSymbols, put_inter_prediction, put_mv};
use vp9_types::{BlockSize, InterMode, InterpFilter, ReferenceFrame};

/// Whether a difference has bits of high precision, its row and its column.
static DIFFERENCES: [(bool, i16, i16); 20] = [
    (true, 0, 0),
    (true, -1, 16384),
    (false, 16384, -2),
    (true, 16, -17),
    (false, 32, 34),
    (true, 8191, -8193),
    (false, 8, 0),
    (true, 9698, 0),
    (false, 0, -6),
    (true, -72, -4641),
    (false, -6, 0),
    (true, 0, 4),
    (false, 2, 0),
    (true, 0, 7),
    (false, 5316, -44),
    (true, -2102, 0),
    (false, -104, -430),
    (true, 827, 1),
    (false, 0, 88),
    (true, -3648, -100),
];

static BYTES: [u8; 60] = [
    13, 23, 255, 255, 255, 255, 205, 255, 255, 255, 255, 246, 179, 195, 158, 103, 207, 127, 243,
    255, 248, 79, 235, 10, 124, 127, 250, 78, 147, 208, 103, 135, 251, 47, 21, 201, 3, 165, 255,
    159, 143, 98, 217, 249, 241, 254, 95, 243, 90, 111, 193, 171, 94, 3, 255, 140, 207, 249, 143,
    0,
];

fn fits(precise: bool, component: i16) -> bool
    ensures { result ≡ true → IsDifference precise component }
{
    let size = component.unsigned_abs();
    size <= 16384 && (precise || size % 2 == 0)
}

#[test]
fn drawn_differences(rt: HostRuntime) -> Result<(), Fail> {
    let contexts = default_contexts();
    let mut encoder = BoolEncoder::new(rt.alloc());
    for (precise, row, column) in DIFFERENCES {
        assert!(rt; fits(precise, row));
        assert!(rt; fits(precise, column));
        put_mv(&mut encoder, &contexts.vectors, precise, Mv { row, column })?;
    }
    let bytes = encoder.finish()?;
    assert_eq!(rt; bytes.as_slice(), BYTES.as_slice());
    Ok(())
}

const FIRST: [Mv; 2] = [
    Mv {
        row: 6,
        column: -20,
    },
    Mv {
        row: -4,
        column: 100,
    },
];

const LAST: [Mv; 2] = [
    Mv {
        row: 300,
        column: 8,
    },
    Mv { row: 2, column: -2 },
];

static QUARTERS: [u8; 12] = [127, 246, 156, 2, 82, 101, 125, 125, 49, 180, 200, 64];

fn symbols() -> InterSymbols
    ensures filter { result.filter ≡ Sharp }
    ensures differences { (k list : ℕ) → CanDiffer false (vector_at (row_vectors result.differences k) list) }
{
    InterSymbols {
        references: ReferenceFrames {
            first: ReferenceFrame::Last,
            second: Some(ReferenceFrame::Altref),
        },
        filter: InterpFilter::Sharp,
        modes: [
            InterMode::New,
            InterMode::Nearest,
            InterMode::Near,
            InterMode::New,
        ],
        differences: [FIRST, NO_VECTORS, NO_VECTORS, LAST],
    }
}

/// A block of 4x4 quarters at the corner of its tile, with no block beside it.
fn search() -> MvSearch
    ensures size { result.at.size ≡ B4x4 }
    ensures places { (result.places.rows ≡ 20) × (result.at.row ≡ 0) × (result.at.col ≡ 8) }
    ensures tile { (result.at.tile_from ≡ 8) × (result.at.tile_to ≡ 24) × (result.places.cols ≡ 30) }
{
    MvSearch {
        places: FramePlaces { rows: 20, cols: 30 },
        biases: SignBiases {
            last: false,
            golden: false,
            altref: true,
        },
        at: BlockAt {
            row: 0,
            col: 8,
            size: BlockSize::B4x4,
            tile_from: 8,
            tile_to: 24,
        },
    }
}

fn write_quarters(
    rt: &impl Abort,
    alloc: Global,
    earlier: &BlockGrid,
    before: Option<&BlockGrid>,
) -> Result<(), Fail>
    requires tile { (earlier.now.rows ≡ 20) × (earlier.now.from ≡ 8) × (earlier.now.to ≡ 24) }
    requires small { All HasSmallVectors earlier.now.blocks }
    requires none { option_copied before ≡ None }
{
    let contexts = default_contexts();
    let search = search();
    let symbols = symbols();
    let src = Sources {
        probs: &contexts.vectors,
        modes: &contexts.inter.modes,
        context: mode_context(&search, earlier),
        high_precision: true,
        search,
        earlier,
        before,
    };
    let mut encoder = BoolEncoder::new(alloc);
    let filters = &contexts.inter.filters;
    let filter = FilterSource {
        frame: FrameFilter::Switchable,
        context: 1,
    };
    let said = put_inter_prediction(&mut encoder, &src, filters, false, filter, &symbols)??;
    let expected = InterPrediction {
        modes: symbols.modes,
        references: symbols.references,
        filter: InterpFilter::Sharp,
        vectors: [FIRST, FIRST, NO_VECTORS, LAST],
    };
    assert_eq!(rt; said, expected);
    let bytes = encoder.finish()?;
    assert_eq!(rt; bytes.as_slice(), QUARTERS.as_slice());
    Ok(())
}

#[test]
fn four_quarters(rt: HostRuntime) -> Result<(), Fail> {
    let earlier = BlockGrid::new(rt.alloc(), 20, 8, 24, 1)?;
    write_quarters(&rt, rt.alloc(), &earlier, None)
}
