//! A block in a plane.

ghost use Rattle.std.specs.Prelude.{◌≡◌, ◌≤◌, ◌<◌};
ghost use Rattle.frame_headers.specs.HeaderState.{shape_of};
ghost use Rattle.vp9_tables.specs.BlockTables.{greatest_of};
ghost use Rattle.vp9_tables.specs.Numbers.{tx_number};
ghost use Rattle.residue_syntax.specs.BlocksInPlanes.{block_in, token_kind, type_at, types_by, goes_by_mode, flag_row, flag_column};

use crate::quantisers::quant_of;
use block_geometry::{PlaneBlock, is_below_8x8};
use block_plan::{BlockInfo, Prediction, plane_block};
use coef_tokens::TokenKind;
use frame_headers::Header;
use residue_transforms::Quant;
use vp9_tables::intra_tx_type;
use vp9_types::{Plane, TxSize, TxType, halved};

/// A block in a plane, as its residue is read: its transform blocks, their types by quarter of an 8x8 block (four times the
/// same from 8x8 on), whether it is an inter block, and its quantisers.
#[derive(Clone, Copy, Debug, PartialEq, Eq)]
pub struct BlockInPlane {
    pub plane: Plane,
    pub block: PlaneBlock,
    pub types: [TxType; 4],
    pub inter: bool,
    pub quant: Quant,
}

#[inline(always)]
fn goes_by_mode(lossless: bool, plane: Plane, tx: TxSize) -> bool
    ensures { result ≡ goes_by_mode lossless plane tx }
{
    tx != TxSize::T32x32 && plane == Plane::Y && !lossless
}

#[inline(always)]
fn types_by(lossless: bool, plane: Plane, tx: TxSize, prediction: &Prediction) -> [TxType; 4]
    ensures { result ≡ types_by lossless plane tx prediction.now }
{
    match prediction {
        Prediction::Intra(modes) if goes_by_mode(lossless, plane, tx) => {
            let [first, second, third, fourth] = modes.luma;
            [
                intra_tx_type(first),
                intra_tx_type(second),
                intra_tx_type(third),
                intra_tx_type(fourth),
            ]
        }
        _ => [TxType::DctDct; 4],
    }
}

impl BlockInPlane {
    /// A block of a frame in a plane.
    #[inline(always)]
    pub fn of(header: &Header, block: &BlockInfo, plane: Plane) -> BlockInPlane
        requires segment { block.now.segment ≤ 7 }
        requires fits { tx_number block.now.tx ≤ greatest_of block.now.size }
        ensures { result ≡ block_in header.now block.now plane }
    {
        let in_plane = plane_block(&header.shape(), block, plane);
        let lossless = header.params.quantizer.lossless();
        BlockInPlane {
            plane,
            block: in_plane,
            types: types_by(lossless, plane, in_plane.tx, &block.prediction),
            inter: matches!(block.prediction, Prediction::Inter(_)),
            quant: quant_of(header, block.segment, plane),
        }
    }

    /// What decides how the tokens of the transform block at row `y` and column `x`, in 4s, are read.
    #[inline(always)]
    pub fn token_kind(&self, y: usize, x: usize) -> TokenKind
        requires y { y < 16 }
        requires x { x < 16 }
        ensures { result ≡ token_kind self.now y x }
    {
        TokenKind {
            tx: self.block.tx,
            kind: self.type_at(y, x),
            plane: self.plane,
            inter: self.inter,
            depth: self.quant.depth,
        }
    }

    /// The type of the transform block at row `y` and column `x`, in 4s.
    #[inline(always)]
    fn type_at(&self, y: usize, x: usize) -> TxType
        requires y { y < 16 }
        requires x { x < 16 }
        ensures { result ≡ type_at self.now y x }
    {
        if is_below_8x8(self.block.size) {
            match self.types.get(2 * y + x) {
                Some(kind) => *kind,
                None => TxType::DctDct,
            }
        } else {
            self.types[0]
        }
    }
}

/// Where a row of a block's transform blocks stands in the flags at the left.
#[inline(always)]
pub(crate) fn flag_row(block: &PlaneBlock, y: usize) -> usize
    requires near { y < 16 }
    ensures { result ≡ flag_row block.now y }
{
    halved(block.ss_y, 2 * block.row as usize) + y
}

/// Where a column of them stands in the flags above.
#[inline(always)]
pub(crate) fn flag_column(block: &PlaneBlock, x: usize) -> usize
    requires near { x < 16 }
    ensures { result ≡ flag_column block.now x }
{
    halved(block.ss_x, 2 * block.col as usize) + x
}
