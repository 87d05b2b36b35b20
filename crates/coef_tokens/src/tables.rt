//! What the tokens of a plane's transform blocks are read by.

ghost use Rattle.std.specs.Prelude.{◌≡◌, ◌+◌, ◌*◌, ◌≤◌};
ghost use Rattle.prob_contexts.specs.ProbLists.{lists_of};
ghost use Rattle.vp9_tables.specs.Numbers.{flag_number, tx_number};
ghost use Rattle.vp9_tables.specs.Scans.{area};
ghost use Rattle.coef_tokens.specs.TokenKinds.{block_tables};
ghost use Rattle.coef_tokens.specs.Fit.{tables_by, FitTables, StartsBands};
ghost use Rattle.vp9_types.specs.Shapes.{is_chroma};

use prob_contexts::Contexts;
use vp9_tables::{bands, neighbours, scan};
use vp9_types::{Depth, Plane, TxSize, TxType};

/// What decides how transform blocks are read: their size and kind, their plane, whether their block is an inter block,
/// the depth of samples.
#[derive(Clone, Copy, Debug, PartialEq, Eq)]
pub struct TokenKind {
    pub tx: TxSize,
    pub kind: TxType,
    pub plane: Plane,
    pub inter: bool,
    pub depth: Depth,
}

/// The tables that transform blocks of one kind are read by.
#[derive(Clone, Copy)]
pub struct TokenTables<'a> {
    pub tx: TxSize,
    pub scan: &'a [u16],
    pub neighbours: &'a [u16],
    pub bands: &'a [u8],
    pub probs: &'a [u8],
    pub base: u16,
    pub depth: Depth,
    ghost fit: { FitTables (tables_by scan.now neighbours.now bands.now probs.now base depth) (area tx) },
    ghost bands_start: { StartsBands bands.now (area tx) },
}

/// The number of a size, from the smallest.
#[inline(always)]
fn number_of(size: TxSize) -> u16
    ensures value { result ≡ tx_number size }
    ensures most { result ≤ 3 }
{
    size as u16
}

/// Which quarter of a size's probabilities blocks read.
#[inline(always)]
fn quarter_of(at: TokenKind) -> usize
    ensures value { result ≡ 2 * flag_number (is_chroma at.plane) + flag_number at.inter }
    ensures most { result ≤ 3 }
{
    let chroma = at.plane != Plane::Y;
    2 * usize::from(chroma) + usize::from(at.inter)
}

impl<'a> TokenTables<'a> {
    ghost use Rattle.coef_tokens.specs.Code.{tables_of};

    #[inline(always)]
    #[tactic(auto, unfolding(crate::specs::TokenKinds::block_tables))]
    pub fn new(contexts: &'a Contexts, at: TokenKind) -> Self
        ensures are { tables_of result ≡ block_tables (lists_of contexts.now) at }
        ensures tx { result.tx ≡ at.tx }
    {
        let probs: &[u8] = contexts.coef.of(at.tx);
        let quarter = quarter_of(at);
        let from = 99 * quarter;
        TokenTables {
            tx: at.tx,
            scan: scan(at.tx, at.kind),
            neighbours: neighbours(at.tx, at.kind),
            bands: bands(at.tx),
            probs: &probs[from..from + 99],
            base: 99 * (4 * number_of(at.tx) + quarter as u16),
            depth: at.depth,
        }
    }
}
