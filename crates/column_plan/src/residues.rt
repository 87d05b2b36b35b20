//! Residues of transform blocks.

ghost use Rattle.column_plan.specs.Code.{GoOn, LiesIn, values_in};
ghost use Rattle.std.specs.Prelude.{◌≡◌, ◌<◌, ◌++◌, ◌∷◌, [], length, get_or, IfOk, OnOk, OnErr};

use crate::chunks::{Chunk, Piece};
use std::alloc::{AllocError, Global};
use std::marker::Model;

/// How many values a chunk has room for, if a transform block hasn't more. Small chunks lie where other buffers were, so a long
/// film takes no more memory than a short one.
const CHUNK: usize = 2048;

/// The place of no values.
const NOWHERE: Piece = Piece {
    chunk: 0,
    from: 0,
    count: 0,
};

/// The residues of transform blocks one behind another: where each lies, and the values of those that have any, in chunks, so
/// that no value is moved when more come.
#[derive(Drop)]
pub struct PlanResidues {
    alloc: Global,
    pieces: Vec<Piece>,
    chunks: Vec<Chunk>,
}

impl Model for PlanResidues {
    ghost use Rattle.std.specs.Prelude.{List, ℤ};
    ghost use Rattle.std.specs.List.{All};
    ghost use Rattle.column_plan.specs.Code.{LiesIn, pieces_in};

    ghost Value = { List (List ℤ) };

    ghost view = { λ r. pieces_in r.chunks.items r.pieces.items };

    ghost invariant = { λ r. All (LiesIn r.chunks.items) r.pieces.items };
}

/// Opens another chunk, if the last one has no room for so many values.
#[tactic(auto, using(crate::proofs::Pieces::same_go_on, crate::proofs::Pieces::one_opened, crate::proofs::Pieces::some_chunk))]
fn make_room(chunks: &mut Vec<Chunk>, alloc: Global, count: usize) -> Result<(), AllocError>
    ensures some { OnOk result (0 < length chunks.new.items) }
    ensures go_on { GoOn chunks.old.items chunks.new.items }
{
    if let Some(last) = chunks.last() {
        if last.has_room(count) {
            return Ok(());
        }
    }
    chunks.push(Chunk::new(alloc, count.max(CHUNK))?)?;
    Ok(())
}

/// Puts values behind those of the last chunk, or into another one, and answers where they lie.
fn put(chunks: &mut Vec<Chunk>, alloc: Global, values: &[i32]) -> Result<Piece, AllocError>
    ensures go_on { GoOn chunks.old.items chunks.new.items }
    ensures lies { IfOk result (λ p. LiesIn chunks.new.items p) }
    ensures values { IfOk result (λ p. values_in chunks.new.items p ≡ values.now) }
{
    if values.is_empty() {
        return Ok(NOWHERE);
    }
    make_room(chunks, alloc, values.len())?;
    let last = chunks.len() - 1;
    chunks[last].put(last, values)
}

/// The values of a piece.
#[tactic(auto, using(crate::proofs::Pieces::in_chunk, crate::proofs::Pieces::no_values))]
fn values_of(chunks: &[Chunk], piece: Piece) -> &[i32]
    requires { LiesIn chunks.now piece }
    ensures { result.now ≡ values_in chunks.now piece }
{
    if piece.count == 0 {
        return &[];
    }
    chunks[piece.chunk].get(piece.from, piece.count)
}

impl PlanResidues {
    /// None.
    #[tactic(auto, unfolding(crate::specs::Code::pieces_in), using(crate::proofs::Pieces::none_lie))]
    pub fn new(alloc: Global) -> PlanResidues
        ensures { result ≡ [] }
    {
        PlanResidues {
            alloc,
            pieces: Vec::new(alloc),
            chunks: Vec::new(alloc),
        }
    }

    /// How many there are.
    #[tactic(auto, using(crate::proofs::Pieces::pieces_long))]
    pub fn len(&self) -> usize
        ensures { result ≡ length self.now }
    {
        self.pieces.len()
    }

    /// Adds those of one more transform block: no values if it has no coefficient. Where memory is refused they stay as they
    /// were.
    #[tactic(auto, using(crate::proofs::Pieces::one_pushed, crate::proofs::Pieces::pushed_lie, crate::proofs::Pieces::same_pieces, crate::proofs::Pieces::same_lie))]
    pub fn push(&mut self, values: &[i32]) -> Result<(), AllocError>
        ensures one_more { OnOk result (self.new ≡ self.old ++ values.now ∷ []) }
        ensures kept { OnErr result (self.new ≡ self.old) }
    {
        self.pieces.reserve(1)?;
        let piece = put(&mut self.chunks, self.alloc, values)?;
        self.pieces.push_reserved(piece);
        Ok(())
    }

    /// The values of the `k`-th.
    #[tactic(auto, using(crate::proofs::Pieces::pieces_long, crate::proofs::Pieces::piece_at))]
    pub fn get(&self, k: usize) -> &[i32]
        requires { k < length self.now }
        ensures { result.now ≡ get_or self.now k [] }
    {
        values_of(&self.chunks, self.pieces[k])
    }

    /// Drops all of them.
    #[tactic(auto, unfolding(crate::specs::Code::pieces_in), using(crate::proofs::Pieces::none_lie))]
    pub fn clear(&mut self)
        ensures { self.new ≡ [] }
    {
        self.pieces.clear();
        self.chunks.clear();
    }
}
