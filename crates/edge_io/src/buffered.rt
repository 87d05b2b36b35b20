ghost use Rattle.std.specs.Prelude.{◌≡◌, ◌≤◌, ◌<◌, [], length, IfOk};

use crate::source::{Failed, Source};
use std::alloc::{AllocError, Global};

/// How many bytes a source is asked for at once.
const PIECE: usize = 1 << 18;

/// A source that is asked for a large piece at once, which is handed on in parts. So the next bytes are often at hand.
#[derive(Drop)]
pub struct Buffered<S> {
    source: S,
    piece: Vec<u8>,
    from: usize,
    to: usize,
    ghost inside: { (from ≤ to) × (to ≤ length piece.items) × (0 < length piece.items) },
}

impl<S: Drop> Buffered<S> {
    ghost use Rattle.edge_io.specs.Buffered.{held_by, source_of};

    /// Asks this source, which may have given bytes before. Nothing is read yet.
    pub fn new(alloc: Global, source: S) -> Result<Buffered<S>, AllocError>
        ensures held { IfOk result (λ b. held_by b ≡ []) }
        ensures source { IfOk result (λ b. source_of b ≡ source) }
    {
        Ok(Buffered {
            source,
            piece: Vec::from_elem(alloc, 0, PIECE)?,
            from: 0,
            to: 0,
        })
    }
}

impl<S> Buffered<S> {
    ghost use Rattle.edge_io.specs.Buffered.{source_of};

    /// The source, past the bytes that it gave. Those at hand that weren't taken are lost.
    pub fn into_source(self) -> S
        ensures { result ≡ source_of self }
    {
        self.source
    }
}

impl<S: Source> Buffered<S> {
    ghost use Rattle.std.specs.Prelude.{◌-◌, ◌<◌, ◌^◌, ◌+◌, min, take, drop};
    ghost use Rattle.edge_io.specs.Filling.{CountsFaults, IsKept, WhereTold};
    ghost use Rattle.edge_io.specs.Buffered.{all_ahead, held_by, source_of};

    /// Asks for the next piece, where none of the last one is at hand. Then there is none only at the end of the source.
    fn refill(&mut self) -> Result<(), Failed>
        requires { (length (held_by self.old) ≤ S.given self.old.source) × (S.given self.old.source < 2 ^ 63) × S.can_fill self.old.source }
        ensures kept { IsKept (all_ahead (held_by self.old) (S.rest self.old.source)) (all_ahead (held_by self.new) (S.rest self.new.source)) }
        ensures some { IfOk result (λ _. held_by self.new ≡ [] → WhereTold (all_ahead (held_by self.old) (S.rest self.old.source)) (λ bytes. bytes ≡ [])) }
        ensures given { S.given self.new.source + length (held_by self.old) ≡ S.given self.old.source + length (held_by self.new) }
        ensures most { S.given self.new.source < 2 ^ 63 }
        ensures faults { CountsFaults (S.faults self.old.source) (S.faults self.new.source) result }
        ensures again { S.faults self.new.source ≡ S.faults self.old.source → S.can_fill self.new.source }
    {
        if self.from < self.to {
            return Ok(());
        }
        self.from = 0;
        self.to = 0;
        self.to = self.source.fill(&mut self.piece)?;
        Ok(())
    }

    /// Takes bytes that are at hand, as many as there is room for.
    fn take(&mut self, buf: &mut [u8]) -> usize
        ensures count { result ≡ min (length buf.old) (length (held_by self.old)) }
        ensures room { length buf.new ≡ length buf.old }
        ensures bytes { take result buf.new ≡ take result (held_by self.old) }
        ensures rest { held_by self.new ≡ drop result (held_by self.old) }
        ensures source { self.new.source ≡ self.old.source }
    {
        let n = buf.len().min(self.to - self.from);
        buf[..n].copy_from_slice(&self.piece[self.from..self.from + n]);
        self.from += n;
        n
    }
}

impl<S: Source> Source for Buffered<S> {
    ghost use Rattle.std.specs.Prelude.{◌-◌, ◌<◌, ◌^◌};
    ghost use Rattle.edge_io.specs.Buffered.{all_ahead, held_by};

    ghost rest = { λ b. all_ahead (held_by b) (S.rest b.source) };

    ghost given = { λ b. S.given b.source - length (held_by b) };

    ghost faults = { λ b. S.faults b.source };

    ghost can_fill = { λ b. (length (held_by b) ≤ S.given b.source) × (S.given b.source < 2 ^ 63) × S.can_fill b.source };

    fn fill(&mut self, buf: &mut [u8]) -> Result<usize, Failed> {
        if buf.is_empty() {
            return Ok(0);
        }
        self.refill()?;
        Ok(self.take(buf))
    }

    fn at_hand(&self) -> &[u8] {
        &self.piece[self.from..self.to]
    }
}
