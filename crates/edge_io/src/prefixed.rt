ghost use Rattle.std.specs.Prelude.{◌≡◌, ◌≤◌};

use crate::source::{Failed, Source};

// How many bytes are put back.
const FRONT: usize = 4;

/// A source with the four bytes that were read from it put back in front: who has looked at what a stream begins with
/// hands it on as it was.
#[derive(Drop)]
pub struct Prefixed<S> {
    front: [u8; FRONT],
    left: usize,
    source: S,
    ghost few: { left ≤ 4 },
}

impl<S> Prefixed<S> {
    ghost use Rattle.edge_io.specs.Prefixed.{front_of, left_of, source_of};

    /// Puts these bytes back in front of the source that gave them, which may be asked for more as before.
    pub fn new(front: [u8; FRONT], source: S) -> Prefixed<S>
        ensures front { front_of result ≡ front }
        ensures left { left_of result ≡ 4 }
        ensures source { source_of result ≡ source }
    {
        Prefixed {
            front,
            left: FRONT,
            source,
        }
    }

    /// The source, past the bytes that it gave. Those in front that weren't taken are lost.
    pub fn into_source(self) -> S
        ensures { result ≡ source_of self }
    {
        self.source
    }
}

impl<S: Source> Source for Prefixed<S> {
    ghost use Rattle.std.specs.Prelude.{◌-◌, ◌<◌, ◌^◌};
    ghost use Rattle.edge_io.specs.Prefixed.{all_of, left_of, source_of};

    ghost rest = { λ p. all_of p.front p.left (S.rest p.source) };

    ghost given = { λ p. S.given p.source - p.left };

    ghost faults = { λ p. S.faults p.source };

    ghost can_fill = { λ p. (p.left ≤ S.given p.source) × (S.given p.source < 2 ^ 63) × S.can_fill p.source };

    fn fill(&mut self, buf: &mut [u8]) -> Result<usize, Failed> {
        if self.left == 0 {
            return self.source.fill(buf);
        }
        let n = buf.len().min(self.left);
        let at = FRONT - self.left;
        buf[..n].copy_from_slice(&self.front[at..at + n]);
        self.left -= n;
        Ok(n)
    }

    fn at_hand(&self) -> &[u8] {
        if self.left == 0 {
            return self.source.at_hand();
        }
        &self.front[FRONT - self.left..]
    }
}
