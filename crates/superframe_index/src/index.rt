ghost use Rattle.std.specs.Prelude.{◌≡◌};
ghost use Rattle.superframe_index.specs.PayloadFrames.{index_of, IsFound};

/// The first three bits of an index.
const MARKER: u8 = 0b110;

/// Where the index of a payload begins, how many bytes a size has in it, and how many sizes it has.
#[derive(Clone, Copy, Debug, PartialEq, Eq)]
pub struct Index {
    pub from: usize,
    pub size_bytes: usize,
    pub frames: usize,
}

/// The index at the end of a payload. An index whose first byte isn't its last, or that is longer than the payload, is none.
#[tactic(auto, unfolding(crate::specs::PayloadFrames::index_of))]
pub fn find_index(payload: &[u8]) -> Option<Index>
    ensures exact { result ≡ index_of payload.now }
    ensures found { IsFound payload.now result }
{
    if payload.is_empty() {
        return None;
    }
    let header = payload[payload.len() - 1];
    if header / 32 != MARKER {
        return None;
    }
    let size_bytes = usize::from(header / 8 % 4) + 1;
    let frames = usize::from(header % 8) + 1;
    let length = 2 + size_bytes * frames;
    if payload.len() < length {
        return None;
    }
    let from = payload.len() - length;
    if payload[from] != header {
        return None;
    }
    Some(Index {
        from,
        size_bytes,
        frames,
    })
}
