ghost use Rattle.std.specs.Prelude.{◌≡◌, ◌≤◌, length};
ghost use Rattle.webm_container.specs.ClusterBlocks.{is_of, payload_at};

use crate::elements::coded_at;
use vp9_types::{Rule, Span};

/// What of a block's flags says how its payload is laced.
const LACING: u8 = 0x06;

/// The greatest length of a payload.
const LONGEST: usize = 0xFFFF_FFFF;

fn is_of(track: Option<u64>, number: u64) -> bool
    ensures { result ≡ is_of track number }
{
    match track {
        Some(chosen) => chosen == number,
        None => false,
    }
}

/// The payload of a block that lies from `from` to `to`, or nothing if it is of another track.
#[tactic(auto, unfolding(crate::specs::ClusterBlocks::payload_at))]
pub fn payload_at(
    bytes: &[u8],
    track: Option<u64>,
    from: usize,
    to: usize,
) -> Result<Option<Span>, Rule>
    requires { to ≤ length bytes.now }
    ensures { result ≡ payload_at bytes.now track from to }
{
    let number = coded_at(bytes, from, to, 8)?;
    if to - number.to < 3 {
        return Err(Rule::WebmElement);
    }
    if !is_of(track, number.value) {
        return Ok(None);
    }
    if bytes[number.to + 2] & LACING != 0 {
        return Err(Rule::WebmLacing);
    }
    let from = number.to + 3;
    if LONGEST < to - from {
        return Err(Rule::WebmElement);
    }
    Ok(Some(Span { from, to }))
}
