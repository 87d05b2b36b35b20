//! Which container a source has.

ghost use Rattle.std.specs.Prelude.{◌≡◌, length};
ghost use Rattle.edge_io.specs.Filling.{CountsFaults};
ghost use Rattle.file_frames.specs.Containers.{is_webm};
ghost use Rattle.frame_groups.specs.Code.{CountsFront, TakesFront};
ghost use Rattle.frame_groups.specs.Openings.{CountsOpened, HasGiven, MayAsk, OpensAs};

use edge_io::{Failed, Source};

/// How many bytes tell the container.
const FRONT: usize = 4;

/// What a WebM file begins with: the id of its first element.
const WEBM: [u8; 4] = [0x1a, 0x45, 0xdf, 0xa3];

/// A source, and the first four bytes that it gave.
#[derive(Drop)]
pub struct Looked<S> {
    pub front: [u8; FRONT],
    pub source: S,
}

/// A source, by what its first bytes are.
#[derive(Drop)]
pub enum Opened<S> {
    Webm(Looked<S>),
    /// It is read as an IVF file, which it may not be.
    Ivf(Looked<S>),
    /// It had fewer than four bytes. They are lost.
    Short(S),
    /// It failed before the fourth byte.
    Failed(S),
}

fn is_webm(bytes: &[u8]) -> bool
    ensures { result ≡ is_webm bytes.now }
{
    bytes.starts_with(&WEBM)
}

/// Takes the first four bytes of a source, or all that it has.
fn take_front<S: Source>(source: &mut S, front: &mut [u8]) -> Result<usize, Failed>
    requires fill { S.can_fill source.old }
    requires four { length front.old ≡ 4 }
    ensures bytes { TakesFront (S.rest source.old) (S.rest source.new) front.new result }
    ensures given { CountsFront (S.given source.old) (S.given source.new) result }
    ensures faults { CountsFaults (S.faults source.old) (S.faults source.new) result }
    ensures again { S.faults source.new ≡ S.faults source.old → S.can_fill source.new }
{
    let mut at = 0;
    'pieces: while at < FRONT {
        match source.fill(&mut front[at..]) {
            Ok(0) => return Ok(at),
            Ok(more) => at += more,
            Err(Failed) => return Err(Failed),
        }
    }
    Ok(at)
}

/// Looks at what a source begins with, and hands that on beside the source.
pub fn open<S: Source>(source: S) -> Opened<S>
    requires { S.can_fill source }
    ensures bytes { OpensAs S.rest source result }
    ensures faults { CountsOpened S.faults source result }
    ensures again { MayAsk S.can_fill result }
    ensures given { HasGiven S.given result }
{
    let mut source = source;
    let mut front = [0; FRONT];
    match take_front(&mut source, &mut front) {
        Ok(FRONT) => {}
        Ok(_) => return Opened::Short(source),
        Err(Failed) => return Opened::Failed(source),
    }
    if is_webm(&front) {
        Opened::Webm(Looked { front, source })
    } else {
        Opened::Ivf(Looked { front, source })
    }
}
