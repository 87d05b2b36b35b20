//! Bytes of a source, so many as are asked for.

ghost use Rattle.std.specs.Prelude.{◌≡◌, ◌<◌, ◌≤◌, ◌^◌, length};
ghost use Rattle.edge_io.specs.SourceReading.{CountsReadFaults};
ghost use Rattle.packet_reader.specs.Code.{FillsUp};

use edge_io::{Failed, ReadError, Source};

/// The most that is asked for at once, so that no memory is taken for bytes that a size only claims.
const PIECE: usize = 1 << 16;

/// Adds bytes of the source until there are n in all. There are fewer only where the source ends.
pub(crate) fn fill_up<S: Source>(
    source: &mut S,
    all: &mut Vec<u8>,
    n: usize,
) -> Result<(), ReadError>
    requires fill { S.can_fill source.old }
    requires room { length all.old.items ≤ n }
    requires few { n < 2 ^ 33 }
    ensures bytes { FillsUp n all.old.items all.new.items (S.rest source.old) (S.rest source.new) result }
    ensures faults { CountsReadFaults (S.faults source.old) (S.faults source.new) result }
    ensures again { S.faults source.new ≡ S.faults source.old → S.can_fill source.new }
{
    'pieces: while all.len() < n {
        let at = all.len();
        all.resize(at + (n - at).min(PIECE), 0)?;
        match source.fill(&mut all[at..]) {
            Ok(0) => {
                all.truncate(at);
                return Ok(());
            }
            Ok(more) => all.truncate(at + more),
            Err(Failed) => return Err(ReadError::Failed),
        }
    }
    Ok(())
}
