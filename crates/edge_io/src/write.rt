ghost use Rattle.std.specs.Prelude.{◌≡◌};
ghost use Rattle.edge_io.specs.Putting.{PutsAll, CountsPutFaults};

use crate::sink::{PutFault, Sink};

/// Puts all of a piece, unless the sink refuses: then it has taken a front of the piece, and is asked for no more.
pub fn put_all<K: Sink>(sink: &mut K, piece: &[u8]) -> Result<(), PutFault>
    requires { K.can_put sink.old }
    ensures bytes { PutsAll (K.taken sink.old) (K.taken sink.new) piece.now result }
    ensures faults { CountsPutFaults (K.grows sink.old) (K.faults sink.old) (K.faults sink.new) result }
    ensures grows { K.grows sink.new ≡ K.grows sink.old }
    ensures again { K.faults sink.new ≡ K.faults sink.old → K.can_put sink.new }
{
    let mut at = 0;
    while at < piece.len() {
        at += sink.put(&piece[at..])?;
    }
    Ok(())
}
