//! Laws of the definitions, as contracts of functions that do nothing.

ghost use Rattle.std.specs.Prelude.{◌≡◌, ℕ, List};
ghost use Rattle.ivf_container.specs.Packets.{Packets, IsFile, packets_of};

/// A file has the packets that the walk finds, and no others.
pub fn file_has_these_packets()
    ensures has { (bytes : List ℕ) → IsFile bytes (packets_of bytes) }
    ensures only { (bytes : List ℕ) (packets : Packets) → IsFile bytes packets → packets ≡ packets_of bytes }
{}
