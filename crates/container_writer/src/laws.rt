//! What is written is read, as contracts of functions that do nothing.

ghost use Rattle.std.specs.Prelude.{◌≡◌, ◌≤◌, ◌<◌, ◌^◌, ◌++◌, ℕ, List, length, map, None};
ghost use Rattle.std.specs.List.{flat_map, AllByRecursion};
ghost use Rattle.ivf_container.specs.Packets.{Written, IsHeader, IsWritten, written_bytes, packets_of};
ghost use Rattle.superframe_index.specs.PayloadFrames.{HasIndex, frames_of, frames_within};
ghost use Rattle.container_writer.specs.Files.{file_header, packet_of};
ghost use Rattle.container_writer.specs.Indexes.{index_bytes};

/// A header that was written and the packets written behind it are a file with these payloads, and no others.
pub fn a_written_file_has_its_packets()
    ensures header { (w h rate scale count : ℕ) → IsHeader (file_header w h rate scale count) }
    ensures packet { (stamp : ℕ) (payload : List ℕ) → length payload < 2 ^ 32 → IsWritten (packet_of stamp payload) }
    ensures file { (w h rate scale count : ℕ) (packets : List Written) → AllByRecursion IsWritten packets →
        packets_of (file_header w h rate scale count ++ flat_map written_bytes packets) ≡ record { payloads = map (λ p. p.payload) packets; ending = None } }
{}

/// An index that was written behind frames has their sizes, and a payload that ends with it is split by them.
pub fn a_written_index_is_found()
    ensures index { (front sizes : List ℕ) → 1 ≤ length sizes → length sizes ≤ 8 → AllByRecursion (λ size. size < 2 ^ 32) sizes →
        HasIndex (front ++ index_bytes sizes) front sizes }
    ensures frames { (front sizes : List ℕ) → 1 ≤ length sizes → length sizes ≤ 8 → AllByRecursion (λ size. size < 2 ^ 32) sizes →
        frames_of (front ++ index_bytes sizes) ≡ frames_within (length front) sizes }
{}
