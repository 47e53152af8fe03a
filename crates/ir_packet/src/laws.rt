//! What holds of streams and packets, whoever reads them.

ghost use Rattle.std.specs.Prelude.{◌≡◌, ◌≤◌, ◌++◌, ◌∷◌, ℕ, List, length, flat_map};
ghost use Rattle.std.specs.List.{AllByRecursion};
ghost use Rattle.ir_packet.specs.Packets.{escaped, packet_of};
ghost use Rattle.ir_packet.specs.Stream.{Place, Packet, place_after, items_from, items, most_packet_bytes};
ghost use Rattle.ir_packet.specs.Parts.{Part, IsStreamPart, AreCutOff, bytes_of, items_of_part, parts};
ghost use Rattle.ir_packet.specs.Reading.{kept, items_read};

/// What a stream holds is what its pieces hold, each read on from where the one before it ends.
pub fn pieces_hold_what_the_stream_holds()
    ensures { (p : Place) (first rest : List ℕ) → items_from p (first ++ rest) ≡ items_from p first ++ items_from (place_after p first) rest }
{}

/// A reader that takes a stream byte by byte finds what the stream holds, from any place on.
pub fn reader_finds_what_the_stream_holds()
    ensures { (p : Place) (bytes : List ℕ) → items_read (kept p) bytes ≡ items_from p bytes }
{}

/// Each byte of a stream is in one of its parts, and only there. A packet is cut off by the end of the stream or by the next `$`
/// alone; and a stream has no other such parts.
pub fn parts_are_the_stream()
    ensures bytes { (bytes : List ℕ) → flat_map bytes_of (parts bytes) ≡ bytes }
    ensures form { (bytes : List ℕ) → AllByRecursion IsStreamPart (parts bytes) }
    ensures cut { (bytes : List ℕ) → AreCutOff (parts bytes) }
    ensures only { (bytes : List ℕ) (those : List Part) → flat_map bytes_of those ≡ bytes → AllByRecursion IsStreamPart those → AreCutOff those → those ≡ parts bytes }
{}

/// What a stream holds is what its parts hold.
pub fn parts_hold_what_the_stream_holds()
    ensures { (bytes : List ℕ) → flat_map items_of_part (parts bytes) ≡ items bytes }
{}

/// A payload that is written as a packet is read back.
pub fn packet_is_read_back()
    ensures { (payload rest : List ℕ) → length (escaped payload) ≤ most_packet_bytes → items (packet_of payload ++ rest) ≡ Packet payload ∷ items rest }
{}
