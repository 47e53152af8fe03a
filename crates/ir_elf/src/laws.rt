//! Laws of guests from ELF files.

ghost use Rattle.std.specs.Prelude.{◌≡◌, ◌<◌, ◌+◌, ◌*◌, ℕ, List, length, slice_index, Ok, Some};
ghost use Rattle.std.specs.List.{AllByRecursion};
ghost use Rattle.ir_image.specs.Guest.{Guest, code_start, memory_start, memory_size, guest_at};
ghost use Rattle.ir_image.specs.Bounds.{IsByte, IsGuest};
ghost use Rattle.ir_image.specs.Encoding.{encoding};
ghost use Rattle.ir_elf.specs.Memory.{table_of};
ghost use Rattle.ir_bytes.specs.Format.{fault_of};
ghost use Rattle.ir_elf.specs.Table.{table_encoding};
ghost use Rattle.ir_elf.specs.Tests.{first_failed, elf_tests, IsElfGuest};
ghost use Rattle.ir_elf.specs.Segments.{Segment, segments_at};
ghost use Rattle.ir_elf.specs.Reading.{elf_guest_at};
ghost use Rattle.ir_elf.specs.Addresses.{byte_of, elf_byte, elf_word, IsInParts};

/// Each word of the code is that of the four bytes that the segments have at its address, 0 where they have none.
#[tactic(auto, using(crate::proofs::Contents::guest_code_is_word_at))]
pub fn code_is_segments()
    ensures { (file : List ℕ) (segments : List Segment) (g : Guest) (k : ℕ) →
        segments_at file ≡ Ok segments →
        elf_guest_at file ≡ Ok g →
        k < length g.code →
        slice_index g.code k ≡ elf_word segments (code_start + 4 * k) }
{}

/// Each byte that private memory begins with is the byte that the segments have at its address, 0 where they have none;
/// and what the segments have is in the code, in private memory, or in the table.
#[tactic(auto, using(crate::proofs::Contents::guest_byte_is_byte_at, crate::proofs::Contents::file_byte_is_in_parts))]
pub fn memory_is_segments()
    ensures bytes { (file : List ℕ) (segments : List Segment) (g : Guest) (i : ℕ) →
        segments_at file ≡ Ok segments →
        elf_guest_at file ≡ Ok g →
        i < memory_size →
        slice_index g.bytes i ≡ elf_byte segments (memory_start + i) }
    ensures nowhere_else { (file : List ℕ) (segments : List Segment) (g : Guest) (a b : ℕ) →
        segments_at file ≡ Ok segments →
        elf_guest_at file ≡ Ok g →
        byte_of segments a ≡ Some b →
        IsInParts (length g.code) a }
{}

/// The table is the form of the guest, how many threads it has, their entries, and the objects' first words, and nothing else.
pub fn table_is_segment()
    ensures { (file : List ℕ) (segments : List Segment) (g : Guest) →
        AllByRecursion IsByte file →
        segments_at file ≡ Ok segments →
        elf_guest_at file ≡ Ok g →
        table_of segments ≡ Some (table_encoding g) }
{}

/// The guest of a file is within a guest's limits, and the image that is written of it is read as this guest.
pub fn elf_round_trip()
    ensures within { (file : List ℕ) (g : Guest) → AllByRecursion IsByte file → elf_guest_at file ≡ Ok g → IsGuest g }
    ensures again { (file : List ℕ) (g : Guest) → AllByRecursion IsByte file → elf_guest_at file ≡ Ok g → guest_at (encoding g) ≡ Ok g }
{
    ir_image::encoding_is_read()
}

/// A file is refused exactly where one of its tests fails, for the first that fails; a file of which no test fails is read.
pub fn refused_exactly()
    ensures first { (file : List ℕ) → fault_of (elf_guest_at file) ≡ first_failed (elf_tests file) }
    ensures read { (file : List ℕ) → IsElfGuest file → (g : Guest) × (elf_guest_at file ≡ Ok g) }
    ensures only { (file : List ℕ) (g : Guest) → elf_guest_at file ≡ Ok g → IsElfGuest file }
{}
