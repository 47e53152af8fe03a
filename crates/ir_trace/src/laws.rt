//! Laws of the traces' encoding, each the contract of a function without parameters.

ghost use Rattle.std.specs.Prelude.{◌≡◌, List, ℕ, length, Ok};
ghost use Rattle.std.specs.List.{AllByRecursion};
ghost use Rattle.byteorder.specs.Endian.{little_number, little_bytes};
ghost use Rattle.ir_bytes.specs.Numbers.{IsByte};
ghost use Rattle.ir_bytes.specs.Format.{fault_of};
ghost use Rattle.ir_trace.specs.Recorded.{Recorded, trace_of, recorded_at};
ghost use Rattle.ir_trace.specs.Bounds.{IsRecorded};
ghost use Rattle.ir_trace.specs.Encoding.{encoding};
ghost use Rattle.ir_trace.specs.Fields.{trace_fault};

use ir_log::one_label_each;

/// The encoding of what was recorded, within its limits, is read as that, so no two recordings are encoded alike.
pub fn encoding_is_read()
    ensures { (r : Recorded) → IsRecorded r → recorded_at (encoding r) ≡ Ok r }
{}

/// Bytes that are read as a recording are the encoding of it, so none is encoded in two ways, and it is within its limits.
pub fn read_is_encoded()
    ensures { (bytes : List ℕ) (r : Recorded) → AllByRecursion IsByte bytes → recorded_at bytes ≡ Ok r → IsRecorded r × (bytes ≡ encoding r) }
{}

/// Bytes are refused exactly for the first of a trace's fields, from the left, that isn't whole or holds what it may not, or
/// else because bytes follow the last; and for that field's fault. Bytes without such a field are read.
pub fn first_fault_is_named()
    ensures { (bytes : List ℕ) → fault_of (recorded_at bytes) ≡ trace_fault bytes }
{}

/// Different bytes of one width are different numbers: the bytes are those of the number that they encode.
pub fn bytes_are_their_number()
    ensures { (bytes : List ℕ) → AllByRecursion IsByte bytes → bytes ≡ little_bytes (length bytes) (little_number (length bytes) bytes) }
{}

/// Recordings of as many objects and threads, of one budget and one profile that say the same of a run are the same.
pub fn distinguished()
    ensures { (a b : Recorded) → a.objects ≡ b.objects → a.budget ≡ b.budget → a.profile ≡ b.profile → length a.threads ≡ length b.threads → trace_of a ≡ trace_of b → a ≡ b }
{
    one_label_each();
}
