//! A line as it comes in, of which no more than its first `KEPT` bytes are kept.

ghost use Rattle.std.specs.Prelude.{◌≡◌, ◌++◌, [], ◌∷◌, take};
ghost use Rattle.ir_stream.specs.Written.{most_kept_bytes};

use arrayvec::ArrayVec;

/// One more than the most bytes that a line may have, so that a longer one is known as such.
pub const KEPT: usize = 1025;

/// Puts a byte at the end of the line, or drops it where the line has `KEPT`.
pub fn keep(line: &mut ArrayVec<u8, KEPT>, byte: u8)
    ensures { line.new.items ≡ take most_kept_bytes (line.old.items ++ byte ∷ []) }
{
    if !line.is_full() {
        line.push(byte);
    }
}
