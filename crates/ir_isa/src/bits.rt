//! The fields of a word.

ghost use Rattle.std.specs.Prelude.{◌≡◌, ◌<◌, ◌/◌, ◌%◌, ◌^◌};

// The field of `width` bits whose lowest bit is `low`.
pub fn field(word: u32, low: u32, width: u32) -> u32
    requires low { low < 32 }
    requires width { width < 32 }
    ensures { result ≡ word / 2 ^ low % 2 ^ width }
{
    word >> low & ((1 << width) - 1)
}
