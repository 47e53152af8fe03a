//! Hashes of bytes and of numbers.

ghost use Rattle.std.specs.Prelude.{◌≡◌};
ghost use Rattle.ir_state_store.specs.Hashes as hashes;

// The start and the factor of the hash FNV-1a, of 64 bits.
const OFFSET_BASIS: u64 = 0xcbf2_9ce4_8422_2325;

const FACTOR: u64 = 0x100_0000_01b3;

/// The hash of nothing.
pub fn empty_hash() -> u64
    ensures { result ≡ hashes.empty_hash }
{
    OFFSET_BASIS
}

/// The hash, after this number too.
pub fn after_number(hash: u64, number: u64) -> u64
    ensures { result ≡ hashes.after_number hash number }
{
    (hash ^ number).wrapping_mul(FACTOR)
}

/// The hash of these numbers.
pub fn hash_of_numbers(numbers: &[u64]) -> u64 {
    let mut hash = OFFSET_BASIS;
    for number in numbers {
        hash = after_number(hash, *number);
    }
    hash
}

/// The hash, after these bytes too.
pub fn after_bytes(hash: u64, bytes: &[u8]) -> u64
    ensures { result ≡ hashes.after_numbers hash bytes.now }
{
    let mut hash = hash;
    for byte in bytes {
        hash = after_number(hash, *byte as u64);
    }
    hash
}

/// The hash, after these words too.
pub fn after_words(hash: u64, words: &[u32]) -> u64
    ensures { result ≡ hashes.after_numbers hash words.now }
{
    let mut hash = hash;
    for word in words {
        hash = after_number(hash, *word as u64);
    }
    hash
}
