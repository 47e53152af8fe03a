//! Numbers in four bytes.

ghost use Rattle.std.specs.Prelude.{◌≡◌, ◌≤◌, ◌^◌, IfOk, IfErr};

use std::alloc::AllocError;

/// A number in four bytes.
///
/// # Errors
/// It is above 2^32 - 1.
pub fn short(n: usize) -> Result<u32, AllocError>
    ensures same { IfOk result (λ m. m ≡ n) }
    ensures large { IfErr result (λ _. 2 ^ 32 ≤ n) }
{
    if n > u32::MAX as usize {
        return Err(AllocError);
    }
    Ok(n as u32)
}
