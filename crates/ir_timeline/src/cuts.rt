//! The first and the last cut, and how far each thread goes.

ghost use Rattle.std.specs.Prelude.{◌≡◌, ◌<◌, length, IfOk};
ghost use Rattle.ir_cut.specs.Positions.{IsConsistentCut, threads_of, last_of, first_cut, last_cut};

use ir_cut::Cut;
use ir_fit::Fitted;
use std::alloc::{AllocError, Global};

/// How many threads the guest has.
pub fn thread_count(fitted: &Fitted) -> usize
    ensures { result ≡ threads_of fitted.now }
{
    fitted.image().entries().len()
}

/// The last position of thread t.
pub fn last_position(fitted: &Fitted, t: usize) -> u64
    requires { t < threads_of fitted.now }
    ensures { result ≡ last_of fitted.now t }
{
    fitted.known();
    fitted.trace().threads()[t].steps()
}

/// All threads at 0.
///
/// # Errors
/// Out of memory.
pub fn first_cut(alloc: Global, fitted: &Fitted) -> Result<Cut, AllocError>
    ensures first { IfOk result (λ c. c ≡ first_cut fitted.now) }
    ensures size { IfOk result (λ c. length c ≡ threads_of fitted.now) }
    ensures consistent { IfOk result (λ c. IsConsistentCut fitted.now c) }
{
    let positions = vec![in alloc; 0u64; thread_count(fitted)]?;
    Ok(Cut::new(positions))
}

/// All threads at their last positions.
///
/// # Errors
/// Out of memory.
pub fn last_cut(alloc: Global, fitted: &Fitted) -> Result<Cut, AllocError>
    ensures last { IfOk result (λ c. c ≡ last_cut fitted.now) }
    ensures size { IfOk result (λ c. length c ≡ threads_of fitted.now) }
    ensures consistent { IfOk result (λ c. IsConsistentCut fitted.now c) }
{
    let count = thread_count(fitted);
    let mut positions = Vec::with_capacity(alloc, count)?;
    for t in 0..count {
        positions.push(last_position(fitted, t))?;
    }
    Ok(Cut::new(positions))
}
