//! What holds of steps, for the proofs of callers.

ghost use Rattle.std.specs.Prelude.{◌≡◌, ℕ, ◌+◌, List, length, option_and_then};
ghost use Rattle.ir_mach.specs.Core.{Core, memory_size};
ghost use Rattle.ir_mach.specs.Pages.{ArePages, core_of, pages_of, register_file};
ghost use Rattle.ir_mach.specs.Run.{core_after};

/// Steps, and then more of them, are all of them together.
pub fn steps_together()
    ensures { (first more : ℕ) (code : List ℕ) (core : Core) → core_after (first + more) code core ≡ option_and_then (λ middle. core_after more code middle) (core_after first code core) }
{}

/// Building from a machine's registers and pages gives that machine.
pub fn built_again()
    ensures pages { (core : Core) → length core.memory ≡ memory_size → ArePages (pages_of core.memory) }
    ensures same { (core : Core) → length core.memory ≡ memory_size → core_of (register_file core) (pages_of core.memory) ≡ core }
{}
