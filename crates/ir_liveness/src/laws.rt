//! Laws of live registers, each the contract of a function without parameters.

ghost use Rattle.ir_liveness.specs.Agreement.{AgreementLasts};

/// Threads that differ only in registers that aren't live ask the same, and differ only so after the same reply.
pub fn agreement_lasts()
    ensures { AgreementLasts }
{}
