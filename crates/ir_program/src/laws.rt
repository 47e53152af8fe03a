//! Laws of what the program prints.

ghost use Rattle.ir_program.specs.Refused.{TraceRefusedAlike};

/// What `ir trace` prints of bytes that are no trace is the line with which a session refuses them.
pub fn trace_refused_alike()
    ensures { TraceRefusedAlike }
{}
