//! The program `ir` as one call of its arguments, a folder and its streams: each subcommand, and the session in one stream.
#![tactic(auto)]

mod bundles;
mod debug;
mod debugging;
mod dispatch;
mod ends_once;
mod fault;
mod gdb;
mod hints;
mod laws;
mod line;
mod names_use;
mod prompting;

pub use bundles::{bundle, bundled};
pub use dispatch::{Invocation, Terminals, program};
pub use fault::ProgramErr;
pub use laws::trace_refused_alike;
