//! A recorded run as gdb sees it: its threads stop by gdb's breakpoints and watches, and packets of the remote serial protocol are
//! answered.
#![tactic(auto)]

mod connection;
mod console;
mod ending;
mod fixed;
mod guarded;
mod holders;
mod laws;
mod numbered;
mod point;
mod registers;
mod remote;
mod session;
mod sight;
mod stopped;
mod texts;

pub use connection::Connection;
pub use fixed::fixed_reply;
pub use laws::{
    alone_is_session, each_hit_is_shown_once, no_bad_end_is_hidden, no_hit_is_passed,
    none_is_blocked,
};
pub use point::{Breakpoint, Watched};
pub use remote::Remote;
pub use session::connect;
pub use stopped::{Stopped, Told};
