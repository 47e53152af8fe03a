//! Lines of bytes in, answers out: what reads and writes, and what holds of whatever answers lines.
#![tactic(auto)]

mod device;
mod from_std;
mod line;
mod serving;
mod text;

pub use device::{DeviceErr, Sink, Source, write_all};
pub use from_std::FromStd;
pub use line::{KEPT, keep};
pub use serving::{Fault, Flow, Next, Served, next_byte};
pub use text::append;
