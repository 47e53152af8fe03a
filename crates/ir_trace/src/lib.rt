//! Traces: what was recorded of a run, and its one encoding in bytes.
#![tactic(auto)]

mod event_reader;
mod header;
mod laws;
mod layout;
mod reader;
mod thread_trace;
mod trace;
mod trace_err;
mod writer;

pub use laws::{
    bytes_are_their_number, distinguished, encoding_is_read, first_fault_is_named, read_is_encoded,
};
pub use reader::read_trace;
pub use thread_trace::ThreadTrace;
pub use trace::Trace;
pub use trace_err::TraceErr;
pub use writer::write_trace;
