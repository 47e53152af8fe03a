//! A guest that is recorded.

use ir_flat::Flat;
use ir_log::Log;

// The threads and objects of a guest, and the threads' logs.
#[derive(Drop)]
pub struct LoggedGuest<'a> {
    pub flat: Flat<'a>,
    pub logs: Vec<Log>,
}
