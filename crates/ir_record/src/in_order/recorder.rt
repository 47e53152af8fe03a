//! What records a guest.

use crate::in_order::logged_guest::LoggedGuest;

// A guest that is recorded, and the worlds of its threads.
#[derive(Drop)]
pub struct Recorder<'a, W> {
    pub guest: LoggedGuest<'a>,
    pub worlds: Vec<W>,
}
