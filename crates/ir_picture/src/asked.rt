//! What is asked of a picture.

/// What a picture is written as.
#[derive(Clone, Copy, Debug, PartialEq, Eq)]
pub enum Form {
    /// One page for a browser.
    Page,
    /// The data of the page.
    Data,
    /// Events for other viewers.
    Chrome,
}

/// A part of a picture: the boxes that start near an event.
#[derive(Clone, Copy, Debug, PartialEq, Eq)]
pub struct Around {
    /// The thread of the event.
    pub thread: u32,
    /// Its place in its thread's log, from 0.
    pub event: u32,
    /// How far from the event's start they may start.
    pub span: u64,
}

/// What is asked of a trace.
#[derive(Clone, Copy, Debug, PartialEq, Eq)]
pub struct Asked {
    /// What is written.
    pub form: Form,
    /// The part; if there is none, all is written.
    pub around: Option<Around>,
}
