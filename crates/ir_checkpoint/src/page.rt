//! A page of private memory that is kept.

ghost use Rattle.std.specs.Prelude.{◌≡◌, length, IfOk};
ghost use Rattle.ir_checkpoint.specs.Store as store;

use std::alloc::{AllocError, Global};
use std::marker::Model;

/// A page, and the number that it was first kept under.
#[derive(Drop)]
pub struct Page {
    source: u32,
    bytes: Vec<u8>,
}

impl Model for Page {
    ghost Value = { store.Page };

    ghost view = { λ p. record { source = p.source; bytes = p.bytes.items } };
}

impl Page {
    /// A copy of these bytes.
    pub fn of(alloc: Global, source: u32, bytes: &[u8]) -> Result<Page, AllocError>
        ensures { IfOk result (λ page. page ≡ record { source = source; bytes = bytes.now }) }
    {
        let bytes = Vec::from_slice(alloc, bytes)?;
        Ok(Page { source, bytes })
    }

    pub fn bytes(&self) -> &[u8]
        ensures { result.now ≡ self.now.bytes }
    {
        self.bytes.as_slice()
    }
}
