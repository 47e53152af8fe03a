//! What the threads of a guest are frozen against.

ghost use Rattle.std.specs.Prelude.{◌≡◌, length, vec_len, IfOk};
ghost use Rattle.ir_liveness.specs.Table.{IsLiveTable};
ghost use Rattle.ir_mach.specs.Core.{memory_size};
ghost use Rattle.ir_thread_bytes.specs.Basis.{IsBasis};
ghost use Rattle.ir_thread_bytes.specs.Basis as basis;

use ir_image::Code;
use ir_liveness::Live;
use std::alloc::{AllocError, Global};
use std::marker::Model;

/// A code, the registers that are live at each point of it, and what private memory is at first.
#[derive(Drop)]
pub struct Basis<'a> {
    code: &'a Code,
    live: Live,
    memory: Vec<u8>,
}

impl<'a> Model for Basis<'a> {
    ghost Value = { basis.Basis };

    ghost view = { λ b. record { code = b.code.now; live = b.live; memory = b.memory.items } };

    ghost invariant = { λ b. IsLiveTable b.code.now b.live × (length b.memory.items ≡ memory_size) };
}

impl<'a> Basis<'a> {
    /// What threads that run this code are frozen against, whose private memory is this at first.
    ///
    /// # Errors
    /// Out of memory.
    pub fn new(alloc: Global, code: &'a Code, memory: Vec<u8>) -> Result<Basis<'a>, AllocError>
        requires { vec_len memory ≡ memory_size }
        ensures code { IfOk result (λ b. b.code ≡ code.now) }
        ensures memory { IfOk result (λ b. b.memory ≡ memory.items) }
    {
        let live = Live::of(alloc, code)?;
        Ok(Basis { code, live, memory })
    }

    /// What private memory is at first.
    pub fn memory(&self) -> &[u8]
        ensures value { result.now ≡ self.now.memory }
        ensures size { length result.now ≡ memory_size }
    {
        self.memory.as_slice()
    }

    /// The registers that are live at each point of the code.
    pub fn live(&self) -> &Live
        ensures { result.now ≡ self.now.live }
    {
        &self.live
    }

    /// Exactly the live registers are marked, and the memory is whole.
    pub fn is_whole(&self)
        ensures { IsBasis self.now }
    {
        let _ = &self.live;
    }
}
