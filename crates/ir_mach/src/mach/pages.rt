//! A machine taken apart into registers and pages of private memory, and built from registers and memory.

ghost use Rattle.std.specs.Prelude.{◌≡◌, ◌<◌, length, flat_map, map, true, false, IfOk};
ghost use Rattle.ir_mach.specs.Core.{memory_size};
ghost use Rattle.ir_mach.specs.Pages.{ArePages, core_of, memory_pages, page_of, page_size, pages_of, register_file};

use crate::mach::Mach;
use crate::regs::Regs;
use ir_image::MEMORY_SIZE;
use std::alloc::{AllocError, Global};

/// The bytes of a page.
pub const PAGE_SIZE: usize = 4096;

/// The pages of a machine's private memory.
pub const MEMORY_PAGES: usize = 16;

fn page_in(memory: &[u8], i: usize) -> &[u8]
    requires below { i < memory_pages }
    requires size { length memory.now ≡ memory_size }
    ensures value { result.now ≡ page_of memory.now i }
    ensures size { length result.now ≡ page_size }
{
    let first = PAGE_SIZE * i;
    &memory[first..first + PAGE_SIZE]
}

/// The bytes of these 16 pages of 4,096 bytes, one page after the other.
///
/// # Errors
/// Out of memory.
pub fn joined(alloc: Global, pages: &[&[u8]]) -> Result<Vec<u8>, AllocError>
    requires { ArePages (map (λ page. page.now) pages.now) }
    ensures size { IfOk result (λ memory. length memory.items ≡ memory_size) }
    ensures value { IfOk result (λ memory. memory.items ≡ flat_map (λ page. page) (map (λ page. page.now) pages.now)) }
{
    let mut memory = Vec::with_capacity(alloc, MEMORY_SIZE as usize)?;
    for page in pages {
        memory.extend_from_slice(page)?;
    }
    Ok(memory)
}

impl Mach {
    /// The pc and the registers.
    pub fn regs_only(&self) -> Regs
        ensures { result ≡ register_file self.now }
    {
        let registers = self.registers;
        Regs {
            pc: self.pc,
            registers,
        }
    }

    /// Whether the pc and the registers are these.
    pub fn has_registers(&self, regs: &Regs) -> bool
        ensures same { result ≡ true → register_file self.now ≡ regs.now }
        ensures other { result ≡ false → register_file self.now ≡ regs.now → ⊥ }
    {
        self.pc == regs.pc && self.registers[..32] == regs.registers[..32]
    }

    /// Page i of private memory: 4,096 bytes.
    pub fn page(&self, i: u8) -> &[u8]
        requires { i < memory_pages }
        ensures value { result.now ≡ page_of self.now.memory i }
        ensures size { length result.now ≡ page_size }
    {
        page_in(self.memory.as_slice(), i as usize)
    }

    /// The machine with these registers and these 65,536 bytes of private memory, which stay where they are.
    pub fn with_memory(regs: &Regs, memory: Vec<u8>) -> Mach
        requires { length memory.items ≡ memory_size }
        ensures { result ≡ core_of regs.now (pages_of memory.items) }
    {
        Mach {
            pc: regs.pc,
            registers: regs.registers,
            memory,
        }
    }
}
