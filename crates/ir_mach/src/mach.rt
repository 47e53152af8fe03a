//! One machine: its pc, its registers and its private memory.

ghost use Rattle.std.specs.Prelude.{◌≡◌, ◌<◌, ◌≤◌, ℕ, List, Bool, length, slice_index, take, IfOk, Some, true};
ghost use Rattle.ir_isa.specs.declared.inst.LoadOp.TheVariants.{Lw};
ghost use Rattle.ir_image.specs.Bounds.{IsByte, IsWord};
ghost use Rattle.ir_mach.specs.Core.{Core, memory_size, register, start_core};
ghost use Rattle.ir_mach.specs.Within.{IsCore, IsMemoryWord, start_memory};
ghost use Rattle.ir_mach.specs.Execution.{memory_word, loaded};

use crate::effect::Effect;
use crate::memory::overwrite;
use crate::outcome::Ran;
use crate::performing::{Registers, address_of, carry_out, place_of};
use byteorder::{ByteOrder, LittleEndian};
use ir_image::{Code, Image, MEMORY_SIZE, MEMORY_START, Operation};
use std::alloc::{AllocError, Global};
use std::marker::Model;

mod pages;

pub use pages::{MEMORY_PAGES, PAGE_SIZE, joined};

// The address just above private memory.
const STACK_TOP: u32 = MEMORY_START + MEMORY_SIZE;

const STACK_POINTER: usize = 2;

const ANSWER: usize = 10;

/// One thread's machine: a pc, 32 registers and 65,536 bytes of private memory from address
/// 0x00100000 on; in clauses a `Core`.
#[derive(Drop)]
pub struct Mach {
    pc: u32,
    registers: Registers,
    memory: Vec<u8>,
}

impl Model for Mach {
    ghost Value = { Core };

    ghost view = { λ m. record { pc = m.pc; registers = take 32 m.registers; memory = m.memory.items } };

    ghost invariant = { λ m. (length m.memory.items ≡ memory_size) × (slice_index m.registers 0 ≡ 0) };
}

fn start_memory(alloc: Global, bytes: &[u8]) -> Result<Vec<u8>, AllocError>
    requires { length bytes.now ≤ memory_size }
    ensures { IfOk result (λ memory. memory.items ≡ start_memory bytes.now) }
{
    let mut memory = Vec::with_capacity(alloc, MEMORY_SIZE as usize)?;
    memory.extend_from_slice(bytes)?;
    memory.resize(MEMORY_SIZE as usize, 0)?;
    Ok(memory)
}

// Private memory as at a start, in the room that it has.
fn restart_memory(memory: &mut [u8], bytes: &[u8])
    requires size { length memory.old ≡ memory_size }
    requires fits { length bytes.now ≤ memory_size }
    ensures { memory.new ≡ start_memory bytes.now }
{
    let (data, rest) = memory.split_at_mut(bytes.len());
    data.copy_from_slice(bytes);
    rest.fill(0);
}

// The three below say what the types of the fields hold, for `keeps`.
fn words_fit(registers: &[u32])
    ensures { (number : ℕ) → IsWord (slice_index registers.now number) }
{}

fn word_fits(pc: u32)
    ensures { IsWord pc }
{}

fn bytes_fit(memory: &[u8])
    ensures { (offset : ℕ) → IsByte (slice_index memory.now offset) }
{}

impl Mach {
    ghost use Rattle.ir_mach.specs.Effects.{applied, IsPossible};
    ghost use Rattle.ir_mach.specs.Execution.{outcome_of, past_call};
    ghost use Rattle.ir_mach.specs.Steps.{ran_of, IsStep};
    ghost use Rattle.ir_mach.specs.Marks.{AreUnmarked};
    ghost use Rattle.ir_mach.specs.Run.{unmarked_after, IsAtCall};

    /// The machine of a thread before its first step: pc is the thread's entry, x2 the address just
    /// above private memory, the other registers 0, and private memory the image's data and then
    /// zeros.
    ///
    /// # Errors
    /// Out of memory.
    pub fn new(alloc: Global, image: &Image, thread: usize) -> Result<Mach, AllocError>
        requires { thread < length image.now.entries }
        ensures { IfOk result (λ mach. mach ≡ start_core image.now thread) }
    {
        let memory = start_memory(alloc, image.bytes())?;
        let mut registers = [0; 33];
        registers[STACK_POINTER] = STACK_TOP;
        Ok(Mach {
            pc: image.entries()[thread],
            registers,
            memory,
        })
    }

    /// Becomes the machine of a thread before its first step, in the memory that it has.
    pub fn restart(&mut self, image: &Image, thread: usize)
        requires { thread < length image.now.entries }
        ensures { self.new ≡ start_core image.now thread }
    {
        restart_memory(&mut self.memory, image.bytes());
        self.registers = [0; 33];
        self.registers[STACK_POINTER] = STACK_TOP;
        self.pc = image.entries()[thread];
    }

    /// An equal machine with memory of its own.
    ///
    /// # Errors
    /// Out of memory.
    pub fn copy(&self) -> Result<Mach, AllocError>
        ensures { IfOk result (λ mach. mach ≡ self.now) }
    {
        Ok(Mach {
            pc: self.pc,
            registers: self.registers,
            memory: self.memory.clone()?,
        })
    }

    /// Becomes equal to another machine, in the memory that it has.
    pub fn assign(&mut self, other: &Mach)
        ensures { self.new ≡ other.now }
    {
        self.pc = other.pc;
        self.registers = other.registers;
        self.memory.copy_from_slice(other.memory.as_slice());
    }

    // The bounds that every machine keeps.
    fn keeps(&self)
        ensures { IsCore self.now }
    {
        word_fits(self.pc);
        words_fit(&self.registers[..32]);
        bytes_fit(self.memory.as_slice());
    }

    /// The address of the next instruction.
    pub fn pc(&self) -> u32
        ensures value { result ≡ self.now.pc }
        ensures within { IsCore self.now }
    {
        self.keeps();
        self.pc
    }

    /// The value of register x0 to x31.
    #[tactic(auto, using(crate::proofs::Lists::slice_index_of_take_32))]
    pub fn reg(&self, n: u8) -> u32
        requires { n < 32 }
        ensures value { result ≡ register self.now n }
        ensures within { IsCore self.now }
    {
        self.keeps();
        self.registers[n as usize]
    }

    /// The bytes of private memory, the first of which is at address 0x00100000.
    pub fn memory(&self) -> &[u8]
        ensures value { result.now ≡ self.now.memory }
        ensures within { IsCore self.now }
    {
        self.keeps();
        self.memory.as_slice()
    }

    /// The word at an address of private memory that is a multiple of 4.
    pub fn load_word(&self, address: u32) -> u32
        requires { IsMemoryWord address }
        ensures value { result ≡ memory_word self.now.memory address }
        ensures load { (code : List ℕ) → loaded Lw code self.now.memory address ≡ Some result }
    {
        LittleEndian::read_u32(&self.memory[(address - MEMORY_START) as usize..])
    }

    /// What `step` would answer; nothing changes.
    pub fn next(&self, code: &Code) -> Ran
        ensures { result ≡ ran_of (outcome_of code.now self.now) }
    {
        if self.is_at_call(code) {
            return Ran::Call;
        }
        match self.effect(code) {
            Effect::Write { .. } | Effect::Store { .. } => Ran::Ran,
            Effect::Call => Ran::Call,
            Effect::End(fault) => Ran::Fault(fault),
        }
    }

    /// Carries out the instruction at pc, unless it is a system call or ends the thread: then
    /// nothing changes.
    pub fn step(&mut self, code: &Code) -> Ran
        ensures { IsStep (outcome_of code.now self.old) self.old result self.new }
    {
        if self.is_at_call(code) {
            return Ran::Call;
        }
        let effect = self.effect(code);
        self.apply(effect)
    }

    // Carries out operations, at most `limit`, as long as none is unusual, and says how many, and whether it stopped because
    // a system call comes next.
    #[tactic(auto, using(crate::proofs::Runs::unmarked_after_zero))]
    #[inline(never)]
    pub(crate) fn run_usual(&mut self, operations: &[Operation], limit: u64) -> (u64, bool)
        ensures within { result.0 ≤ limit }
        ensures steps { (code : List ℕ) (marks : List Bool) → AreUnmarked code marks operations.now → unmarked_after result.0 code marks self.old ≡ Some self.new }
        ensures call { result.1 ≡ true → IsAtCall operations.now self.new }
    {
        if self.pc % 4 != 0 {
            return (0, false);
        }
        let start = place_of(self.pc);
        let (place, done, at_call) = carry_out(
            operations,
            &mut self.registers,
            self.memory.as_mut_slice(),
            start,
            limit,
        );
        self.pc = address_of(place);
        (done, at_call)
    }

    /// Goes past a system call: pc to the next word, and the answer, if there is one, into a0.
    #[tactic(auto, using(crate::proofs::Lists::take_32_of_slice_set))]
    pub fn pass_call(&mut self, answer: Option<u32>)
        ensures { self.new ≡ past_call self.old answer }
    {
        if let Some(answer) = answer {
            self.registers[ANSWER] = answer;
        }
        self.pc = self.pc.wrapping_add(4);
    }

    #[tactic(auto, using(crate::proofs::Lists::take_32_of_slice_set))]
    fn apply(&mut self, effect: Effect) -> Ran
        requires { IsPossible effect }
        ensures { IsStep (applied effect self.old) self.old result self.new }
    {
        match effect {
            Effect::Write { rd, value, pc } => {
                if rd != 0 {
                    self.registers[rd as usize] = value;
                }
                self.pc = pc;
                Ran::Ran
            }
            Effect::Store { op, offset, value } => {
                overwrite(op, &mut self.memory, offset, value);
                self.pc = self.pc.wrapping_add(4);
                Ran::Ran
            }
            Effect::Call => Ran::Call,
            Effect::End(fault) => Ran::Fault(fault),
        }
    }
}
