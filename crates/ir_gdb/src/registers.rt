//! Registers, as gdb numbers them.

ghost use Rattle.std.specs.Prelude.{◌≡◌, ◌≤◌, ◌<◌, ◌+◌, ◌++◌, slice_index, vec_len, vec_capacity};
ghost use Rattle.ir_packet.specs.Replies.{words_reply};
ghost use Rattle.ir_gdb.specs.Reads.{register_words};

use ir_mach::Mach;
use ir_packet::put_word;

/// The bytes of their text.
pub const MOST_REGISTERS: usize = 264;

/// The value of register n of x0 to x31, or pc.
#[tactic(auto, using(crate::proofs::Words::low_word_is_register, crate::proofs::Words::word_32_is_pc))]
pub fn word_of(mach: &Mach, n: u32) -> u32
    requires { n < 33 }
    ensures { result ≡ slice_index (register_words mach.now) n }
{
    if n == 32 {
        return mach.pc();
    }
    mach.reg(n as u8)
}

/// Puts all registers at the end.
#[tactic(auto, using(crate::proofs::Words::low_word_is_register, crate::proofs::Words::word_32_is_pc, crate::proofs::Words::length_of_words_of), unfolding(ir_packet::specs::Replies::words_reply))]
pub fn put_registers(out: &mut Vec<u8>, mach: &Mach)
    requires { vec_len out.old + 264 ≤ vec_capacity out.old }
    ensures bytes { out.new.items ≡ out.old.items ++ words_reply (register_words mach.now) }
    ensures capacity { vec_capacity out.new ≡ vec_capacity out.old }
{
    let pc = mach.pc();
    for n in 0..32 {
        put_word(out, mach.reg(n));
    }
    put_word(out, pc);
}
