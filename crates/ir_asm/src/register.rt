//! The registers by their names.

ghost use Rattle.std.specs.Prelude.{◌≡◌, ◌<◌, IfSome};
ghost use Rattle.ir_asm.specs.Names.{named, abi_rows, x_rows, register_rows, register_named};
ghost use Rattle.ir_asm.specs.Faults.{or_cause};
ghost use Rattle.ir_asm.specs.declared.cause.Cause.TheVariants.{UnknownRegister};

use crate::cause::Cause;
use crate::fields::register as numbered_register;
use ir_isa::Register;

fn abi(name: &[u8]) -> Option<u8>
    ensures exact { result ≡ named abi_rows name.now }
    ensures small { IfSome result (λ n. n < 32) }
{
    match name {
        b"zero" => Some(0),
        b"ra" => Some(1),
        b"sp" => Some(2),
        b"gp" => Some(3),
        b"tp" => Some(4),
        b"t0" => Some(5),
        b"t1" => Some(6),
        b"t2" => Some(7),
        b"s0" => Some(8),
        b"s1" => Some(9),
        b"a0" => Some(10),
        b"a1" => Some(11),
        b"a2" => Some(12),
        b"a3" => Some(13),
        b"a4" => Some(14),
        b"a5" => Some(15),
        b"a6" => Some(16),
        b"a7" => Some(17),
        b"s2" => Some(18),
        b"s3" => Some(19),
        b"s4" => Some(20),
        b"s5" => Some(21),
        b"s6" => Some(22),
        b"s7" => Some(23),
        b"s8" => Some(24),
        b"s9" => Some(25),
        b"s10" => Some(26),
        b"s11" => Some(27),
        b"t3" => Some(28),
        b"t4" => Some(29),
        b"t5" => Some(30),
        b"t6" => Some(31),
        b"fp" => Some(8),
        _ => None,
    }
}

fn numbered(name: &[u8]) -> Option<u8>
    ensures exact { result ≡ named x_rows name.now }
    ensures small { IfSome result (λ n. n < 32) }
{
    match name {
        b"x0" => Some(0),
        b"x1" => Some(1),
        b"x2" => Some(2),
        b"x3" => Some(3),
        b"x4" => Some(4),
        b"x5" => Some(5),
        b"x6" => Some(6),
        b"x7" => Some(7),
        b"x8" => Some(8),
        b"x9" => Some(9),
        b"x10" => Some(10),
        b"x11" => Some(11),
        b"x12" => Some(12),
        b"x13" => Some(13),
        b"x14" => Some(14),
        b"x15" => Some(15),
        b"x16" => Some(16),
        b"x17" => Some(17),
        b"x18" => Some(18),
        b"x19" => Some(19),
        b"x20" => Some(20),
        b"x21" => Some(21),
        b"x22" => Some(22),
        b"x23" => Some(23),
        b"x24" => Some(24),
        b"x25" => Some(25),
        b"x26" => Some(26),
        b"x27" => Some(27),
        b"x28" => Some(28),
        b"x29" => Some(29),
        b"x30" => Some(30),
        b"x31" => Some(31),
        _ => None,
    }
}

fn number_of(name: &[u8]) -> Option<u8>
    ensures exact { result ≡ named register_rows name.now }
    ensures small { IfSome result (λ n. n < 32) }
{
    match abi(name) {
        Some(number) => Some(number),
        None => numbered(name),
    }
}

/// The register of a name.
pub fn register(name: &[u8]) -> Result<Register, Cause>
    ensures { result ≡ or_cause UnknownRegister (register_named name.now) }
{
    match number_of(name) {
        Some(number) => Ok(numbered_register(number)),
        None => Err(Cause::UnknownRegister),
    }
}
