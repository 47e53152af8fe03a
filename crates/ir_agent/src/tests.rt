use super::*;
use std::test::Fail;

// Registers, and bytes from 0x80000000 on.
#[derive(Drop)]
struct Scene {
    registers: [u32; 33],
    bytes: [u8; 8],
}

impl Seen for Scene {
    ghost use Rattle.std.specs.Prelude.{None, nat_lt, ◌-◌, slice_get, if◌then◌else◌};

    ghost registers = { λ s n. slice_get s.registers n };

    ghost bytes = { λ s a. if nat_lt a 0x80000000 then None else slice_get s.bytes (a - 0x80000000) };

    fn register(&self, number: u64) -> Option<u32> {
        self.registers.get(number as usize).copied()
    }

    fn byte(&self, address: u32) -> Option<u8> {
        if address < 0x8000_0000 {
            return None;
        }
        self.bytes.get((address - 0x8000_0000) as usize).copied()
    }
}

// Each register holds ten times its number, but register 4 holds -3.
fn make_scene() -> Scene {
    let mut registers = [0; 33];
    for number in 0..33 {
        registers[number] = number as u32 * 10;
    }
    registers[4] = 0xffff_fffd;
    let bytes = [0x3c, 0, 0, 0, 0xff, 0xff, 0x34, 0x12];
    Scene { registers, bytes }
}

// The first of these expressions that evaluates to something else than what is beside it.
fn first_wrong(cases: &[(&[u8], Result<u64, EvaluateErr>)]) -> Option<usize> {
    let scene = make_scene();
    for i in 0..cases.len() {
        let (code, want) = cases[i];
        if evaluate(&scene, code) != want {
            return Some(i);
        }
    }
    None
}

// As gdb sends them for conditions on a variable of type int in register 4.
#[test]
fn conditions_of_gdb_are_evaluated(rt: HostRuntime) -> Result<(), Fail> {
    let cases: [(&[u8], Result<u64, EvaluateErr>); 6] = [
        // balance != *(int *)0x80000000
        (
            b"\x26\x00\x04\x16\x20\x25\x00\x00\x00\x00\x80\x00\x00\x00\x19\x16\x20\x13\x0e\x27",
            Ok(1),
        ),
        // balance / 0
        (
            b"\x26\x00\x04\x16\x20\x22\x00\x05\x16\x20\x27",
            Err(EvaluateErr::DivisionByZero),
        ),
        // balance > 3 && $a0 < 5 || *(short *)0x80000004 == -1
        (
            b"\x26\x00\x04\x16\x20\x22\x03\x2b\x14\x20\x00\x0f\x21\x00\x22\
              \x26\x00\x0a\x16\x20\x22\x05\x14\x20\x00\x1d\x21\x00\x22\x22\x01\x21\x00\
              \x24\x22\x00\x20\x00\x40\x25\x00\x00\x00\x00\x80\x00\x00\x04\x18\x16\x10\x22\xff\x16\x08\x13\x20\x00\x40\x22\x00\x21\x00\x42\x22\x01\x27",
            Ok(1),
        ),
        // $a0 == 100
        (b"\x26\x00\x0a\x16\x20\x22\x64\x13\x27", Ok(1)),
        // $pc
        (b"\x26\x00\x20\x2a\x20\x27", Ok(320)),
        // *(int *)0
        (b"\x22\x00\x19\x16\x20\x27", Err(EvaluateErr::NoMemory)),
    ];
    assert_eq!(rt; first_wrong(&cases), None);
    Ok(())
}

#[test]
fn numbers_have_64_bits(rt: HostRuntime) -> Result<(), Fail> {
    let cases: [(&[u8], Result<u64, EvaluateErr>); 18] = [
        // -3 * 2, -7 / 2, -7 % 2, and without signs
        (b"\x22\xfd\x16\x08\x22\x02\x04\x27", Ok(u64::MAX - 5)),
        (b"\x22\xf9\x16\x08\x22\x02\x05\x27", Ok(u64::MAX - 2)),
        (b"\x22\xf9\x16\x08\x22\x02\x07\x27", Ok(u64::MAX)),
        (b"\x22\xf9\x22\x02\x06\x27", Ok(124)),
        (b"\x22\xf9\x22\x0a\x08\x27", Ok(9)),
        (b"\x22\x01\x22\x02\x03\x27", Ok(u64::MAX)),
        // the least number by -1
        (
            b"\x25\x80\x00\x00\x00\x00\x00\x00\x00\x22\xff\x16\x08\x05\x27",
            Ok(1 << 63),
        ),
        // shifts
        (b"\x22\x01\x22\x3f\x09\x27", Ok(1 << 63)),
        (b"\x22\x01\x22\x40\x09\x27", Ok(0)),
        (b"\x22\xf9\x16\x08\x22\x01\x0a\x27", Ok(u64::MAX - 3)),
        (b"\x22\xf9\x16\x08\x22\xff\x0a\x27", Ok(u64::MAX)),
        (b"\x22\xf9\x22\x04\x0b\x27", Ok(15)),
        // bits
        (b"\x22\x0c\x22\x0a\x0f\x22\x01\x10\x22\xff\x11\x27", Ok(246)),
        (b"\x22\x00\x12\x27", Ok(u64::MAX)),
        (b"\x23\x12\x34\x2a\x04\x27", Ok(4)),
        (b"\x22\x05\x16\x00\x27", Ok(0)),
        (b"\x22\x85\x16\x40\x27", Ok(133)),
        // signs
        (b"\x22\xff\x16\x08\x22\x01\x15\x27", Ok(0)),
    ];
    assert_eq!(rt; first_wrong(&cases), None);
    Ok(())
}

#[test]
fn the_stack_is_ordered(rt: HostRuntime) -> Result<(), Fail> {
    let cases: [(&[u8], Result<u64, EvaluateErr>); 8] = [
        (b"\x22\x05\x28\x04\x27", Ok(25)),
        (b"\x22\x05\x22\x06\x29\x27", Ok(5)),
        (b"\x22\x07\x22\x05\x2b\x03\x27", Ok(u64::MAX - 1)),
        (b"\x22\x07\x22\x05\x22\x01\x32\x02\x27", Ok(7)),
        // 1 2 3 becomes 3 1 2
        (b"\x22\x01\x22\x02\x22\x03\x33\x27", Ok(2)),
        (b"\x22\x01\x22\x02\x22\x03\x33\x29\x29\x27", Ok(3)),
        (b"\x22\x07\x32\x01\x27", Err(EvaluateErr::StackEmpty)),
        (b"\x22\x07\x22\x08\x33\x27", Err(EvaluateErr::StackEmpty)),
    ];
    assert_eq!(rt; first_wrong(&cases), None);
    Ok(())
}

#[test]
fn memory_is_read(rt: HostRuntime) -> Result<(), Fail> {
    let cases: [(&[u8], Result<u64, EvaluateErr>); 5] = [
        (b"\x24\x80\x00\x00\x06\x17\x27", Ok(0x34)),
        (b"\x24\x80\x00\x00\x06\x18\x27", Ok(0x1234)),
        (b"\x24\x80\x00\x00\x00\x1a\x27", Ok(0x1234_ffff_0000_003c)),
        (b"\x24\x80\x00\x00\x05\x19\x27", Err(EvaluateErr::NoMemory)),
        // an address of more than 32 bits
        (
            b"\x25\x00\x00\x00\x01\x80\x00\x00\x00\x17\x27",
            Err(EvaluateErr::NoMemory),
        ),
    ];
    assert_eq!(rt; first_wrong(&cases), None);
    Ok(())
}

#[test]
fn what_is_wrong_is_said(rt: HostRuntime) -> Result<(), Fail> {
    let cases: [(&[u8], Result<u64, EvaluateErr>); 14] = [
        (b"", Err(EvaluateErr::Outside)),
        (b"\x22", Err(EvaluateErr::Outside)),
        (b"\x22\x01", Err(EvaluateErr::Outside)),
        (b"\x27", Err(EvaluateErr::StackEmpty)),
        (b"\x22\x01\x02\x27", Err(EvaluateErr::StackEmpty)),
        (
            b"\x22\x01\x22\x00\x05\x27",
            Err(EvaluateErr::DivisionByZero),
        ),
        (
            b"\x22\x01\x22\x00\x08\x27",
            Err(EvaluateErr::DivisionByZero),
        ),
        // float, trace, printf and no bytecode
        (b"\x01", Err(EvaluateErr::UnknownBytecode)),
        (b"\x22\x01\x22\x01\x0c", Err(EvaluateErr::UnknownBytecode)),
        (b"\x34", Err(EvaluateErr::UnknownBytecode)),
        (b"\xff", Err(EvaluateErr::UnknownBytecode)),
        (b"\x26\x00\x21\x27", Err(EvaluateErr::NoRegister)),
        // a jump outside, and jumps without an end
        (b"\x21\x00\x04\x27", Err(EvaluateErr::Outside)),
        (b"\x21\x00\x00\x27", Err(EvaluateErr::TooManySteps)),
    ];
    assert_eq!(rt; first_wrong(&cases), None);
    // as many numbers as there may be, and one more
    let mut code = [0x28; 102];
    code[0] = 0x22;
    assert_eq!(rt; evaluate(&make_scene(), &code), Err(EvaluateErr::StackFull));
    code[101] = 0x27;
    assert_eq!(rt; evaluate(&make_scene(), &code), Ok(0x28));
    Ok(())
}

#[test]
fn what_has_no_value_is_met(rt: HostRuntime) -> Result<(), Fail> {
    let scene = make_scene();
    assert!(rt; holds(&scene, b"\x22\x05\x27"));
    assert!(rt; holds(&scene, b"\x22\x00\x17\x27"));
    assert!(rt; !holds(&scene, b"\x22\x00\x27"));
    Ok(())
}
