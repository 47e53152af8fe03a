//! Machines of a few instructions.

ghost use Rattle.std.specs.Prelude.{◌≡◌, ◌≤◌, ◌<◌, ◌%◌, ◌^◌, ◌≤ℤ◌, pos, negsuc, vec_len, length, IfOk};
ghost use Rattle.std.specs.List.{AllByRecursion};
ghost use Rattle.ir_image.specs.Guest.{most_code_words};
ghost use Rattle.ir_image.specs.Bounds.{IsWord};

use crate::registers::{A0, T0, T1};
use ir_image::{Code, Image, ImageForm, MOST_CODE_WORDS};
use ir_isa::{Immediate, ImmediateOp, Inst, LoadOp, Register, StoreOp, UpperImmediate, encode};
use std::alloc::{AllocError, Global};
use std::process::Abort;
use std::test::Fail;

fn words_fit(words: &[u32])
    ensures { AllByRecursion IsWord words.now }
{}

// The image of these words, which begins with the bytes ff and 80 in private memory.
pub fn image_of(alloc: Global, words: Vec<u32>) -> Result<Image, AllocError>
    requires some { 1 ≤ vec_len words }
    requires few { vec_len words ≤ most_code_words }
    ensures { IfOk result (λ image. 0 < length image.entries) }
{
    words_fit(words.as_slice());
    let code = Code::new(alloc, words)?;
    let entries = vec![in alloc; 0x0001_0000]?;
    let bytes = vec![in alloc; 0xff, 0x80]?;
    let form = ImageForm::Small;
    Ok(Image::new(form, entries, code, bytes, Vec::new(alloc)))
}

// The image of a program.
pub fn image(rt: &impl Abort, alloc: Global, program: &[Inst]) -> Result<Image, Fail>
    ensures { IfOk result (λ image. 0 < length image.entries) }
{
    let mut words = Vec::new(alloc);
    for inst in program {
        words.push(encode(inst))?;
    }
    assert!(rt; 1 <= words.len() && words.len() <= MOST_CODE_WORDS as usize);
    Ok(image_of(alloc, words)?)
}

pub fn upper(rd: Register, value: u32) -> Inst
    requires fits { value < 2 ^ 32 }
    requires whole { value % 2 ^ 12 ≡ 0 }
{
    Inst::Lui {
        rd,
        imm: UpperImmediate { value },
    }
}

pub fn add(rd: Register, rs1: Register, value: i32) -> Inst
    requires low { negsuc 2047 ≤ℤ value }
    requires high { value ≤ℤ pos 2047 }
{
    Inst::OpImm {
        op: ImmediateOp::Addi,
        rd,
        rs1,
        imm: Immediate { value },
    }
}

pub fn load(op: LoadOp) -> Inst {
    Inst::Load {
        op,
        rd: A0,
        rs1: T0,
        imm: Immediate { value: 0 },
    }
}

pub fn store(op: StoreOp) -> Inst {
    Inst::Store {
        op,
        rs1: T0,
        rs2: T1,
        imm: Immediate { value: 0 },
    }
}
