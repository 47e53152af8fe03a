//! The names of instructions.

ghost use Rattle.std.specs.Prelude.{◌≡◌};
ghost use Rattle.ir_disasm.specs.Names.{branch_name, load_name, store_name, immediate_name, shift_name, operation_name};

use ir_isa::{BranchOp, ImmediateOp, LoadOp, RegisterOp, ShiftOp, StoreOp};

pub fn branch_name(op: BranchOp) -> &'static str
    ensures { result.now ≡ branch_name op }
{
    match op {
        BranchOp::Beq => "beq",
        BranchOp::Bne => "bne",
        BranchOp::Blt => "blt",
        BranchOp::Bge => "bge",
        BranchOp::Bltu => "bltu",
        BranchOp::Bgeu => "bgeu",
    }
}

pub fn load_name(op: LoadOp) -> &'static str
    ensures { result.now ≡ load_name op }
{
    match op {
        LoadOp::Lb => "lb",
        LoadOp::Lh => "lh",
        LoadOp::Lw => "lw",
        LoadOp::Lbu => "lbu",
        LoadOp::Lhu => "lhu",
    }
}

pub fn store_name(op: StoreOp) -> &'static str
    ensures { result.now ≡ store_name op }
{
    match op {
        StoreOp::Sb => "sb",
        StoreOp::Sh => "sh",
        StoreOp::Sw => "sw",
    }
}

pub fn immediate_name(op: ImmediateOp) -> &'static str
    ensures { result.now ≡ immediate_name op }
{
    match op {
        ImmediateOp::Addi => "addi",
        ImmediateOp::Slti => "slti",
        ImmediateOp::Sltiu => "sltiu",
        ImmediateOp::Xori => "xori",
        ImmediateOp::Ori => "ori",
        ImmediateOp::Andi => "andi",
    }
}

pub fn shift_name(op: ShiftOp) -> &'static str
    ensures { result.now ≡ shift_name op }
{
    match op {
        ShiftOp::Slli => "slli",
        ShiftOp::Srli => "srli",
        ShiftOp::Srai => "srai",
    }
}

pub fn operation_name(op: RegisterOp) -> &'static str
    ensures { result.now ≡ operation_name op }
{
    match op {
        RegisterOp::Add => "add",
        RegisterOp::Sub => "sub",
        RegisterOp::Sll => "sll",
        RegisterOp::Slt => "slt",
        RegisterOp::Sltu => "sltu",
        RegisterOp::Xor => "xor",
        RegisterOp::Srl => "srl",
        RegisterOp::Sra => "sra",
        RegisterOp::Or => "or",
        RegisterOp::And => "and",
        RegisterOp::Mul => "mul",
        RegisterOp::Mulh => "mulh",
        RegisterOp::Mulhsu => "mulhsu",
        RegisterOp::Mulhu => "mulhu",
        RegisterOp::Div => "div",
        RegisterOp::Divu => "divu",
        RegisterOp::Rem => "rem",
        RegisterOp::Remu => "remu",
    }
}
