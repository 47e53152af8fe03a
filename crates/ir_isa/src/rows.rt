//! The funct3 and the funct7 of the rows.

ghost use Rattle.std.specs.Prelude.{◌≡◌};
ghost use Rattle.ir_isa.specs.Code.{shift_functs, reg_functs};
ghost use Rattle.ir_isa.specs.Rows.{branch_op_of, load_op_of, store_op_of, imm_op_of, shift_op_of, reg_op_of, branch_funct, load_funct, store_funct, imm_funct};

use crate::inst::{BranchOp, ImmediateOp, LoadOp, RegisterOp, ShiftOp, StoreOp};

pub fn branch_op(funct3: u32) -> Option<BranchOp>
    ensures { result ≡ branch_op_of funct3 }
{
    match funct3 {
        0b000 => Some(BranchOp::Beq),
        0b001 => Some(BranchOp::Bne),
        0b100 => Some(BranchOp::Blt),
        0b101 => Some(BranchOp::Bge),
        0b110 => Some(BranchOp::Bltu),
        0b111 => Some(BranchOp::Bgeu),
        _ => None,
    }
}

pub fn branch_code(op: BranchOp) -> u32
    ensures { result ≡ branch_funct op }
{
    match op {
        BranchOp::Beq => 0b000,
        BranchOp::Bne => 0b001,
        BranchOp::Blt => 0b100,
        BranchOp::Bge => 0b101,
        BranchOp::Bltu => 0b110,
        BranchOp::Bgeu => 0b111,
    }
}

pub fn load_op(funct3: u32) -> Option<LoadOp>
    ensures { result ≡ load_op_of funct3 }
{
    match funct3 {
        0b000 => Some(LoadOp::Lb),
        0b001 => Some(LoadOp::Lh),
        0b010 => Some(LoadOp::Lw),
        0b100 => Some(LoadOp::Lbu),
        0b101 => Some(LoadOp::Lhu),
        _ => None,
    }
}

pub fn load_code(op: LoadOp) -> u32
    ensures { result ≡ load_funct op }
{
    match op {
        LoadOp::Lb => 0b000,
        LoadOp::Lh => 0b001,
        LoadOp::Lw => 0b010,
        LoadOp::Lbu => 0b100,
        LoadOp::Lhu => 0b101,
    }
}

pub fn store_op(funct3: u32) -> Option<StoreOp>
    ensures { result ≡ store_op_of funct3 }
{
    match funct3 {
        0b000 => Some(StoreOp::Sb),
        0b001 => Some(StoreOp::Sh),
        0b010 => Some(StoreOp::Sw),
        _ => None,
    }
}

pub fn store_code(op: StoreOp) -> u32
    ensures { result ≡ store_funct op }
{
    match op {
        StoreOp::Sb => 0b000,
        StoreOp::Sh => 0b001,
        StoreOp::Sw => 0b010,
    }
}

pub fn imm_op(funct3: u32) -> Option<ImmediateOp>
    ensures { result ≡ imm_op_of funct3 }
{
    match funct3 {
        0b000 => Some(ImmediateOp::Addi),
        0b010 => Some(ImmediateOp::Slti),
        0b011 => Some(ImmediateOp::Sltiu),
        0b100 => Some(ImmediateOp::Xori),
        0b110 => Some(ImmediateOp::Ori),
        0b111 => Some(ImmediateOp::Andi),
        _ => None,
    }
}

pub fn imm_code(op: ImmediateOp) -> u32
    ensures { result ≡ imm_funct op }
{
    match op {
        ImmediateOp::Addi => 0b000,
        ImmediateOp::Slti => 0b010,
        ImmediateOp::Sltiu => 0b011,
        ImmediateOp::Xori => 0b100,
        ImmediateOp::Ori => 0b110,
        ImmediateOp::Andi => 0b111,
    }
}

pub fn shift_op(funct7: u32, funct3: u32) -> Option<ShiftOp>
    ensures { result ≡ shift_op_of funct7 funct3 }
{
    match (funct7, funct3) {
        (0b0000000, 0b001) => Some(ShiftOp::Slli),
        (0b0000000, 0b101) => Some(ShiftOp::Srli),
        (0b0100000, 0b101) => Some(ShiftOp::Srai),
        _ => None,
    }
}

pub fn shift_code(op: ShiftOp) -> (u32, u32)
    ensures { result ≡ ((shift_functs op).seven, (shift_functs op).three) }
{
    match op {
        ShiftOp::Slli => (0b0000000, 0b001),
        ShiftOp::Srli => (0b0000000, 0b101),
        ShiftOp::Srai => (0b0100000, 0b101),
    }
}

pub fn reg_op(funct7: u32, funct3: u32) -> Option<RegisterOp>
    ensures { result ≡ reg_op_of funct7 funct3 }
{
    match (funct7, funct3) {
        (0b0000000, 0b000) => Some(RegisterOp::Add),
        (0b0100000, 0b000) => Some(RegisterOp::Sub),
        (0b0000000, 0b001) => Some(RegisterOp::Sll),
        (0b0000000, 0b010) => Some(RegisterOp::Slt),
        (0b0000000, 0b011) => Some(RegisterOp::Sltu),
        (0b0000000, 0b100) => Some(RegisterOp::Xor),
        (0b0000000, 0b101) => Some(RegisterOp::Srl),
        (0b0100000, 0b101) => Some(RegisterOp::Sra),
        (0b0000000, 0b110) => Some(RegisterOp::Or),
        (0b0000000, 0b111) => Some(RegisterOp::And),
        (0b0000001, 0b000) => Some(RegisterOp::Mul),
        (0b0000001, 0b001) => Some(RegisterOp::Mulh),
        (0b0000001, 0b010) => Some(RegisterOp::Mulhsu),
        (0b0000001, 0b011) => Some(RegisterOp::Mulhu),
        (0b0000001, 0b100) => Some(RegisterOp::Div),
        (0b0000001, 0b101) => Some(RegisterOp::Divu),
        (0b0000001, 0b110) => Some(RegisterOp::Rem),
        (0b0000001, 0b111) => Some(RegisterOp::Remu),
        _ => None,
    }
}

pub fn reg_code(op: RegisterOp) -> (u32, u32)
    ensures { result ≡ ((reg_functs op).seven, (reg_functs op).three) }
{
    match op {
        RegisterOp::Add => (0b0000000, 0b000),
        RegisterOp::Sub => (0b0100000, 0b000),
        RegisterOp::Sll => (0b0000000, 0b001),
        RegisterOp::Slt => (0b0000000, 0b010),
        RegisterOp::Sltu => (0b0000000, 0b011),
        RegisterOp::Xor => (0b0000000, 0b100),
        RegisterOp::Srl => (0b0000000, 0b101),
        RegisterOp::Sra => (0b0100000, 0b101),
        RegisterOp::Or => (0b0000000, 0b110),
        RegisterOp::And => (0b0000000, 0b111),
        RegisterOp::Mul => (0b0000001, 0b000),
        RegisterOp::Mulh => (0b0000001, 0b001),
        RegisterOp::Mulhsu => (0b0000001, 0b010),
        RegisterOp::Mulhu => (0b0000001, 0b011),
        RegisterOp::Div => (0b0000001, 0b100),
        RegisterOp::Divu => (0b0000001, 0b101),
        RegisterOp::Rem => (0b0000001, 0b110),
        RegisterOp::Remu => (0b0000001, 0b111),
    }
}
