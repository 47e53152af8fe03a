//! The table of statements.

ghost use Rattle.std.specs.Prelude.{◌≡◌, ℕ, List, Option, Some, None, length, bytes_eq};
ghost use Rattle.ir_asm.specs.Names.{named, first_name};
ghost use Rattle.ir_asm.specs.Forms.{base_rows, multiply_rows, immediate_rows, memory_rows, branch_rows, single_rows, directive_rows};
ghost use Rattle.ir_asm.specs.Forms.{form_named, stated, in_image, may_follow, may_come, stands_in, takes, registers_then, word_number};
ghost use Rattle.ir_asm.specs.Forms.{kind_at};

use crate::form::{Form, Kind, Section};
use ir_image::{ImageForm, MEMORY_SIZE};
use ir_isa::{BranchOp, ImmediateOp, LoadOp, RegisterOp, ShiftOp, StoreOp};

fn is(name: &[u8], text: &[u8]) -> bool
    ensures { result ≡ bytes_eq name.now text.now }
{
    name == text
}

fn base_form(name: &[u8]) -> Option<Form>
    ensures { result ≡ named base_rows name.now }
{
    match name {
        b"add" => Some(Form::Registers(RegisterOp::Add)),
        b"sub" => Some(Form::Registers(RegisterOp::Sub)),
        b"sll" => Some(Form::Registers(RegisterOp::Sll)),
        b"slt" => Some(Form::Registers(RegisterOp::Slt)),
        b"sltu" => Some(Form::Registers(RegisterOp::Sltu)),
        b"xor" => Some(Form::Registers(RegisterOp::Xor)),
        b"srl" => Some(Form::Registers(RegisterOp::Srl)),
        b"sra" => Some(Form::Registers(RegisterOp::Sra)),
        b"or" => Some(Form::Registers(RegisterOp::Or)),
        b"and" => Some(Form::Registers(RegisterOp::And)),
        _ => None,
    }
}

fn multiply_form(name: &[u8]) -> Option<Form>
    ensures { result ≡ named multiply_rows name.now }
{
    if is(name, b"mul") {
        Some(Form::Registers(RegisterOp::Mul))
    } else if is(name, b"mulh") {
        Some(Form::Registers(RegisterOp::Mulh))
    } else if is(name, b"mulhsu") {
        Some(Form::Registers(RegisterOp::Mulhsu))
    } else if is(name, b"mulhu") {
        Some(Form::Registers(RegisterOp::Mulhu))
    } else if is(name, b"div") {
        Some(Form::Registers(RegisterOp::Div))
    } else if is(name, b"divu") {
        Some(Form::Registers(RegisterOp::Divu))
    } else if is(name, b"rem") {
        Some(Form::Registers(RegisterOp::Rem))
    } else if is(name, b"remu") {
        Some(Form::Registers(RegisterOp::Remu))
    } else {
        None
    }
}

fn immediate_form(name: &[u8]) -> Option<Form>
    ensures { result ≡ named immediate_rows name.now }
{
    match name {
        b"addi" => Some(Form::Immediates(ImmediateOp::Addi)),
        b"slti" => Some(Form::Immediates(ImmediateOp::Slti)),
        b"sltiu" => Some(Form::Immediates(ImmediateOp::Sltiu)),
        b"xori" => Some(Form::Immediates(ImmediateOp::Xori)),
        b"ori" => Some(Form::Immediates(ImmediateOp::Ori)),
        b"andi" => Some(Form::Immediates(ImmediateOp::Andi)),
        b"slli" => Some(Form::Shifts(ShiftOp::Slli)),
        b"srli" => Some(Form::Shifts(ShiftOp::Srli)),
        b"srai" => Some(Form::Shifts(ShiftOp::Srai)),
        _ => None,
    }
}

fn memory_form(name: &[u8]) -> Option<Form>
    ensures { result ≡ named memory_rows name.now }
{
    match name {
        b"lb" => Some(Form::Loads(LoadOp::Lb)),
        b"lh" => Some(Form::Loads(LoadOp::Lh)),
        b"lw" => Some(Form::Loads(LoadOp::Lw)),
        b"lbu" => Some(Form::Loads(LoadOp::Lbu)),
        b"lhu" => Some(Form::Loads(LoadOp::Lhu)),
        b"sb" => Some(Form::Stores(StoreOp::Sb)),
        b"sh" => Some(Form::Stores(StoreOp::Sh)),
        b"sw" => Some(Form::Stores(StoreOp::Sw)),
        _ => None,
    }
}

fn branch_form(name: &[u8]) -> Option<Form>
    ensures { result ≡ named branch_rows name.now }
{
    match name {
        b"beq" => Some(Form::Branches(BranchOp::Beq)),
        b"bne" => Some(Form::Branches(BranchOp::Bne)),
        b"blt" => Some(Form::Branches(BranchOp::Blt)),
        b"bge" => Some(Form::Branches(BranchOp::Bge)),
        b"bltu" => Some(Form::Branches(BranchOp::Bltu)),
        b"bgeu" => Some(Form::Branches(BranchOp::Bgeu)),
        _ => None,
    }
}

fn single_form(name: &[u8]) -> Option<Form>
    ensures { result ≡ named single_rows name.now }
{
    if is(name, b"jal") {
        Some(Form::Jumps)
    } else if is(name, b"jalr") {
        Some(Form::JumpsTo)
    } else if is(name, b"lui") {
        Some(Form::LoadsUpper)
    } else if is(name, b"auipc") {
        Some(Form::AddsUpper)
    } else if is(name, b"fence") {
        Some(Form::Fences)
    } else if is(name, b"ecall") {
        Some(Form::Calls)
    } else if is(name, b"ebreak") {
        Some(Form::Breaks)
    } else if is(name, b"nop") {
        Some(Form::DoesNothing)
    } else if is(name, b"li") {
        Some(Form::LoadsValue)
    } else {
        None
    }
}

fn directive_form(name: &[u8]) -> Option<Form>
    ensures { result ≡ named directive_rows name.now }
{
    if is(name, b".large") {
        Some(Form::Enlarges)
    } else if is(name, b".text") {
        Some(Form::Sections(Section::Text))
    } else if is(name, b".data") {
        Some(Form::Sections(Section::Data))
    } else if is(name, b".word") {
        Some(Form::Words)
    } else if is(name, b".byte") {
        Some(Form::Bytes)
    } else if is(name, b".space") {
        Some(Form::Space)
    } else if is(name, b".thread") {
        Some(Form::Thread)
    } else if is(name, b".objects") {
        Some(Form::Objects(ImageForm::Small))
    } else if is(name, b".object") {
        Some(Form::Object(ImageForm::Small))
    } else {
        None
    }
}

// The first of two answers that there is.
fn either(first: Option<Form>, second: Option<Form>) -> Option<Form>
    ensures { result ≡ first_name first second }
{
    match first {
        Some(form) => Some(form),
        None => second,
    }
}

/// The form of the statements of a name.
pub fn form_named(name: &[u8]) -> Option<Form>
    ensures { result ≡ form_named name.now }
{
    let single = either(single_form(name), directive_form(name));
    let branch = either(branch_form(name), single);
    let memory = either(memory_form(name), branch);
    let immediate = either(immediate_form(name), memory);
    let multiply = either(multiply_form(name), immediate);
    either(base_form(name), multiply)
}

/// The form of an image, which the statements before say.
pub fn stated(before: Option<ImageForm>) -> ImageForm
    ensures { result ≡ stated before }
{
    match before {
        Some(image) => image,
        None => ImageForm::Small,
    }
}

/// A form in an image.
pub fn in_image(image: ImageForm, form: Form) -> Form
    ensures { result ≡ in_image image form }
{
    match form {
        Form::Objects(_) => Form::Objects(image),
        Form::Object(_) => Form::Object(image),
        _ => form,
    }
}

fn may_follow(form: Form) -> bool
    ensures { result ≡ may_follow form }
{
    match form {
        Form::Enlarges => false,
        _ => true,
    }
}

/// Whether a form may come after these statements, if there are any.
pub fn may_come(before: Option<ImageForm>, form: Form) -> bool
    ensures { result ≡ may_come before form }
{
    match before {
        Some(_) => may_follow(form),
        None => true,
    }
}

/// The section in which a form has to be, or none if it may be in either.
pub fn stands_in(form: Form) -> Option<Section>
    ensures { result ≡ stands_in form }
{
    match form {
        Form::Enlarges | Form::Sections(_) | Form::Words | Form::Thread => None,
        Form::Objects(_) | Form::Object(_) => None,
        Form::Bytes | Form::Space => Some(Section::Data),
        _ => Some(Section::Text),
    }
}

/// Whether a form may have `count` operands.
pub fn takes(form: Form, count: usize) -> bool
    ensures { result ≡ takes form count }
{
    match form {
        Form::Registers(_) | Form::Immediates(_) | Form::Shifts(_) | Form::Branches(_) => count
            == 3,
        Form::Loads(_) | Form::JumpsTo | Form::Stores(_) | Form::Jumps => count == 2,
        Form::LoadsUpper | Form::AddsUpper | Form::LoadsValue => count == 2,
        Form::Fences => count == 0 || count == 3,
        Form::Calls | Form::Breaks | Form::DoesNothing => count == 0,
        Form::Enlarges | Form::Sections(_) => count == 0,
        Form::Words | Form::Bytes => count >= 1,
        Form::Space | Form::Thread | Form::Objects(_) => count == 1,
        Form::Object(image) => count >= 2 && count <= 1 + image.limits().words,
    }
}

// Registers up to place n, and there another kind.
fn registers_then(n: usize, kind: Kind, place: usize) -> Kind
    ensures { result ≡ registers_then n kind place }
{
    if place == n { kind } else { Kind::Register }
}

// A number of 32 bits, with or without a sign.
const WORD_NUMBER: Kind = Kind::Number(-2_147_483_648, 4_294_967_295);

/// The kind of the operand at a place, from 0.
pub fn kind_at(form: Form, place: usize) -> Kind
    ensures { result ≡ kind_at form place }
{
    match form {
        Form::Immediates(_) => registers_then(2, Kind::Number(-2048, 2047), place),
        Form::Shifts(_) => registers_then(2, Kind::Number(0, 31), place),
        Form::Loads(_) | Form::JumpsTo | Form::Stores(_) => registers_then(1, Kind::Address, place),
        Form::Branches(_) => registers_then(2, Kind::Target(-4096, 4094), place),
        Form::Jumps => registers_then(1, Kind::Target(-1_048_576, 1_048_574), place),
        Form::LoadsUpper | Form::AddsUpper => registers_then(1, Kind::Number(0, 1_048_575), place),
        Form::Fences => registers_then(2, Kind::Number(0, 4095), place),
        Form::LoadsValue => registers_then(1, Kind::Value, place),
        Form::Words => WORD_NUMBER,
        Form::Bytes => Kind::Number(0, 255),
        Form::Space => Kind::Number(0, MEMORY_SIZE as i64),
        Form::Thread => Kind::Label,
        Form::Objects(image) => Kind::Number(0, image.limits().objects as i64),
        Form::Object(_) if place == 0 => Kind::Number(0, 4_294_967_295),
        Form::Object(_) => WORD_NUMBER,
        _ => Kind::Register,
    }
}
