//! The arguments of `ir asm`.

ghost use Rattle.ir_arguments.specs.Asking.{assembly_asked};
ghost use Rattle.ir_arguments.specs.Views.{AsksFor};

use crate::argument_err::ArgumentErr;
use crate::asked::{Asked, Make};
use crate::forms::Form;
use crate::subcommands::Row;
use crate::values::{EXPLAIN, IMAGE, IMAGE_OUT_FORM, MAP, given_text, has_flag, text_of};
use clap::ArgMatches;
use std::alloc::Global;

const SOURCE: &str = "SOURCE";

/// What follows the help of `ir asm`.
pub const ASM_AFTER: &str =
    "A source is lines: labels `name:` of at most 64 characters, then an instruction of RV32IM or a directive, then a comment from
`#` on.
Directives:
  .large             comes before every other statement: more threads, objects and words of objects, and an image IRI2
  .text, .data       the section from here on; a source begins in text. Code begins at 0x00010000. Data begins at 0x00100000,
                     as does each thread's own memory of 65,536 bytes; sp is 0x00110000 at a thread's start
  .word V, ..        words, in text or data; V from -2147483648 to 4294967295
  .byte V, ..        bytes, in data; V from 0 to 255
  .space N           N zero bytes, in data, at most 65536
  .thread LABEL      the next thread's entry, at most 8, or 16 with .large; without it one thread starts where the text does
  .objects N         the number of shared objects, at most 16, or 64 with .large
  .object O, V, ..   the first words of object O, at most 8, or 16 with .large
Instructions, a form a line; TARGET is a label, `.+N` or `.-N`, and V a number, decimal or `0x` and hexadecimal digits:
  add rd, rs1, rs2       so sub, sll, slt, sltu, xor, srl, sra, or, and, mul, mulh, mulhsu, mulhu, div, divu, rem, remu
  addi rd, rs1, V        so slti, sltiu, xori, ori, andi; V from -2048 to 2047
  slli rd, rs1, V        so srli, srai; V from 0 to 31
  lw rd, V(rs1)          so lb, lbu, lh, lhu, jalr; V from -2048 to 2047
  sw rs2, V(rs1)         so sb, sh; V from -2048 to 2047
  beq rs1, rs2, TARGET   so bne, blt, bge, bltu, bgeu; a distance from -4096 to 4094, even
  jal rd, TARGET         a distance from -1048576 to 1048574, even
  lui rd, V              so auipc; V, the upper 20 bits, from 0 to 1048575
  li rd, V               two instructions, LUI and ADDI; V from -2147483648 to 4294967295, or a label
  fence rd, rs1, V       or just `fence`; V from 0 to 4095
  ecall                  so ebreak, nop
Registers are x0 to x31, or zero, ra, sp, gp, tp, t0 to t6, s0 (fp) to s11, a0 to a7.
Calls, made by `ecall` with the number in a7, 13 only under `--profile 2`; a call without an answer keeps all registers:
   1  END          a0 code                        the thread ends
   2  PUTC         a0                             prints its low byte
   3  PUTN         a0                             prints it in decimal, with its sign, and a line feed
   4  CLOCK                                       answers the time in a0
   5  RANDOM                                      answers a random word in a0
   6  INPUT                                       answers the next byte in a0, 0xFFFFFFFF at the end
   7  ENTER_READ   a0 object                      waits while another thread holds it for writing
   8  ENTER_WRITE  a0 object                      waits while another thread holds it
   9  LEAVE        a0 object                      the thread no longer holds it
  10  GET          a0 object, a1 index            answers the object's word in a0
  11  PUT          a0 object, a1 index, a2 word   writes the object's word
  12  SELF                                        answers the thread's number in a0
  13  TRY_WRITE    a0 object                      never waits: answers 1 in a0, and holds it for writing, or 0
A fault is reported on standard error as `line L error C`, C being
   1 a byte that a source may not hold        7 an undefined label
   2 an unknown instruction or directive      8 a label that is too far away
   3 a wrong number or form of operands       9 a statement or label of the wrong section, or `.large` after a statement
   4 an unknown register                     10 too much code or data, or no code
   5 a malformed number or one out of range  11 too many threads, or no such object
   6 a label defined twice                   12 a malformed label
With --explain, and at a terminal without it, a line `SOURCE:L: CAUSE: TEXT` follows: the file, the line's number, the cause
in words as above, and the line's first 200 bytes. A tab is shown as a space, and what isn't printable as `?`.
MAP has a line `A K NAME` for each label, by rising address: the address in eight hexadecimal digits, `t` in text or `d` in
data, and the name, as `nm -n` prints them. `ir list` and `ir events` read it. It is written once IMAGE is.
Exit status: 0 assembled, 1 a file that can't be read or written, 2 bad arguments, 3 a fault of the source.
";

/// What the help says of it, and its arguments.
pub const ROW: Row<'static> = Row {
    name: "asm",
    about: "Assembles a guest's source into an image",
    after: ASM_AFTER,
    forms: &[
        Form::NeededPlace(SOURCE, "The file with the source"),
        IMAGE_OUT_FORM,
        Form::Valued(
            MAP,
            "MAP",
            "The file that the labels are written to, by rising address",
        ),
        Form::Flag(
            EXPLAIN,
            "Explains a fault in a second line, as is done at a terminal",
        ),
    ],
    bonds: &[],
};

/// What is assembled, and where to.
#[derive(Drop)]
pub struct AssembleArguments {
    /// The file of the source.
    pub source: String,
    /// The file that the image is written to.
    pub image: String,
    /// The file that the labels are written to, if there is one.
    pub map: Option<String>,
    /// Whether a fault is explained wherever it is reported.
    pub explain: bool,
}

/// What its arguments ask for.
pub fn asked(alloc: Global, matches: &ArgMatches<'_>) -> Result<Asked, ArgumentErr>
    ensures { AsksFor assembly_asked matches.now result }
{
    Ok(Asked::Make(Make::Source(AssembleArguments {
        source: text_of(alloc, matches, SOURCE)?,
        image: text_of(alloc, matches, IMAGE)?,
        map: given_text(alloc, matches, MAP)?,
        explain: has_flag(matches, EXPLAIN),
    })))
}
