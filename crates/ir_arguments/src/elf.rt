//! The arguments of `ir elf`.

ghost use Rattle.ir_arguments.specs.Asking.{conversion_asked};
ghost use Rattle.ir_arguments.specs.Views.{AsksFor};

use crate::argument_err::ArgumentErr;
use crate::asked::{Asked, Make};
use crate::forms::Form;
use crate::subcommands::Row;
use crate::values::{EXPLAIN, IMAGE, IMAGE_OUT_FORM, has_flag, text_of};
use clap::ArgMatches;
use std::alloc::Global;

const ELF: &str = "ELF";

/// What follows the help of `ir elf`.
pub const ELF_AFTER: &str =
    "ELF is a program that a linker made for RV32IM, of 32 bits and little-endian, with a table of its threads and objects.
guest/ir.h and guest/ir.ld make one of C:
  riscv64-unknown-elf-gcc bank.c @guest/ir.opts -o bank.elf
Its segments are the code from 0x00010000, each thread's variables from 0x00100000, and the table at 0x00200000. Sections and
symbols aren't read. Compressed and atomic instructions aren't there: an atomic one is end 3 where a thread meets it.
A file that is no guest is reported on standard error as `elf refused N`. It is the first test that fails, N being
   1 a field or a segment passes the end of the file
   2 the file is no ELF file
   3 the file isn't of 32 bits, little-endian, version 1
   4 the file is no linked RISC-V program
   5 the flags name compressed instructions, floating-point registers, RV32E or another memory order
   6 the program headers aren't of 32 bytes, or they aren't 1 to 64
   7 the program is dynamic, wants an interpreter or has thread-local variables
   8 a segment isn't within the code's, the memory's or the table's addresses
   9 a segment begins before the end of the one before it
  10 a segment of the code is writable
  11 there is no code
  12 there is no table of threads and objects
  13 the table has no known form, a wrong number of threads, or no whole objects
  14 a thread's entry is no place in the code
With --explain, and at a terminal without it, a line with the file and these words follows. Of a file that is converted a line on
standard error then says how many bytes of variables each thread has for itself, if there are any: no thread shares them.
Exit status: 0 converted, 1 a file that can't be read or written, 2 bad arguments, 3 a refused file.
";

/// What the help says of it, and its arguments.
pub const ROW: Row<'static> = Row {
    name: "elf",
    about: "Makes the image of a guest that a C compiler and linker made",
    after: ELF_AFTER,
    forms: &[
        Form::NeededPlace(ELF, "The file with the program"),
        IMAGE_OUT_FORM,
        Form::Flag(
            EXPLAIN,
            "Explains a refusal, or tells how many bytes of variables each thread has for itself, as is done at a terminal",
        ),
    ],
    bonds: &[],
};

/// What is converted, and where to.
#[derive(Drop)]
pub struct ElfArguments {
    /// The file of the program.
    pub elf: String,
    /// The file that the image is written to.
    pub image: String,
    /// Whether a refusal is explained wherever it is reported.
    pub explain: bool,
}

/// What its arguments ask for.
pub fn asked(alloc: Global, matches: &ArgMatches<'_>) -> Result<Asked, ArgumentErr>
    ensures { AsksFor conversion_asked matches.now result }
{
    Ok(Asked::Make(Make::Elf(ElfArguments {
        elf: text_of(alloc, matches, ELF)?,
        image: text_of(alloc, matches, IMAGE)?,
        explain: has_flag(matches, EXPLAIN),
    })))
}
