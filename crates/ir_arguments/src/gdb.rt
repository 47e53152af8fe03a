//! The arguments of `ir gdb`.

ghost use Rattle.ir_arguments.specs.Asking.{gdb_asked};
ghost use Rattle.ir_arguments.specs.Views.{AsksFor};

use crate::argument_err::ArgumentErr;
use crate::asked::Asked;
use crate::debug::DebugArguments;
use crate::subcommands::Row;
use crate::values::{IMAGE, IMAGE_FORM, TRACE, TRACE_FORM, text_of};
use clap::ArgMatches;
use std::alloc::Global;

/// What follows the help of `ir gdb`.
pub const GDB_AFTER: &str =
    "gdb starts this program itself and speaks its remote serial protocol over standard input and output:
  $ gdb-multiarch guest.elf
  (gdb) source examples/ir.gdb
  (gdb) target remote | ir gdb guest.img guest.trc
The ELF file is the one that the image was made of, with debug information. Only gdb reads it.
All of gdb's commands that look, stop and move work, backwards too. Nothing can be changed: `set var` and `call` are refused.
  continue                      to the next hit of any thread, in an order that the run allows
  reverse-continue              the same backwards
  set scheduler-locking on      moves only the current thread: the others go as far as they must, and don't stop it
  watch X                       counts for the thread that moves; of a word of an object, for each thread that puts it
  monitor LINE                  a command of `ir debug`, such as `monitor pos`
  x/8xw 0x80000040              object 1: object O is 64 bytes of memory from 0x80000000 + 64 * O on
What can't be opened is named on standard error in the lines of `ir debug`.
Exit status: 0 done, 1 a fault, 2 bad arguments, 3 a refused image or trace, 4 a trace that doesn't fit.
";

/// What the help says of it, and its arguments.
pub const ROW: Row<'static> = Row {
    name: "gdb",
    about: "Lets gdb debug a recorded run, forwards and backwards",
    after: GDB_AFTER,
    forms: &[IMAGE_FORM, TRACE_FORM],
    bonds: &[],
};

/// What its arguments ask for.
pub fn asked(alloc: Global, matches: &ArgMatches<'_>) -> Result<Asked, ArgumentErr>
    ensures { AsksFor gdb_asked matches.now result }
{
    Ok(Asked::Gdb(DebugArguments {
        image: text_of(alloc, matches, IMAGE)?,
        trace: text_of(alloc, matches, TRACE)?,
    }))
}
