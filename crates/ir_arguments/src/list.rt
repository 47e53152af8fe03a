//! The arguments of `ir list`.

ghost use Rattle.ir_arguments.specs.Asking.{code_asked};
ghost use Rattle.ir_arguments.specs.Views.{AsksFor};

use crate::argument_err::ArgumentErr;
use crate::asked::{Asked, Print};
use crate::subcommands::Row;
use crate::values::{IMAGE, IMAGE_FORM, MAP, NAMES_FORM, given_text, text_of};
use clap::ArgMatches;
use std::alloc::Global;

/// What follows the help of `ir list`.
pub const LIST_AFTER: &str =
    "First comes a line for each thread, `thread T entry A`, with the address of its entry. Then comes a line for each word of the
code, `A W TEXT`: its address, its eight digits, and its instruction as `ir debug` shows it, or `.word` if it is none.
With MAP each address has its name: ` <NAME>` is at the symbol, ` <NAME+N>` is N bytes after it. A name follows an entry and
the target of a jump or a branch, and a line `A <NAME>:` comes before the word that a symbol names. MAP is what `nm -n` prints of a
program, and what `ir asm --map` writes: lines `A K NAME`, with the address in eight hexadecimal digits and a letter.
Exit status: 0 printed, 1 a file that can't be read or standard output that can't be written, 2 bad arguments, 3 a refused
image, or a line of MAP that is no symbol.
";

/// What the help says of it, and its arguments.
pub const ROW: Row<'static> = Row {
    name: "list",
    about: "Prints the code of an image as text",
    after: LIST_AFTER,
    forms: &[IMAGE_FORM, NAMES_FORM],
    bonds: &[],
};

/// Which code is listed, and by which names.
#[derive(Drop)]
pub struct ListArguments {
    /// The file of the image.
    pub image: String,
    /// The file of the names, if there is one.
    pub map: Option<String>,
}

/// What its arguments ask for.
pub fn asked(alloc: Global, matches: &ArgMatches<'_>) -> Result<Asked, ArgumentErr>
    ensures { AsksFor code_asked matches.now result }
{
    Ok(Asked::Print(Print::Code(ListArguments {
        image: text_of(alloc, matches, IMAGE)?,
        map: given_text(alloc, matches, MAP)?,
    })))
}
