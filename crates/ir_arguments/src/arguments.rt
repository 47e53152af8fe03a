//! The command-line arguments.

ghost use Rattle.std.specs.Prelude.{◌≡◌, ◌≢◌, codes, map, option_map, IfOk};
ghost use Rattle.std.specs.String.{string_bytes};
ghost use Rattle.clap.specs.Words.{kind_of, subcommand_rows_of};
ghost use Rattle.ir_arguments.specs.Parser.{app_in, bare_app, ir_app, with_version};
ghost use Rattle.ir_arguments.specs.Parsing.{IsAskedBy, IsOrNoMemory, request_at_fault};
ghost use Rattle.ir_arguments.specs.Subcommands.{asked_by_name, request_by_name};
ghost use Rattle.ir_arguments.specs.Values.{YieldsOrNothing, rows_of_matches};
ghost use Rattle.ir_arguments.specs.Views.{request_view};

use crate::argument_err::ArgumentErr;
use crate::asked::Asked;
use crate::subcommands::{SUBCOMMANDS, subcommand_named, with_subcommands};
use clap::error::ErrorKind;
use clap::{ArgMatches, Command, Error};
use std::alloc::{AllocError, Global};
use std::{env, io};
use strsim::levenshtein;

const ABOUT: &str = "A proved record and replay debugger for guests of RV32IM threads";

// The version, and what this build is of. `scripts/stamp.py` puts the commit in place of the dashes, and `was` in place of `not` if
// the program was proved.
const VERSION: &str = "0.1.0 (commit ------------, not proved)";

const AFTER: &str = "A session of a source of your own:
  ir asm guest.s guest.img
  ir record guest.img guest.trc
  ir hunt guest.img guest.trc --seeds 0+1000 --until fault
  ir explore guest.img
  ir trace guest.trc
  ir stale guest.trc
  ir stale guest.trc --image guest.img
  ir debug guest.img guest.trc
Without a subcommand `ir` reads standard input: a line with an image in hexadecimal, a line with its trace in
hexadecimal, and then the commands of `ir debug`, a line each. With xxd for the hexadecimal:
  { for file in guest.img guest.trc; do xxd -p $file | tr -d '\\n'; echo; done; echo end; echo regs 0; } | ir
With `--names FILE`, anywhere after `ir` but not after `--`, the lines of record, hunt, shrink, explore, list, trace, events, stale,
who, why and diff have names: FILE has a line `thread T NAME`, `object O NAME`, `object O word W NAME` or `A NAME` for each, A an
address in eight hexadecimal digits.
Exit status: 0 done, 1 a fault, 2 bad arguments, 3 a refused source, ELF file, MAP, LIST, COND, image or trace, or a guest that
needs the second profile, 4 a trace that doesn't fit or contradicts itself, 5 no seed or outcome is as COND says, or, with
`ir record --status`, a thread didn't end by END with code 0, 6 `ir hunt` or `ir explore` gave up, 7 `ir explore` finished, and
some run hangs, 141 nobody reads standard output any more.
";

// So many edits make a word another one.
const OTHER_WORD: usize = 3;

// The program without its subcommands.
fn bare_program<'a>(alloc: Global) -> Command<'a>
    ensures { app_in result ≡ with_version (bare_app (codes "ir")) }
{
    Command::new(alloc, "ir")
        .version(VERSION)
        .about(ABOUT)
        .after_help(AFTER)
}

// The parser of all arguments.
fn command<'a>(alloc: Global) -> Result<Command<'a>, AllocError>
    ensures { IfOk result (λ c. app_in c ≡ ir_app) }
{
    let command = with_subcommands(alloc, bare_program(alloc), SUBCOMMANDS.as_slice())?;
    command.bin_name("ir")
}

// What an error says before its first empty line, in one line.
fn in_one_line(alloc: Global, error: &Error) -> Result<String, AllocError> {
    let text = error.to_string(alloc)?;
    let text = text.as_str();
    let mut line = String::new(alloc);
    for part in text.strip_prefix("error: ").unwrap_or(text).lines() {
        if part.is_empty() {
            break;
        }
        if !line.is_empty() {
            line.push(' ')?;
        }
        line.push_str(part.trim())?;
    }
    Ok(line)
}

// The name of the subcommand that takes the fewest edits of a word, if it isn't quite another word.
fn nearest<'a>(alloc: Global, word: &str) -> Result<Option<&'a str>, AllocError> {
    let mut found = None;
    let mut fewest = OTHER_WORD;
    for subcommand in &SUBCOMMANDS {
        let name = subcommand.row().name;
        let edits = levenshtein(alloc, word, name)?;
        if edits < fewest {
            found = Some(name);
            fewest = edits;
        }
    }
    Ok(found)
}

// Says where to look, behind a word that is no subcommand.
fn push_hint(alloc: Global, line: &mut String, word: &str) -> Result<(), AllocError> {
    match nearest(alloc, word)? {
        Some(name) => {
            line.push_str(": did you mean '")?;
            line.push_str(name)?;
            line.push_str("'?")
        }
        None => line.push_str(": see ir --help"),
    }
}

// What an error says, with the help that it asks for, or why nothing is asked.
fn asked_for(alloc: Global, error: &Error, arguments: &[String]) -> Result<Asked, AllocError>
    ensures { kind_of error.now ≢ ErrorKind.OutOfMemory → IfOk result (λ asked. request_view asked ≡ request_at_fault (kind_of error.now)) }
{
    if !error.use_stderr() {
        return Ok(Asked::Help(error.to_string(alloc)?));
    }
    let mut line = in_one_line(alloc, error)?;
    if error.kind() == ErrorKind::InvalidSubcommand {
        if let Some(word) = arguments.get(1) {
            push_hint(alloc, &mut line, word.as_str())?;
        }
    }
    Ok(Asked::Nothing(line))
}

// The name of the subcommand that is used, and its matches.
fn subcommand_used<'m, 'a>(matches: &'m ArgMatches<'a>) -> Option<(&'a str, &'m ArgMatches<'a>)>
    ensures { option_map (λ p. (p.0.now, rows_of_matches p.1.now)) result ≡ subcommand_rows_of matches.now }
{
    matches.subcommand()
}

// What the arguments of the subcommand ask for; without one a session.
fn by_subcommand(alloc: Global, matches: &ArgMatches<'_>) -> Result<Asked, ArgumentErr>
    ensures { YieldsOrNothing request_view result (asked_by_name (subcommand_rows_of matches.now)) }
{
    let Some((name, matches)) = subcommand_used(matches) else {
        return Ok(Asked::Session);
    };
    match subcommand_named(name) {
        Some(subcommand) => subcommand.asked(alloc, matches),
        None => Ok(Asked::Session),
    }
}

// What an error asks for.
fn by_fault(alloc: Global, error: &Error, arguments: &[String]) -> Asked
    ensures { IsOrNoMemory (request_at_fault (kind_of error.now)) (request_view result) }
{
    if error.kind() == ErrorKind::OutOfMemory {
        return Asked::NoMem;
    }
    match asked_for(alloc, error, arguments) {
        Ok(asked) => asked,
        Err(_) => Asked::NoMem,
    }
}

// What matches ask for.
fn by_matches(alloc: Global, matches: &ArgMatches<'_>) -> Asked
    ensures { IsOrNoMemory (request_by_name (subcommand_rows_of matches.now)) (request_view result) }
{
    match by_subcommand(alloc, matches) {
        Ok(asked) => asked,
        Err(ArgumentErr::Wrong(why)) => Asked::Nothing(why),
        Err(ArgumentErr::NoMem) => Asked::NoMem,
    }
}

/// What the arguments ask for, of which the first is the program's name.
pub fn parsed(alloc: Global, arguments: &[String]) -> Asked
    ensures { IsAskedBy (map string_bytes arguments.now) (request_view result) }
{
    let Ok(command) = command(alloc) else {
        return Asked::NoMem;
    };
    match command.try_get_matches_from(arguments) {
        Ok(matches) => by_matches(alloc, &matches),
        Err(error) => by_fault(alloc, &error, arguments),
    }
}

/// The arguments, of which the first is the program's name.
///
/// # Errors
/// Out of memory, or one is no text.
pub fn collected<R: env::Env + AllocGlobal>(rt: &R) -> io::Result<Vec<String>> {
    let mut arguments = Vec::new(rt.alloc());
    for argument in env::args(rt)? {
        arguments.push(argument)?;
    }
    Ok(arguments)
}
