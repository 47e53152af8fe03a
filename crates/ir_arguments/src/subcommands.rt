//! The subcommands, in one table.

ghost use Rattle.std.specs.Prelude.{◌≡◌, find, map, IfOk};
ghost use Rattle.std.specs.Option.{is_none};
ghost use Rattle.ir_arguments.specs.Bonds.{bonds_of, may_be_given, rule_by};
ghost use Rattle.ir_arguments.specs.Parser.{and_rules, app_in, bare_app, rule_of_form, rules_of, with_subcommands};
ghost use Rattle.ir_arguments.specs.Subcommands.{asked_by, asked_if_given, is_named, subcommand_name, subcommand_named};
ghost use Rattle.ir_arguments.specs.Values.{rows_of_matches};
ghost use Rattle.ir_arguments.specs.Views.{AsksFor};

use crate::argument_err::ArgumentErr;
use crate::asked::Asked;
use crate::bonds::{Bond, broken};
use crate::forms::{Form, with_forms};
use crate::{
    assemble, debug, diff, elf, events, explore, exploring, gdb, hunt, list, record, shrink, stale,
    trace, view, who, why,
};
use clap::{ArgMatches, Command};
use std::alloc::{AllocError, Global};

/// A subcommand.
#[derive(Clone, Copy)]
pub enum Subcommand {
    Assemble,
    Elf,
    List,
    Record,
    Hunt,
    Shrink,
    Explore,
    Debug,
    Gdb,
    Trace,
    Events,
    Stale,
    Who,
    Why,
    Diff,
    View,
}

/// The subcommands, in the order in which the help lists them.
pub const SUBCOMMANDS: [Subcommand; 16] = [
    Subcommand::Assemble,
    Subcommand::Elf,
    Subcommand::List,
    Subcommand::Record,
    Subcommand::Hunt,
    Subcommand::Shrink,
    Subcommand::Explore,
    Subcommand::Debug,
    Subcommand::Gdb,
    Subcommand::Trace,
    Subcommand::Events,
    Subcommand::Stale,
    Subcommand::Who,
    Subcommand::Why,
    Subcommand::Diff,
    Subcommand::View,
];

/// What the help says of a subcommand, and its arguments.
#[derive(Clone, Copy)]
pub struct Row<'a> {
    pub name: &'a str,
    pub about: &'a str,
    pub after: &'a str,
    /// Its arguments, in the order in which the help lists them.
    pub forms: &'a [Form<'a>],
    /// Which of them exclude each other, and which need others.
    pub bonds: &'a [Bond<'a>],
}

// A subcommand without its arguments.
fn bare_command<'a>(alloc: Global, row: Row<'a>) -> Command<'a>
    ensures { app_in result ≡ bare_app row.entry.name.now }
{
    Command::new(alloc, row.name)
        .about(row.about)
        .after_help(row.after)
}

impl Subcommand {
    /// Its name, what it does, what follows its help, and its arguments.
    pub fn row<'a>(self) -> Row<'a>
        ensures name { result.name.now ≡ subcommand_name self }
        ensures forms { map rule_of_form result.forms.now ≡ rules_of self }
        ensures bonds { map rule_by result.bonds.now ≡ bonds_of self }
    {
        match self {
            Subcommand::Assemble => assemble::ROW,
            Subcommand::Elf => elf::ROW,
            Subcommand::List => list::ROW,
            Subcommand::Record => record::ROW,
            Subcommand::Hunt => hunt::ROW,
            Subcommand::Shrink => shrink::ROW,
            Subcommand::Explore => explore::ROW,
            Subcommand::Debug => debug::ROW,
            Subcommand::Gdb => gdb::ROW,
            Subcommand::Trace => trace::ROW,
            Subcommand::Events => events::ROW,
            Subcommand::Stale => stale::ROW,
            Subcommand::Who => who::ROW,
            Subcommand::Why => why::ROW,
            Subcommand::Diff => diff::ROW,
            Subcommand::View => view::ROW,
        }
    }

    /// The parser of its arguments.
    pub fn command<'a>(self, alloc: Global) -> Result<Command<'a>, AllocError>
        ensures { IfOk result (λ c. app_in c ≡ and_rules (bare_app (subcommand_name self)) (rules_of self)) }
    {
        let row = self.row();
        with_forms(alloc, bare_command(alloc, row), row.forms)
    }

    // Why its arguments may not be given together, if they may not.
    fn broken(self, alloc: Global, matches: &ArgMatches<'_>) -> Result<Option<String>, AllocError>
        ensures { IfOk result (λ why. is_none why ≡ may_be_given self (rows_of_matches matches.now)) }
    {
        broken(alloc, matches, self.row())
    }

    /// What its arguments ask for, if they may be given together.
    pub fn asked(self, alloc: Global, matches: &ArgMatches<'_>) -> Result<Asked, ArgumentErr>
        ensures { AsksFor (asked_if_given self) matches.now result }
    {
        match self.broken(alloc, matches)? {
            Some(why) => Err(ArgumentErr::Wrong(why)),
            None => self.asked_so(alloc, matches),
        }
    }

    // What its arguments ask for.
    fn asked_so(self, alloc: Global, matches: &ArgMatches<'_>) -> Result<Asked, ArgumentErr>
        ensures { AsksFor (asked_by self) matches.now result }
    {
        match self {
            Subcommand::Assemble => assemble::asked(alloc, matches),
            Subcommand::Elf => elf::asked(alloc, matches),
            Subcommand::List => list::asked(alloc, matches),
            Subcommand::Record => record::asked(alloc, matches),
            Subcommand::Hunt => hunt::asked(alloc, matches),
            Subcommand::Shrink => shrink::asked(alloc, matches),
            Subcommand::Explore => exploring::asked(alloc, matches),
            Subcommand::Debug => debug::asked(alloc, matches),
            Subcommand::Gdb => gdb::asked(alloc, matches),
            Subcommand::Trace => trace::asked(alloc, matches),
            Subcommand::Events => events::asked(alloc, matches),
            Subcommand::Stale => stale::asked(alloc, matches),
            Subcommand::Who => who::asked(alloc, matches),
            Subcommand::Why => why::asked(alloc, matches),
            Subcommand::Diff => diff::asked(alloc, matches),
            Subcommand::View => view::asked(alloc, matches),
        }
    }
}

/// The command with these subcommands too.
///
/// # Errors
/// Out of memory.
#[tactic(auto, using(crate::proofs::Apps::subcommand_added, crate::proofs::Apps::subcommands_at_end))]
pub fn with_subcommands<'a>(
    alloc: Global,
    command: Command<'a>,
    subcommands: &[Subcommand],
) -> Result<Command<'a>, AllocError>
    ensures { IfOk result (λ c. app_in c ≡ with_subcommands (app_in command.entry) subcommands.now) }
{
    let mut command = command;
    'subcommands: for &subcommand in subcommands {
        command = command.subcommand(subcommand.command(alloc)?)?;
    }
    Ok(command)
}

// The first of these subcommands that has the name.
#[tactic(auto, using(crate::proofs::Names::found_here, crate::proofs::Names::found_later, crate::proofs::Names::found_nowhere))]
fn first_named(subcommands: &[Subcommand], name: &str) -> Option<Subcommand>
    ensures { result ≡ find (is_named name.now) subcommands.now }
{
    'subcommands: for &subcommand in subcommands {
        if subcommand.row().name == name {
            return Some(subcommand);
        }
    }
    None
}

/// The subcommand of this name, if there is one.
pub fn subcommand_named(name: &str) -> Option<Subcommand>
    ensures { result ≡ subcommand_named name.now }
{
    first_named(SUBCOMMANDS.as_slice(), name)
}
