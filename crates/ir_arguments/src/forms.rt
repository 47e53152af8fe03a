//! The forms of arguments: places, options and flags.

ghost use Rattle.std.specs.Prelude.{◌≡◌, false, map, IfOk};
ghost use Rattle.ir_arguments.specs.Parser.{IsArgument, and_rule, and_rules, app_in, flag, needed_place, option, pair, place, repeated_option, rule_in, rule_of_form};

use clap::{Arg, ArgAction, Command};
use std::alloc::{AllocError, Global};

/// An argument: its name and its help, with the name of its value and the default between them if it has these.
#[derive(Clone, Copy)]
pub enum Form<'a> {
    /// It is named by its place, and has to be given.
    NeededPlace(&'a str, &'a str),
    /// It is named by its place, and may be left out.
    Place(&'a str, &'a str),
    /// An option with a value.
    Valued(&'a str, &'a str, &'a str),
    /// An option with a value where it isn't given.
    ValuedOr(&'a str, &'a str, &'a str, &'a str),
    /// An option that may be given more than once.
    Repeated(&'a str, &'a str, &'a str),
    /// An option that has to be given, and may be given more than once.
    NeededRepeated(&'a str, &'a str, &'a str),
    /// An option with a thread and an event.
    Event(&'a str, &'a str),
    /// An option without a value.
    Flag(&'a str, &'a str),
}

impl<'a> Form<'a> {
    /// The name of the argument.
    pub fn name(self) -> &'a str {
        match self {
            Form::NeededPlace(name, _) => name,
            Form::Place(name, _) => name,
            Form::Valued(name, _, _) => name,
            Form::ValuedOr(name, _, _, _) => name,
            Form::Repeated(name, _, _) => name,
            Form::NeededRepeated(name, _, _) => name,
            Form::Event(name, _) => name,
            Form::Flag(name, _) => name,
        }
    }

    /// The argument, as messages show it.
    pub fn shown(self, alloc: Global) -> Result<String, AllocError> {
        match self {
            Form::NeededPlace(name, _) => format!(in alloc; "<{name}>"),
            Form::Place(name, _) => format!(in alloc; "[{name}]"),
            Form::Valued(name, value, _) => format!(in alloc; "--{name} <{value}>"),
            Form::ValuedOr(name, value, _, _) => format!(in alloc; "--{name} <{value}>"),
            Form::Repeated(name, value, _) => format!(in alloc; "--{name} <{value}>"),
            Form::NeededRepeated(name, value, _) => format!(in alloc; "--{name} <{value}>"),
            Form::Event(name, _) => format!(in alloc; "--{name} <T> <E>"),
            Form::Flag(name, _) => format!(in alloc; "--{name}"),
        }
    }

    /// The same where it isn't given and has to be.
    pub fn shown_needed(self, alloc: Global) -> Result<String, AllocError> {
        match self {
            Form::Place(name, _) => format!(in alloc; "<{name}>"),
            _ => self.shown(alloc),
        }
    }
}

// An argument that is named by its place and may be left out.
#[tactic(auto, using(crate::proofs::Rules::place_made))]
fn place_arg<'a>(alloc: Global, name: &'a str, help: &'a str) -> Arg<'a>
    ensures { IsArgument result (place name.now) }
{
    Arg::new(alloc, name).help(help)
}

// An argument that is named by its place and has to be given.
#[tactic(auto, using(crate::proofs::Rules::needed_place_made))]
fn needed_place_arg<'a>(alloc: Global, name: &'a str, help: &'a str) -> Arg<'a>
    ensures { IsArgument result (needed_place name.now) }
{
    Arg::new(alloc, name).required(true).help(help)
}

// An option with a value, which the help calls so.
fn option_arg<'a>(alloc: Global, name: &'a str, value: &'a str, help: &'a str) -> Arg<'a>
    ensures { IsArgument result (option name.now) }
{
    Arg::new(alloc, name)
        .long(name)
        .value_name(value)
        .help(help)
}

// An option that may be given more than once.
#[tactic(auto, using(crate::proofs::Rules::repeated_made))]
fn repeated_arg<'a>(alloc: Global, name: &'a str, value: &'a str, help: &'a str) -> Arg<'a>
    ensures { IsArgument result (repeated_option name.now) }
{
    option_arg(alloc, name, value, help).action(ArgAction::Append)
}

// An option with the numbers of a thread and of an event.
fn event_arg<'a>(alloc: Global, name: &'a str, help: &'a str) -> Arg<'a>
    ensures { IsArgument result (pair name.now) }
{
    Arg::new(alloc, name)
        .long(name)
        .num_args(2)
        .value_names(&["T", "E"])
        .help(help)
}

// An option without a value.
#[tactic(auto, using(crate::proofs::Rules::flag_made))]
fn flag_arg<'a>(alloc: Global, name: &'a str, help: &'a str) -> Arg<'a>
    ensures { IsArgument result (flag name.now) }
{
    Arg::new(alloc, name)
        .long(name)
        .action(ArgAction::SetTrue)
        .help(help)
}

// An argument of this form.
#[tactic(auto, using(crate::proofs::Rules::option_or_made, crate::proofs::Rules::needed_repeated_made))]
fn form_arg<'a>(alloc: Global, form: Form<'a>) -> Arg<'a>
    ensures { IsArgument result (rule_of_form form.entry) }
{
    match form {
        Form::NeededPlace(name, help) => needed_place_arg(alloc, name, help),
        Form::Place(name, help) => place_arg(alloc, name, help),
        Form::Valued(name, value, help) => option_arg(alloc, name, value, help),
        Form::ValuedOr(name, value, default, help) => {
            option_arg(alloc, name, value, help).default_value(default)
        }
        Form::Repeated(name, value, help) => repeated_arg(alloc, name, value, help),
        Form::NeededRepeated(name, value, help) => {
            repeated_arg(alloc, name, value, help).required(true)
        }
        Form::Event(name, help) => event_arg(alloc, name, help),
        Form::Flag(name, help) => flag_arg(alloc, name, help),
    }
}

// The command with one more argument.
#[tactic(auto, using(crate::proofs::Rules::rule_added))]
fn with_arg<'a>(command: Command<'a>, arg: Arg<'a>) -> Result<Command<'a>, AllocError>
    requires { arg.global ≡ false }
    ensures { IfOk result (λ c. app_in c ≡ and_rule (app_in command.entry) (rule_in arg.entry)) }
{
    command.arg(arg)
}

/// The command with arguments of these forms.
#[tactic(auto, using(crate::proofs::Rules::rule_of_next, crate::proofs::Rules::no_rules_left))]
pub fn with_forms<'a>(
    alloc: Global,
    command: Command<'a>,
    forms: &[Form<'a>],
) -> Result<Command<'a>, AllocError>
    ensures { IfOk result (λ c. app_in c ≡ and_rules (app_in command.entry) (map rule_of_form forms.now)) }
{
    let mut command = command;
    'forms: for &form in forms {
        command = with_arg(command, form_arg(alloc, form))?;
    }
    Ok(command)
}
