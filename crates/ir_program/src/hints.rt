//! What is said at a terminal of a line that is refused: the form that was wanted, or which commands there are.

use ir_arguments::DEBUG_AFTER;
use ir_command::{Refusal, next_word, parse_line};

// What asks for the forms of all commands. It is no command, and refused as any other.
const HELP: &[u8] = b"help";

// How many of the help's lines come before what is said of numbers: the forms of the commands are among these.
fn form_lines() -> usize {
    DEBUG_AFTER
        .lines()
        .position(|line| line.starts_with("Numbers"))
        .unwrap_or_default()
}

fn is_form(line: &str) -> bool {
    line.starts_with("  ")
}

fn first_word(line: &[u8]) -> &[u8] {
    match next_word(line) {
        Some((word, _)) => word,
        None => &[],
    }
}

// Says the form of a command, and what it does.
fn say_form<R: Eprint>(rt: &R, name: &[u8]) {
    for line in DEBUG_AFTER.lines().take(form_lines()) {
        if is_form(line) && first_word(line.as_bytes()) == name {
            let form = line.trim_start();
            let _ = rt.eprint(format_args!("wanted: {form}\n"));
        }
    }
}

// Says the forms of all commands.
fn say_forms<R: Eprint>(rt: &R) {
    for line in DEBUG_AFTER.lines().take(form_lines()) {
        if is_form(line) {
            let _ = rt.eprint(format_args!("{line}\n"));
        }
    }
}

// Says the names of all commands, in one line.
fn say_names<R: Eprint>(rt: &R) {
    let _ = rt.eprint(format_args!("the commands are"));
    for line in DEBUG_AFTER.lines().take(form_lines()) {
        if is_form(line) {
            let name = line.split_whitespace().next().unwrap_or_default();
            let _ = rt.eprint(format_args!(" {name}"));
        }
    }
    let _ = rt.eprint(format_args!("; help says what they do\n"));
}

/// Says on standard error what was wanted where a line of a session is refused for its words, and nothing of other lines.
pub fn advise<R: Eprint>(rt: &R, line: &[u8]) {
    let name = first_word(line);
    match parse_line(line) {
        Err(Refusal::UnknownCommand) if name == HELP => say_forms(rt),
        Err(Refusal::UnknownCommand) => say_names(rt),
        Err(Refusal::BadArgument) => say_form(rt, name),
        _ => {}
    }
}
