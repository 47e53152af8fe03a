//! Why a text is no condition.

use ir_command::parse_u32;
use ir_schedule::condition_of;
use std::alloc::{AllocError, Global};

// What comes after the name of a condition; nothing, if there is no such name.
fn wanted(name: &str) -> Option<&'static str> {
    match name {
        "end" => Some("a thread and the number of an end, from 1 to 14"),
        "code" => Some("a thread and a code"),
        "word" => Some("an object, the number of a word and its value"),
        "out" => Some("a thread and a text"),
        "fault" | "bad" | "budget" => Some("nothing"),
        _ => None,
    }
}

// How many of the words after a name are numbers.
fn number_count(name: &str) -> usize {
    match name {
        "end" | "code" => 2,
        "word" => 3,
        "out" => 1,
        _ => 0,
    }
}

// The first of what is between ` | ` that is no condition, without its marks.
fn wrong_part<'a>(alloc: Global, text: &'a str) -> Result<&'a str, AllocError> {
    for part in text.split(" | ") {
        if condition_of(alloc, part.as_bytes())?.is_none() {
            return Ok(part.trim_start_matches('!'));
        }
    }
    Ok(text)
}

// The first word after the name that should be a number and isn't.
fn wrong_number<'a>(name: &str, part: &'a str) -> Option<&'a str> {
    part.split(' ')
        .skip(1)
        .take(number_count(name))
        .find(|word| parse_u32(word.as_bytes()).is_none())
}

/// Why a text is no condition, in words.
pub fn why_no_condition(alloc: Global, text: &str) -> Result<String, AllocError> {
    let part = wrong_part(alloc, text)?;
    let name = part.split(' ').next().unwrap_or_default();
    if name == "stale" || name == "hang" {
        return format!(in alloc; "'{name}' stands alone");
    }
    let Some(wanted) = wanted(name) else {
        return format!(in alloc; "there is no '{name}'");
    };
    match wrong_number(name, part) {
        Some(word) => format!(in alloc; "'{word}' is no number up to 4294967295"),
        None => format!(in alloc; "after '{name}' comes {wanted}"),
    }
}
