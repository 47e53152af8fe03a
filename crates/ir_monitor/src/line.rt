//! Lines that ask something of a recorded run.

ghost use Rattle.std.specs.Prelude.{◌≡◌, ◌∷◌};
ghost use Rattle.ir_command.specs.Commands.{words_of};
ghost use Rattle.ir_monitor.specs.Asking.{of_one, of_two, asked_by_who, asked_by_stale, asked_by_why, asked_by_events, or_misspelt, asked_by_words, asked_of};

use crate::asked::{Asked, Form};
use ir_command::{MOST_LINE, next_word, parse_u32, without_return};

// The numbers that two words write.
fn numbers(first: &[u8], second: &[u8]) -> Option<(u32, u32)>
    ensures { result ≡ of_two (λ a b. (a, b)) first.now second.now }
{
    Some((parse_u32(first)?, parse_u32(second)?))
}

// What `who` asks with these words behind it.
fn who(words: &[u8]) -> Option<Asked>
    ensures { result ≡ asked_by_who (words_of words.now) }
{
    let (object, rest) = next_word(words)?;
    let Some((second, rest)) = next_word(rest) else {
        return Some(Asked::Object(parse_u32(object)?));
    };
    let Some((third, rest)) = next_word(rest) else {
        let (object, version) = numbers(object, second)?;
        return Some(Asked::Version(object, version));
    };
    if next_word(rest).is_some() || second != b"word".as_slice() {
        return None;
    }
    let (object, word) = numbers(object, third)?;
    Some(Asked::Word(object, word))
}

// What `stale` asks with these words behind it.
fn stale(words: &[u8]) -> Option<Asked>
    ensures { result ≡ asked_by_stale (words_of words.now) }
{
    match next_word(words) {
        None => Some(Asked::Stale),
        Some(_) => None,
    }
}

// What `why` asks with these words behind it.
fn why(words: &[u8]) -> Option<Asked>
    ensures { result ≡ asked_by_why (words_of words.now) }
{
    let Some((thread, rest)) = next_word(words) else {
        return Some(Asked::LastEvent);
    };
    let (event, rest) = next_word(rest)?;
    if next_word(rest).is_some() {
        return None;
    }
    let (thread, event) = numbers(thread, event)?;
    Some(Asked::Event(thread, event))
}

// What `events` asks with these words behind it.
fn events(words: &[u8]) -> Option<Asked>
    ensures { result ≡ asked_by_events (words_of words.now) }
{
    let Some((thread, rest)) = next_word(words) else {
        return Some(Asked::Events);
    };
    if next_word(rest).is_some() {
        return None;
    }
    Some(Asked::ThreadEvents(parse_u32(thread)?))
}

// What is asked, or that a question of a form isn't written as it is.
fn or_misspelt(form: Form, asked: Option<Asked>) -> Asked
    ensures { result ≡ or_misspelt form asked }
{
    match asked {
        Some(asked) => asked,
        None => Asked::Misspelt(form),
    }
}

// What a line of this name and these words asks, if it is a question.
#[tactic(auto, unfolding(crate::specs::Asking::asked_by_words))]
fn named(name: &[u8], words: &[u8]) -> Option<Asked>
    ensures { result ≡ asked_by_words (name.now ∷ words_of words.now) }
{
    if name == b"who".as_slice() {
        Some(or_misspelt(Form::Who, who(words)))
    } else if name == b"stale".as_slice() {
        Some(or_misspelt(Form::Stale, stale(words)))
    } else if name == b"why".as_slice() {
        Some(or_misspelt(Form::Why, why(words)))
    } else if name == b"events".as_slice() {
        Some(or_misspelt(Form::Events, events(words)))
    } else {
        None
    }
}

/// What a line asks of a recorded run; none of a line that is no question, as each is that begins with the word of a session's command.
///
/// A line is given as a session's line is: without its line feed, at most 1,024 bytes, its words parted by spaces and tabs.
#[tactic(auto, unfolding(crate::specs::Asking::asked_of, crate::specs::Asking::asked_by_words))]
pub fn asked_of(line: &[u8]) -> Option<Asked>
    ensures { result ≡ asked_of line.now }
{
    if line.len() > MOST_LINE {
        return None;
    }
    let (name, words) = next_word(without_return(line))?;
    named(name, words)
}
