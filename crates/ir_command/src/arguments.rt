//! The numbers that a line's words write after its first.

ghost use Rattle.std.specs.Prelude.{◌≡◌, ◌≢◌, [], ◌∷◌, List, Some, None, MatchOption, MatchResult, ℕ};
ghost use Rattle.ir_command.specs.Commands.{words_of, Small, Position, Bytes, arguments};
ghost use Rattle.ir_command.specs.declared.refusal.Refusal.TheVariants.{BadArgument};

use crate::command::ByteCount;
use crate::number::{byte_count, parse_u32, parse_u64};
use crate::refusal::Refusal;
use crate::words::next_word;

// The word of a text of one word.
fn one_word(text: &[u8]) -> Option<&[u8]>
    ensures { MatchOption result ((word : List ℕ) → words_of text.now ≢ word ∷ []) (λ word. words_of text.now ≡ word.now ∷ []) }
{
    let (word, rest) = next_word(text)?;
    match next_word(rest) {
        None => Some(word),
        Some(_) => None,
    }
}

// The words of a text of two words.
fn two_words(text: &[u8]) -> Option<(&[u8], &[u8])>
    ensures { MatchOption result ((first second : List ℕ) → words_of text.now ≢ first ∷ second ∷ []) (λ words. words_of text.now ≡ words.0.now ∷ words.1.now ∷ []) }
{
    let (first, rest) = next_word(text)?;
    let second = one_word(rest)?;
    Some((first, second))
}

// The words of a text of three words.
fn three_words(text: &[u8]) -> Option<(&[u8], &[u8], &[u8])>
    ensures { MatchOption result
        ((first second third : List ℕ) → words_of text.now ≢ first ∷ second ∷ third ∷ [])
        (λ words. words_of text.now ≡ words.0.now ∷ words.1.now ∷ words.2.now ∷ []) }
{
    let (first, rest) = next_word(text)?;
    let (second, third) = two_words(rest)?;
    Some((first, second, third))
}

/// No word.
pub fn no_argument(words: &[u8]) -> Result<(), Refusal>
    ensures { MatchResult result (λ _. arguments [] (words_of words.now) ≡ Some []) (λ e. (e ≡ BadArgument) × (arguments [] (words_of words.now) ≡ None)) }
{
    match next_word(words) {
        None => Ok(()),
        Some(_) => Err(Refusal::BadArgument),
    }
}

/// A thread, an object or another number of 32 bits.
pub fn one_number(words: &[u8]) -> Result<u32, Refusal>
    ensures { MatchResult result
        (λ n. arguments (Small ∷ []) (words_of words.now) ≡ Some (n ∷ []))
        (λ e. (e ≡ BadArgument) × (arguments (Small ∷ []) (words_of words.now) ≡ None)) }
{
    let word = one_word(words).ok_or(Refusal::BadArgument)?;
    match parse_u32(word) {
        Some(number) => Ok(number),
        None => Err(Refusal::BadArgument),
    }
}

/// Two numbers of 32 bits.
pub fn two_numbers(words: &[u8]) -> Result<(u32, u32), Refusal>
    ensures { MatchResult result
        (λ pair. arguments (Small ∷ Small ∷ []) (words_of words.now) ≡ Some (pair.0 ∷ pair.1 ∷ []))
        (λ e. (e ≡ BadArgument) × (arguments (Small ∷ Small ∷ []) (words_of words.now) ≡ None)) }
{
    let (first, second) = two_words(words).ok_or(Refusal::BadArgument)?;
    match (parse_u32(first), parse_u32(second)) {
        (Some(first), Some(second)) => Ok((first, second)),
        _ => Err(Refusal::BadArgument),
    }
}

/// A thread and a position.
pub fn thread_and_position(words: &[u8]) -> Result<(u32, u64), Refusal>
    ensures { MatchResult result
        (λ pair. arguments (Small ∷ Position ∷ []) (words_of words.now) ≡ Some (pair.0 ∷ pair.1 ∷ []))
        (λ e. (e ≡ BadArgument) × (arguments (Small ∷ Position ∷ []) (words_of words.now) ≡ None)) }
{
    let (thread, position) = two_words(words).ok_or(Refusal::BadArgument)?;
    match (parse_u32(thread), parse_u64(position)) {
        (Some(thread), Some(position)) => Ok((thread, position)),
        _ => Err(Refusal::BadArgument),
    }
}

/// A thread, an address and a number of bytes.
pub fn thread_and_bytes(words: &[u8]) -> Result<(u32, u32, ByteCount), Refusal>
    ensures { MatchResult result
        (λ triple. arguments (Small ∷ Small ∷ Bytes ∷ []) (words_of words.now) ≡ Some (triple.0 ∷ triple.1 ∷ triple.2 ∷ []))
        (λ e. (e ≡ BadArgument) × (arguments (Small ∷ Small ∷ Bytes ∷ []) (words_of words.now) ≡ None)) }
{
    let (thread, address, size) = three_words(words).ok_or(Refusal::BadArgument)?;
    match (parse_u32(thread), parse_u32(address), byte_count(size)) {
        (Some(thread), Some(address), Some(size)) => Ok((thread, address, size)),
        _ => Err(Refusal::BadArgument),
    }
}
