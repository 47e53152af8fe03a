//! Lists that say which thread takes each next step.

ghost use Rattle.std.specs.Prelude.{◌≡◌, ◌<◌, ◌-◌, ◌≤◌, [], ◌∷◌, length, MatchOption, IfOk, IfSome, Some, None, Err, option_map, replicate, ◌==◌, true};
ghost use Rattle.std.specs.List.{slice_split, list_all};
ghost use Rattle.std.specs.Option.{is_some};
ghost use Rattle.std.specs.Char.{is_ascii_digit};
ghost use Rattle.ir_image.specs.Guest.{most_threads};
ghost use Rattle.ir_record.specs.Recording.{turns_of_items};
ghost use Rattle.ir_record_command.specs.Order.{turn_of, item_of, order_of, first_bad, is_digits, is_turn_by, is_item_by, item_why};
ghost use Rattle.ir_record_command.specs.Numerals.{number_within};
ghost use Rattle.ir_record_command.specs.declared.order.OrderErr.TheVariants.{Bad, NoMem};

use crate::numeral::number_within;
use ir_record::Item;
use std::alloc::{AllocError, AllocFailed, Global};

/// The most steps of an item.
pub const MOST_TURNS: u64 = 1_000_000;

/// Why a list is no order.
#[derive(Clone, Copy, Debug, PartialEq, Eq)]
pub enum OrderErr {
    /// It is malformed, or names a thread that there is not.
    Bad,
    /// Out of memory.
    NoMem,
}

impl From<AllocError> for OrderErr {
    ghost from_gives = { λ _ e. e ≡ NoMem };

    fn from(_e: AllocError) -> OrderErr {
        OrderErr::NoMem
    }
}

impl<T: Drop> From<AllocFailed<T>> for OrderErr {
    ghost from_gives = { λ _ e. e ≡ NoMem };

    fn from(_e: AllocFailed<T>) -> OrderErr {
        OrderErr::NoMem
    }
}

// The part of a text before the first such character, and what follows it, if there is one.
fn first_part(text: &str, mark: char) -> (&str, Option<&str>)
    requires { mark < 128 }
    ensures parts { MatchOption result.1 (slice_split (λ b. b == mark) text.now ≡ result.0.now ∷ [])
        (λ rest. slice_split (λ b. b == mark) text.now ≡ result.0.now ∷ slice_split (λ b. b == mark) rest.now) }
    ensures shorter { IfSome result.1 (λ rest. length rest.now < length text.now) }
{
    match text.split_once(mark) {
        Some((part, rest)) => (part, Some(rest)),
        None => (text, None),
    }
}

// The thread of this number, if a guest of `threads` threads has it.
fn thread_of(number: &str, threads: usize) -> Option<u8>
    requires some { 1 ≤ threads }
    requires few { threads ≤ most_threads }
    ensures { result ≡ number_within 0 (threads - 1) number.now }
{
    match number_within(0, threads as u64 - 1, number) {
        Some(thread) => Some(thread as u8),
        None => None,
    }
}

// The thread of a turn, and whether a try in it is refused.
fn turn_of(text: &str, threads: usize) -> Option<(u8, bool)>
    requires some { 1 ≤ threads }
    requires few { threads ≤ most_threads }
    ensures { result ≡ turn_of threads text.now }
{
    let (number, mark) = first_part(text, '!');
    match mark {
        None => Some((thread_of(number, threads)?, false)),
        Some(rest) if rest.is_empty() => Some((thread_of(number, threads)?, true)),
        Some(_) => None,
    }
}

// The turns that an item spells.
fn turns_of(item: &str, threads: usize) -> Option<Item>
    requires some { 1 ≤ threads }
    requires few { threads ≤ most_threads }
    ensures { option_map (λ i. replicate i.count (i.thread, i.refused)) result ≡ item_of threads item.now }
{
    let (turn, count) = first_part(item, 'x');
    let (thread, refused) = turn_of(turn, threads)?;
    let count = match count {
        Some(count) => number_within(1, MOST_TURNS, count)?,
        None => 1,
    };
    Some(Item {
        thread,
        count,
        refused,
    })
}

// Whether all bytes are decimal digits.
fn all_are_digits(text: &[u8]) -> bool
    ensures { result ≡ list_all is_ascii_digit text.now }
{
    text.iter().all(|byte| byte.is_ascii_digit())
}

// Whether a text is decimal digits.
fn is_digits(text: &str) -> bool
    ensures { result ≡ is_digits text.now }
{
    !text.is_empty() && all_are_digits(text.as_bytes())
}

// Whether a turn is written as such, whatever its thread is.
fn is_turn(text: &str) -> bool
    ensures { result ≡ is_turn_by (slice_split (λ b. b == 33) text.now) }
{
    let (thread, mark) = first_part(text, '!');
    match mark {
        None => is_digits(thread),
        Some(rest) => rest.is_empty() && is_digits(thread),
    }
}

// Whether an item is written as such, whatever its thread and its count are.
fn is_item(item: &str) -> bool
    ensures { result ≡ is_item_by (slice_split (λ b. b == 120) item.now) }
{
    let (turn, count) = first_part(item, 'x');
    match count {
        None => is_turn(turn),
        Some(count) => is_turn(turn) && is_digits(count),
    }
}

// Why an item that spells no steps spells none, in words.
fn item_why(item: &str, threads: usize) -> &'static str
    requires some { 1 ≤ threads }
    requires few { threads ≤ most_threads }
    ensures { result.now ≡ item_why threads item.now }
{
    let (turn, _) = first_part(item, 'x');
    if !is_item(item) {
        "is none of T, TxN, T! and T!xN"
    } else if turn_of(turn, threads).is_none() {
        "names no thread of the image"
    } else {
        "has an N that is not from 1 to 1000000"
    }
}

// Why an item spells no steps, in words, where it spells none.
fn item_fault(item: &str, threads: usize) -> Option<&'static str>
    requires some { 1 ≤ threads }
    requires few { threads ≤ most_threads }
    ensures { MatchOption result (is_some (item_of threads item.now) ≡ true) (λ why. (item_of threads item.now ≡ None) × (why.now ≡ item_why threads item.now)) }
{
    match turns_of(item, threads) {
        Some(_) => None,
        None => Some(item_why(item, threads)),
    }
}

/// The first item of a list that spells no steps, and why, in words.
pub fn bad_item(list: &str, threads: usize) -> Option<(&str, &'static str)>
    requires some { 1 ≤ threads }
    requires few { threads ≤ most_threads }
    ensures { MatchOption result (first_bad threads (slice_split (λ b. b == 44) list.now) ≡ None)
        (λ found. (first_bad threads (slice_split (λ b. b == 44) list.now) ≡ Some found.0.now)
        × (found.1.now ≡ item_why threads found.0.now)) }
{
    let mut rest = Some(list);
    'items: while let Some(text) = rest {
        let (item, others) = first_part(text, ',');
        if let Some(why) = item_fault(item, threads) {
            return Some((item, why));
        }
        rest = others;
    }
    None
}

/// The turns that a list spells, item by item, for a guest of `threads` threads. It takes memory for each item.
///
/// # Errors
/// `Bad` where the list spells none; out of memory.
pub fn read_order(alloc: Global, list: &str, threads: usize) -> Result<Vec<Item>, OrderErr>
    requires some { 1 ≤ threads }
    requires few { threads ≤ most_threads }
    ensures spelled { IfOk result (λ order. order_of threads list.now ≡ Some (turns_of_items order.items)) }
    ensures bad { result ≡ Err Bad → order_of threads list.now ≡ None }
{
    let mut order = Vec::new(alloc);
    let mut rest = Some(list);
    'items: while let Some(text) = rest {
        let (item, others) = first_part(text, ',');
        let turns = turns_of(item, threads).ok_or(OrderErr::Bad)?;
        order.push(turns)?;
        rest = others;
    }
    Ok(order)
}
