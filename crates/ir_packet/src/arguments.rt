//! What is behind a packet's name.

ghost use Rattle.std.specs.Prelude.{◌≡◌, ℕ, List, [], drop, Bool, Some, None, MatchOption, IfSome, length, ◌≤◌};
ghost use Rattle.ir_packet.specs.Numbers.{number_before, behind, digit_index_of};
ghost use Rattle.ir_packet.specs.Requests as requests;
ghost use Rattle.ir_packet.specs.declared.request.Request.{Request};
ghost use Rattle.ir_packet.specs.declared.request.Request.TheVariants.{Malformed};
ghost use Rattle.ir_packet.specs.declared.request.Who.{Who};

use crate::number::{are_pairs, decimal_number, index_of, number};
use crate::raw::two_digits;
use crate::request::{Motion, Mover, Request, Who};

/// The bytes behind a name, if the payload begins with it.
#[tactic(auto, unfolding(crate::specs::Requests::after_name))]
pub fn after_name<'a>(name: &[u8], bytes: &'a [u8]) -> Option<&'a [u8]>
    ensures value { MatchOption result (requests.after_name name.now bytes.now ≡ None) (λ rest. requests.after_name name.now bytes.now ≡ Some rest.now) }
    ensures within { IfSome result (λ rest. length rest.now ≤ length bytes.now) }
{
    match name {
        [] => Some(bytes),
        [first, name @ ..] => match bytes {
            [byte, bytes @ ..] if *byte == *first => after_name(name, bytes),
            _ => None,
        },
    }
}

/// The bytes before the first of these and from it on.
pub fn cut(mark: u8, bytes: &[u8]) -> (&[u8], &[u8])
    ensures first { result.0.now ≡ number_before mark bytes.now }
    ensures rest { result.1.now ≡ drop (digit_index_of mark bytes.now) bytes.now }
{
    bytes.split_at(index_of(mark, bytes))
}

/// The bytes behind the first of these.
pub fn behind(mark: u8, bytes: &[u8]) -> &[u8]
    ensures { result.now ≡ behind mark bytes.now }
{
    match cut(mark, bytes).1 {
        [] => &[],
        [_, rest @ ..] => rest,
    }
}

/// What is made of nothing behind the name.
pub fn plain(asked: Request, rest: &[u8]) -> Request
    ensures { result ≡ requests.without_argument asked rest.now }
{
    match rest {
        [] => asked,
        _ => Request::Malformed,
    }
}

/// A number.
#[tactic(auto, unfolding(crate::specs::Requests::one_argument))]
pub fn one(rest: &[u8]) -> Option<u32>
    ensures { MatchOption result
        ((makes : ℕ → Request) → requests.one_argument makes rest.now ≡ Malformed)
        (λ n. (makes : ℕ → Request) → requests.one_argument makes rest.now ≡ makes n) }
{
    number(rest)
}

/// Two numbers with a `,` between them.
#[tactic(auto, unfolding(crate::specs::Requests::two_with_comma))]
pub fn two(rest: &[u8]) -> Option<(u32, u32)>
    ensures { MatchOption result
        ((makes : ℕ → ℕ → Request) → requests.two_with_comma makes rest.now ≡ Malformed)
        (λ pair. (makes : ℕ → ℕ → Request) → requests.two_with_comma makes rest.now ≡ makes pair.0 pair.1) }
{
    let at = index_of(b',', rest);
    let first = number(&rest[..at])?;
    let second = number(if at < rest.len() {
        &rest[at + 1..]
    } else {
        &[]
    })?;
    Some((first, second))
}

/// A thread's id.
#[tactic(auto, unfolding(crate::specs::Requests::who_of))]
fn who_of(id: &[u8]) -> Option<Who>
    ensures { result ≡ requests.who_of id.now }
{
    if id == b"-1".as_slice() {
        return Some(Who::Any);
    }
    match number(id)? {
        0 => Some(Who::Any),
        n => Some(Who::Thread(n)),
    }
}

/// The same.
#[tactic(auto, unfolding(crate::specs::Requests::thread))]
pub fn thread(rest: &[u8]) -> Option<Who>
    ensures { MatchOption result
        ((makes : Who → Request) → requests.thread makes rest.now ≡ Malformed)
        (λ w. (makes : Who → Request) → requests.thread makes rest.now ≡ makes w) }
{
    who_of(rest)
}

/// A register of x0 to x31, or pc, which is 32.
pub fn register(n: u32) -> Request
    ensures { result ≡ requests.register_request n }
{
    if n <= 32 {
        return Request::Register(n);
    }
    Request::Malformed
}

/// The name of a program, and then no argument, or `;` and a number.
#[tactic(auto, unfolding(crate::specs::Requests::restart))]
pub fn restart(rest: &[u8]) -> Request
    ensures { result ≡ requests.restart rest.now }
{
    let (_, behind) = cut(b';', rest);
    match behind {
        [] => Request::Restart,
        [_, argument @ ..] => decimal_number(argument).map_or(
            Request::Malformed,
            Request::RestartAt,
        ),
    }
}

/// A line, each byte as two digits.
#[tactic(auto, unfolding(crate::specs::Requests::console))]
pub fn console(rest: &[u8]) -> Request
    ensures { result ≡ requests.console rest.now }
{
    if are_pairs(rest) {
        return Request::Console;
    }
    Request::Malformed
}

// The ends of a range.
#[tactic(auto, unfolding(crate::specs::Requests::range))]
fn range(rest: &[u8]) -> Option<Motion>
    ensures { result ≡ requests.range rest.now }
{
    let at = index_of(b',', rest);
    let low = number(&rest[..at])?;
    let high = number(if at < rest.len() {
        &rest[at + 1..]
    } else {
        &[]
    })?;
    Some(Motion::Range(low, high))
}

// `s` and `c`; `S` and `C` with a signal, which counts for nothing; `r` with the ends of a range.
#[tactic(auto, unfolding(crate::specs::Requests::motion_of))]
fn motion_of(action: &[u8]) -> Option<Motion>
    ensures { result ≡ requests.motion_of action.now }
{
    match action {
        [b's'] => Some(Motion::Step),
        [b'c'] => Some(Motion::Continue),
        [b'S', high, low] => two_digits(*high, *low).map(|_| Motion::Step),
        [b'C', high, low] => two_digits(*high, *low).map(|_| Motion::Continue),
        [b'r', rest @ ..] => range(rest),
        _ => None,
    }
}

// The thread behind an action: `:` and its id, or nothing.
#[tactic(auto, unfolding(crate::specs::Requests::thread_behind))]
fn thread_behind(rest: &[u8]) -> Option<Who>
    ensures { result ≡ requests.thread_behind rest.now }
{
    match rest {
        [] => Some(Who::Any),
        [_, id @ ..] => who_of(id),
    }
}

// What the other threads do: nothing, or, by the last action, `;c`.
#[tactic(auto, unfolding(crate::specs::Requests::others_of))]
fn others_of(rest: &[u8]) -> Option<bool>
    ensures { result ≡ requests.others_of rest.now }
{
    if rest == b"".as_slice() {
        return Some(false);
    }
    let last = &rest[rest.len().saturating_sub(2)..];
    if last == b";c".as_slice() {
        return Some(true);
    }
    None
}

// The thread that moves, if the others may be stopped at their hits, and if they may not.
fn mover_of(who: Who, others: bool) -> Mover
    ensures { result ≡ requests.mover_of who others }
{
    match who {
        Who::Any => Mover::Any,
        Who::Thread(n) if others => Mover::Among(n),
        Who::Thread(n) => Mover::Alone(n),
    }
}

// An action and its thread, and whether the others move.
#[tactic(auto, unfolding(crate::specs::Requests::first_action))]
fn first_action(action: &[u8], others: Option<bool>) -> Request
    ensures { result ≡ requests.first_action action.now others }
{
    let (motion, who) = cut(b':', action);
    match (motion_of(motion), thread_behind(who), others) {
        (Some(motion), Some(who), Some(others)) => Request::Move(motion, mover_of(who, others)),
        _ => Request::Malformed,
    }
}

/// An action, and what the others do.
#[tactic(auto, unfolding(crate::specs::Requests::actions))]
pub fn actions(rest: &[u8]) -> Request
    ensures { result ≡ requests.actions rest.now }
{
    let (action, others) = cut(b';', rest);
    first_action(action, others_of(others))
}
