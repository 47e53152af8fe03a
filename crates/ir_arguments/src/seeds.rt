//! Seeds, and how they choose.

ghost use Rattle.std.specs.Prelude.{◌≡◌, ◌≤◌, codes};
ghost use Rattle.ir_arguments.specs.Reading.{counted_seeds, depth_named, number_after, seeds_between, seeds_from, seeds_named, way_named};
ghost use Rattle.ir_arguments.specs.Values.{YieldsOrNothing, rows_of_matches, text_for};

use crate::argument_err::ArgumentErr;
use crate::forms::Form;
use crate::texts::cut;
use crate::values::text_for;
use clap::ArgMatches;
use ir_record_command::number_within;
use ir_schedule::{Seeds, Way};
use std::alloc::Global;

/// The name of the option that says how seeds choose.
pub const BY: &str = "by";

/// The option that says how seeds choose.
pub const BY_FORM: Form<'static> = Form::ValuedOr(
    BY,
    "WAY",
    "mix",
    "How a seed chooses: walk, pct:D with D from 1 to 1000, or mix",
);

// The most places of change and one.
const MOST_DEPTH: u64 = 1000;

// The way by priorities, of so many places and one, that two texts give.
fn depth_of(name: &str, depth: &str) -> Option<Way>
    ensures { result ≡ depth_named (name.now, depth.now) }
{
    if name != "pct" {
        return None;
    }
    let depth = number_within(1, MOST_DEPTH, depth)?;
    Some(Way::Priorities(depth as u32))
}

// The way that a text names.
#[tactic(auto, unfolding(crate::specs::Reading::way_named))]
fn way_of(text: &str) -> Option<Way>
    ensures { result ≡ way_named text.now }
{
    match text {
        "mix" => Some(Way::Mix),
        "walk" => Some(Way::Walk),
        _ => {
            let (name, depth) = cut(text, ':')?;
            depth_of(name, depth)
        }
    }
}

/// How seeds choose, or that the option names no way.
pub fn way_by(alloc: Global, matches: &ArgMatches<'_>) -> Result<Way, ArgumentErr>
    ensures { YieldsOrNothing (λ v. v) result (way_named (text_for (rows_of_matches matches.now) (codes "by"))) }
{
    let text = text_for(matches, BY);
    match way_of(text) {
        Some(way) => Ok(way),
        None => {
            let why = format!(in alloc;
                "--{BY}: '{text}' is none of mix, walk and pct:D, D from 1 to {MOST_DEPTH}"
            )?;
            Err(ArgumentErr::Wrong(why))
        }
    }
}

// So many seeds from this one on.
fn counted(first: u64, count: u64) -> Option<Seeds>
    requires { 1 ≤ count }
    ensures { result ≡ seeds_from first count }
{
    let last = first.checked_add(count - 1)?;
    Some(Seeds { first, last })
}

// The seeds that `A+N` names, cut at its plus.
#[tactic(auto, unfolding(crate::specs::Reading::counted_seeds))]
fn counted_seeds(first: &str, count: &str) -> Option<Seeds>
    ensures { result ≡ counted_seeds (first.now, count.now) }
{
    let first = number_within(0, u64::MAX, first)?;
    counted(first, number_within(1, u64::MAX, count)?)
}

// The number after a full stop with nothing before it.
fn number_after(before: &str, after: &str) -> Option<u64>
    ensures { result ≡ number_after (before.now, after.now) }
{
    if !before.is_empty() {
        return None;
    }
    number_within(0, u64::MAX, after)
}

// The seeds that `A..B` names.
#[tactic(auto, unfolding(crate::specs::Reading::seeds_between))]
fn seeds_between(text: &str) -> Option<Seeds>
    ensures { result ≡ seeds_between text.now }
{
    let (first, rest) = cut(text, '.')?;
    let first = number_within(0, u64::MAX, first)?;
    let (before, last) = cut(rest, '.')?;
    let last = number_after(before, last)?;
    (first <= last).then_some(Seeds { first, last })
}

// The seeds that a text names: A..B, from A to B; or A+N, N from A on.
fn seeds_of(text: &str) -> Option<Seeds>
    ensures { result ≡ seeds_named text.now }
{
    match cut(text, '+') {
        Some((first, count)) => counted_seeds(first, count),
        None => seeds_between(text),
    }
}

/// The seeds that the value of an option names, or that it names none.
pub fn seeds_by(alloc: Global, option: &str, text: &str) -> Result<Seeds, ArgumentErr>
    ensures { YieldsOrNothing (λ v. v) result (seeds_named text.now) }
{
    match seeds_of(text) {
        Some(seeds) => Ok(seeds),
        None => {
            let why = format!(in alloc;
                "--{option}: '{text}' is neither A..B, A not above B, nor A+N, of numbers up to 18446744073709551615"
            )?;
            Err(ArgumentErr::Wrong(why))
        }
    }
}
