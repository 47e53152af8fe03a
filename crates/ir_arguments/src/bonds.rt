//! Arguments that exclude each other or need others.

ghost use Rattle.std.specs.Prelude.{◌≡◌, map, IfOk};
ghost use Rattle.std.specs.List.{list_all};
ghost use Rattle.std.specs.Option.{is_none};
ghost use Rattle.clap.specs.Takes.{is_given};
ghost use Rattle.ir_arguments.specs.Bonds.{is_obeyed, rule_by};
ghost use Rattle.ir_arguments.specs.Values.{rows_of_matches};

use crate::forms::Form;
use crate::subcommands::Row;
use clap::ArgMatches;
use clap::parser::ValueSource;
use std::alloc::{AllocError, Global};

/// A rule on arguments, by their names.
#[derive(Clone, Copy)]
pub enum Bond<'a> {
    /// Not both are given.
    Excludes(&'a str, &'a str),
    /// The first is given only with the second.
    Needs(&'a str, &'a str),
    /// The first is given only with one of the others.
    NeedsEither(&'a str, &'a str, &'a str),
}

// Whether an argument is given, and not by its default.
#[tactic(auto, using(crate::proofs::Obeyed::not_given_by_default, crate::proofs::Obeyed::given_by_words, crate::proofs::Obeyed::given_by_entry))]
fn is_given(matches: &ArgMatches<'_>, name: &str) -> bool
    ensures { result ≡ is_given name.now (rows_of_matches matches.now) }
{
    match matches.value_source(name) {
        Some(ValueSource::DefaultValue) => false,
        Some(ValueSource::CommandLine) => true,
        None => matches.contains_id(name),
    }
}

// Whether the arguments that are given obey the rule.
fn is_obeyed(matches: &ArgMatches<'_>, bond: Bond<'_>) -> bool
    ensures { result ≡ is_obeyed (rows_of_matches matches.now) (rule_by bond.entry) }
{
    match bond {
        Bond::Excludes(one, other) => {
            let (one, other) = (is_given(matches, one), is_given(matches, other));
            !(one && other)
        }
        Bond::Needs(one, other) => {
            let (one, other) = (is_given(matches, one), is_given(matches, other));
            !one || other
        }
        Bond::NeedsEither(one, first, second) => {
            let (first, second) = (is_given(matches, first), is_given(matches, second));
            !is_given(matches, one) || (first || second)
        }
    }
}

// Whether the arguments that are given obey all rules.
#[tactic(auto, using(crate::proofs::Obeyed::obeyed_so_far, crate::proofs::Obeyed::obeyed_not, crate::proofs::Obeyed::obeyed_at_end))]
fn all_obeyed(matches: &ArgMatches<'_>, bonds: &[Bond<'_>]) -> bool
    ensures { result ≡ list_all (is_obeyed (rows_of_matches matches.now)) (map rule_by bonds.now) }
{
    'bonds: for &bond in bonds {
        if !is_obeyed(matches, bond) {
            return false;
        }
    }
    true
}

// The place of an argument among the words.
fn place_of(matches: &ArgMatches<'_>, name: &str) -> usize {
    matches.index_of(name).unwrap_or(usize::MAX)
}

// The argument that comes first of those that aren't given together.
fn first_excluded<'a>(matches: &ArgMatches<'_>, bonds: &[Bond<'a>]) -> Option<&'a str> {
    let mut first = None;
    let mut least = usize::MAX;
    for &bond in bonds {
        let Bond::Excludes(one, other) = bond else {
            continue;
        };
        if is_obeyed(matches, bond) {
            continue;
        }
        for name in [one, other] {
            let place = place_of(matches, name);
            if place < least {
                first = Some(name);
                least = place;
            }
        }
    }
    first
}

// The argument that the rule doesn't let be given together with this one, if it is given.
fn excluded_by<'a>(matches: &ArgMatches<'_>, bond: Bond<'a>, name: &str) -> Option<&'a str> {
    let Bond::Excludes(one, other) = bond else {
        return None;
    };
    if is_obeyed(matches, bond) {
        return None;
    }
    if one == name {
        return Some(other);
    }
    (other == name).then_some(one)
}

// The next argument behind this place that isn't given together with this one.
fn next_excluded<'a>(
    matches: &ArgMatches<'_>,
    bonds: &[Bond<'a>],
    name: &str,
    place: usize,
) -> Option<&'a str> {
    let mut next = None;
    let mut least = usize::MAX;
    for &bond in bonds {
        if let Some(other) = excluded_by(matches, bond, name) {
            let at = place_of(matches, other);
            if place < at && at < least {
                next = Some(other);
                least = at;
            }
        }
    }
    next
}

// The argument of this name, as messages show it.
fn shown(alloc: Global, forms: &[Form<'_>], name: &str) -> Result<String, AllocError> {
    for form in forms {
        if form.name() == name {
            return form.shown(alloc);
        }
    }
    String::from_str(alloc, name)
}

// The same where it isn't given and has to be.
fn shown_needed(alloc: Global, forms: &[Form<'_>], name: &str) -> Result<String, AllocError> {
    for form in forms {
        if form.name() == name {
            return form.shown_needed(alloc);
        }
    }
    String::from_str(alloc, name)
}

// That an argument isn't given together with others.
fn excluded_line(
    alloc: Global,
    matches: &ArgMatches<'_>,
    row: Row<'_>,
    first: &str,
) -> Result<String, AllocError> {
    let mut others = String::new(alloc);
    let mut several = false;
    let mut place = 0;
    for _ in row.bonds {
        if let Some(next) = next_excluded(matches, row.bonds, first, place) {
            if !others.is_empty() {
                others.push(' ')?;
                several = true;
            }
            others.push_str(shown(alloc, row.forms, next)?.as_str())?;
            place = place_of(matches, next);
        }
    }
    let first = shown(alloc, row.forms, first)?;
    let (first, others) = (first.as_str(), others.as_str());
    if several {
        format!(in alloc; "the argument '{first}' cannot be used with: {others}")
    } else {
        format!(in alloc; "the argument '{first}' cannot be used with '{others}'")
    }
}

// The argument that a rule asks for and that isn't given, as messages show it; where either of two arguments will do, both.
fn needed(
    alloc: Global,
    matches: &ArgMatches<'_>,
    forms: &[Form<'_>],
    bond: Bond<'_>,
) -> Result<Option<String>, AllocError> {
    if is_obeyed(matches, bond) {
        return Ok(None);
    }
    let needed = match bond {
        Bond::Excludes(_, _) => return Ok(None),
        Bond::Needs(_, other) => shown_needed(alloc, forms, other)?,
        Bond::NeedsEither(_, first, second) => {
            let first = shown_needed(alloc, forms, first)?;
            let second = shown_needed(alloc, forms, second)?;
            let (first, second) = (first.as_str(), second.as_str());
            format!(in alloc; "<{first}|{second}>")?
        }
    };
    Ok(Some(needed))
}

// That arguments are needed.
fn needed_line(
    alloc: Global,
    matches: &ArgMatches<'_>,
    row: Row<'_>,
) -> Result<String, AllocError> {
    let mut others = String::new(alloc);
    for &bond in row.bonds {
        if let Some(needed) = needed(alloc, matches, row.forms, bond)? {
            if others.as_str().contains(needed.as_str()) {
                continue;
            }
            if !others.is_empty() {
                others.push(' ')?;
            }
            others.push_str(needed.as_str())?;
        }
    }
    let others = others.as_str();
    format!(in alloc; "the following required arguments were not provided: {others}")
}

// Why the arguments may not be given so.
fn why_not(alloc: Global, matches: &ArgMatches<'_>, row: Row<'_>) -> Result<String, AllocError> {
    match first_excluded(matches, row.bonds) {
        Some(first) => excluded_line(alloc, matches, row, first),
        None => needed_line(alloc, matches, row),
    }
}

/// Why the arguments of a subcommand that are given may not be given together, if they may not.
///
/// # Errors
/// Out of memory.
pub fn broken(
    alloc: Global,
    matches: &ArgMatches<'_>,
    row: Row<'_>,
) -> Result<Option<String>, AllocError>
    ensures { IfOk result (λ why. is_none why ≡ list_all (is_obeyed (rows_of_matches matches.now)) (map rule_by row.entry.bonds.now)) }
{
    if all_obeyed(matches, row.bonds) {
        return Ok(None);
    }
    Ok(Some(why_not(alloc, matches, row)?))
}
