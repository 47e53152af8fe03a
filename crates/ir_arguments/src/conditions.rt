//! Conditions of what a run comes to.

ghost use Rattle.std.specs.Prelude.{◌≡◌, ◌≢◌, ℕ, List, ◌∷◌, codes, map, drop, IfOk, MatchOption};
ghost use Rattle.std.specs.List.{list_all, list_any};
ghost use Rattle.std.specs.Option.{is_none};
ghost use Rattle.std.specs.Str.{bytes_eq};
ghost use Rattle.ir_schedule.specs.Conditions.{as_condition, as_fact};
ghost use Rattle.ir_schedule.specs.Spelling.{marks};
ghost use Rattle.ir_arguments.specs.Asking.{wanted_in};
ghost use Rattle.ir_arguments.specs.Conditions.{asked_also, conditions_given, stale_named, stale_wanted};
ghost use Rattle.ir_arguments.specs.Exploring.{asks_for_budget, hang_wanted, is_budget, is_of_outcome, conditions_on_outcome};
ghost use Rattle.ir_arguments.specs.Values.{YieldsOrNothing, rows_of_matches, texts_for};

use crate::argument_err::ArgumentErr;
use crate::condition_text::ConditionText;
use crate::forms::Form;
use crate::values::{UNTIL, texts_for};
use crate::wrong_condition::why_no_condition;
use clap::ArgMatches;
use ir_schedule::{Condition, Fact, Literal, condition_of};
use std::alloc::{AllocError, Global};

/// The option for a condition on a run, which is given once or more often.
pub const UNTIL_FORM: Form<'static> = Form::NeededRepeated(
    UNTIL,
    "COND",
    "What has to hold of a run; given more than once, all of it",
);

// What comes after the mark at the start of a text, if it begins with one.
fn after_mark(text: &str) -> Option<&str>
    ensures { MatchOption result ((rest : List ℕ) → text.now ≢ 33 ∷ rest) (λ rest. text.now ≡ 33 ∷ rest.now) }
{
    text.strip_prefix('!')
}

// What comes after the marks at the start of a text, and how many there are.
fn past_marks(text: &str) -> (&str, usize)
    ensures rest { result.0.now ≡ drop (marks text.now) text.now }
    ensures count { result.1 ≡ marks text.now }
{
    let mut rest = text;
    let mut count = 0;
    'marks: while let Some(more) = after_mark(rest) {
        rest = more;
        count += 1;
    }
    (rest, count)
}

// Whether a condition asks for a stale write that rests on what was read, or for none; nothing, if it is another condition.
#[tactic(auto, unfolding(crate::specs::Conditions::stale_named))]
fn stale_of(text: &str) -> Option<bool>
    ensures { result ≡ stale_named text.now }
{
    let (name, marks) = past_marks(text);
    if name == "stale" {
        Some(marks % 2 == 0)
    } else {
        None
    }
}

// What is asked of stale writes after what was asked before; nothing, if these exclude each other.
fn asked_also(before: Option<bool>, now: Option<bool>) -> Option<Option<bool>>
    ensures { result ≡ asked_also before now }
{
    let Some(now) = now else {
        return Some(before);
    };
    let Some(before) = before else {
        return Some(Some(now));
    };
    let excluded = if before { !now } else { now };
    if excluded { None } else { Some(Some(now)) }
}

// What texts ask of stale writes; nothing, if they exclude each other.
#[tactic(auto, using(crate::proofs::Wishes::stale_after_text, crate::proofs::Wishes::stale_at_end, crate::proofs::Wishes::stale_excluded))]
fn stale_wanted(texts: &[&str]) -> Option<Option<bool>>
    ensures { result ≡ stale_wanted (map (λ s. s.now) texts.now) }
{
    let mut asked = None;
    'texts: for text in texts {
        match asked_also(asked, stale_of(text)) {
            Some(more) => asked = more,
            None => return None,
        }
    }
    Some(asked)
}

/// What is asked of stale writes, by the conditions that are about them, or that these exclude each other.
pub fn stale_by(alloc: Global, matches: &ArgMatches<'_>) -> Result<Option<bool>, ArgumentErr>
    ensures { YieldsOrNothing (λ v. v) result (stale_wanted (texts_for (rows_of_matches matches.now) (codes "until"))) }
{
    match stale_wanted(texts_for(matches, UNTIL)) {
        Some(asked) => Ok(asked),
        None => Err(ArgumentErr::Wrong(format!(in alloc;
            "--{UNTIL}: 'stale' and '!stale' exclude each other"
        )?)),
    }
}

// The conditions of a run, as they begin.
const OF_A_RUN: &str = "end, code, word, out, fault, bad, budget and stale";

// Those of an outcome.
const OF_AN_OUTCOME: &str = "end, code, word, out, fault and bad, and hang by itself";

// That a text is no condition, why, and which there are.
fn no_condition(alloc: Global, text: &str, kinds: &str) -> Result<String, AllocError> {
    let why = why_no_condition(alloc, text)?;
    format!(in alloc;
        "--{UNTIL}: '{text}' is no condition, because {why}: there are {kinds}, `!` before one and ` | ` between two"
    )
}

// The texts that aren't about stale writes, as conditions, or that one is none.
#[tactic(auto, using(crate::proofs::Wishes::conditions_after_text, crate::proofs::Wishes::conditions_after_stale, crate::proofs::Wishes::conditions_at_end, crate::proofs::Wishes::conditions_fail))]
fn conditions_in(alloc: Global, texts: &[&str]) -> Result<Vec<ConditionText>, ArgumentErr>
    ensures { YieldsOrNothing (λ v. v.items) result (conditions_given (map (λ s. s.now) texts.now)) }
{
    let mut conditions = Vec::new(alloc);
    'texts: for text in texts {
        if stale_of(text).is_some() {
            continue;
        }
        match ConditionText::new(alloc, text)? {
            Some(condition) => conditions.push(condition)?,
            None => return Err(ArgumentErr::Wrong(no_condition(alloc, text, OF_A_RUN)?)),
        }
    }
    Ok(conditions)
}

/// The other conditions, or that one is none.
pub fn conditions_of(
    alloc: Global,
    matches: &ArgMatches<'_>,
) -> Result<Vec<ConditionText>, ArgumentErr>
    ensures { YieldsOrNothing (λ v. v.items) result (conditions_given (texts_for (rows_of_matches matches.now) (codes "until"))) }
{
    conditions_in(alloc, texts_for(matches, UNTIL))
}

/// The conditions on what a run comes to, and what is asked of its stale writes, or what is wrong with one.
pub fn wanted_by(
    alloc: Global,
    matches: &ArgMatches<'_>,
) -> Result<(Vec<ConditionText>, Option<bool>), ArgumentErr>
    ensures { YieldsOrNothing (λ w. (w.0.items, w.1)) result (wanted_in (rows_of_matches matches.now)) }
{
    let until = conditions_of(alloc, matches)?;
    let stale = stale_by(alloc, matches)?;
    Ok((until, stale))
}

// Whether some literal is about a spent budget.
fn some_is_budget(literals: &[Literal<'_>]) -> bool
    ensures { result ≡ list_any (λ l. is_budget (as_fact l.fact)) literals.now }
{
    literals.iter().any(|literal| is_budget(literal))
}

// Whether a condition asks for a spent budget.
fn asks_for_budget(condition: &Condition<'_>) -> bool
    ensures { result ≡ asks_for_budget (as_condition condition.now) }
{
    some_is_budget(condition.alternatives.as_slice())
}

// Whether it is about a spent budget.
fn is_budget(literal: &Literal<'_>) -> bool
    ensures { result ≡ is_budget (as_fact literal.now.fact) }
{
    match literal.fact {
        Fact::Budget => true,
        Fact::End(..) | Fact::Code(..) | Fact::Word(..) | Fact::Printed(..) => false,
        Fact::Fault | Fact::Bad => false,
    }
}

// What asks for a run that hangs.
const HANG: &str = "hang";

// Whether a text asks for a run that hangs.
fn is_hang(text: &str) -> bool
    ensures { result ≡ bytes_eq text.now (codes "hang") }
{
    text == HANG
}

// Whether one of these texts asks for a run that hangs.
fn has_hang(texts: &[&str]) -> bool
    ensures { result ≡ list_any (λ t. bytes_eq t.now (codes "hang")) texts.now }
{
    texts.iter().any(|text| is_hang(text))
}

// Whether texts ask for a run that hangs; nothing, if they ask for something else too.
#[tactic(auto, using(crate::proofs::Hangs::no_hang, crate::proofs::Hangs::hang_among, crate::proofs::Hangs::hang_alone))]
fn hang_wanted(texts: &[&str]) -> Option<bool>
    ensures { result ≡ hang_wanted (map (λ s. s.now) texts.now) }
{
    if !has_hang(texts) {
        return Some(false);
    }
    if texts.len() > 1 {
        return None;
    }
    Some(true)
}

/// Whether a run that hangs is asked for, or that this excludes other conditions.
pub fn hang_by(alloc: Global, matches: &ArgMatches<'_>) -> Result<bool, ArgumentErr>
    ensures { YieldsOrNothing (λ v. v) result (hang_wanted (texts_for (rows_of_matches matches.now) (codes "until"))) }
{
    match hang_wanted(texts_for(matches, UNTIL)) {
        Some(hang) => Ok(hang),
        None => Err(ArgumentErr::Wrong(format!(in alloc;
            "--{UNTIL}: '{HANG}' stands alone, since a run that hangs has no outcome"
        )?)),
    }
}

// What is wrong with a condition that has to hold of an outcome, if something is.
fn no_outcome(alloc: Global, text: &str) -> Result<Option<String>, AllocError>
    ensures { IfOk result (λ wrong. is_none wrong ≡ is_of_outcome text.now) }
{
    if stale_of(text).is_some() {
        return Ok(Some(format!(in alloc;
            "--{UNTIL}: '{text}' is about a run, and runs of one outcome differ in it: `ir hunt` looks for it"
        )?));
    }
    let Some(condition) = condition_of(alloc, text.as_bytes())? else {
        return Ok(Some(no_condition(alloc, text, OF_AN_OUTCOME)?));
    };
    if asks_for_budget(&condition) {
        return Ok(Some(format!(in alloc;
            "--{UNTIL}: '{text}' holds of no outcome, since no budget ends a run here: 'hang' looks for a run that waits forever"
        )?));
    }
    Ok(None)
}

// What is wrong with the first text that holds of no outcome, if there is such a text.
#[tactic(auto, using(crate::proofs::Wishes::outcomes_after_text, crate::proofs::Wishes::outcomes_fail, crate::proofs::Wishes::outcomes_at_end))]
fn first_wrong(alloc: Global, texts: &[&str]) -> Result<Option<String>, AllocError>
    ensures { IfOk result (λ wrong. is_none wrong ≡ list_all is_of_outcome (map (λ s. s.now) texts.now)) }
{
    'texts: for text in texts {
        if let Some(why) = no_outcome(alloc, text)? {
            return Ok(Some(why));
        }
    }
    Ok(None)
}

/// The conditions that have to hold of an outcome, or what is wrong with one.
pub fn outcome_conditions_of(
    alloc: Global,
    matches: &ArgMatches<'_>,
) -> Result<Vec<ConditionText>, ArgumentErr>
    ensures { YieldsOrNothing (λ v. v.items) result (conditions_on_outcome (texts_for (rows_of_matches matches.now) (codes "until"))) }
{
    match first_wrong(alloc, texts_for(matches, UNTIL))? {
        Some(why) => Err(ArgumentErr::Wrong(why)),
        None => conditions_of(alloc, matches),
    }
}
