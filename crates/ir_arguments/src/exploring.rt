//! What the arguments of `ir explore` ask for.

ghost use Rattle.std.specs.Prelude.{Some, codes};
ghost use Rattle.ir_arguments.specs.Exploring.{compared_in, comparison_asked, classes_asked, conditions_beside, exploration_in, exploring_asked, outcomes_asked};
ghost use Rattle.ir_arguments.specs.Values.{YieldsOrNothing, rows_of_matches, texts_for};
ghost use Rattle.ir_arguments.specs.Views.{AsksFor, comparison_view, exploration_view, request_view};

use crate::argument_err::ArgumentErr;
use crate::asked::{Asked, Explored};
use crate::condition_text::ConditionText;
use crate::conditions::{hang_by, outcome_conditions_of};
use crate::explore::{ExploreArguments, UntilArguments, reach_of};
use crate::options::{profile_in, random_in};
use crate::recording::{INPUT, OUTPUT};
use crate::values::{IMAGE, TRACE, given, given_text, text_of};
use crate::within::{
    ClassesArguments, ONLY, OutsideArguments, WITHIN, WithinArguments, counted_of, other_of,
};
use clap::ArgMatches;
use std::alloc::Global;

// Which guest is explored, how far, and what answers it, or what is wrong with an option.
#[tactic(auto, unfolding(crate::specs::Exploring::exploration_in))]
fn arguments_of(alloc: Global, matches: &ArgMatches<'_>) -> Result<ExploreArguments, ArgumentErr>
    ensures { YieldsOrNothing exploration_view result (exploration_in (rows_of_matches matches.now)) }
{
    let reach = reach_of(alloc, matches)?;
    let random = random_in(alloc, matches)?;
    let profile = profile_in(alloc, matches)?;
    Ok(ExploreArguments {
        image: text_of(alloc, matches, IMAGE)?,
        reach,
        profile,
        random,
        input: given_text(alloc, matches, INPUT)?,
    })
}

// The conditions that an outcome has to fulfil, if no hang is looked for, or what is wrong with one.
fn conditions_besides(
    alloc: Global,
    matches: &ArgMatches<'_>,
    hang: bool,
) -> Result<Vec<ConditionText>, ArgumentErr>
    ensures { YieldsOrNothing (λ v. v.items) result (conditions_beside hang (texts_for (rows_of_matches matches.now) (codes "until"))) }
{
    if hang {
        return Ok(Vec::new(alloc));
    }
    outcome_conditions_of(alloc, matches)
}

// The comparison, of which the first outcome outside is recorded if a trace is given.
fn compared_in(
    alloc: Global,
    matches: &ArgMatches<'_>,
    within: WithinArguments,
) -> Result<Asked, ArgumentErr>
    ensures { YieldsOrNothing request_view result (Some (compared_in (rows_of_matches matches.now) (comparison_view within))) }
{
    match given_text(alloc, matches, TRACE)? {
        Some(trace) => Ok(Asked::Outside(OutsideArguments {
            within,
            trace,
            output: given_text(alloc, matches, OUTPUT)?,
        })),
        None => Ok(Asked::Explore(Explored::Within(within))),
    }
}

// The comparison that is asked for, or what is wrong with what counts.
fn within_asked(
    alloc: Global,
    matches: &ArgMatches<'_>,
    explore: ExploreArguments,
) -> Result<Asked, ArgumentErr>
    ensures { AsksFor (comparison_asked (exploration_view explore)) matches.now result }
{
    let counted = counted_of(alloc, matches)?;
    let within = WithinArguments {
        explore,
        other: other_of(alloc, matches)?,
        counted,
    };
    compared_in(alloc, matches, within)
}

// The outcomes by classes, or what is wrong with what counts.
fn classes_asked(
    alloc: Global,
    matches: &ArgMatches<'_>,
    explore: ExploreArguments,
) -> Result<Asked, ArgumentErr>
    ensures { AsksFor (classes_asked (exploration_view explore)) matches.now result }
{
    let counted = counted_of(alloc, matches)?;
    Ok(Asked::Explore(Explored::Classes(ClassesArguments { explore, counted })))
}

// All outcomes, or the one that is recorded, or what is wrong with a condition.
#[tactic(auto, unfolding(crate::specs::Exploring::outcomes_asked))]
fn outcomes_asked(
    alloc: Global,
    matches: &ArgMatches<'_>,
    explore: ExploreArguments,
) -> Result<Asked, ArgumentErr>
    ensures { AsksFor (outcomes_asked (exploration_view explore)) matches.now result }
{
    let hang = hang_by(alloc, matches)?;
    let until = conditions_besides(alloc, matches, hang)?;
    match given_text(alloc, matches, TRACE)? {
        Some(trace) => Ok(Asked::Until(UntilArguments {
            explore,
            trace,
            until,
            hang,
            output: given_text(alloc, matches, OUTPUT)?,
        })),
        None => Ok(Asked::Explore(Explored::Outcomes(explore))),
    }
}

/// What its arguments ask for.
pub fn asked(alloc: Global, matches: &ArgMatches<'_>) -> Result<Asked, ArgumentErr>
    ensures { AsksFor exploring_asked matches.now result }
{
    let explore = arguments_of(alloc, matches)?;
    if given(matches, WITHIN).is_some() {
        return within_asked(alloc, matches, explore);
    }
    if given(matches, ONLY).is_some() {
        return classes_asked(alloc, matches, explore);
    }
    outcomes_asked(alloc, matches, explore)
}
