//! How the options of recordings are read.

ghost use Rattle.std.specs.Prelude.{◌≡◌, codes};
ghost use Rattle.ir_arguments.specs.Asking.{options_in, random_in};
ghost use Rattle.ir_arguments.specs.Reading.{profile_named};
ghost use Rattle.ir_arguments.specs.Values.{YieldsOrNothing, rows_of_matches, text_for};
ghost use Rattle.ir_arguments.specs.Views.{options_view};

use crate::argument_err::ArgumentErr;
use crate::recording::{BUDGET, INPUT, OUTPUT, PROFILE, RANDOM, RecordingOptions};
use crate::values::{given_text, text_for};
use clap::ArgMatches;
use ir_record_command::number_within;
use ir_thread::{MOST_BUDGET, Profile};
use std::alloc::{AllocError, Global};

/// That the value of an option is no number up to the most.
pub fn no_number(
    alloc: Global,
    option: &str,
    value: &str,
    most: u64,
) -> Result<String, AllocError> {
    format!(in alloc; "--{option}: '{value}' is no number up to {most}")
}

// The profile that the value of the option names.
#[tactic(auto, unfolding(crate::specs::Reading::profile_named))]
fn profile_of(value: &str) -> Option<Profile>
    ensures { result ≡ profile_named value.now }
{
    match value {
        "1" => Some(Profile::One),
        "2" => Some(Profile::Two),
        _ => None,
    }
}

// That the value of the option names no profile.
fn no_profile(alloc: Global, option: &str, value: &str) -> Result<String, AllocError> {
    format!(in alloc; "--{option}: '{value}' is neither 1 nor 2")
}

/// The profile that its option names, or else what is wrong with it.
pub fn profile_in(alloc: Global, matches: &ArgMatches<'_>) -> Result<Profile, ArgumentErr>
    ensures { YieldsOrNothing (λ v. v) result (profile_named (text_for (rows_of_matches matches.now) (codes "profile"))) }
{
    let profile = text_for(matches, PROFILE);
    match profile_of(profile) {
        Some(calls) => Ok(calls),
        None => Err(ArgumentErr::Wrong(no_profile(alloc, PROFILE, profile)?)),
    }
}

/// Where random words start, or else what is wrong with the option.
pub fn random_in(alloc: Global, matches: &ArgMatches<'_>) -> Result<u64, ArgumentErr>
    ensures { YieldsOrNothing (λ v. v) result (random_in (rows_of_matches matches.now)) }
{
    let random = text_for(matches, RANDOM);
    match number_within(0, u64::MAX, random) {
        Some(start) => Ok(start),
        None => Err(ArgumentErr::Wrong(no_number(alloc, RANDOM, random, u64::MAX)?)),
    }
}

/// The values of these options, or else what is wrong with one.
#[tactic(auto, unfolding(crate::specs::Asking::options_in))]
pub fn options_of(alloc: Global, matches: &ArgMatches<'_>) -> Result<RecordingOptions, ArgumentErr>
    ensures { YieldsOrNothing options_view result (options_in (rows_of_matches matches.now)) }
{
    let budget = text_for(matches, BUDGET);
    let Some(most) = number_within(0, MOST_BUDGET, budget) else {
        return Err(ArgumentErr::Wrong(no_number(alloc, BUDGET, budget, MOST_BUDGET)?));
    };
    let start = random_in(alloc, matches)?;
    let calls = profile_in(alloc, matches)?;
    Ok(RecordingOptions {
        budget: most,
        random: start,
        profile: calls,
        input: given_text(alloc, matches, INPUT)?,
        output: given_text(alloc, matches, OUTPUT)?,
    })
}
