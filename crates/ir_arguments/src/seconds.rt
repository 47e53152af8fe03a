//! How long a search may take.

ghost use Rattle.ir_arguments.specs.Asking.{seconds_in};
ghost use Rattle.ir_arguments.specs.Values.{YieldsOrNothing, rows_of_matches};

use crate::argument_err::ArgumentErr;
use crate::values::given;
use clap::ArgMatches;
use ir_record_command::number_within;
use std::alloc::Global;

/// The option that bounds a search in time.
pub const SECONDS: &str = "seconds";

// The most seconds that can be asked for.
const MOST_SECONDS: u64 = 1_000_000;

/// The most seconds that are asked for, if they are, or what is wrong with their number.
pub fn seconds_by(alloc: Global, matches: &ArgMatches<'_>) -> Result<Option<u32>, ArgumentErr>
    ensures { YieldsOrNothing (λ v. v) result (seconds_in (rows_of_matches matches.now)) }
{
    let Some(text) = given(matches, SECONDS) else {
        return Ok(None);
    };
    match number_within(1, MOST_SECONDS, text) {
        Some(number) => Ok(Some(number as u32)),
        None => Err(ArgumentErr::Wrong(format!(in alloc;
            "--{SECONDS}: '{text}' is no number from 1 to {MOST_SECONDS}"
        )?)),
    }
}
