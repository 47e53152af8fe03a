//! Arguments that more than one subcommand has, and how their values are read.

ghost use Rattle.std.specs.Prelude.{◌≡◌, map, option_map, IfOk};
ghost use Rattle.std.specs.String.{string_bytes};
ghost use Rattle.ir_arguments.specs.Reading.{if_given, large_numbers, small_number};
ghost use Rattle.ir_arguments.specs.Values.{YieldsOrNothing, rows_of_matches, first_given, text_for, texts_for, has_flag};

use crate::argument_err::ArgumentErr;
use crate::forms::Form;
use crate::texts::first_part;
use clap::ArgMatches;
use ir_record_command::number_within;
use std::alloc::{AllocError, Global};

/// The file of an image.
pub const IMAGE: &str = "IMAGE";

/// The file of a trace.
pub const TRACE: &str = "TRACE";

/// The file with the names of addresses.
pub const MAP: &str = "map";

/// The option that names the file of an image.
pub const FROM_IMAGE: &str = "image";

/// The option that gives a condition.
pub const UNTIL: &str = "until";

/// Whether a fault is explained.
pub const EXPLAIN: &str = "explain";

/// The file of an image, which has to be named.
pub const IMAGE_FORM: Form<'static> = Form::NeededPlace(
    IMAGE,
    "The file with the image, or an ELF file of the guest",
);

/// The file that an image is written to.
pub const IMAGE_OUT_FORM: Form<'static> = Form::NeededPlace(
    IMAGE,
    "The file that the image is written to",
);

/// The file of a trace, which has to be named.
pub const TRACE_FORM: Form<'static> = Form::NeededPlace(TRACE, "The file with the trace");

/// The file that a trace is written to.
pub const TRACE_OUT_FORM: Form<'static> = Form::NeededPlace(
    TRACE,
    "The file that the trace is written to",
);

/// The option that names the file with the names of addresses.
pub const NAMES_FORM: Form<'static> = Form::Valued(
    MAP,
    "MAP",
    "The file with the names of addresses, as `nm -n` prints them",
);

/// The text that is given for an argument, if one is.
#[tactic(auto, using(crate::proofs::Rows::first_value_in_rows))]
pub fn given<'a>(matches: &ArgMatches<'a>, name: &str) -> Option<&'a str>
    ensures { option_map (λ s. s.now) result ≡ first_given (rows_of_matches matches.now) name.now }
{
    matches.get_str(name)
}

/// The text that is given for an argument, or the empty text.
pub fn text_for<'a>(matches: &ArgMatches<'a>, name: &str) -> &'a str
    ensures { result.now ≡ text_for (rows_of_matches matches.now) name.now }
{
    match given(matches, name) {
        Some(text) => text,
        None => "",
    }
}

/// All the texts that are given for an argument.
#[tactic(auto, using(crate::proofs::Rows::raw_values_in_rows))]
pub fn texts_for<'m>(matches: &'m ArgMatches<'_>, name: &str) -> &'m [&'m str]
    ensures { map (λ s. s.now) result.now ≡ texts_for (rows_of_matches matches.now) name.now }
{
    matches.get_strs(name).unwrap_or_default()
}

/// Whether a flag is given.
pub fn has_flag(matches: &ArgMatches<'_>, name: &str) -> bool
    ensures { result ≡ has_flag (rows_of_matches matches.now) name.now }
{
    match given(matches, name) {
        Some(value) => value == "true",
        None => false,
    }
}

/// The text of an argument, empty where it isn't given.
pub fn text_of(alloc: Global, matches: &ArgMatches<'_>, name: &str) -> Result<String, AllocError>
    ensures { IfOk result (λ text. string_bytes text ≡ text_for (rows_of_matches matches.now) name.now) }
{
    String::from_str(alloc, text_for(matches, name))
}

/// The text of an option, if it is given.
pub fn given_text(
    alloc: Global,
    matches: &ArgMatches<'_>,
    name: &str,
) -> Result<Option<String>, AllocError>
    ensures { IfOk result (λ text. option_map string_bytes text ≡ first_given (rows_of_matches matches.now) name.now) }
{
    match given(matches, name) {
        Some(text) => Ok(Some(String::from_str(alloc, text)?)),
        None => Ok(None),
    }
}

/// The numbers up to 18446744073709551615 that a text lists with commas, or else what is wrong with the argument of this name.
#[tactic(auto, using(crate::proofs::Numbers::numbers_at_end, crate::proofs::Numbers::numbers_after_part, crate::proofs::Numbers::numbers_fail))]
pub fn numbers_in(alloc: Global, name: &str, text: &str) -> Result<Vec<u64>, ArgumentErr>
    ensures { YieldsOrNothing (λ v. v.items) result (large_numbers text.now) }
{
    let mut numbers = Vec::new(alloc);
    let mut rest = Some(text);
    'parts: while let Some(text) = rest {
        let (part, others) = first_part(text, ',');
        let Some(number) = number_within(0, u64::MAX, part) else {
            return Err(ArgumentErr::Wrong(format!(in alloc;
                "{name}: '{part}' is no number up to 18446744073709551615"
            )?));
        };
        numbers.push(number)?;
        rest = others;
    }
    Ok(numbers)
}

/// The number up to 4294967295 that a text is, or else what is wrong with the argument of this name.
pub fn number_in(alloc: Global, name: &str, text: &str) -> Result<u32, ArgumentErr>
    ensures { YieldsOrNothing (λ v. v) result (small_number text.now) }
{
    match number_within(0, u32::MAX as u64, text) {
        Some(number) => Ok(number as u32),
        None => Err(ArgumentErr::Wrong(format!(in alloc;
            "{name}: '{text}' is no number up to 4294967295"
        )?)),
    }
}

/// The number up to 4294967295 that an argument is, if it is given, or else what is wrong with it.
pub fn given_number(
    alloc: Global,
    matches: &ArgMatches<'_>,
    argument: &str,
    name: &str,
) -> Result<Option<u32>, ArgumentErr>
    ensures { YieldsOrNothing (λ v. v) result (if_given small_number (first_given (rows_of_matches matches.now) argument.now)) }
{
    match given(matches, argument) {
        Some(text) => Ok(Some(number_in(alloc, name, text)?)),
        None => Ok(None),
    }
}
