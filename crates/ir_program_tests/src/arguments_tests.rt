//! What is reported of wrong arguments, and that the help of `ir asm` names what there is.

use crate::device_tests::{ENDLESS, empty_page};
use ir_arguments::{ASM_AFTER, Asked, parsed};
use ir_make::asm_run;
use ir_thread::{Call, Profile};
use std::test::Fail;

fn asked(rt: &HostRuntime, line: &str) -> Result<Asked, Fail> {
    let mut arguments = Vec::new(rt.alloc());
    for argument in line.split(' ') {
        arguments.push(String::from_str(rt.alloc(), argument)?)?;
    }
    Ok(parsed(rt.alloc(), arguments.as_slice()))
}

const WRONG: [(&str, &str); 24] = [
    (
        "ir asm",
        "the following required arguments were not provided: <SOURCE> <IMAGE>",
    ),
    (
        "ir record a.img",
        "the following required arguments were not provided: <TRACE>",
    ),
    (
        "ir record a.img a.trc --budget x",
        "--budget: 'x' is no number up to 1000000000000",
    ),
    (
        "ir record a.img a.trc --budget=-1",
        "--budget: '-1' is no number up to 1000000000000",
    ),
    (
        "ir record a.img a.trc --budget -1",
        "unexpected argument '-1' found",
    ),
    (
        "ir record a.img a.trc --random 1x",
        "--random: '1x' is no number up to 18446744073709551615",
    ),
    (
        "ir record a.img a.trc --profile 3",
        "--profile: '3' is neither 1 nor 2",
    ),
    (
        "ir record a.img a.trc --profile=-1",
        "--profile: '-1' is neither 1 nor 2",
    ),
    (
        "ir record a.img a.trc --profile=01",
        "--profile: '01' is neither 1 nor 2",
    ),
    (
        "ir record a.img a.trc --fast",
        "unexpected argument '--fast' found",
    ),
    (
        "ir asm --explain=1 a.s a.img",
        "unexpected value '1' for '--explain' found; no more were expected",
    ),
    ("ir play", "unrecognized subcommand 'play': see ir --help"),
    (
        "ir explore a.img --output p",
        "the following required arguments were not provided: <--until <COND>|--within <OTHER>> <TRACE>",
    ),
    (
        "ir explore a.img a.trc",
        "the following required arguments were not provided: <--until <COND>|--within <OTHER>>",
    ),
    (
        "ir explore a.img a.trc --only out",
        "the following required arguments were not provided: <--until <COND>|--within <OTHER>>",
    ),
    (
        "ir explore a.img --within b.img --output p",
        "the following required arguments were not provided: <TRACE>",
    ),
    (
        "ir explore a.img --until fault",
        "the following required arguments were not provided: <TRACE>",
    ),
    (
        "ir explore a.img --until fault --within b.img --only out",
        "the argument '--until <COND>' cannot be used with: --within <OTHER> --only <PARTS>",
    ),
    (
        "ir record a.img a.trc --by mix --order-file f --order 0",
        "the argument '--by <WAY>' cannot be used with: --order-file <LISTFILE> --order <LIST>",
    ),
    (
        "ir record a.img a.trc --order 0 --by walk",
        "the argument '--order <LIST>' cannot be used with '--by <WAY>'",
    ),
    (
        "ir record a.img a.trc --by walk",
        "the following required arguments were not provided: --chaos <SEED>",
    ),
    (
        "ir who a.trc 0 --word 2 1",
        "the argument '--word <K>' cannot be used with '[V]'",
    ),
    (
        "ir view a.trc --chrome --json --span 3",
        "the argument '--chrome' cannot be used with '--json'",
    ),
    (
        "ir view a.trc --span 3",
        "the following required arguments were not provided: --around <T> <E>",
    ),
];

#[test]
fn wrong_arguments_are_named(rt: HostRuntime) -> Result<(), Fail> {
    for &(line, wanted) in &WRONG {
        match asked(&rt, line)? {
            Asked::Nothing(why) => assert_eq!(rt; why.as_str(), wanted),
            _ => assert!(rt; false),
        }
    }
    Ok(())
}

#[test]
fn a_list_may_begin_with_a_hyphen(rt: HostRuntime) -> Result<(), Fail> {
    match asked(&rt, "ir record a.img a.trc --order=-1")? {
        Asked::Record(arguments) => {
            assert_eq!(rt;
                arguments.order.as_ref().map(|list| list.as_str()),
                Some("-1")
            )
        }
        _ => assert!(rt; false),
    }
    Ok(())
}

#[test]
fn the_first_profile_is_taken_where_none_is_given(rt: HostRuntime) -> Result<(), Fail> {
    for &(line, wanted) in &[
        ("ir record a.img a.trc", Profile::One),
        ("ir record a.img a.trc --profile 1", Profile::One),
        ("ir record a.img a.trc --profile 2", Profile::Two),
    ] {
        match asked(&rt, line)? {
            Asked::Record(arguments) => assert_eq!(rt; arguments.options.profile, wanted),
            _ => assert!(rt; false),
        }
    }
    Ok(())
}

// Lines of the help from the one that begins so, to the next that is not set in.
fn rows_after<'a>(alloc: std::alloc::Global, start: &str) -> Result<Vec<&'a str>, Fail> {
    let mut rows = Vec::new(alloc);
    let mut is_inside = false;
    for line in ASM_AFTER.lines() {
        if is_inside && !line.starts_with("  ") {
            break;
        }
        if is_inside {
            rows.push(line.trim())?;
        }
        is_inside = is_inside || line.starts_with(start);
    }
    Ok(rows)
}

// The operands of a form, each letter put in.
fn operands_of(form: &str) -> &'static str {
    match form {
        "rd, rs1, rs2" => "a0, a1, a2",
        "rd, rs1, V" => "a0, a1, 4",
        "rd, V(rs1)" | "rs2, V(rs1)" => "a0, 4(a1)",
        "rs1, rs2, TARGET" => "a0, a1, .+8",
        "rd, TARGET" => "a0, .+8",
        "rd, V" => "a0, 4",
        _ => "",
    }
}

// Whether the assembler takes a statement.
fn is_taken(rt: &HostRuntime, name: &str, operands: &str) -> Result<bool, Fail> {
    let source = format!(in rt.alloc(); "{name} {operands}\nnop\nnop\n")?;
    let mut image = empty_page(rt, 1000, ENDLESS);
    let mut faults = empty_page(rt, 1000, ENDLESS);
    let made = asm_run(rt.alloc(), source.as_bytes(), None, &mut image, &mut faults);
    Ok(made.is_ok())
}

// Each of the 50 instructions is in the help by its form.
#[test]
fn the_help_names_each_instruction(rt: HostRuntime) -> Result<(), Fail> {
    let mut names = 0u32;
    for row in rows_after(rt.alloc(), "Instructions")? {
        let (form, more) = row.split_once("  ").unwrap_or((row, ""));
        let (name, operands) = form.split_once(' ').unwrap_or((form, ""));
        assert!(rt; is_taken(&rt, name, operands_of(operands))?);
        names = names.wrapping_add(1);
        let more = more.trim();
        if let Some(others) = more.strip_prefix("so ") {
            let (others, _) = others.split_once(';').unwrap_or((others, ""));
            for other in others.split(", ") {
                assert!(rt; is_taken(&rt, other, operands_of(operands))?);
                names = names.wrapping_add(1);
            }
        }
    }
    assert_eq!(rt; names, 50);
    Ok(())
}

#[test]
fn the_help_numbers_each_call(rt: HostRuntime) -> Result<(), Fail> {
    let mut last = 0u32;
    for row in rows_after(rt.alloc(), "Calls")? {
        let (number, _) = row.split_once(' ').unwrap_or((row, ""));
        let next = last.wrapping_add(1);
        assert_eq!(rt; number.parse::<u32>().ok(), Some(next));
        last = next;
        assert!(rt; Call::of_number(Profile::Two, last).is_some());
    }
    assert!(rt; last > 0 && Call::of_number(Profile::Two, last.wrapping_add(1)).is_none());
    Ok(())
}
