//! Conditions, and what holds of a run.

use crate::guests::{ENTRIES, lost_update, run};
use ir_schedule::{Fact, Literal, Way, condition_of};
use std::alloc::{AllocError, Global};
use std::test::Fail;

// What a text writes.
const WRITTEN: [(&str, Option<Fact<'static>>); 25] = [
    ("end 1 13", Some(Fact::End(1, 13))),
    ("end 0x1 0xD", Some(Fact::End(1, 13))),
    ("code 0 4294967295", Some(Fact::Code(0, 0xffff_ffff))),
    ("code 0 0xFFFFFFFF", Some(Fact::Code(0, 0xffff_ffff))),
    ("word 63 15 2", Some(Fact::Word(63, 15, 2))),
    ("out 2 ", Some(Fact::Printed(2, b""))),
    ("out 2  a b ", Some(Fact::Printed(2, b" a b "))),
    ("fault", Some(Fact::Fault)),
    ("bad", Some(Fact::Bad)),
    ("budget", Some(Fact::Budget)),
    ("", None),
    ("!", None),
    ("end 1", None),
    ("end 1 0", None),
    ("end 1 15", None),
    ("end 1 1 ", None),
    ("end  1 1", None),
    ("end 1 1 1", None),
    ("code 0 4294967296", None),
    ("code 0 -1", None),
    ("code 0 0x", None),
    ("word 0 1", None),
    ("out 2", None),
    ("fault ", None),
    ("faults", None),
];

// The literals of the condition that a text writes, none if it writes no condition.
fn literals_of(alloc: Global, text: &str) -> Result<Vec<Literal<'_>>, AllocError> {
    match condition_of(alloc, text.as_bytes())? {
        Some(condition) => Ok(condition.alternatives),
        None => Ok(Vec::new(alloc)),
    }
}

#[test]
fn texts_write_conditions(rt: HostRuntime) -> Result<(), Fail> {
    let alloc = rt.alloc();
    for (text, fact) in &WRITTEN {
        let literals = literals_of(alloc, text)?;
        assert_eq!(rt; literals.len() <= 1, true);
        let first = literals.first().copied();
        let wanted = fact.map(|fact| Literal {
            is_denied: false,
            fact,
        });
        assert_eq!(rt; first, wanted);
    }
    Ok(())
}

#[test]
fn a_mark_denies(rt: HostRuntime) -> Result<(), Fail> {
    let alloc = rt.alloc();
    for (text, is_denied) in [("!fault", true), ("!!fault", false)] {
        let literals = literals_of(alloc, text)?;
        let denied = literals.first().map(|literal| literal.is_denied);
        assert_eq!(rt; denied, Some(is_denied));
    }
    Ok(())
}

// How many literals a text writes, 0 if it writes no condition.
const ALTERNATIVES: [(&str, usize); 8] = [
    ("fault | bad", 2),
    ("!fault | word 0 0 1 | end 0 1", 3),
    ("out 0 a | bad", 2),
    ("out 0 a|b", 1),
    ("fault|bad", 0),
    ("fault | ", 0),
    (" | fault", 0),
    ("fault |  | bad", 0),
];

#[test]
fn bars_divide_alternatives(rt: HostRuntime) -> Result<(), Fail> {
    let alloc = rt.alloc();
    for (text, count) in &ALTERNATIVES {
        let literals = literals_of(alloc, text)?;
        assert_eq!(rt; literals.len(), *count);
    }
    Ok(())
}

// Whether a condition holds of a run of the guest that loses an update, and whether the guest has what it is about.
const HELD: [(&str, bool, bool); 19] = [
    ("word 0 0 1", true, true),
    ("!word 0 0 2", true, true),
    ("word 0 0 2", false, true),
    ("word 0 7 0", true, true),
    ("word 0 8 0", true, false),
    ("word 1 0 0", true, false),
    ("end 1 1", true, true),
    ("end 2 1", false, false),
    ("code 1 0", true, true),
    ("code 1 1", false, true),
    ("out 0 ", true, true),
    ("out 0 x", false, true),
    ("fault", false, true),
    ("bad", false, true),
    ("!budget", true, true),
    ("fault | word 0 0 1", true, true),
    ("word 0 0 1 | fault", true, true),
    ("fault | bad", false, true),
    ("bad | word 0 8 0", true, false),
];

#[test]
fn conditions_hold_of_a_run(rt: HostRuntime) -> Result<(), Fail> {
    let alloc = rt.alloc();
    let image = lost_update(alloc)?;
    let (choices, runner) = run(alloc, &image, Way::Walk, 0, 16)?;
    assert_eq!(rt; choices, Ok(ENTRIES));
    for (text, holds, is_about) in &HELD {
        let Some(condition) = condition_of(alloc, text.as_bytes())? else {
            return Err(Fail::from("no condition"));
        };
        assert_eq!(rt; condition.holds(&runner.flat), *holds);
        assert_eq!(rt; condition.is_about(&image), *is_about);
    }
    Ok(())
}
