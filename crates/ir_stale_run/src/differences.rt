//! Where a thread comes to another call than it did.

ghost use Rattle.std.specs.Prelude.{◌≡◌};
ghost use Rattle.ir_fit.specs.Placed.{same_access};
ghost use Rattle.ir_stale_run.specs.WhatIf.{same_kind, same_call, is_other_value, is_writing_hold, difference};
ghost use Rattle.ir_thread.specs.declared.ask.Ask.TheVariants as ask;

use crate::hold::Hold;
use crate::reason::Reason;
use ir_runs::{Access, EnvKind};
use ir_thread::{Ask, End};

// Whether two accesses are the same.
fn same_access(access: Access, was: Access) -> bool
    ensures { result ≡ same_access access was }
{
    match (access, was) {
        (Access::Reading, Access::Reading) => true,
        (Access::Writing, Access::Writing) => true,
        (Access::Reading, Access::Writing) => false,
        (Access::Writing, Access::Reading) => false,
    }
}

// Whether two calls of the environment are the same.
fn same_kind(kind: EnvKind, was: EnvKind) -> bool
    ensures { result ≡ same_kind kind was }
{
    match kind {
        EnvKind::Clock => matches!(was, EnvKind::Clock),
        EnvKind::Random => matches!(was, EnvKind::Random),
        EnvKind::Input => matches!(was, EnvKind::Input),
    }
}

// Whether two ends are the same.
fn same_end(end: End, was: End) -> bool
    ensures { result ≡ same_call (ask.End end) (ask.End was) }
{
    end.number() == was.number() && end.code() == was.code()
}

// Whether two calls are the same, up to the value that a PUT writes.
fn same_call(asked: Ask, was: Ask) -> bool
    ensures { result ≡ same_call asked was }
{
    match (asked, was) {
        (Ask::Private, Ask::Private) => true,
        (Ask::Env(kind), Ask::Env(before)) => same_kind(kind, before),
        (Ask::Enter(o, access), Ask::Enter(p, before)) => o == p && same_access(access, before),
        (Ask::Try(o), Ask::Try(p)) => o == p,
        (Ask::Leave(o, access), Ask::Leave(p, before)) => o == p && same_access(access, before),
        (Ask::Get(o, index), Ask::Get(p, place)) => o == p && index == place,
        (Ask::Put(o, index, _), Ask::Put(p, place, _)) => o == p && index == place,
        (Ask::Print, Ask::Print) => true,
        (Ask::End(end), Ask::End(before)) => same_end(end, before),
        (Ask::Done, Ask::Done) => true,
        _ => false,
    }
}

// Whether both are a PUT into the object, of another value.
fn is_other_value(object: u8, asked: Ask, was: Ask) -> bool
    ensures { result ≡ is_other_value object asked was }
{
    match (asked, was) {
        (Ask::Put(o, _, value), Ask::Put(_, _, old)) => o == object && value != old,
        _ => false,
    }
}

// How the thread differs where it comes to this call, and came to that one.
pub fn difference(hold: Hold, object: u8, asked: Ask, was: Ask) -> Option<Reason>
    ensures { result ≡ difference hold object asked was }
{
    if !same_call(asked, was) {
        return Some(Reason::Way);
    }
    match hold {
        Hold::Writing if is_other_value(object, asked, was) => Some(Reason::Value),
        _ => None,
    }
}
