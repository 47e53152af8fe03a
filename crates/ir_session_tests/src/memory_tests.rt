//! What holds whichever request for memory is refused. `tests/refused_memory.py` refuses each in turn.

ghost use Rattle.std.specs.Prelude.{◌≡◌, ◌≤◌, ℕ, length, map, IfOk};
ghost use Rattle.ir_cut.specs.Positions.{IsConsistentCut, cut_of};
ghost use Rattle.ir_weave.specs.Standing.{StandsAtCut, flat_in, positions};
ghost use Rattle.ir_record.specs.Worlds.{NoneFailed};
ghost use Rattle.ir_thread.specs.State.{IsAllowed};
ghost use Rattle.ir_thread.specs.declared.profile.Profile.TheVariants.{One};

use crate::sessions::{Files, answer_of};
use ir_asm::{AsmErr, assemble};
use ir_cut::Cut;
use ir_debug::{Ended, SessionErr};
use ir_fit::{FitErr, Fitted, fit};
use ir_image::{Image, write_image};
use ir_object::{Given, OpenGate};
use ir_record::{RecordErr, World, WorldErr, record};
use ir_replay::{Pace, State, advance};
use ir_runs::EnvKind;
use ir_tests::guests::{DOUBLED, Source, TWO_COUNTERS, TWO_READERS};
use ir_tests::meeting::Meeting;
use ir_tests::recorded_guests::TWO_ASKING;
use ir_tests::recordings::{LIMITS, Recorded, by_threads};
use ir_tests::replays::is_cut;
use ir_tests::sources::joined;
use ir_tests::traces::{ENDED_BY_144, SECOND_FIRST, TraceRow, trace_bytes};
use ir_thread::Profile;
use ir_trace::{Trace, TraceErr, read_trace};
use std::alloc::{AllocError, Global};
use std::sync::Wait;
use std::sync::atomic::{AtomicUsize, Ordering};
use std::test::Fail;
use std::thread::Threads;
use std::time::Clock;

// Why nothing came about: memory was refused, or something is wrong.
#[derive(Clone, Copy, Debug, PartialEq, Eq)]
enum Short {
    Memory,
    Wrong,
}

impl From<AllocError> for Short {
    fn from(_e: AllocError) -> Short {
        Short::Memory
    }
}

// The guest of the source.
fn guest(alloc: Global, source: Source) -> Result<Image, Short>
    ensures { IfOk result (λ image. IsAllowed One image) }
{
    let text = joined(alloc, source)?;
    let image = match assemble(alloc, text.as_str()) {
        Ok(image) => image,
        Err(AsmErr::NoMem) => return Err(Short::Memory),
        Err(_) => return Err(Short::Wrong),
    };
    if Profile::One.allows(&image) {
        Ok(image)
    } else {
        Err(Short::Wrong)
    }
}

// The trace.
fn trace(alloc: Global, row: TraceRow) -> Result<Trace, Short> {
    let bytes = trace_bytes(alloc, row)?;
    match read_trace(alloc, bytes.as_slice()) {
        Ok(trace) => Ok(trace),
        Err(TraceErr::NoMem) => Err(Short::Memory),
        Err(_) => Err(Short::Wrong),
    }
}

// The guest of the source with its trace.
fn fitted(alloc: Global, source: Source, row: TraceRow) -> Result<Fitted, Short> {
    let trace = trace(alloc, row)?;
    match fit(alloc, guest(alloc, source)?, trace, &OpenGate) {
        Ok(fitted) => Ok(fitted),
        Err(FitErr::NoMem) => Err(Short::Memory),
        Err(_) => Err(Short::Wrong),
    }
}

// How many threads were recorded, and how many outputs there are.
fn counts(recorded: Recorded) -> Result<(usize, usize), Short> {
    match recorded {
        Ok((trace, outputs)) => Ok((trace.threads().len(), outputs.each.len())),
        Err(RecordErr::NoMem) => Err(Short::Memory),
        Err(_) => Err(Short::Wrong),
    }
}

// The same of two readers.
fn recorded<R: Threads + Wait + Sync>(
    rt: &R,
    alloc: Global,
    gate: &Meeting,
) -> Result<(usize, usize), Short> {
    let image = guest(alloc, TWO_READERS)?;
    counts(by_threads(rt, alloc, &image, gate, &[]))
}

// A recording takes its memory before the first entry.
#[test]
fn memory_is_refused_before_the_first_entry_or_not_at_all(rt: HostRuntime) -> Result<(), Fail> {
    let gate = Meeting::new();
    match recorded(&rt, rt.alloc(), &gate) {
        Err(Short::Memory) => assert_eq!(rt; gate.entries(), 0),
        counts => assert_eq!(rt; (gate.entries(), counts), (2, Ok((2, 2)))),
    }
    Ok(())
}

// A world that answers 0, and counts for all how often one was asked.
#[derive(Drop)]
struct Counting<'a> {
    count: &'a AtomicUsize,
    answered: Vec<(EnvKind, u32)>,
    failed: bool,
}

impl World for Counting<'_> {
    ghost answers = { λ w. w.answered.items };

    ghost Origin = { Unit {0} };

    ghost origin = { λ _. tt };

    ghost broken = { λ w. w.failed };

    fn answer(&mut self, kind: EnvKind) -> Result<u32, WorldErr> {
        self.count.fetch_add(1, Ordering::SeqCst);
        if self.answered.push((kind, 0)).is_err() {
            self.failed = true;
            return Err(WorldErr);
        }
        Ok(0)
    }

    fn failed(&self) -> bool {
        self.failed
    }
}

// `count` of them, each with room for two answers.
fn counting_worlds(
    alloc: Global,
    count: usize,
    asked: &AtomicUsize,
) -> Result<Vec<Counting<'_>>, AllocError>
    ensures count { IfOk result (λ worlds. length worlds.items ≡ count) }
    ensures works { IfOk result (λ worlds. NoneFailed (map (λ w. w.failed) worlds.items)) }
{
    let mut worlds = Vec::with_capacity(alloc, count)?;
    for number in 0..count {
        let answered = Vec::with_capacity(alloc, 2)?;
        worlds.push(Counting {
            count: asked,
            answered,
            failed: false,
        })?;
    }
    Ok(worlds)
}

// How many threads of the guest were recorded.
fn asked_in<R: Threads + Wait + Sync>(
    rt: &R,
    alloc: Global,
    image: &Image,
    count: &AtomicUsize,
) -> Result<usize, Short>
    requires { IsAllowed One image.now }
{
    let worlds = counting_worlds(alloc, image.entries().len(), count)?;
    match record(rt, alloc, image, worlds, &OpenGate, LIMITS) {
        Ok((trace, _outputs)) => Ok(trace.threads().len()),
        Err(RecordErr::NoMem) => Err(Short::Memory),
        Err(_) => Err(Short::Wrong),
    }
}

// The same of two threads that ask.
fn asked<R: Threads + Wait + Sync>(
    rt: &R,
    alloc: Global,
    count: &AtomicUsize,
) -> Result<usize, Short> {
    let image = guest(alloc, TWO_ASKING)?;
    asked_in(rt, alloc, &image, count)
}

// A recording that runs out of memory has asked no world.
#[test]
fn memory_is_refused_before_a_world_is_asked(rt: HostRuntime) -> Result<(), Fail> {
    let count = AtomicUsize::new(0);
    match asked(&rt, rt.alloc(), &count) {
        Err(Short::Memory) => assert_eq!(rt; count.load(Ordering::SeqCst), 0),
        threads => assert_eq!(rt; (count.load(Ordering::SeqCst), threads), (4, Ok(2))),
    }
    Ok(())
}

// Whether each thread is at the cut.
fn is_at(state: &State, target: &Cut) -> bool {
    for (thread, position) in state.threads().iter().zip(target.positions()) {
        if thread.steps() != *position {
            return false;
        }
    }
    state.threads().len() == target.positions().len()
}

// Whether the target is reached, by a second call where the first wanted for memory: from the state that it handed back.
fn is_reached<R: Threads + Clock + Sync>(
    rt: &R,
    alloc: Global,
    fitted: &Fitted,
    state: State,
    target: &Cut,
) -> bool
    requires state { StandsAtCut fitted.now (positions (flat_in fitted.now state)) state }
    requires target { (length target.now ≡ length fitted.now.guest.entries) × IsConsistentCut fitted.now target.now }
    requires below { (t : ℕ) → positions (flat_in fitted.now state) t ≤ cut_of target.now t }
{
    let hands = Given::new(rt, alloc, &OpenGate);
    let ended = match advance(&hands, fitted, state, target, &mut Pace::new()) {
        Ok(there) => Ok(there),
        Err((between, _)) => advance(&hands, fitted, between, target, &mut Pace::new()),
    };
    match ended {
        Ok(there) => is_at(&there, target),
        Err(_) => false,
    }
}

// The positions after each thread's last step.
fn ends(alloc: Global, fitted: &Fitted) -> Result<Cut, AllocError> {
    let mut positions = Vec::with_capacity(alloc, fitted.trace().threads().len())?;
    for thread in fitted.trace().threads() {
        positions.push(thread.steps())?;
    }
    Ok(Cut::new(positions))
}

// Whether the end of the trace is reached from its start.
fn is_end_reached<R: Threads + Clock + Sync>(
    rt: &R,
    alloc: Global,
    fitted: &Fitted,
) -> Result<bool, Short> {
    let target = ends(alloc, fitted)?;
    if !is_cut(fitted, &target) {
        return Ok(false);
    }
    let start = State::start(alloc, fitted)?;
    Ok(is_reached(rt, alloc, fitted, start, &target))
}

// The same of two counters.
fn is_replayed<R: Threads + Clock + Sync>(rt: &R, alloc: Global) -> Result<bool, Short> {
    let fitted = fitted(alloc, TWO_COUNTERS, SECOND_FIRST)?;
    is_end_reached(rt, alloc, &fitted)
}

#[test]
fn a_replay_goes_on_from_where_memory_was_refused(rt: HostRuntime) -> Result<(), Fail> {
    let reached = is_replayed(&rt, rt.alloc());
    assert!(rt; matches!(reached, Ok(true) | Err(Short::Memory)));
    Ok(())
}

const AT_THE_START: &[u8] = b"ready\nat 0\n";

fn doubled_files(alloc: Global) -> Result<Files, Short> {
    let trace = trace_bytes(alloc, ENDED_BY_144)?;
    let image = write_image(alloc, &guest(alloc, DOUBLED)?)?;
    Ok(Files { image, trace })
}

// Whether a session that runs out of memory has written nothing, and one whose writer does so a prefix of the answers.
fn is_unwritten<R: AllocGlobal + Threads + Clock + Sync>(rt: &R) -> Result<bool, Short> {
    let files = doubled_files(rt.alloc())?;
    let (page, ended) = answer_of(rt, &files, b"pos\n");
    let written = page.bytes.as_slice();
    Ok(match ended {
        Err(SessionErr::NoMem) => written.is_empty(),
        Err(SessionErr::Write) => AT_THE_START.starts_with(written),
        ended => ended == Ok(Ended::InputEnd) && written == AT_THE_START,
    })
}

#[test]
fn a_session_wants_for_memory_before_it_writes(rt: HostRuntime) -> Result<(), Fail> {
    let unwritten = is_unwritten(&rt);
    assert!(rt; matches!(unwritten, Ok(true) | Err(Short::Memory)));
    Ok(())
}
