//! Runs a guest to its end and says how many steps it took: what `make bench` times.
#![tactic(auto)]

mod quiet;

ghost use Rattle.std.specs.Prelude.{◌≡◌, true, length};
ghost use Rattle.ir_cut.specs.Positions.{IsConsistentCut};

use anyhow::{Context, Result, bail, ensure};
use ir_cut::{Cut, consistent};
use ir_fit::{Fitted, coherent, fit};
use ir_image::{Image, read_image};
use ir_object::{Given, OpenGate};
use ir_record::{Limits, record, record_in_order};
use ir_replay::{Pace, State, advance, advance_in_order};
use ir_thread::{Ask, Profile, Reply, Thread};
use ir_trace::{ThreadTrace, Trace, read_trace};
use std::alloc::Global;
use std::io::{BufRead, BufReader, Lines};
use std::sync::Wait;
use std::thread::Threads;
use std::time::{Clock, Instant};

const BUDGET: u64 = 1_000_000_000;

// The second one has all system calls.
const PROFILE: Profile = Profile::Two;

// What a recorded run may take.
const LIMITS: Limits = Limits {
    budget: BUDGET,
    profile: PROFILE,
};

// Takes all steps, private ones many at a time or each one by itself.
fn finish(thread: &mut Thread, image: &Image, one_by_one: bool) {
    for _ in 0..u64::MAX {
        if !one_by_one {
            thread.run(image.code(), u64::MAX);
        }
        match thread.ask(image.code()) {
            Ask::Private | Ask::Print | Ask::End(_) => thread.take(image.code(), Reply::Go),
            _ => return,
        }
    }
}

// How many steps the guest's first thread takes by itself.
fn alone(alloc: Global, image: &Image, one_by_one: bool) -> Result<u64> {
    ensure!(!image.entries().is_empty(), "a thread");
    let mut thread = Thread::new(alloc, image, 0, BUDGET, PROFILE)?;
    finish(&mut thread, image, one_by_one);
    Ok(thread.steps())
}

// How many steps all threads take that are recorded, by rounds or each on a real thread.
fn recorded<R: Threads + Wait + Sync>(
    rt: &R,
    alloc: Global,
    image: &Image,
    by_threads: bool,
) -> Result<u64> {
    ensure!(PROFILE.allows(image), "a guest that the profile allows");
    let worlds = quiet::worlds(alloc, image.entries().len())?;
    let recording = if by_threads {
        record(rt, alloc, image, worlds, &OpenGate, LIMITS)
    } else {
        record_in_order(alloc, image, &[], worlds, BUDGET, PROFILE)
    };
    let (trace, _) = recording.ok().context("a recording")?;
    Ok(all_steps(&trace))
}

// How many steps all threads of a trace take.
fn all_steps(trace: &Trace) -> u64 {
    let mut steps = 0u64;
    for thread in trace.threads() {
        steps = steps.saturating_add(thread.steps());
    }
    steps
}

// Whether the cut has a position for each thread, and is consistent.
fn is_cut(fitted: &Fitted, cut: &Cut) -> bool
    ensures size { result ≡ true → length cut.now ≡ length fitted.now.guest.entries }
    ensures consistent { result ≡ true → IsConsistentCut fitted.now cut.now }
{
    cut.positions().len() == fitted.image().entries().len() && consistent(fitted, cut)
}

// How many steps all threads take of a trace that fits.
fn fitted(alloc: Global, image: Image, trace: Trace) -> Result<u64> {
    let fitted = fit(alloc, image, trace, &OpenGate)
        .ok()
        .context("a trace that fits")?;
    Ok(all_steps(fitted.trace()))
}

// A guest, before its first step, with a trace that fits and the cut at its end.
#[derive(Drop)]
struct Replay {
    fitted: Fitted,
    target: Cut,
}

// The positions after the threads' last steps.
fn ends(alloc: Global, threads: &[ThreadTrace]) -> Result<Vec<u64>> {
    let mut last = Vec::new(alloc);
    for thread in threads {
        last.push(thread.steps())?;
    }
    Ok(last)
}

fn to_the_end(alloc: Global, image: Image, trace: Trace) -> Result<Replay> {
    let fitted = fit(alloc, image, trace, &OpenGate)
        .ok()
        .context("a trace that fits")?;
    let last = ends(alloc, fitted.trace().threads())?;
    Ok(Replay {
        fitted,
        target: Cut::new(last),
    })
}

// How many steps the threads of a state have taken.
fn steps_of(state: &State) -> u64 {
    let mut steps = 0u64;
    for thread in state.threads() {
        steps = steps.saturating_add(thread.steps());
    }
    steps
}

// The microseconds since a time, of the last hour.
fn micros_since(clock: &impl Clock, start: Instant) -> Result<u32> {
    Ok((start.elapsed(clock)?.as_micros() % 3_600_000_000) as u32)
}

// How many steps all threads take when a trace that fits is replayed, from the start to the end. Prints the microseconds of
// the replay alone.
fn replayed<R: Clock + Print>(rt: &R, alloc: Global, image: Image, trace: Trace) -> Result<u64> {
    let replay = to_the_end(alloc, image, trace)?;
    if !is_cut(&replay.fitted, &replay.target) {
        bail!("a consistent cut");
    }
    let state = State::start(alloc, &replay.fitted)?;
    let start = Instant::now(rt)?;
    let state = advance_in_order(&replay.fitted, state, &replay.target, &[]);
    println!(rt; "{} microseconds", micros_since(rt, start)?)?;
    Ok(steps_of(&state))
}

// The same by threads.
fn replayed_by_threads<R: Threads + Clock + Print + Sync>(
    rt: &R,
    alloc: Global,
    image: Image,
    trace: Trace,
) -> Result<u64> {
    let replay = to_the_end(alloc, image, trace)?;
    if !is_cut(&replay.fitted, &replay.target) {
        bail!("a consistent cut");
    }
    let state = State::start(alloc, &replay.fitted)?;
    let start = Instant::now(rt)?;
    let hands = Given::new(rt, alloc, &OpenGate);
    let result = advance(
        &hands,
        &replay.fitted,
        state,
        &replay.target,
        &mut Pace::new(),
    );
    println!(rt; "{} microseconds", micros_since(rt, start)?)?;
    match result {
        Ok(state) => Ok(steps_of(&state)),
        Err((_state, error)) => Err(error.into()),
    }
}

// How many steps all threads take of a trace that is only read, or judged for coherence too.
fn read_steps(alloc: Global, trace: &Trace, is_judged: bool) -> Result<u64> {
    if is_judged {
        coherent(alloc, trace).ok().context("a coherent trace")?;
    }
    Ok(all_steps(trace))
}

// The bytes of the next line, which is in hexadecimal.
fn next_bytes<R: BufRead + Drop>(alloc: Global, lines: &mut Lines<R>) -> Result<Vec<u8>> {
    let digits = lines.next().context("a line")??;
    hex::decode(alloc, digits.as_str())
        .ok()
        .context("hexadecimal digits")
}

// The first line is `run`, `steps`, `record`, `record-threads`, `fit`, `replay`, `replay-threads`, `read` or `coherent`, the second
// an image in hexadecimal; the last five have a trace in the third.
fn main(rt: HostRuntime) -> Result<()> {
    let alloc = rt.alloc();
    let mut lines = BufReader::new(alloc, rt.reader())?.lines(alloc);
    let mode = lines.next().context("the line of the mode")??;
    let bytes = next_bytes(alloc, &mut lines)?;
    let image = read_image(alloc, bytes.as_slice())
        .ok()
        .context("an image")?;
    let steps = match mode.as_str() {
        "run" => alone(alloc, &image, false)?,
        "steps" => alone(alloc, &image, true)?,
        "record" => recorded(&rt, alloc, &image, false)?,
        "record-threads" => recorded(&rt, alloc, &image, true)?,
        other => {
            let bytes = next_bytes(alloc, &mut lines)?;
            let trace = read_trace(alloc, bytes.as_slice()).ok().context("a trace")?;
            match other {
                "fit" => fitted(alloc, image, trace)?,
                "replay" => replayed(&rt, alloc, image, trace)?,
                "replay-threads" => replayed_by_threads(&rt, alloc, image, trace)?,
                "read" => read_steps(alloc, &trace, false)?,
                "coherent" => read_steps(alloc, &trace, true)?,
                _ => bail!("a mode"),
            }
        }
    };
    println!(rt; "{steps} steps")?;
    Ok(())
}
