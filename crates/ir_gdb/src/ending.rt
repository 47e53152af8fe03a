//! Ends of threads, of which gdb is told as signals, and in the list of threads in words.

ghost use Rattle.std.specs.Prelude.{◌≡◌, ◌<◌, ◌≤◌, ◌+◌, ◌++◌, length, vec_len, vec_capacity, IfSome};
ghost use Rattle.ir_cut.specs.Positions.{threads_of};
ghost use Rattle.ir_gdb.specs.Endings.{signal_of, code_text, words_of_end, end_of_thread, bad_end, comes_to_end, own_end, is_end_of_thread, first_bad_end, last_end, ended, is_thread_over};

use crate::stopped::Told;
use ir_cut::Cut;
use ir_fit::Fitted;
use ir_packet::{Reason, Signal, put_text};
use ir_text::Text;
use ir_thread::End;
use ir_timeline::last_position;

/// The signal by which gdb is told of an end. The call END with code 0 has none.
pub fn signal_of(end: End) -> Option<Signal>
    ensures { result ≡ signal_of end }
{
    match end {
        End::Exit(0) => None,
        End::Exit(_) => Some(Signal::Terminated),
        End::Breakpoint => Some(Signal::Aborted),
        End::IllegalWord => Some(Signal::Illegal),
        End::TargetMisaligned => Some(Signal::Misaligned),
        End::OutsideCode | End::BadLoad | End::BadStore => Some(Signal::Outside),
        End::UnknownCall | End::NoSuchObject | End::EntryOutOfOrder | End::NotHeld => {
            Some(Signal::BadCall)
        }
        End::OutputFull | End::LogFull => Some(Signal::TooLarge),
        End::BudgetSpent => Some(Signal::TooLong),
    }
}

// Puts the code of END in words at the end.
fn put_code(out: &mut Vec<u8>, code: u32)
    requires { vec_len out.old + 33 ≤ vec_capacity out.old }
    ensures bytes { out.new.items ≡ out.old.items ++ code_text code }
    ensures len { vec_len out.new ≤ vec_len out.old + 33 }
    ensures capacity { vec_capacity out.new ≡ vec_capacity out.old }
{
    if code == 0 {
        put_text(out, b" done");
        return;
    }
    let mut text = Text::new();
    ir_text::put_number(&mut text, b" ended: code ", u64::from(code));
    put_text(out, text.as_slice());
}

/// Puts an end in words at the end.
#[tactic(auto, unfolding(crate::specs::Endings::words_of_end))]
pub fn put_end(out: &mut Vec<u8>, end: End)
    requires { vec_len out.old + 33 ≤ vec_capacity out.old }
    ensures bytes { out.new.items ≡ out.old.items ++ words_of_end end }
    ensures len { vec_len out.new ≤ vec_len out.old + 33 }
    ensures capacity { vec_capacity out.new ≡ vec_capacity out.old }
{
    match end {
        End::Exit(code) => put_code(out, code),
        End::Breakpoint => put_text(out, b" ended: EBREAK"),
        End::IllegalWord => put_text(out, b" ended: no instruction"),
        End::TargetMisaligned => put_text(out, b" ended: misaligned jump"),
        End::OutsideCode => put_text(out, b" ended: outside the code"),
        End::BadLoad => put_text(out, b" ended: bad load"),
        End::BadStore => put_text(out, b" ended: bad store"),
        End::UnknownCall => put_text(out, b" ended: unknown call"),
        End::NoSuchObject => put_text(out, b" ended: no such object"),
        End::EntryOutOfOrder => put_text(out, b" ended: entry out of order"),
        End::NotHeld => put_text(out, b" ended: object not held"),
        End::OutputFull => put_text(out, b" ended: too much output"),
        End::BudgetSpent => put_text(out, b" ended: budget spent"),
        End::LogFull => put_text(out, b" ended: too many events"),
    }
}

/// How a thread ended.
pub fn end_of_thread(fitted: &Fitted, thread: u32) -> End
    requires { thread < threads_of fitted.now }
    ensures { result ≡ end_of_thread fitted.now thread }
{
    fitted.known();
    fitted.trace().threads()[thread as usize].end()
}

// A thread's end, if it is a bad one.
fn bad_end(fitted: &Fitted, thread: u32) -> Option<Told>
    requires { thread < threads_of fitted.now }
    ensures value { result ≡ bad_end fitted.now thread }
    ensures thread { IfSome result (λ told. told.thread ≡ thread) }
{
    let signal = signal_of(end_of_thread(fitted, thread))?;
    let interrupted = false;
    let reason = Reason::Ended(signal);
    Some(Told {
        interrupted,
        thread,
        reason,
    })
}

// Whether a move from one cut to another brings a thread to its last position.
fn comes_to_end(fitted: &Fitted, from: &Cut, to: &Cut, thread: u32) -> bool
    requires from { length from.now ≡ threads_of fitted.now }
    requires to { length to.now ≡ threads_of fitted.now }
    requires thread { thread < threads_of fitted.now }
    ensures { result ≡ comes_to_end fitted.now from.now to.now thread }
{
    let t = thread as usize;
    let last = last_position(fitted, t);
    from.position(t) != last && to.position(t) == last
}

// The bad end of a thread that comes to it.
fn own_end(fitted: &Fitted, from: &Cut, to: &Cut, thread: u32) -> Option<Told>
    requires from { length from.now ≡ threads_of fitted.now }
    requires to { length to.now ≡ threads_of fitted.now }
    requires thread { thread < threads_of fitted.now }
    ensures value { result ≡ own_end fitted.now from.now to.now thread }
    ensures thread { IfSome result (λ told. told.thread ≡ thread) }
{
    if comes_to_end(fitted, from, to, thread) {
        return bad_end(fitted, thread);
    }
    None
}

// How many threads there are.
#[tactic(auto, using(ir_image::proofs::CallerLemmas::guest_threads_within))]
fn count(fitted: &Fitted) -> u32
    ensures { result ≡ threads_of fitted.now }
{
    fitted.image().entries().len() as u32
}

// Whether a cut is the end of the recording.
#[tactic(auto, using(crate::proofs::Endings::no_threads_are_ended, crate::proofs::Endings::are_ended_if_next_ended, crate::proofs::Endings::one_false_not_all_ended))]
fn is_end(fitted: &Fitted, cut: &Cut) -> bool
    requires { length cut.now ≡ threads_of fitted.now }
    ensures { result ≡ is_end_of_thread fitted.now cut.now }
{
    let count = count(fitted);
    'threads: for thread in 0..count {
        let t = thread as usize;
        if cut.position(t) != last_position(fitted, t) {
            return false;
        }
    }
    true
}

// The first bad end of all threads.
#[tactic(auto, using(crate::proofs::Endings::no_threads_end_badly, crate::proofs::Endings::none_bad_if_next_good, crate::proofs::Endings::first_bad_end_is_next))]
fn first_bad_end(fitted: &Fitted) -> Option<Told>
    ensures value { result ≡ first_bad_end fitted.now (threads_of fitted.now) }
    ensures thread { IfSome result (λ told. told.thread < threads_of fitted.now) }
{
    let count = count(fitted);
    'threads: for thread in 0..count {
        if let Some(told) = bad_end(fitted, thread) {
            return Some(told);
        }
    }
    None
}

// The first bad end of all, where a move that runs out of history comes to the end of the recording.
fn last_end(fitted: &Fitted, from: &Cut, to: &Cut, out: bool) -> Option<Told>
    requires from { length from.now ≡ threads_of fitted.now }
    requires to { length to.now ≡ threads_of fitted.now }
    ensures value { result ≡ last_end fitted.now from.now to.now out }
    ensures thread { IfSome result (λ told. told.thread < threads_of fitted.now) }
{
    if out && is_end(fitted, to) && !is_end(fitted, from) {
        return first_bad_end(fitted);
    }
    None
}

/// Whether a stop says that there is no more history.
pub fn is_over(reason: Reason) -> bool
    ensures { result ≡ is_thread_over reason }
{
    matches!(reason, Reason::End)
}

/// The bad end that a move from one cut to another tells: of the thread that it stops; or, where the move runs out of history and comes to
/// the end of the recording, the first.
pub fn ended(fitted: &Fitted, from: &Cut, to: &Cut, thread: u32, out: bool) -> Option<Told>
    requires from { length from.now ≡ threads_of fitted.now }
    requires to { length to.now ≡ threads_of fitted.now }
    requires thread { thread < threads_of fitted.now }
    ensures value { result ≡ ended fitted.now from.now to.now thread out }
    ensures thread { IfSome result (λ told. told.thread < threads_of fitted.now) }
{
    if let Some(own) = own_end(fitted, from, to, thread) {
        return Some(own);
    }
    last_end(fitted, from, to, out)
}
