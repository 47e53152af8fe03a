//! `ir`: a record and replay debugger for guests of RV32IM threads.
#![tactic(auto)]

mod progress;
mod standard;
mod unread;

use ir_arguments::collected;
use ir_commands::Surroundings;
use ir_files::ExitStatus;
use ir_names::NamedSink;
use ir_program::{Invocation, Terminals, program};
use ir_stream::FromStd;
use progress::{Progress, Wiping};
use standard::stand_ins;
use std::alloc::Global;
use std::io::{self, BufReader, ErrorKind, IsTerminal};
use std::process::ExitCode;
use std::sync::Wait;
use std::thread::Threads;
use std::time::Clock;
use unread::{Noticing, Reader, Sparing};

// The exit status where nobody reads standard output any more: what a shell tells of a program that SIGPIPE ends, which is 128 and its number.
const UNREAD: u8 = 141;

// The bytes of a block that `keep_heap` drops.
const BLOCK: usize = 1 << 20;

// Lets the heap keep what is free at its end. glibc gives all over 128 KiB of it back to the system, and a search that makes and drops a
// thread's 64 KiB again and again would get them anew each time. A larger block that is dropped raises that to twice its size.
// Without memory for the block the program is only slower.
fn keep_heap(alloc: Global) {
    let _ = Vec::<u8>::with_capacity(alloc, BLOCK);
}

// Says why the program stops, in one line on standard error. If that fails, there is no one left to report it to.
fn complain(rt: &impl Eprint, why: &str) {
    let _ = rt.eprintln(format_args!("ir: {why}"));
}

// The arguments, of which the first is the program's name. If there are none, it is reported why, and the exit status is answered.
fn words_of(rt: &HostRuntime) -> Result<Vec<String>, ExitStatus> {
    match collected(rt) {
        Ok(words) => Ok(words),
        Err(error) if error.kind() == ErrorKind::InvalidData => {
            complain(rt, "an argument is no text");
            Err(ExitStatus::BadArguments)
        }
        Err(_) => {
            complain(rt, "memory ran out");
            Err(ExitStatus::Failed)
        }
    }
}

// Whether gdb starts the program, and waits for it.
fn is_for_gdb(words: &[String]) -> bool {
    match words {
        [_, command, ..] => command.as_str() == "gdb",
        _ => false,
    }
}

// Does what the arguments ask for, over standard streams and the files of the system; the exit status. Threads that record
// or replay are those of the second handle. What is known of the reader of standard output is noted.
fn run<R: Threads + Wait + Sync + Clock + Print + Eprint + AllocGlobal>(
    rt: &HostRuntime,
    threads: &R,
    reader: &Reader,
) -> ExitStatus {
    keep_heap(rt.alloc());
    let words = match words_of(rt) {
        Ok(words) => words,
        Err(status) => return status,
    };
    let Ok(input) = BufReader::new(rt.alloc(), rt.reader()) else {
        complain(rt, "memory ran out");
        return ExitStatus::Failed;
    };
    let terminals = Terminals {
        input: rt.stdin().is_terminal(),
        faults: rt.stderr().is_terminal(),
    };
    let progress = Progress::new(threads, terminals.faults, is_for_gdb(words.as_slice()));
    let out = Wiping::new(
        FromStd::new(Noticing::new(io::writer(rt), reader)),
        &progress,
    );
    let mut out = NamedSink::new(rt.alloc(), out);
    let mut faults = Sparing::new(Wiping::new(FromStd::new(rt.stderr()), &progress), reader);
    program(
        Surroundings {
            rt: threads,
            folder: rt,
            gate: &progress,
        },
        &Invocation {
            arguments: words.as_slice(),
            terminals,
        },
        FromStd::new(input),
        &mut out,
        &mut faults,
    )
}

// The number that the system is given: that of the exit status, but where the program failed only because nobody reads standard output.
fn number_of(status: ExitStatus, reader: &Reader) -> u8 {
    if status == ExitStatus::Failed && reader.is_kept_back() {
        UNREAD
    } else {
        status.number()
    }
}

fn main(rt: HostRuntime) -> ExitCode {
    let reader = Reader::new();
    let status = match stand_ins(&rt) {
        // They are kept until all is done.
        Ok(_kept) => run(&rt, &rt, &reader),
        Err(_) => {
            complain(
                &rt,
                "a standard stream is closed, and /dev/null can't be opened",
            );
            ExitStatus::Failed
        }
    };
    ExitCode::from(number_of(status, &reader))
}
