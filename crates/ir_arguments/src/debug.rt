//! The arguments of `ir debug`.

ghost use Rattle.ir_arguments.specs.Asking.{debug_asked};
ghost use Rattle.ir_arguments.specs.Views.{AsksFor};

use crate::argument_err::ArgumentErr;
use crate::asked::Asked;
use crate::subcommands::Row;
use crate::values::{IMAGE, IMAGE_FORM, TRACE, TRACE_FORM, text_of};
use clap::ArgMatches;
use std::alloc::Global;

/// What follows the help of `ir debug`. The form of each command, and what it does, is a line that begins with two spaces, of which the
/// last is before the line that begins with `Numbers`.
pub const DEBUG_AFTER: &str =
    "The session opens with `ready`, or with what is wrong with IMAGE or TRACE, and reads no line then. Then each line of
standard input is a command, and is answered before the next is read. Each thread has a position, the number of steps that
it has taken. A cut is a position for each thread. A command that moves one thread moves the others only as far as it must.
  step T N      N steps of thread T forwards, the others no further than these need
  back T N      N steps of thread T backwards, the others no further than must be
  goto T K      thread T to position K, forwards or backwards
  cont T        thread T forwards to the first position at which a point hits it, or to its last position
  rcont T       thread T backwards to the last position at which a point hits it, or to 0
  start         all threads to position 0
  end           all threads to their last positions
  pos           the position of each thread
  break T A     sets a breakpoint: hits thread T before the instruction at address A of the code
  watch T A     sets a watchpoint: hits thread T after a step that changes the word at address A of its memory
  owatch O      sets an object's watchpoint: hits a thread after its step that leaves object O after writing
  clear N       removes point N; the three above answer `point N`, the next number from 1 on, and 64 may be set
  regs T        pc and registers of thread T
  mem T A N     N bytes, 1 to 256, from address A on, of the code or of thread T's memory
  obj O         object O: its version, which threads hold it, its words
  out T         what thread T has printed
  log T         the events that thread T has logged so far
  next T        the next step of thread T
  keep          keeps the cut, with the next number from 1 on; at most 64 are kept, and the start, which is 0
  load N        all threads to the kept cut N
  drop N        removes the kept cut N
  kept          each number, and the positions of its cut
  quit          ends the session
Numbers are decimal, or `0x` and hexadecimal digits. A move answers `at` and the positions. A move of thread T then answers
`hit N` if point N stopped it, `end` if it is at its last position, and `start` if it is at 0. A line that can't be carried
out is answered `refused R` and why, and changes nothing. At a terminal standard error prompts for each line, and after a
refused one it says what was wanted; `help` lists the commands there.
What a session opens with instead of `ready`:
  image refused N           1 cut short, 2 no image, 3 a number over its limit, 4 an entry outside the code, 5 bytes left over
  trace refused N           1 cut short, 2 no trace, 3 a number over its limit, 4 an unknown event, 5 reserved bytes that aren't 0,
                            6 an end, a code or an input out of its range, 7 bytes left over
  header differs C          1 another number of threads than the image has, 2 of objects
  incoherent thread T event E cause C
                            event E of thread T is an entry at a version that 1 no write entry made, 2 another write entry has
                            too, 3 had another number of readers
  thread T disagrees event E step S
                            step S of thread T isn't what the trace has, E being the next event of its log
  thread T starves event E  event E of thread T is an entry whose version or readers never come
  thread T same             thread T ends as the trace says, while another doesn't
Exit status: 0 done, 1 a fault, 2 bad arguments, 3 a refused image or trace, 4 a trace that doesn't fit.
";

/// What the help says of it, and its arguments.
pub const ROW: Row<'static> = Row {
    name: "debug",
    about: "Debugs a recorded run, forwards and backwards",
    after: DEBUG_AFTER,
    forms: &[IMAGE_FORM, TRACE_FORM],
    bonds: &[],
};

/// Which run is debugged.
#[derive(Drop)]
pub struct DebugArguments {
    /// The file of the image.
    pub image: String,
    /// The file of the trace.
    pub trace: String,
}

/// What its arguments ask for.
pub fn asked(alloc: Global, matches: &ArgMatches<'_>) -> Result<Asked, ArgumentErr>
    ensures { AsksFor debug_asked matches.now result }
{
    Ok(Asked::Debug(DebugArguments {
        image: text_of(alloc, matches, IMAGE)?,
        trace: text_of(alloc, matches, TRACE)?,
    }))
}
