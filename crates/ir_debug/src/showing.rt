//! What is shown of the guest at the cut.

ghost use Rattle.std.specs.Prelude.{◌≡◌, ◌<◌};
ghost use Rattle.ir_stream.specs.Writing.{WritesText};
ghost use Rattle.ir_debug.specs.AtHand.{thread_here, events_of, shown_here};
ghost use Rattle.ir_debug.specs.Debugging.{IsThere, IsLast, IsDesk};
ghost use Rattle.ir_cut.specs.Positions.{threads_of};
ghost use Rattle.ir_debug.specs.declared.answer.Answer.TheVariants.{Shown};

use crate::debugger::Debugger;
use ir_command::Show;
use ir_log::Event;
use ir_stream::{DeviceErr, Sink};
use ir_text::{write_log, write_machine, write_memory, write_object, write_output};
use ir_thread::Thread;

// A thread in hand.
fn thread_here(debugger: &Debugger, number: u32) -> &Thread
    requires there { IsThere debugger.now }
    requires number { number < threads_of debugger.now.desk.fitted }
    ensures { result.now ≡ thread_here debugger.now number }
{
    &debugger.threads()[number as usize]
}

// The events of a thread in its run.
fn events_of(debugger: &Debugger, number: u32) -> &[Event]
    requires { number < threads_of debugger.now.desk.fitted }
    ensures value { result.now ≡ events_of debugger.now number }
    ensures desk { IsDesk debugger.now.desk }
{
    debugger.fitted().trace().threads()[number as usize]
        .log()
        .events()
}

/// Writes the text of a show that isn't refused, when the threads and objects are at the cut. Takes no memory.
pub fn write_shown<W: Sink>(
    debugger: &Debugger,
    show: Show,
    writer: &mut W,
) -> Result<(), DeviceErr>
    requires { IsLast debugger.now (Shown show) }
    ensures { WritesText W.written W.broken writer.old writer.new (shown_here debugger.now show) result }
{
    match show {
        Show::Registers { thread } => write_machine(thread_here(debugger, thread).mach(), writer),
        Show::Memory {
            thread,
            address,
            size,
        } => {
            let memory = thread_here(debugger, thread).mach().memory();
            let code = debugger.fitted().image().code();
            write_memory(code, memory, address, size.get(), writer)
        }
        Show::Object { object } => {
            let number = object as usize;
            write_object(
                debugger.threads(),
                number,
                &debugger.objects()[number],
                debugger.fitted().image().object_words(),
                writer,
            )
        }
        Show::Output { thread } => write_output(thread_here(debugger, thread).output(), writer),
        Show::Log { thread } => {
            let events = events_of(debugger, thread);
            let so_far = thread_here(debugger, thread).events() as usize;
            write_log(&events[..so_far], events.len(), writer)
        }
        Show::Next { .. } => unreachable!(),
    }
}
