//! The commands that are refused, whatever the run.

ghost use Rattle.std.specs.Prelude.{◌≡◌, ◌≤◌};
ghost use Rattle.ir_mach.specs.Execution.{lies_in_memory};
ghost use Rattle.ir_debug.specs.Machine.{thread_named, object_named, lies_in_code, has_address};

use crate::debugger::Debugger;
use crate::kept::{MOST_KEPT, kept_cut};
use crate::points::{MOST_POINTS, is_set};
use ir_command::{Command, Keeping, Move, Point, Refusal, Show};
use ir_image::{CODE_START, Image, MEMORY_SIZE, MEMORY_START};
use ir_timeline::thread_count;

/// The thread that a command names.
pub fn thread_named(command: &Command) -> Option<u32>
    ensures { result ≡ thread_named command.now }
{
    match *command {
        Command::Move(
            Move::Step { thread, .. } | Move::Back { thread, .. } | Move::Goto { thread, .. },
        )
        | Command::Continue { thread, .. }
        | Command::Set(Point::Break { thread, .. } | Point::Watch { thread, .. })
        | Command::Show(
            Show::Registers { thread }
            | Show::Memory { thread, .. }
            | Show::Output { thread }
            | Show::Log { thread }
            | Show::Next { thread },
        ) => Some(thread),
        _ => None,
    }
}

// The object that a command names.
fn object_named(command: &Command) -> Option<u32>
    ensures { result ≡ object_named command.now }
{
    match *command {
        Command::Show(Show::Object { object }) => Some(object),
        Command::Set(Point::WatchObject { object }) => Some(object),
        _ => None,
    }
}

// Whether `width` bytes from an address on lie in the code.
fn lies_in_code(image: &Image, width: usize, address: u32) -> bool
    requires { width ≤ 256 }
    ensures { result ≡ lies_in_code image.now width address }
{
    let start = address as u64;
    let code_start = CODE_START as u64;
    let code_end = code_start + 4 * image.code().words().len() as u64;
    code_start <= start && start + width as u64 <= code_end
}

// Whether `width` bytes from an address on lie in private memory.
fn lies_in_memory(width: usize, address: u32) -> bool
    requires { width ≤ 256 }
    ensures { result ≡ lies_in_memory width address }
{
    let start = address as u64;
    let memory_start = MEMORY_START as u64;
    memory_start <= start && start + width as u64 <= memory_start + MEMORY_SIZE as u64
}

// Whether the bytes that a command shows are all of the code or of private memory, and the word at which a point is set is
// one of the code or of private memory.
fn has_address(image: &Image, command: &Command) -> bool
    ensures { result ≡ has_address image.now command.now }
{
    match *command {
        Command::Show(Show::Memory { address, size, .. }) => {
            lies_in_code(image, size.get(), address) || lies_in_memory(size.get(), address)
        }
        Command::Set(Point::Break { address, .. }) => {
            address % 4 == 0 && lies_in_code(image, 4, address)
        }
        Command::Set(Point::Watch { address, .. }) => {
            address % 4 == 0 && lies_in_memory(4, address)
        }
        _ => true,
    }
}

impl Debugger {
    ghost use Rattle.ir_debug.specs.Machine.{refusal_of, has_number, has_place};

    // Whether a point is set, or a cut kept, by the number that a command names; the start isn't dropped.
    fn has_number(&self, command: &Command) -> bool
        ensures { result ≡ has_number self.now.desk command.now }
    {
        match *command {
            Command::Clear { number } => is_set(self.points(), number),
            Command::Keeping(Keeping::Load { number }) => kept_cut(self.kept(), number).is_some(),
            Command::Keeping(Keeping::Drop { number }) => {
                number != 0 && kept_cut(self.kept(), number).is_some()
            }
            _ => true,
        }
    }

    // Whether there is place for the point that a command sets, or the cut that it keeps, and a number.
    fn has_place(&self, command: &Command) -> bool
        ensures { result ≡ has_place self.now.desk command.now }
    {
        match *command {
            Command::Set(_) => self.points().len() < MOST_POINTS && self.last_point() < u32::MAX,
            Command::Keeping(Keeping::Keep) => {
                self.kept().len() <= MOST_KEPT && self.last_kept() < u32::MAX
            }
            _ => true,
        }
    }

    // Why a command is refused, if it is: its thread, its object, its point or kept cut or its bytes aren't there, or there is no
    // place for one more, in this order.
    #[tactic(auto, unfolding(crate::specs::Machine::refusal_of))]
    pub(crate) fn refusal_of(&self, command: &Command) -> Option<Refusal>
        ensures { result ≡ refusal_of self.now.desk command.now }
    {
        let fitted = self.fitted();
        let image = fitted.image();
        if let Some(thread) = thread_named(command) {
            if thread as usize >= thread_count(fitted) {
                return Some(Refusal::NoSuchThread);
            }
        }
        if let Some(object) = object_named(command) {
            if object as usize >= image.object_count() {
                return Some(Refusal::NoSuchObject);
            }
        }
        if !self.has_number(command) {
            return Some(Refusal::NoSuchNumber);
        }
        if !has_address(image, command) {
            return Some(Refusal::BadAddress);
        }
        if !self.has_place(command) {
            return Some(Refusal::Full);
        }
        None
    }
}
