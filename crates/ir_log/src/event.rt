//! What a thread logs of a step.

use ir_runs::{Access, EnvKind};
use ir_thread::Ask;
use std::mem::size_of;

/// What a thread logs of one step that others decide.
#[derive(Clone, Copy, Debug, PartialEq, Eq)]
pub enum Event {
    /// A call of the environment, and its result.
    Answer(EnvKind, u32),
    /// An entry to an object for reading, and the version that was entered.
    Read {
        object: u8,
        version: u32,
    },
    /// An entry to an object for writing, the version that was entered, and how many readers had left that version.
    Write {
        object: u8,
        version: u32,
        readers: u32,
    },
    /// A try to enter an object for writing that was refused.
    Try {
        object: u8,
    },
}

const _: () = prove!(size_of::<Event>() == 12);

impl Event {
    ghost use Rattle.ir_log.specs.Asked.{SuitsEvent, ask_of};
    ghost use Rattle.std.specs.Prelude.{◌≡◌, ◌↔◌, IsTrue};

    /// What a thread asks for at the step that this event is logged of. An entry for writing may be logged of a try too.
    pub fn ask(self) -> Ask
        ensures { result ≡ ask_of self }
    {
        match self {
            Event::Answer(kind, _) => Ask::Env(kind),
            Event::Read { object, .. } => Ask::Enter(object, Access::Reading),
            Event::Write { object, .. } => Ask::Enter(object, Access::Writing),
            Event::Try { object } => Ask::Try(object),
        }
    }

    /// Whether a step that asks so may log this event: the kinds agree, or the objects and what they are entered for. A try is
    /// logged as an entry for writing where it got in, and else as refused.
    #[inline(always)]
    pub fn suits(self, ask: Ask) -> bool
        ensures { IsTrue result ↔ SuitsEvent ask self }
    {
        match self {
            Event::Write { object, .. } if ask == Ask::Try(object) => true,
            _ => self.ask() == ask,
        }
    }
}
