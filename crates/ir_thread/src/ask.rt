//! What a thread asks for, and what it is answered.

use crate::end::End;
use ir_runs::{Access, EnvKind};

/// What a thread's next step is. Objects and their words are given by their numbers, from 0.
#[derive(Clone, Copy, Debug, PartialEq, Eq)]
pub enum Ask {
    /// An instruction, or a call that needs no one else.
    Private,
    /// A call of the environment, which is answered by a value.
    Env(EnvKind),
    /// An entry to an object.
    Enter(u8, Access),
    /// An entry to an object for writing if no thread is inside, which is answered by 1, or else by 0.
    Try(u8),
    /// Leaving an object, by a call or, after the end, by giving it back; the access is that of the entry.
    Leave(u8, Access),
    /// Reading a word of an object, which is answered by the word: the object, and the index of the word.
    Get(u8, u8),
    /// Writing a word of an object: the object, the index of the word, and what is written.
    Put(u8, u8, u32),
    /// A call that prints.
    Print,
    /// The thread ends so.
    End(End),
    /// There is none: the thread has ended and holds nothing.
    Done,
}

/// What a thread is answered.
#[derive(Clone, Copy, Debug, PartialEq, Eq)]
pub enum Reply {
    /// The step may be taken.
    Go,
    /// The result of a call of the environment, the word that is read, or whether a try entered.
    Value(u32),
}
