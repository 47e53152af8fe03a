//! What a packet may ask.

/// What the payload of a packet asks.
#[derive(Clone, Copy, Debug, PartialEq, Eq)]
pub enum Request {
    /// `qSupported..`: what gdb can, which counts for nothing.
    Supported,
    /// `QStartNoAckMode`: no acknowledgements from here on.
    NoAcknowledgements,
    /// `?`: the last stop reply.
    Reason,
    /// `Hg i`: the thread of `g`, `p` and `m`.
    General(Who),
    /// `Hc i`: the thread of `s`, `c`, `bs` and `bc`.
    Choose(Who),
    /// `T i`: whether there is a thread of this id.
    Alive(u32),
    /// `qXfer:features:read:target.xml:o,n`: at most n bytes of the target's description, from byte o on.
    Description(u32, u32),
    /// `qXfer:threads:read::o,n`: the same of the list of threads.
    Threads(u32, u32),
    /// `qAttached`: whether gdb came to a process that was there.
    Attached,
    /// `qOffsets`: how far the code and the memory were moved.
    Offsets,
    /// `qSymbol::`: gdb can look symbols up.
    Symbols,
    /// `vCont?`: which motions `vCont` has.
    Motions,
    /// `g`: the registers of the general thread.
    Registers,
    /// `p n`: its register n, up to 32, which is pc.
    Register(u32),
    /// `m a,n`: at most n bytes of its memory, from address a on.
    Memory(u32, u32),
    /// `G`, `P`, `M`: a change of registers or memory.
    Change,
    /// `Z0 a,k`, `Z1 a,k`: a breakpoint at an address, and whether it is to be a hardware one.
    SetBreak(u32, bool),
    /// `Z0 a,k;X..`, `Z1 a,k;X..`: a breakpoint that stops only if one of its conditions is met.
    SetBreakIf(u32, bool),
    /// `z0 a,k`, `z1 a,k`: take it away.
    ClearBreak(u32, bool),
    /// `Z2 a,n`: a watch of n bytes from an address on.
    SetWatch(u32, u32),
    /// `z2 a,n`: take it away.
    ClearWatch(u32, u32),
    /// `vCont;..`, `s`, `c`, `bs`, `bc`: a move.
    Move(Motion, Mover),
    /// `qRcmd,..`: a session's line.
    Console,
    /// `!`: gdb may run the program again.
    Extended,
    /// `vRun;file`: all threads to 0.
    Restart,
    /// `vRun;file;number`: all threads to the kept cut of this number.
    RestartAt(u32),
    /// `vKill;..`: the program is left before it is run again.
    EndProcess,
    /// `D`: the end.
    Detach,
    /// `k`: the end, without a reply.
    Kill,
    /// A packet of this table whose arguments aren't of its form.
    Malformed,
    /// Another packet.
    Unknown,
}

/// A thread's id, from 1 on, or any thread: 0 and -1.
#[derive(Clone, Copy, Debug, PartialEq, Eq)]
pub enum Who {
    Any,
    Thread(u32),
}

/// How a thread moves.
#[derive(Clone, Copy, Debug, PartialEq, Eq)]
pub enum Motion {
    /// One step.
    Step,
    /// Steps until pc isn't from the first address to below the second.
    Range(u32, u32),
    /// To the next stop.
    Continue,
    /// One step back.
    StepBack,
    /// Back to the stop before.
    ContinueBack,
}

/// Which thread moves.
#[derive(Clone, Copy, Debug, PartialEq, Eq)]
pub enum Mover {
    /// The thread of the last `Hc`.
    Chosen,
    /// The current thread, and the others may be stopped at their hits.
    Any,
    /// This thread, and no other.
    Alone(u32),
    /// This thread, and the others may be stopped at their hits.
    Among(u32),
}
