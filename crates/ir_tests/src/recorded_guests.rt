//! Guests whose recordings are looked at.

use crate::guests::{AT_MAIN, ONE_OBJECT, Source};

/// Enters object 3 and then object 2.
pub const FALLING: Source = &[
    "
        .objects 4
        addi    a0, zero, 3
        addi    a7, zero, 7             # ENTER_READ
        ecall
        addi    a0, zero, 2
        ecall
",
];

/// Prints the least numbers in size and in value, and runs past its code.
pub const NEGATIVE: Source = &[
    "
        addi    a0, zero, -1
        addi    a7, zero, 3             # PUTN
        ecall
        lui     a0, 0x80000
        ecall
",
];

/// Asks the clock and for a random word, with which it ends.
pub const ASKING: Source = &[ASK];

/// Two threads do so.
pub const TWO_ASKING: Source = &[AT_MAIN, AT_MAIN, ASK];

const ASK: &str = "
main:   addi    a7, zero, 4             # CLOCK
        ecall
        addi    a7, zero, 5             # RANDOM
        ecall
        addi    a7, zero, 1             # END
        ecall
";

/// Each of eight threads adds one to the first word of object 0 in each of 200 rounds, and ends with the word.
pub const ADDING: Source = &[
    ONE_OBJECT,
    AT_MAIN,
    AT_MAIN,
    AT_MAIN,
    AT_MAIN,
    AT_MAIN,
    AT_MAIN,
    AT_MAIN,
    AT_MAIN,
    "
main:   addi    t0, zero, 200           # rounds
        addi    a0, zero, 0
round:  addi    a7, zero, 8             # ENTER_WRITE
        ecall
        addi    a1, zero, 0
        addi    a7, zero, 10            # GET
        ecall
        addi    a2, a0, 1
        addi    a0, zero, 0
        addi    a7, zero, 11            # PUT
        ecall
        addi    a7, zero, 9             # LEAVE
        ecall
        addi    t0, t0, -1
        bne     t0, zero, round
        addi    a1, zero, 0
        addi    a7, zero, 7             # ENTER_READ
        ecall
        addi    a7, zero, 10            # GET
        ecall
        addi    a7, zero, 1             # END
        ecall
",
];

/// Thread 1 enters object 1, counts down from 65,536, asks for the time and then for input. Thread 0 enters object 0 and
/// object 1, and asks for the time twice.
pub const WAITING: Source = &[
    "
        .objects 2
        .thread main
        .thread main
main:   addi    a7, zero, 12            # the thread's number
        ecall
        beq     a0, zero, first
        addi    a0, zero, 1
        addi    a7, zero, 8             # ENTER_WRITE of object 1
        ecall
        lui     t0, 0x10
wait:   addi    t0, t0, -1
        bne     t0, zero, wait
        addi    a7, zero, 4             # CLOCK
        ecall
        addi    a7, zero, 6             # INPUT
        ecall
first:  addi    a7, zero, 8             # ENTER_WRITE of object 0
        ecall
        addi    a0, zero, 1
        ecall                           # and of object 1
        addi    a7, zero, 4             # CLOCK
        ecall
        addi    a7, zero, 4             # CLOCK
        ecall
        addi    a7, zero, 1             # END
        ecall
",
];

/// Thread 0 of three asks for the time, each other for input.
pub const INPUTS: Source = &[
    AT_MAIN,
    AT_MAIN,
    AT_MAIN,
    "
main:   addi    a7, zero, 12            # the thread's number
        ecall
        addi    a7, zero, 4             # CLOCK
        beq     a0, zero, ask
        addi    a7, zero, 6             # INPUT
ask:    ecall
        addi    a7, zero, 1             # END
        ecall
",
];

/// Each of three threads enters object 0 for writing and stays there.
pub const STAYING: Source = &[
    ONE_OBJECT,
    AT_MAIN,
    AT_MAIN,
    AT_MAIN,
    "
main:   addi    a0, zero, 0
        addi    a7, zero, 8             # ENTER_WRITE
        ecall
stay:   beq     zero, zero, stay
",
];

/// Three threads make as many rounds as their number and three, each through a loop outside object 0 and one inside it,
/// which all enter for writing.
pub const THREE_WRITERS: Source = &[
    ONE_OBJECT, AT_MAIN, AT_MAIN, AT_MAIN, NUMBERED, TO_WRITE, ROUNDS,
];

/// Eight threads do so.
pub const EIGHT_WRITERS: Source = &[
    ONE_OBJECT, AT_MAIN, AT_MAIN, AT_MAIN, AT_MAIN, AT_MAIN, AT_MAIN, AT_MAIN, AT_MAIN, NUMBERED,
    TO_WRITE, ROUNDS,
];

/// The same where an odd thread enters for writing, an even one for reading.
pub const THREE_OF_BOTH: Source = &[
    ONE_OBJECT, AT_MAIN, AT_MAIN, AT_MAIN, NUMBERED, TO_BOTH, ROUNDS,
];

/// Eight threads do so.
pub const EIGHT_OF_BOTH: Source = &[
    ONE_OBJECT, AT_MAIN, AT_MAIN, AT_MAIN, AT_MAIN, AT_MAIN, AT_MAIN, AT_MAIN, AT_MAIN, NUMBERED,
    TO_BOTH, ROUNDS,
];

const NUMBERED: &str = "
main:   addi    a7, zero, 12            # the thread's number
        ecall
";

// The call that enters: ENTER_WRITE.
const TO_WRITE: &str = "
        addi    t3, zero, 8
        addi    t3, t3, 0
";

// ENTER_READ or ENTER_WRITE.
const TO_BOTH: &str = "
        andi    t3, a0, 1
        addi    t3, t3, 7
";

const ROUNDS: &str = "
        addi    t0, a0, 3
        addi    t2, a0, 1
round:  addi    t1, t2, 0
before: addi    t1, t1, -1
        bne     t1, zero, before
        addi    a0, zero, 0
        addi    a7, t3, 0
        ecall
        addi    t1, zero, 4
inside: addi    t1, t1, -1
        bne     t1, zero, inside
        addi    a7, zero, 9             # LEAVE
        ecall
        addi    t0, t0, -1
        bne     t0, zero, round
        addi    a7, zero, 1             # END
        ecall
";
