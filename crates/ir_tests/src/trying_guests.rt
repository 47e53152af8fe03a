//! Guests that try to enter objects.

use crate::guests::{AT_MAIN, Source};

/// Tries to enter an object, and ends with the answer.
pub const TRYING: Source = &[
    "
        .objects 1
        addi    a0, zero, 0
        addi    a7, zero, 13            # TRY_WRITE
        ecall
        addi    a7, zero, 1             # END
        ecall
",
];

/// Thread 0 enters an object for writing and breaks inside; thread 1 tries to enter it, and ends with the answer.
pub const TRYING_BESIDE: Source = &[
    "
        .objects 1
        .thread writer
        .thread other
writer: addi    a0, zero, 0
        addi    a7, zero, 8             # ENTER_WRITE
        ecall
        ebreak
other:  addi    a0, zero, 0
        addi    a7, zero, 13            # TRY_WRITE
        ecall
        addi    a7, zero, 1             # END
        ecall
",
];

/// Each of four threads adds one to the first words of two objects by turns, six times in all. One that is refused tries the
/// other object; after 40 refusals it waits where it is refused. It prints how often it was refused, and ends with that.
pub const FOUR_TRYING: Source = &[
    "        .objects 2\n",
    AT_MAIN,
    AT_MAIN,
    AT_MAIN,
    AT_MAIN,
    "
main:   addi    a7, zero, 12            # the thread's number
        ecall
        andi    s0, a0, 1               # an object
        addi    s1, zero, 6             # how often it is still to add
        addi    s2, zero, 0             # refusals
        addi    s3, zero, 40
try:    addi    a0, s0, 0
        addi    a7, zero, 13            # TRY_WRITE
        ecall
        bne     a0, zero, inside
        addi    s2, s2, 1
        xori    s0, s0, 1
        blt     s2, s3, try
        addi    a0, s0, 0
        addi    a7, zero, 8             # ENTER_WRITE
        ecall
inside: addi    a0, s0, 0
        addi    a1, zero, 0
        addi    a7, zero, 10            # GET
        ecall
        addi    a2, a0, 1
        addi    a0, s0, 0
        addi    a7, zero, 11            # PUT
        ecall
        addi    a7, zero, 9             # LEAVE
        ecall
        xori    s0, s0, 1
        addi    s1, s1, -1
        bne     s1, zero, try
        addi    a0, s2, 0
        addi    a7, zero, 3             # PUTN
        ecall
        addi    a7, zero, 1             # END
        ecall
",
];
