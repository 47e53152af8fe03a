//! Guests by their names, in assembler text.

/// A source in parts, each of whole lines.
pub type Source = &'static [&'static str];

/// A guest that is recorded: its name, and its source.
#[derive(Clone, Copy)]
pub struct Guest {
    pub name: &'static str,
    pub source: Source,
}

/// All that are recorded, but for the examples.
pub const GUESTS: [Guest; 8] = [
    Guest {
        name: "doubled",
        source: DOUBLED,
    },
    Guest {
        name: "two counters",
        source: TWO_COUNTERS,
    },
    Guest {
        name: "read, then write",
        source: READ_THEN_WRITE,
    },
    Guest {
        name: "two readers",
        source: TWO_READERS,
    },
    Guest {
        name: "noted clock",
        source: NOTED_CLOCK,
    },
    Guest {
        name: "three broken inside",
        source: THREE_BROKEN_INSIDE,
    },
    Guest {
        name: "counter",
        source: COUNTER,
    },
    Guest {
        name: "sums",
        source: SUMS,
    },
];

const LARGE: &str = "        .large\n";

pub const ONE_OBJECT: &str = "        .objects 1\n";

pub const AT_MAIN: &str = "        .thread main\n";

const READING: &str = "        .thread reader\n";

const WRITING: &str = "        .thread writer\n";

const CALL: &str = "        ecall\n";

/// Prints `H`, doubles it and ends with 144.
pub const DOUBLED: Source = &[DOUBLE, CALL];

/// The same without its last instruction, so that the code ends there.
pub const DOUBLED_UNENDED: Source = &[DOUBLE];

const DOUBLE: &str = "
        addi    a0, zero, 72
        addi    a7, zero, 2             # PUTC
        ecall
        add     a0, a0, a0
        addi    a7, zero, 1             # END
";

/// Stores one word twice where private memory begins, and ends with its address.
pub const CHANGED_ONCE: Source = &[
    "
        lui     a0, 0x100
        sw      a0, 0(a0)
        sw      a0, 0(a0)
        addi    a7, zero, 1             # END
        ecall
",
];

/// A call that there isn't, a7 being 0.
pub const CALL_OF_ZERO: Source = &[CALL];

/// Reads nothing and waits for no thread: one instruction, after which the code ends.
pub const ONE_NOP: Source = &["nop\n"];

/// A word that is no instruction.
pub const NO_INSTRUCTION: Source = &[".word 0\n"];

/// An instruction, and then words that are none.
pub const ILLEGAL_WORDS: Source = &[
    "
        addi    a0, zero, 1
        .word   0
        .word   0x02009093
        .word   0xffffffff
",
];

/// Two threads add one each to the first word of object 0, which they hold for writing: 18 steps each, of which 2 is the
/// entry, 6 reads, 11 writes, 14 leaves and 17 ends.
pub const TWO_COUNTERS: Source = &[ONE_OBJECT, AT_MAIN, AT_MAIN, COUNT];

/// Three threads do so.
pub const THREE_COUNTERS: Source = &[ONE_OBJECT, AT_MAIN, AT_MAIN, AT_MAIN, COUNT];

/// Eight threads do the same.
pub const COUNTER: Source = &[
    ONE_OBJECT, AT_MAIN, AT_MAIN, AT_MAIN, AT_MAIN, AT_MAIN, AT_MAIN, AT_MAIN, AT_MAIN, COUNT,
];

/// Sixteen threads do, of a guest of the large form.
pub const SIXTEEN_COUNTERS: Source = &[
    LARGE, ONE_OBJECT, AT_MAIN, AT_MAIN, AT_MAIN, AT_MAIN, AT_MAIN, AT_MAIN, AT_MAIN, AT_MAIN,
    AT_MAIN, AT_MAIN, AT_MAIN, AT_MAIN, AT_MAIN, AT_MAIN, AT_MAIN, AT_MAIN, COUNT,
];

const COUNT: &str = "
main:   addi    a0, zero, 0
        addi    a7, zero, 8             # ENTER_WRITE
        ecall
        addi    a0, zero, 0
        addi    a1, zero, 0
        addi    a7, zero, 10            # GET
        ecall
        addi    a2, a0, 1
        addi    a0, zero, 0
        addi    a1, zero, 0
        addi    a7, zero, 11            # PUT
        ecall
        addi    a0, zero, 0
        addi    a7, zero, 9             # LEAVE
        ecall
        addi    a0, zero, 0
        addi    a7, zero, 1             # END
        ecall
";

/// One thread reads object 0, leaves it, writes it, leaves it and ends.
pub const READ_THEN_WRITE: Source = &[ONE_OBJECT, ENTER_READ, LEAVE, WRITE_AND_LEAVE, END];

/// Two threads enter object 0 for reading, leave it and end.
pub const TWO_READERS: Source = &[
    ONE_OBJECT, AT_MAIN, AT_MAIN, "main:\n", ENTER_READ, LEAVE, END,
];

/// One thread, of a guest of the large form, puts 7 into the last word of object 0 and breaks inside.
pub const LAST_WORD: Source = &[
    LARGE,
    ONE_OBJECT,
    "
        addi    a0, zero, 0
        addi    a7, zero, 8             # ENTER_WRITE
        ecall
        addi    a1, zero, 15
        addi    a2, zero, 7
        addi    a7, zero, 11            # PUT
        ecall
        ebreak
",
];

/// Sixteen threads, of a guest of the large form, enter object 0 for reading (step 2), leave it (4) and end (6).
pub const SIXTEEN_READERS: Source = &[
    LARGE, ONE_OBJECT, AT_MAIN, AT_MAIN, AT_MAIN, AT_MAIN, AT_MAIN, AT_MAIN, AT_MAIN, AT_MAIN,
    AT_MAIN, AT_MAIN, AT_MAIN, AT_MAIN, AT_MAIN, AT_MAIN, AT_MAIN, AT_MAIN, "main:\n", ENTER_READ,
    LEAVE, END,
];

/// Each of two threads asks the clock (step 1), enters object 0 for reading (4) and leaves it (6), enters it for writing
/// (8), puts the answer of the clock (11), leaves (14) and ends (17).
pub const NOTED_CLOCK: Source = &[
    ONE_OBJECT,
    AT_MAIN,
    AT_MAIN,
    ASK_CLOCK,
    ENTER_READ,
    LEAVE,
    WRITE_AND_NOTE,
    LEAVE,
    EXIT_WITH_0,
];

const ASK_CLOCK: &str = "
main:   addi    a7, zero, 4             # CLOCK
        ecall
        addi    a2, a0, 0
";

// Enters object 0 for reading.
const ENTER_READ: &str = "
        addi    a0, zero, 0
        addi    a7, zero, 7             # ENTER_READ
        ecall
";

// Leaves the object whose number is still in a0.
const LEAVE: &str = "
        addi    a7, zero, 9             # LEAVE
        ecall
";

// Enters that object for writing and leaves it.
const WRITE_AND_LEAVE: &str = "
        addi    a7, zero, 8             # ENTER_WRITE
        ecall
        addi    a7, zero, 9             # LEAVE
        ecall
";

// Enters that object for writing and puts a2 in its first word.
const WRITE_AND_NOTE: &str = "
        addi    a7, zero, 8             # ENTER_WRITE
        ecall
        addi    a1, zero, 0
        addi    a7, zero, 11            # PUT
        ecall
";

// Ends with what is in a0.
const END: &str = "
        addi    a7, zero, 1             # END
        ecall
";

const EXIT_WITH_0: &str = "
        addi    a0, zero, 0
        addi    a7, zero, 1             # END
        ecall
";

/// Stops at a breakpoint inside object 0, which it holds for writing and has given the word 7: step 7 is the end, and
/// step 8 releases the object.
pub const BROKEN_INSIDE: Source = &[ONE_OBJECT, AT_MAIN, BREAK_INSIDE];

/// Three threads do the same.
pub const THREE_BROKEN_INSIDE: Source = &[ONE_OBJECT, AT_MAIN, AT_MAIN, AT_MAIN, BREAK_INSIDE];

const BREAK_INSIDE: &str = "
main:   addi    a0, zero, 0
        addi    a7, zero, 8             # ENTER_WRITE
        ecall
        addi    a1, zero, 0
        addi    a2, zero, 7
        addi    a7, zero, 11            # PUT
        ecall
        ebreak
";

/// Threads 0 and 1 enter object 0 for reading, thread 2 for writing; each stops inside.
pub const READERS_AND_WRITER: Source = &[ONE_OBJECT, READING, READING, WRITING, STOP_INSIDE];

/// Thread 0 enters it for writing, threads 1 and 2 for reading.
pub const WRITER_AND_READERS: Source = &[ONE_OBJECT, WRITING, READING, READING, STOP_INSIDE];

/// Threads 0 and 2 enter it for reading, thread 1 for writing.
pub const WRITER_BETWEEN: Source = &[ONE_OBJECT, READING, WRITING, READING, STOP_INSIDE];

const STOP_INSIDE: &str = "
reader: addi    a0, zero, 0
        addi    a7, zero, 7             # ENTER_READ
        ecall
        ebreak
writer: addi    a0, zero, 0
        addi    a7, zero, 8             # ENTER_WRITE
        ecall
        ebreak
";

/// Two threads write two objects, each the other's first one second.
pub const CROSSING: Source = &[
    "
        .objects 2
        .thread up
        .thread down
",
    "up:     addi    a0, zero, 0\n",
    WRITE_AND_LEAVE,
    "        addi    a0, zero, 1\n",
    WRITE_AND_LEAVE,
    "        ebreak\n",
    "down:   addi    a0, zero, 1\n",
    WRITE_AND_LEAVE,
    "        addi    a0, zero, 0\n",
    WRITE_AND_LEAVE,
    "        ebreak\n",
];

/// Thread 0 writes object 1 (step 2) and then object 0 (step 7), thread 1 object 0 (step 2) and then object 2 (step 7).
pub const HANDED_ON: Source = &[
    "
        .objects 3
        .thread first
        .thread second
",
    "first:  addi    a0, zero, 1\n",
    WRITE_AND_LEAVE,
    "        addi    a0, zero, 0\n",
    WRITE_AND_LEAVE,
    END,
    "second: addi    a0, zero, 0\n",
    WRITE_AND_LEAVE,
    "        addi    a0, zero, 2\n",
    WRITE_AND_LEAVE,
    END,
];

/// Each of two threads counts down from 2^18, in 2^19 + 4 steps.
pub const COUNTDOWN: Source = &[
    ONE_OBJECT,
    AT_MAIN,
    AT_MAIN,
    "
main:   lui     t0, 0x40
again:  addi    t0, t0, -1
        bne     t0, zero, again
        addi    a0, zero, 0
        addi    a7, zero, 1             # END
        ecall
",
];

/// Counts down from 2^19 three times, in 3 * 2^20 + 12 steps; each time begins at 0x10004, 2^20 + 3 steps after the one before.
pub const COUNTED_THRICE: Source = &[
    "
        addi    t1, zero, 3
outer:  lui     t0, 0x80
again:  addi    t0, t0, -1
        bne     t0, zero, again
        addi    t1, t1, -1
        bne     t1, zero, outer
        addi    a7, zero, 1             # END
        ecall
",
];

/// Enters object 0 for writing (step 1), leaves the code, and releases the object.
pub const HELD_OUTSIDE: Source = &[
    "
        .objects 1
        .object 0, 0, 1, 2, 3, 4, 5, 6, -1
        addi    a7, zero, 8             # ENTER_WRITE
        ecall
",
];

/// Prints `H` as often as t0 says.
pub const PRINT: &str = "
        addi    a0, zero, 72
        addi    a7, zero, 2             # PUTC
again:  beq     t0, zero, done
        ecall
        addi    t0, t0, -1
        jal     zero, again
done:   ebreak
";

/// Writes a byte over the last of its memory, which begins with 1 to 19, and prints 40 times `A`.
pub const FORTY_BYTES: Source = &[
    "
        .data
        .byte   1, 2, 3, 4, 5, 6, 7, 8, 9, 10, 11, 12, 13, 14, 15, 16, 17, 18, 19
        .text
        lui     a1, 0x110
        sb      sp, -1(a1)
        addi    t0, zero, 40
        addi    a0, zero, 0x41
again:  addi    a7, zero, 2             # PUTC
        ecall
        addi    t0, t0, -1
        bne     t0, zero, .-8
        ebreak
",
];

/// Asks the clock, for a random word and for input, and enters object 1 for reading and object 2 for writing.
pub const EACH_EVENT: Source = &[
    "
        .objects 3
        addi    a7, zero, 4             # CLOCK
        ecall
        addi    a7, zero, 5             # RANDOM
        ecall
        addi    a7, zero, 6             # INPUT
        ecall
        addi    a0, zero, 1
        addi    a7, zero, 7             # ENTER_READ
        ecall
        addi    a0, zero, 2
        addi    a7, zero, 8             # ENTER_WRITE
        ecall
        ebreak
",
];

/// Four threads make five rounds each. In a round each enters objects 0, 1 and 2, for reading or for writing by the sum
/// of its number, the round and the object. Then, for each object in turn, it adds the object's first word to a sum, puts the
/// sum plus its own number plus 1 there if it holds the object for writing, and leaves the object. It prints the sum, with
/// the clock's answer added.
pub const SUMS: Source = &[
    "
        .objects 3
        .object 0, 1
        .object 1, 20
        .object 2, 300
        .thread main
        .thread main
        .thread main
        .thread main

main:   addi    a7, zero, 12            # the thread's number
        ecall
        addi    s0, a0, 0
        addi    s1, zero, 5             # rounds
        addi    s3, zero, 0             # the sum
round:  addi    s2, zero, 0
enter:  add     t0, s0, s1
        add     t0, t0, s2
        andi    t0, t0, 1
        addi    a7, t0, 7               # ENTER_READ or ENTER_WRITE
        addi    a0, s2, 0
        ecall
        addi    s2, s2, 1
        slti    t0, s2, 3
        bne     t0, zero, enter
        addi    s2, zero, 0
use:    addi    a0, s2, 0
        addi    a1, zero, 0
        addi    a7, zero, 10            # GET
        ecall
        add     s3, s3, a0
        add     t0, s0, s1
        add     t0, t0, s2
        andi    t0, t0, 1
        beq     t0, zero, leave
        add     a2, s3, s0
        addi    a2, a2, 1
        addi    a0, s2, 0
        addi    a7, zero, 11            # PUT
        ecall
leave:  addi    a0, s2, 0
        addi    a7, zero, 9             # LEAVE
        ecall
        addi    s2, s2, 1
        slti    t0, s2, 3
        bne     t0, zero, use
        addi    a7, zero, 4             # CLOCK
        ecall
        add     a0, a0, s3
        addi    a7, zero, 3             # PUTN
        ecall
        addi    s1, s1, -1
        bne     s1, zero, round
        addi    a7, zero, 1             # END
        ecall
",
];
