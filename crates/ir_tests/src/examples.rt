//! The guests of the folder `examples`. `scripts/rooms.py` refuses a text that differs from the file of its name there.

pub const HELLO: &str =
    "# Prints Hello, world! and a line feed, a byte at a time, and ends with code 0.

        li      s0, text                # the next byte
        li      s1, end                 # where the text ends
next:   beq     s0, s1, done
        lbu     a0, 0(s0)
        addi    a7, zero, 2             # PUTC
        ecall
        addi    s0, s0, 1
        jal     zero, next
done:   addi    a0, zero, 0
        addi    a7, zero, 1             # END
        ecall

        .data
text:   .byte   72, 101, 108, 108, 111, 44, 32          # Hello, comma and space
        .byte   119, 111, 114, 108, 100, 33, 10         # world!, line feed
end:
";

pub const SUM: &str =
    "# Adds the words of an array, prints the sum in decimal and ends with it as the code.

        .data
array:  .word   3, 1, 4, 1, 5, 9, 2, 6, 5, 3, 5, -2
end:

        .text
        li      s0, array               # the next word
        li      s1, end                 # where the array ends
        addi    s2, zero, 0             # the sum so far
next:   bgeu    s0, s1, done
        lw      t0, 0(s0)
        add     s2, s2, t0
        addi    s0, s0, 4
        jal     zero, next
done:   add     a0, zero, s2
        addi    a7, zero, 3             # PUTN
        ecall
        addi    a7, zero, 1             # END; the code is still in a0
        ecall
";

pub const CALLS: &str =
    "# Counts the moves of the towers of Hanoi with five discs by calls that keep what they need on the stack, which grows
# down from the end of private memory, where sp stands at the start. Prints 31 and ends with it as the code.

        addi    a0, zero, 5             # discs
        jal     ra, moves
        addi    a7, zero, 3             # PUTN
        ecall
        addi    a7, zero, 1             # END
        ecall

# a0: a number of discs; in return a0 is how many moves they take.
moves:  bne     a0, zero, some
        jalr    zero, 0(ra)             # none for no disc
some:   addi    sp, sp, -12
        sw      ra, 8(sp)
        sw      s0, 4(sp)
        addi    s0, a0, -1
        addi    a0, s0, 0
        jal     ra, moves               # all but the largest disc aside,
        addi    a0, a0, 1               # the largest,
        sw      a0, 0(sp)
        addi    a0, s0, 0
        jal     ra, moves               # and the others onto it
        lw      t0, 0(sp)
        add     a0, a0, t0
        lw      s0, 4(sp)
        lw      ra, 8(sp)
        addi    sp, sp, 12
        jalr    zero, 0(ra)
";

pub const COUNTER: &str =
    "# Four threads add one each to a shared counter. Each holds the object for writing from its GET to its PUT, so the
# counter is 4 in the end, whatever the order.

        .objects 1
        .thread main
        .thread main
        .thread main
        .thread main

main:   addi    a0, zero, 0
        addi    a7, zero, 8             # ENTER_WRITE of object 0
        ecall
        addi    a0, zero, 0
        addi    a1, zero, 0
        addi    a7, zero, 10            # GET of word 0
        ecall
        addi    a2, a0, 1
        addi    a0, zero, 0
        addi    a1, zero, 0
        addi    a7, zero, 11            # PUT of one more
        ecall
        addi    a0, zero, 0
        addi    a7, zero, 9             # LEAVE
        ecall
        addi    a0, zero, 0
        addi    a7, zero, 1             # END
        ecall
";

pub const LOST_UPDATE: &str =
    "# A lost update. Two threads add one each to a shared counter, but each gives the object back between its GET and its
# PUT. Where both read before either writes, both write 1 and one update is lost.

        .objects 1
        .thread main
        .thread main

main:   addi    a0, zero, 0
        addi    a7, zero, 7             # ENTER_READ of object 0
        ecall
        addi    a0, zero, 0
        addi    a1, zero, 0
        addi    a7, zero, 10            # GET of word 0
        ecall
        addi    s0, a0, 1
        addi    a0, zero, 0
        addi    a7, zero, 9             # LEAVE: from here on the other thread may write
        ecall
        addi    a0, zero, 0
        addi    a7, zero, 8             # ENTER_WRITE
        ecall
        addi    a0, zero, 0
        addi    a1, zero, 0
        addi    a2, s0, 0
        addi    a7, zero, 11            # PUT of what may be stale by now
        ecall
        addi    a0, zero, 0
        addi    a7, zero, 9             # LEAVE
        ecall
        addi    a0, zero, 0
        addi    a7, zero, 1             # END
        ecall
";

pub const TWO_LOCKS: &str =
    "# Two accounts and two threads, which move amounts in opposite directions. A thread may enter an object only if its
# number is greater than those that it holds, so both enter account 0 first, and neither waits for the other forever.
# In the end account 0 has 100 - 30 + 5 = 75 and account 1 has 50 + 30 - 5 = 75.

        .objects 2
        .object 0, 100
        .object 1, 50
        .thread first
        .thread second

first:  addi    s0, zero, -30           # what account 0 gains and account 1 loses
        jal     zero, move
second: addi    s0, zero, 5

move:   addi    a0, zero, 0
        addi    a7, zero, 8             # ENTER_WRITE of account 0
        ecall
        addi    a0, zero, 1
        ecall                           # and then of account 1
        addi    a0, zero, 0
        jal     ra, change              # account 0 gains
        sub     s0, zero, s0
        addi    a0, zero, 1
        jal     ra, change              # account 1 loses
        addi    a0, zero, 1
        addi    a7, zero, 9             # LEAVE of account 1
        ecall
        addi    a0, zero, 0
        ecall                           # and of account 0
        addi    a7, zero, 1             # END
        ecall

# Adds s0 to the first word of the object a0.
change: addi    t0, a0, 0
        addi    a1, zero, 0
        addi    a7, zero, 10            # GET
        ecall
        add     a2, a0, s0
        addi    a0, t0, 0
        addi    a7, zero, 11            # PUT; a1 is still 0
        ecall
        jalr    zero, 0(ra)
";

pub const OVERWRITTEN: &str =
    "# Fills an array of four words, and goes one too far: the word behind it is overwritten. Prints 4 where 100 is meant.

        .data
array:  .space  16
total:  .word   100                     # stands behind the array

        .text
        li      t0, array               # the next word
        addi    t1, zero, 0             # how many are filled
        addi    t2, zero, 5             # one too many
fill:   sw      t1, 0(t0)
        addi    t0, t0, 4
        addi    t1, t1, 1
        bne     t1, t2, fill
        li      t0, total
        lw      a0, 0(t0)
        addi    a7, zero, 3             # PUTN
        ecall
        addi    a0, zero, 0
        addi    a7, zero, 1             # END
        ecall
";

pub const HELPING: &str =
    "# Two workers that help each other and wait for nobody. Each has a heap of twelve jobs, in an object of its own. A worker
# tries to enter a heap; one that is refused, since the other is inside, does other work and then helps at the other
# heap, and so does one that finds a heap empty. Each prints how many jobs it did: together 24, however they ran. A trace
# holds the tries that were refused. TRY_WRITE is a call of the second profile: `ir record` takes `--profile 2`.

        .objects 2
        .object 0, 12                   # the jobs that are left
        .object 1, 12
        .thread worker
        .thread worker

worker: addi    a7, zero, 12            # SELF
        ecall
        addi    s0, a0, 0               # a heap, its own at first
        addi    s1, zero, 0             # the jobs that it did
        addi    s2, zero, 0             # 1 and 2 for the heaps that it found empty
        addi    s3, zero, 3             # for both
try:    addi    a0, s0, 0
        addi    a7, zero, 13            # TRY_WRITE: 1 inside, 0 refused
        ecall
        bne     a0, zero, inside
        addi    t0, zero, 500           # refused: other work,
work:   addi    t0, t0, -1
        bne     t0, zero, work
        xori    s0, s0, 1               # and then the other heap
        jal     zero, try
inside: addi    a0, s0, 0
        addi    a1, zero, 0
        addi    a7, zero, 10            # GET of how many are left
        ecall
        beq     a0, zero, empty
        addi    a2, a0, -1
        addi    a0, s0, 0
        addi    a7, zero, 11            # PUT of one less; a1 is still 0
        ecall
        addi    a7, zero, 9             # LEAVE; a0 is still the heap
        ecall
        addi    s1, s1, 1               # does the job
        jal     zero, try
empty:  addi    a0, s0, 0
        addi    a7, zero, 9             # LEAVE
        ecall
        addi    t0, s0, 1
        or      s2, s2, t0              # no job comes to it again
        xori    s0, s0, 1
        bne     s2, s3, try
        addi    a0, s1, 0
        addi    a7, zero, 3             # PUTN
        ecall
        addi    a0, zero, 0
        addi    a7, zero, 1             # END
        ecall
";

pub const SPINNING: &str =
    "# A lock that is spun for. Two threads add one to a counter, ten times each. A thread tries to enter the object; one that
# is refused, since the other is inside, pauses and tries again until it is in. The last one to add prints 20, however
# they ran. A trace holds the tries that were refused, so a replay spins as often as the recording did. TRY_WRITE is a
# call of the second profile: `ir record` takes `--profile 2`.

        .objects 1
        .thread main
        .thread main

main:   addi    s0, zero, 10            # how often it is still to add
        addi    s1, zero, 20            # the counter in the end
try:    addi    a0, zero, 0
        addi    a7, zero, 13            # TRY_WRITE of object 0: 1 inside, 0 refused
        ecall
        bne     a0, zero, inside
        addi    t0, zero, 500           # refused: a pause, and again
pause:  addi    t0, t0, -1
        bne     t0, zero, pause
        jal     zero, try
inside: addi    a0, zero, 0
        addi    a1, zero, 0
        addi    a7, zero, 10            # GET of word 0
        ecall
        addi    s2, a0, 1
        addi    a0, zero, 0
        addi    a2, s2, 0
        addi    a7, zero, 11            # PUT of one more; a1 is still 0
        ecall
        addi    a7, zero, 9             # LEAVE; a0 is still 0
        ecall
        addi    s0, s0, -1
        bne     s0, zero, try
        bne     s2, s1, done            # the other is still to add
        addi    a0, s2, 0
        addi    a7, zero, 3             # PUTN
        ecall
done:   addi    a0, zero, 0
        addi    a7, zero, 1             # END
        ecall
";
