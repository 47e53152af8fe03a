//! Traces made by hand.

// Both threads read version 0; thread 1 writes over it, and then thread 0 writes over that.
pub const LOST: [u8; 82] = [
    0x49, 0x52, 0x54, 0x31, 2, 1, 0, 0, 0xe8, 3, 0, 0, 0, 0, 0, 0, // header
    20, 0, 0, 0, 0, 0, 0, 0, 1, 0, 0, 0, 0, 2, 0, 0, 0, // thread 0
    4, 0, 0, 0, 0, 0, // read 0 version 0
    5, 0, 1, 0, 0, 0, 0, 0, 0, 0, // write 0 version 1 readers 0
    20, 0, 0, 0, 0, 0, 0, 0, 1, 0, 0, 0, 0, 2, 0, 0, 0, // thread 1
    4, 0, 0, 0, 0, 0, // read 0 version 0
    5, 0, 0, 0, 0, 0, 2, 0, 0, 0, // write 0 version 0 readers 2
];

// Thread 0 reads version 0 and writes over it; thread 1 reads that, and writes over it.
pub const GOOD: [u8; 82] = [
    0x49, 0x52, 0x54, 0x31, 2, 1, 0, 0, 0xe8, 3, 0, 0, 0, 0, 0, 0, // header
    20, 0, 0, 0, 0, 0, 0, 0, 1, 0, 0, 0, 0, 2, 0, 0, 0, // thread 0
    4, 0, 0, 0, 0, 0, // read 0 version 0
    5, 0, 0, 0, 0, 0, 1, 0, 0, 0, // write 0 version 0 readers 1
    20, 0, 0, 0, 0, 0, 0, 0, 1, 0, 0, 0, 0, 2, 0, 0, 0, // thread 1
    4, 0, 1, 0, 0, 0, // read 0 version 1
    5, 0, 1, 0, 0, 0, 1, 0, 0, 0, // write 0 version 1 readers 1
];
