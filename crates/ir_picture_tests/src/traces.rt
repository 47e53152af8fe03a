//! Traces made by hand, and their data.

// Both threads read version 0; thread 1 writes over it, and then thread 0 writes over that.
pub const LOST: [u8; 82] = [
    0x49, 0x52, 0x54, 0x31, 2, 1, 0, 0, 0xe8, 3, 0, 0, 0, 0, 0, 0, // header
    20, 0, 0, 0, 0, 0, 0, 0, 1, 0, 0, 0, 0, 2, 0, 0, 0, // thread 0
    4, 0, 0, 0, 0, 0, // read 0 version 0
    5, 0, 1, 0, 0, 0, 0, 0, 0, 0, // write 0 version 1 readers 0
    20, 0, 0, 0, 0, 0, 0, 0, 1, 0, 0, 0, 0, 2, 0, 0, 0, // thread 1
    4, 0, 0, 0, 0, 0, // read 0 version 0
    5, 0, 0, 0, 0, 0, 2, 0, 0, 0, // write 0 version 0 readers 2
];

/// Its data.
pub const LOST_DATA: &str =
    "{\"ir_view\":1,\"steps\":false,\"objects\":1,\"profile\":1,\"threads\":[
{\"end\":1,\"code\":0,\"steps\":20,\"events\":2,\"x\":6,\"u\":4},
{\"end\":1,\"code\":0,\"steps\":20,\"events\":2,\"x\":4,\"u\":3}
],\"boxes\":[
[0,0,1,4,0,0,0,0,1,1,1,1,0],
[0,1,1,5,0,1,0,4,5,3,3,2,0],
[1,0,1,4,0,0,0,0,1,1,1,1,0],
[1,1,1,5,0,0,2,2,3,2,2,2,0]
],\"stale\":[
[0,0,1]
]}
";

// Thread 0 reads two objects again and again until thread 1 has written; thread 1 tries in vain three times, and ends by a fault.
pub const FOLDS: [u8; 117] = [
    0x49, 0x52, 0x54, 0x32, 2, 2, 0, 0, 0xe8, 3, 0, 0, 0, 0, 0, 0, // header
    90, 0, 0, 0, 0, 0, 0, 0, 1, 7, 0, 0, 0, 8, 0, 0, 0, // thread 0
    1, 5, 0, 0, 0, // clock 5
    4, 0, 0, 0, 0, 0, // read 0 version 0
    4, 0, 0, 0, 0, 0, // read 0 version 0
    4, 1, 0, 0, 0, 0, // read 1 version 0
    4, 0, 0, 0, 0, 0, // read 0 version 0
    4, 1, 0, 0, 0, 0, // read 1 version 0
    4, 0, 1, 0, 0, 0, // read 0 version 1
    5, 1, 0, 0, 0, 0, 2, 0, 0, 0, // write 1 version 0 readers 2
    30, 0, 0, 0, 0, 0, 0, 0, 5, 0, 0, 0, 0, 4, 0, 0, 0, // thread 1
    6, 1, // try 1
    6, 1, // try 1
    6, 1, // try 1
    5, 0, 0, 0, 0, 0, 3, 0, 0, 0, // write 0 version 0 readers 3
];

/// Its data.
pub const FOLDS_DATA: &str =
    "{\"ir_view\":1,\"steps\":false,\"objects\":2,\"profile\":2,\"threads\":[
{\"end\":1,\"code\":7,\"steps\":90,\"events\":8,\"x\":15,\"u\":9},
{\"end\":5,\"code\":0,\"steps\":30,\"events\":4,\"x\":11,\"u\":7}
],\"boxes\":[
[0,0,1,1,5,0,0,0,0,1,1,1,0],
[0,1,1,4,0,0,0,1,2,2,2,2,0],
[0,2,1,4,0,0,0,3,4,3,3,3,0],
[0,3,1,4,1,0,0,5,6,4,4,4,0],
[0,4,2,4,0,0,0,7,8,5,5,5,0,-1,-1,[[0,0],[1,0]]],
[0,6,1,4,0,1,0,11,12,7,7,6,0],
[0,7,1,5,1,0,2,13,14,8,8,8,0],
[1,0,1,6,1,0,0,0,1,1,1,1,0],
[1,1,2,6,1,0,0,2,3,2,2,2,0,-1,-1,[]],
[1,3,1,5,0,0,3,9,10,6,6,3,0]
],\"stale\":[
]}
";

// Each thread first reads what the other writes after its own read.
pub const CIRCLE: [u8; 87] = [
    0x49, 0x52, 0x54, 0x31, 2, 2, 0, 0, 0xe8, 3, 0, 0, 0, 0, 0, 0, // header
    20, 0, 0, 0, 0, 0, 0, 0, 1, 0, 0, 0, 0, 2, 0, 0, 0, // thread 0
    4, 0, 1, 0, 0, 0, // read 0 version 1
    5, 1, 0, 0, 0, 0, 0, 0, 0, 0, // write 1 version 0 readers 0
    20, 0, 0, 0, 0, 0, 0, 0, 1, 0, 0, 0, 0, 3, 0, 0, 0, // thread 1
    1, 1, 0, 0, 0, // clock 1
    4, 1, 1, 0, 0, 0, // read 1 version 1
    5, 0, 0, 0, 0, 0, 0, 0, 0, 0, // write 0 version 0 readers 0
];
