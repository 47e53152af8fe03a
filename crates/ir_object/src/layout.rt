//! Where the objects of a guest are in a table of 64-bit words that threads share: the word of object `o` at
//! `WORD_PLACE + APART * o`, and word `i` of its contents at `CONTENT_PLACE + APART * o + i`.
//!
//! Place 0 is for joins. An object's word is alone in a cache line of eight words, and its contents begin in the next, so
//! that threads at different objects don't wait for each other's lines. There is room for sixteen words of contents.

// The words of a cache line.
const CACHE_LINE: usize = 8;

/// The place of object 0's word.
pub const WORD_PLACE: usize = CACHE_LINE;

/// The place of the first word of object 0's contents.
pub const CONTENT_PLACE: usize = 2 * CACHE_LINE;

/// The places from one object's to the next one's.
pub const APART: usize = 3 * CACHE_LINE;
