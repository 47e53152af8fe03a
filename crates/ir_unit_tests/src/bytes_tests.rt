//! What the fields give, and which of two errors.

use ir_bytes::{
    byte, byte_within, bytes, double, double_within, fixed_half, fixed_word, half, word,
    word_within,
};

#[derive(Clone, Copy, PartialEq)]
enum Fault {
    Short,
    Other,
}

const ALL: [u8; 9] = [1, 2, 3, 4, 5, 6, 7, 8, 9];

#[test]
fn numbers_are_little_endian(rt: HostRuntime) {
    let all = &ALL;
    assert!(rt; matches!(byte(all, Fault::Short), Ok((1, [2, ..]))));
    assert!(rt; matches!(half(all, Fault::Short), Ok((0x0201, [3, ..]))));
    assert!(rt; matches!(word(all, Fault::Short), Ok((0x0403_0201, [5, ..]))));
    assert!(rt; matches!(double(all, Fault::Short), Ok((0x0807_0605_0403_0201, [9]))));
}

#[test]
fn bytes_are_taken(rt: HostRuntime) {
    let all = &ALL;
    assert!(rt; matches!(bytes(2, all, Fault::Short), Ok(([1, 2], [3, ..]))));
    assert!(rt; matches!(bytes(10, all, Fault::Short), Err(Fault::Short)));
}

#[test]
fn limits_are_taken(rt: HostRuntime) {
    let all = &ALL;
    let byte = byte_within(1, 1, all, Fault::Short, Fault::Other);
    assert!(rt; matches!(byte, Ok((1, [2, ..]))));
    let word = word_within(0x0403_0201, all, Fault::Short, Fault::Other);
    assert!(rt; matches!(word, Ok((0x0403_0201, [5, ..]))));
    let double = double_within(0x0807_0605_0403_0201, all, Fault::Short, Fault::Other);
    assert!(rt; matches!(double, Ok((0x0807_0605_0403_0201, [9]))));
}

#[test]
fn fixed_numbers_are_taken(rt: HostRuntime) {
    let all = &ALL;
    let half = fixed_half(0x0201, all, Fault::Short, Fault::Other);
    assert!(rt; matches!(half, Ok([3, ..])));
    let word = fixed_word(0x0403_0201, all, Fault::Short, Fault::Other);
    assert!(rt; matches!(word, Ok([5, ..])));
}

// Which fault a reading gives; none where it gives a value.
fn fault_of<T: Drop>(read: Result<T, Fault>) -> Option<Fault> {
    read.err()
}

// What the field of this number says of bytes where it may be none of theirs.
fn fault_at(field: u8, bytes: &[u8]) -> Option<Fault> {
    match field {
        0 => fault_of(byte_within(2, 9, bytes, Fault::Short, Fault::Other)),
        1 => fault_of(word_within(0, bytes, Fault::Short, Fault::Other)),
        2 => fault_of(double_within(0, bytes, Fault::Short, Fault::Other)),
        3 => fault_of(fixed_half(0, bytes, Fault::Short, Fault::Other)),
        _ => fault_of(fixed_word(0, bytes, Fault::Short, Fault::Other)),
    }
}

#[test]
fn a_number_out_of_its_limits_is_the_callers_fault(rt: HostRuntime) {
    for field in 0..5u8 {
        assert!(rt; fault_at(field, &ALL) == Some(Fault::Other), "at {field}");
    }
}

#[test]
fn a_field_that_is_not_whole_is_short_whatever_its_limits(rt: HostRuntime) {
    for (field, length) in [(0, 0), (1, 3), (2, 7), (3, 1), (4, 3)] {
        assert!(rt;
            fault_at(field, &ALL[..length]) == Some(Fault::Short),
            "at {field}"
        );
    }
}
