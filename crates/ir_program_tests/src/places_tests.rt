//! Which writing loses what is read, by what is at the two paths; and files of the most bytes.

use crate::shelf::Shelf;
use ir_files::{FileErr, Folder, Found, loses, read_file};
use std::test::Fail;

const ONE: Found = Found::File(1, 7);

const OTHER_DEVICE: Found = Found::File(2, 7);

const OTHER_NUMBER: Found = Found::File(1, 8);

// What is written, what is read, and whether it is lost.
const ROWS: [(&str, Found, &str, Found, bool); 8] = [
    ("a.img", ONE, "a.img", ONE, true),
    // A link, or a longer way to it.
    ("./a.img", ONE, "a.img", ONE, true),
    ("b.img", OTHER_NUMBER, "a.img", ONE, false),
    ("b.img", OTHER_DEVICE, "a.img", ONE, false),
    ("b.img", Found::Nothing, "a.img", ONE, false),
    ("a.img", Found::Nothing, "a.img", Found::Nothing, true),
    ("/dev/null", Found::Other, "/dev/null", Found::Other, false),
    ("/dev/null", Found::Other, "a.img", ONE, false),
];

#[test]
fn the_same_file_is_lost(rt: HostRuntime) {
    for &(written, at_written, read, at_read, is_lost) in &ROWS {
        assert_eq!(rt; loses(written, at_written, read, at_read), is_lost);
    }
}

#[test]
fn a_file_may_have_the_most_bytes(rt: HostRuntime) -> Result<(), Fail> {
    let shelf = Shelf::new(rt.alloc());
    shelf.add_file("four", b"abcd")?;
    for most in 0..=4 {
        let read = read_file(rt.alloc(), &&shelf, "four", most);
        match read {
            Ok(bytes) => {
                assert_eq!(rt; bytes.as_slice(), b"abcd".as_slice());
                assert_eq!(rt; most, 4);
            }
            Err(why) => assert!(rt; matches!(why, FileErr::TooLong(limit) if limit == most)),
        }
    }
    Ok(())
}

#[test]
fn a_pinned_file_is_read_and_stays(rt: HostRuntime) -> Result<(), Fail> {
    let shelf = Shelf::with_pinned(rt.alloc(), "pinned", b"abcd")?;
    shelf.add_file("other", b"e")?;
    let folder = &shelf;
    assert!(rt; folder.create("pinned").is_err());
    assert!(rt; folder.create_new("pinned").is_err());
    assert!(rt; folder.rename("other", "pinned").is_err());
    assert!(rt; folder.rename("pinned", "other").is_err());
    assert!(rt; folder.remove("pinned").is_err());
    assert!(rt; folder.found_at("pinned") != Found::Nothing);
    for _ in 0..2 {
        let read = read_file(rt.alloc(), &folder, "pinned", 4);
        match read {
            Ok(bytes) => assert_eq!(rt; bytes.as_slice(), b"abcd".as_slice()),
            Err(_why) => assert!(rt; false),
        }
    }
    Ok(())
}
