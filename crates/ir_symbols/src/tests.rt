//! What maps of programs say, which lines are faulty, and what addresses are called.

use crate::{MapErr, Symbol, SymbolTable, name_text, read_map, write_map};
use std::alloc::{AllocError, Global};

// What `nm -na` printed of a program of riscv64-unknown-elf-gcc, most of its debugging symbols left out.
const LINKED: &str = "00000000 n .comment
00000000 N .debug_info
00000000 a t.c
00010000 t .text
00010000 T add
00010048 t twice
00010070 T main
00020000 A outside
00100000 d .sdata
00100000 D __DATA_BEGIN__
00100004 D counter
00100008 b hidden
0010000c B _end
00100800 A __global_pointer$
";

// What it printed of one of the program's object files.
const OBJECT: &str = "         U outside
00000000 T add
00000000 D counter
00000000 b hidden
00000000 R msg
00000050 t twice
00000078 T main
";

// An address, and what it is called.
type Place = (u32, &'static str);

const PLACES: [Place; 10] = [
    (0x0000_ffff, ""),
    (0x0001_0000, " <.text>"),
    (0x0001_0047, " <.text+71>"),
    (0x0001_0048, " <twice>"),
    (0x0001_0070, " <main>"),
    (0x0001_ffff, " <main+65423>"),
    (0x0002_0000, ""),
    (0x0010_0003, " <.sdata+3>"),
    (0x0010_ffff, " <_end+65523>"),
    (0xffff_ffff, ""),
];

// Lines, and the number of the first faulty one.
type Fault = (&'static str, usize);

const FAULTS: [Fault; 18] = [
    ("0000000000010000 T main\n", 1),
    ("0001000 T main", 1),
    ("000100000 T main", 1),
    ("0001000g T main", 1),
    ("0x010000 T main", 1),
    ("00010000\tT main", 1),
    ("00010000 T\tmain", 1),
    ("00010000 - main", 1),
    ("00010000  T main", 1),
    ("00010000 T  main", 1),
    ("00010000 T main ", 1),
    ("00010000 T ", 1),
    ("00010000 T", 1),
    ("00010000 A a\u{e9}", 1),
    ("       U outside", 1),
    ("          outside", 1),
    ("\n00010000 T main\n\nmain", 4),
    ("00010000 T a\r\n00010004 T b\r\r\n00010008", 2),
];

fn read(alloc: Global, text: &str) -> Result<SymbolTable, MapErr> {
    read_map(alloc, text.as_bytes())
}

fn written(alloc: Global, symbols: &SymbolTable) -> Result<String, AllocError> {
    String::from_utf8_lossy(alloc, &write_map(alloc, symbols)?)
}

#[test]
fn linked_program_is_read(rt: HostRuntime) -> Result<(), MapErr> {
    let symbols = read(rt.alloc(), LINKED)?;
    let kept = "00010000 t .text
00010000 T add
00010048 t twice
00010070 T main
00100000 d .sdata
00100000 D __DATA_BEGIN__
00100004 D counter
00100008 b hidden
0010000c B _end
";
    assert_eq!(rt; written(rt.alloc(), &symbols)?.as_str(), kept);
    assert_eq!(rt; symbols.as_slice().len(), 9);
    Ok(())
}

#[test]
fn object_file_is_read(rt: HostRuntime) -> Result<(), MapErr> {
    let symbols = read(rt.alloc(), OBJECT)?;
    let (_, kept) = OBJECT.split_once('\n').unwrap_or(("", ""));
    assert_eq!(rt; written(rt.alloc(), &symbols)?.as_str(), kept);
    Ok(())
}

#[test]
fn lines_are_sorted_and_ties_kept(rt: HostRuntime) -> Result<(), MapErr> {
    let text =
        "\r\nABCDEF01 ? last one\r\n\r\n0000000a w b\r\n00000009 T a\r\n0000000A W a\r\n                 U far";
    let symbols = read(rt.alloc(), text)?;
    let sorted = "00000009 T a\n0000000a w b\n0000000a W a\nabcdef01 ? last one\n";
    assert_eq!(rt; written(rt.alloc(), &symbols)?.as_str(), sorted);
    Ok(())
}

#[test]
fn first_faulty_line_is_named(rt: HostRuntime) -> Result<(), MapErr> {
    for (text, number) in FAULTS {
        match read(rt.alloc(), text) {
            Ok(_) => assert!(rt; false, "read {text:?}"),
            Err(error) => assert_eq!(rt; error, MapErr::Line(number), "at {text:?}"),
        }
    }
    Ok(())
}

#[test]
fn addresses_are_named(rt: HostRuntime) -> Result<(), MapErr> {
    let symbols = read(rt.alloc(), LINKED)?;
    for (address, name) in PLACES {
        match name_text(rt.alloc(), &symbols, address)? {
            Some(text) => assert_eq!(rt; text.as_str(), name, "at {address:08x}"),
            None => assert_eq!(rt; "", name, "at {address:08x}"),
        }
    }
    Ok(())
}

#[test]
fn symbols_of_a_range_are_found(rt: HostRuntime) -> Result<(), MapErr> {
    let symbols = read(rt.alloc(), LINKED)?;
    for (start, end, count) in [
        (0x0001_0000, 0x0001_0004, 2),
        (0x0001_0001, 0x0001_0048, 0),
        (0x0001_0048, 0x0001_0071, 2),
        (0x0010_0000, 0x0001_0000, 0),
        (0, u32::MAX, 9),
    ] {
        assert_eq!(rt; symbols.within(start, end).len(), count, "from {start:08x}");
    }
    Ok(())
}

#[test]
fn symbol_has_a_legal_kind_and_name(rt: HostRuntime) -> Result<(), AllocError> {
    for (kind, name, is_legal) in [
        ('T', "main", true),
        ('z', "~", true),
        ('?', "operator new(unsigned int)", true),
        ('-', "main", false),
        ('1', "main", false),
        ('T', "", false),
        ('T', " main", false),
        ('T', "main ", false),
        ('T', "a\tb", false),
        ('T', "a\u{7f}b", false),
    ] {
        let symbol = Symbol::new(rt.alloc(), 4, kind, name.as_bytes())?;
        assert_eq!(rt; symbol.is_some(), is_legal, "at {name:?}");
    }
    Ok(())
}
