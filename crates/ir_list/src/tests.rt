//! A small guest listed byte by byte, with symbols and without, and devices that fail or take little.

use crate::{ListErr, list_run};
use ir_image::read_image;
use ir_stream::{DeviceErr, Sink};
use ir_symbols::read_map;
use std::alloc::Global;
use std::test::Fail;

// Two threads, which begin at 0x00010000 and 0x00010008, and six words of code: BEQ, JAL, ECALL, a word that is no
// instruction, JAL and JALR.
const GUEST: [u8; 46] = [
    0x49, 0x52, 0x49, 0x31, 2, 0, 6, 0, 0, 0, 0, 0, 0, 0, 0x00, 0x00, 0x01, 0x00, 0x08, 0x00, 0x01,
    0x00, 0x63, 0x04, 0xb5, 0x00, 0x6f, 0xf0, 0xdf, 0xff, 0x73, 0x00, 0x00, 0x00, 0xff, 0xff, 0xff,
    0xff, 0xef, 0x00, 0x00, 0x00, 0xe7, 0x80, 0xcd, 0xff,
];

const MAP: &str = "00010000 t .text
00010000 T main
0001000a t inner
00010010 T last one
00010018 B after
00100000 D counter
";

const LISTING: &str = "thread 0 entry 00010000 <.text>
thread 1 entry 00010008 <.text+8>
00010000 <.text>:
00010000 <main>:
00010000 00b50463 beq a0, a1, .+8 # 00010008 <.text+8>
00010004 ffdff06f jal zero, .-4 # 00010000 <.text>
0001000a <inner>:
00010008 00000073 ecall
0001000c ffffffff .word 0xffffffff
00010010 <last one>:
00010010 000000ef jal ra, .+0 # 00010010 <last one>
00010014 ffcd80e7 jalr ra, -4(s11)
";

const WITHOUT_SYMBOLS: &str = "thread 0 entry 00010000
thread 1 entry 00010008
00010000 00b50463 beq a0, a1, .+8 # 00010008
00010004 ffdff06f jal zero, .-4 # 00010000
00010008 00000073 ecall
0001000c ffffffff .word 0xffffffff
00010010 000000ef jal ra, .+0 # 00010010
00010014 ffcd80e7 jalr ra, -4(s11)
";

// A device that takes so many bytes in one call, and fails at a call after so many.
#[derive(Drop)]
struct Page {
    bytes: Vec<u8>,
    most: usize,
    calls_left: usize,
    failed: bool,
}

impl Page {
    fn new(alloc: Global, most: usize, calls_left: usize) -> Page {
        Page {
            bytes: Vec::new(alloc),
            most,
            calls_left,
            failed: false,
        }
    }
}

impl Sink for Page {
    ghost use Rattle.std.specs.Prelude.{Some};

    ghost written = { λ p. Some p.bytes.items };

    ghost broken = { λ p. p.failed };

    fn write(&mut self, bytes: &[u8]) -> Result<usize, DeviceErr> {
        let count = bytes.len().min(self.most.max(1));
        if self.calls_left == 0 || self.bytes.extend_from_slice(&bytes[..count]).is_err() {
            self.failed = true;
            return Err(DeviceErr);
        }
        self.calls_left -= 1;
        Ok(count)
    }

    fn failed(&self) -> bool {
        self.failed
    }
}

// The guest listed with the symbols of a map on a page.
fn listed(alloc: Global, map: &str, page: &mut Page) -> Result<Result<(), ListErr>, Fail> {
    let image = read_image(alloc, &GUEST)?;
    let symbols = read_map(alloc, map.as_bytes())?;
    Ok(list_run(alloc, &image, &symbols, page))
}

#[test]
fn guest_is_listed(rt: HostRuntime) -> Result<(), Fail> {
    let mut page = Page::new(rt.alloc(), 1000, 1000);
    assert_eq!(rt; listed(rt.alloc(), MAP, &mut page)?, Ok(()));
    assert_eq!(rt; page.bytes.as_slice(), LISTING.as_bytes());
    assert!(rt; !page.failed());
    Ok(())
}

#[test]
fn guest_is_listed_without_symbols(rt: HostRuntime) -> Result<(), Fail> {
    let mut page = Page::new(rt.alloc(), 1000, 1000);
    assert_eq!(rt; listed(rt.alloc(), "", &mut page)?, Ok(()));
    assert_eq!(rt; page.bytes.as_slice(), WITHOUT_SYMBOLS.as_bytes());
    Ok(())
}

#[test]
fn symbols_of_data_name_nothing(rt: HostRuntime) -> Result<(), Fail> {
    let mut page = Page::new(rt.alloc(), 1000, 1000);
    let map = "00000000 T zero\n0000fffc T below\n00010018 B after\n00100000 D counter\n";
    assert_eq!(rt; listed(rt.alloc(), map, &mut page)?, Ok(()));
    assert_eq!(rt; page.bytes.as_slice(), WITHOUT_SYMBOLS.as_bytes());
    Ok(())
}

#[test]
fn lines_are_written_byte_by_byte(rt: HostRuntime) -> Result<(), Fail> {
    let mut page = Page::new(rt.alloc(), 1, 1000);
    assert_eq!(rt; listed(rt.alloc(), MAP, &mut page)?, Ok(()));
    assert_eq!(rt; page.bytes.as_slice(), LISTING.as_bytes());
    Ok(())
}

#[test]
fn failed_write_leaves_a_prefix(rt: HostRuntime) -> Result<(), Fail> {
    let lengths = [0usize, 32, 66, 156];
    for calls in 0..lengths.len() {
        let mut page = Page::new(rt.alloc(), 1000, calls);
        assert_eq!(rt; listed(rt.alloc(), MAP, &mut page)?, Err(ListErr::Device));
        assert_eq!(rt; page.bytes.len(), lengths[calls], "after {calls} calls");
        assert!(rt; LISTING.as_bytes().starts_with(page.bytes.as_slice()));
        assert!(rt; page.failed());
    }
    Ok(())
}

#[test]
fn last_write_may_fail(rt: HostRuntime) -> Result<(), Fail> {
    let mut page = Page::new(rt.alloc(), 1000, 7);
    assert_eq!(rt; listed(rt.alloc(), MAP, &mut page)?, Err(ListErr::Device));
    let (first, _) = LISTING.split_at(LISTING.len() - 35);
    assert_eq!(rt; page.bytes.as_slice(), first.as_bytes());
    Ok(())
}
