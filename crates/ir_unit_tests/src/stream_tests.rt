//! Readers and writers of std as sources and sinks, and what is kept of a line.

ghost use Rattle.std.specs.Prelude.{IfOk, ◌≤◌};

use ir_stream::{DeviceErr, FromStd, KEPT, Next, Sink, Source, append, keep, next_byte, write_all};
use std::io::{Error, ErrorKind, Read, Write};

// A reader and writer of std that is interrupted, takes one byte, takes none, and fails.
#[derive(Drop)]
struct Flaky {
    calls: u32,
}

impl Flaky {
    fn call(&mut self) -> std::io::Result<usize>
        ensures { IfOk result (λ n. n ≤ 1) }
    {
        self.calls = self.calls.saturating_add(1);
        match self.calls {
            1 => Err(Error::from(ErrorKind::Interrupted)),
            2 => Ok(1),
            3 => Ok(0),
            _ => Err(Error::from(ErrorKind::BrokenPipe)),
        }
    }
}

impl Read for Flaky {
    fn read(&mut self, buf: &mut [u8]) -> std::io::Result<usize> {
        let n = self.call()?;
        Ok(n.min(buf.len()))
    }
}

impl Write for Flaky {
    fn write(&mut self, buf: &[u8]) -> std::io::Result<usize> {
        let n = self.call()?;
        Ok(n.min(buf.len()))
    }

    fn flush(&mut self) -> std::io::Result<()> {
        Ok(())
    }
}

#[test]
fn a_reader_of_std_is_a_source(rt: HostRuntime) {
    let mut reader = FromStd::new(b"ab".as_slice());
    for wanted in [Next::Byte(b'a'), Next::Byte(b'b'), Next::End] {
        assert_eq!(rt; next_byte(&mut reader), wanted);
        assert!(rt; !Source::failed(&reader));
    }
}

#[test]
fn a_writer_of_std_is_a_sink(rt: HostRuntime) {
    let mut writer = FromStd::new(Vec::new(rt.alloc()));
    assert_eq!(rt; write_all(&mut writer, b"answers"), Ok(()));
    assert!(rt; !Sink::failed(&writer));
}

#[test]
fn a_sink_fails_as_its_writer_does(rt: HostRuntime) {
    let mut flaky = FromStd::new(Flaky { calls: 0 });
    assert_eq!(rt; Sink::write(&mut flaky, b"xy"), Ok(1));
    assert!(rt; !Sink::failed(&flaky));
    assert_eq!(rt; Sink::write(&mut flaky, b"xy"), Err(DeviceErr));
    assert!(rt; Sink::failed(&flaky));
}

#[test]
fn a_source_fails_as_its_reader_does(rt: HostRuntime) {
    let mut flaky = FromStd::new(Flaky { calls: 0 });
    let read = (
        Source::read(&mut flaky, &mut [0]),
        Source::read(&mut flaky, &mut [0]),
    );
    assert_eq!(rt; read, (Ok(1), Ok(0)));
    assert!(rt; !Source::failed(&flaky));
    assert_eq!(rt; Source::read(&mut flaky, &mut [0]), Err(DeviceErr));
    assert!(rt; Source::failed(&flaky));
}

#[test]
fn appends_pieces(rt: HostRuntime) {
    let mut text = arrayvec::ArrayVec::<u8, 8>::new();
    append(&mut text, b"at ");
    append(&mut text, b"0");
    assert_eq!(rt; text.as_slice(), b"at 0".as_slice());
}

#[test]
fn a_line_keeps_one_byte_more_than_it_may_have(rt: HostRuntime) {
    let mut line = arrayvec::ArrayVec::<u8, KEPT>::new();
    for _ in 0..5000 {
        keep(&mut line, b'x');
    }
    assert_eq!(rt; line.len(), KEPT);
}
