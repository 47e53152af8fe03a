//! Standard output that nobody reads any more.

ghost use Rattle.std.specs.Prelude.{◌≡◌, None, OnOk, OnErr, true};

use ir_stream::{DeviceErr, Sink, write_all};
use std::io::{self, ErrorKind, Write};
use std::sync::atomic::{AtomicBool, Ordering};

// The line that reports that standard output can't be written.
const UNWRITTEN: &[u8] = b"ir: standard output can't be written\n";

/// Who reads standard output, by what writing it has shown.
#[derive(Drop)]
pub struct Reader {
    // Whether a write failed because nobody reads any more.
    is_gone: AtomicBool,
    // Whether a line that would only report that was kept back.
    is_kept_back: AtomicBool,
}

impl Reader {
    /// Before the first write.
    pub fn new() -> Reader {
        Reader {
            is_gone: AtomicBool::new(false),
            is_kept_back: AtomicBool::new(false),
        }
    }

    // Whether nobody reads any more.
    fn is_gone(&self) -> bool {
        self.is_gone.load(Ordering::Relaxed)
    }

    /// Whether it was kept back that nobody reads any more.
    pub fn is_kept_back(&self) -> bool {
        self.is_kept_back.load(Ordering::Relaxed)
    }
}

/// A writer that notices whether nobody reads what it writes.
#[derive(Drop)]
pub struct Noticing<'a, W> {
    writer: W,
    reader: &'a Reader,
}

impl<'a, W: Write> Noticing<'a, W> {
    /// The writer, beside what is known of its reader.
    pub fn new(writer: W, reader: &'a Reader) -> Noticing<'a, W>
        ensures { W.contents result.writer ≡ W.contents writer }
    {
        Noticing { writer, reader }
    }
}

impl<W: Write> Write for Noticing<'_, W> {
    ghost contents = { λ n. W.contents n.writer };

    fn write(&mut self, buf: &[u8]) -> io::Result<usize> {
        match self.writer.write(buf) {
            Ok(count) => Ok(count),
            Err(error) => {
                if error.kind() == ErrorKind::BrokenPipe {
                    self.reader.is_gone.store(true, Ordering::Relaxed);
                }
                Err(error)
            }
        }
    }

    fn flush(&mut self) -> io::Result<()> {
        self.writer.flush()
    }
}

/// A sink of faults that keeps back the line that standard output can't be written where that is because nobody reads it. Every other
/// line is written.
#[derive(Drop)]
pub struct Sparing<'a, S> {
    sink: S,
    reader: &'a Reader,
    // How many bytes of the line have come, and are neither written nor dropped.
    held: usize,
}

impl<'a, S: Sink> Sparing<'a, S> {
    /// The sink, beside what is known of the reader of standard output.
    pub fn new(sink: S, reader: &'a Reader) -> Sparing<'a, S>
        ensures { S.broken result.sink ≡ S.broken sink }
    {
        Sparing {
            sink,
            reader,
            held: 0,
        }
    }

    // Whether these bytes are the next of the line, which is to be kept back.
    fn keeps_back(&mut self, bytes: &[u8]) -> bool
        ensures { self.new.sink ≡ self.old.sink }
    {
        if !self.reader.is_gone() {
            return false;
        }
        let rest = UNWRITTEN.get(self.held..).unwrap_or_default();
        if !rest.starts_with(bytes) {
            return false;
        }
        self.held = self.held.saturating_add(bytes.len());
        if rest.len() == bytes.len() {
            self.held = 0;
            self.reader.is_kept_back.store(true, Ordering::Relaxed);
        }
        true
    }

    // Writes what is held: another line began as this one does.
    fn give_back(&mut self) -> Result<(), DeviceErr>
        ensures stays { OnOk result (S.broken self.new.sink ≡ S.broken self.old.sink) }
        ensures err { OnErr result (S.broken self.new.sink ≡ true) }
    {
        let held = UNWRITTEN.get(..self.held).unwrap_or_default();
        self.held = 0;
        write_all(&mut self.sink, held)
    }
}

impl<S: Sink> Sink for Sparing<'_, S> {
    // What is kept back isn't written, so what was written isn't known.
    ghost written = { λ _. None };

    ghost broken = { λ s. S.broken s.sink };

    fn write(&mut self, bytes: &[u8]) -> Result<usize, DeviceErr> {
        if self.keeps_back(bytes) {
            return Ok(bytes.len());
        }
        self.give_back()?;
        self.sink.write(bytes)
    }

    fn failed(&self) -> bool {
        self.sink.failed()
    }
}
