//! A writer that puts names in.

ghost use Rattle.std.specs.Prelude.{◌≡◌, ◌≤◌, [], length, not, MatchOption, Some};
ghost use Rattle.ir_names.specs.Naming.{answer_start, tag, tag_text};
ghost use Rattle.ir_names.specs.Sinks.{names_of, reached_of};
ghost use Rattle.ir_names.specs.Taken.{has_no_bytes, known_plain, bytes_before_name};
ghost use Rattle.ir_stream.specs.Writing.{WritesText};

use crate::naming::is_end;
use crate::reached::Reached;
use crate::table::Names;
use ir_stream::{DeviceErr, Sink, write_all};
use std::alloc::Global;

/// A writer of answers that may put in names. Each byte of an answer passes at once, and before the end of a word that is a number of
/// something that has a name, ` <NAME>` goes to the writer behind.
#[derive(Drop)]
pub struct NamedSink<W> {
    names: Names,
    /// The writer behind.
    pub sink: W,
    reached: Reached,
}

// The name that is put in before the end of the last word, if there is one.
fn name<'a>(names: &'a Names, reached: &Reached) -> Option<&'a [u8]>
    ensures { MatchOption result (tag names.now reached.now ≡ []) (λ name. tag names.now reached.now ≡ tag_text (Some name.now)) }
{
    names.get(reached.thing()?)
}

// Whether the last word has a name.
fn has_name(names: &Names, reached: &Reached) -> bool
    ensures { result ≡ not (has_no_bytes (tag names.now reached.now)) }
{
    match name(names, reached) {
        Some(_) => true,
        None => false,
    }
}

// How many of the bytes come before the first name.
#[tactic(auto, unfolding(crate::specs::Taken::bytes_before_name))]
fn passed(names: &Names, start: &Reached, bytes: &[u8]) -> usize
    ensures value { result ≡ bytes_before_name names.now start.now bytes.now }
    ensures within { result ≤ length bytes.now }
{
    let mut reached = start.copied();
    let mut count = 0;
    for byte in bytes {
        if is_end(*byte) && has_name(names, &reached) {
            return count;
        }
        reached.step(*byte);
        count += 1;
    }
    count
}

// Puts a name in.
fn put_tag<W: Sink>(sink: &mut W, name: &[u8]) -> Result<(), DeviceErr>
    ensures { WritesText W.written W.broken sink.old sink.new (tag_text (Some name.now)) result }
{
    write_all(sink, b" <")?;
    write_all(sink, name)?;
    write_all(sink, b">")
}

// Puts the name of the last word in, if it has one.
fn put_name<W: Sink>(sink: &mut W, names: &Names, reached: &Reached) -> Result<(), DeviceErr>
    ensures { WritesText W.written W.broken sink.old sink.new (tag names.now reached.now) result }
{
    match name(names, reached) {
        Some(name) => put_tag(sink, name),
        None => Ok(()),
    }
}

impl<W> NamedSink<W> {
    /// The writer before another, without names.
    pub fn new(alloc: Global, sink: W) -> NamedSink<W>
        ensures sink { result.sink ≡ sink }
    {
        NamedSink {
            names: Names::new(alloc),
            sink,
            reached: Reached::new(false),
        }
    }

    /// Puts these names in from now on, in an answer whose lines may begin with addresses.
    pub fn begin(&mut self, names: Names, lists: bool)
        ensures names { names_of self.new ≡ names }
        ensures reached { reached_of self.new ≡ answer_start lists }
        ensures sink { self.new.sink ≡ self.old.sink }
    {
        self.names = names;
        self.reached = Reached::new(lists);
    }
}

impl<W: Sink> Sink for NamedSink<W> {
    // Which names it puts in, in numbers, and the answer without them, by what the writer behind took.
    ghost written = { λ n. known_plain (names_of n) (reached_of n) (W.broken n.sink) (W.written n.sink) };

    ghost broken = { λ n. W.broken n.sink };

    fn write(&mut self, bytes: &[u8]) -> Result<usize, DeviceErr> {
        if self.sink.failed() {
            return Err(DeviceErr);
        }
        let count = passed(&self.names, &self.reached, bytes);
        if count > 0 || bytes.is_empty() {
            let taken = self.sink.write(&bytes[..count])?;
            self.reached.take(&bytes[..taken]);
            return Ok(taken);
        }
        put_name(&mut self.sink, &self.names, &self.reached)?;
        let taken = self.sink.write(&bytes[..1])?;
        self.reached.take(&bytes[..taken]);
        Ok(taken)
    }

    fn failed(&self) -> bool {
        self.sink.failed()
    }
}
