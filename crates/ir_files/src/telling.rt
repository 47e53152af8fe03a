//! Faults, reported in one line.

ghost use Rattle.std.specs.Prelude.{◌≡◌, ◌<◌, [], ◌∷◌, length, false, MatchOption};
ghost use Rattle.std.specs.List.{list_all};
ghost use Rattle.ir_files.specs.Shown.{shown, shown_byte, is_plain};
ghost use Rattle.ir_stream.specs.Writing.{WritesText};
ghost use Rattle.ir_files.specs.Writers.{writer_of, Reports, fault_text, named_fault};

use ir_stream::{DeviceErr, Sink, write_all};

// A byte as it is shown, which is no part of a longer control character.
fn shown_byte(byte: u8) -> u8
    ensures { result ≡ shown_byte byte }
{
    if byte < 32 || byte == 127 { b'?' } else { byte }
}

// Whether a byte is shown as it is, whatever follows it.
fn is_plain(byte: u8) -> bool
    ensures { result ≡ is_plain byte }
{
    byte >= 32 && byte != 127 && byte != 194
}

// Whether all bytes of a text are shown as they are, whatever follows them.
fn all_are_plain(text: &[u8]) -> bool
    ensures { result ≡ list_all is_plain text.now }
{
    text.iter().all(|byte| is_plain(*byte))
}

// The first character or byte of a text as it is shown, and what follows it; none where the text is empty.
fn first_shown(text: &[u8]) -> Option<(u8, &[u8])>
    ensures { MatchOption result (text.now ≡ []) (λ first. (shown text.now ≡ first.0 ∷ shown first.1.now) × (length first.1.now < length text.now)) }
{
    match text {
        [] => None,
        [194, 128..=159, after @ ..] => Some((b'?', after)),
        [byte, after @ ..] => Some((shown_byte(*byte), after)),
    }
}

// Writes a text byte by byte, a question mark for each control character.
fn put_each<E: Sink>(faults: &mut E, text: &[u8]) -> Result<(), DeviceErr>
    ensures { WritesText E.written E.broken faults.old faults.new (shown text.now) result }
{
    let mut rest = text;
    'bytes: while let Some((byte, after)) = first_shown(rest) {
        write_all(faults, &[byte])?;
        rest = after;
    }
    Ok(())
}

// Writes a text, a question mark for each control character.
#[tactic(auto, using(crate::proofs::Shown::shown_of_plain_text))]
fn put_shown<E: Sink>(faults: &mut E, text: &str) -> Result<(), DeviceErr>
    ensures { WritesText E.written E.broken faults.old faults.new (shown text.now) result }
{
    let bytes = text.as_bytes();
    if all_are_plain(bytes) {
        write_all(faults, bytes)
    } else {
        put_each(faults, bytes)
    }
}

// Writes one line that says what failed, or is wrong, and why.
fn reported<E: Sink>(
    faults: &mut E,
    before: &str,
    name: &str,
    what: &str,
    why: &str,
) -> Result<(), DeviceErr>
    ensures { WritesText E.written E.broken faults.old faults.new (fault_text (named_fault before.now name.now what.now why.now)) result }
{
    write_all(faults, b"ir: ")?;
    write_all(faults, before.as_bytes())?;
    put_shown(faults, name)?;
    write_all(faults, what.as_bytes())?;
    put_shown(faults, why)?;
    write_all(faults, b"\n")
}

/// Reports a fault of a named thing in one line, for which no memory is taken: a control character of the name, as a line feed,
/// is written as a question mark, and so is one of the reason. If that fails, there is no one left to report it to.
pub fn tell_of<E: Sink>(faults: &mut E, before: &str, name: &str, what: &str, why: &str)
    requires works { E.broken faults.old ≡ false }
    ensures { Reports (writer_of (E.written faults.old) (E.written faults.new) (E.broken faults.new)) (fault_text (named_fault before.now name.now what.now why.now)) }
{
    let _ = reported(faults, before, name, what, why);
}

// Writes the line that reports a fault.
fn put_line<E: Sink>(faults: &mut E, words: &str) -> Result<(), DeviceErr>
    ensures { WritesText E.written E.broken faults.old faults.new (fault_text words.now) result }
{
    write_all(faults, b"ir: ")?;
    write_all(faults, words.as_bytes())?;
    write_all(faults, b"\n")
}

/// Reports a fault in one line, for which no memory is taken. If that fails, there is no one left to report it to.
pub fn tell<E: Sink>(faults: &mut E, words: &str)
    requires works { E.broken faults.old ≡ false }
    ensures { Reports (writer_of (E.written faults.old) (E.written faults.new) (E.broken faults.new)) (fault_text words.now) }
{
    let _ = put_line(faults, words);
}
