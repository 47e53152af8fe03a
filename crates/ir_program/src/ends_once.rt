//! A reader whose end is final.

ghost use Rattle.std.specs.Prelude.{◌≡◌, [], Some, false, if◌then◌else◌};

use ir_stream::{DeviceErr, Source};

/// A reader that isn't asked again after it has come to its end, if that end is final. At a terminal each further read would wait for
/// another Ctrl-D.
#[derive(Drop)]
pub struct EndsOnce<S> {
    reader: S,
    is_final: bool,
    has_ended: bool,
}

impl<S: Source> EndsOnce<S> {
    /// The reader, before its end.
    pub fn new(reader: S, is_final: bool) -> EndsOnce<S>
        ensures reader { result.reader ≡ reader }
        ensures goes { result.has_ended ≡ false }
    {
        EndsOnce {
            reader,
            is_final,
            has_ended: false,
        }
    }
}

impl<S: Source> Source for EndsOnce<S> {
    // Nothing is left after an end that is final, whatever the reader would give.
    ghost left = { λ e. if e.has_ended then Some [] else S.left e.reader };

    ghost broken = { λ e. S.broken e.reader };

    fn read(&mut self, buffer: &mut [u8]) -> Result<usize, DeviceErr> {
        if self.has_ended {
            return Ok(0);
        }
        let count = self.reader.read(buffer)?;
        if count == 0 && !buffer.is_empty() && self.is_final {
            self.has_ended = true;
        }
        Ok(count)
    }

    fn failed(&self) -> bool {
        self.reader.failed()
    }
}
