//! Events as the bytes of a trace.

use ir_log::Event;
use std::alloc::AllocError;

// Adds the bytes of an event.
pub fn put(bytes: &mut Vec<u8>, event: Event) -> Result<(), AllocError> {
    match event {
        Event::Answer(_, value) => {
            bytes.push(1)?;
            bytes.extend_from_slice(&value.to_le_bytes())
        }
        Event::Read { object, version } => {
            bytes.extend_from_slice(&[4, object])?;
            bytes.extend_from_slice(&version.to_le_bytes())
        }
        Event::Write {
            object,
            version,
            readers,
        } => {
            bytes.extend_from_slice(&[5, object])?;
            bytes.extend_from_slice(&version.to_le_bytes())?;
            bytes.extend_from_slice(&readers.to_le_bytes())
        }
        Event::Try { object } => bytes.extend_from_slice(&[6, object]),
    }
}
