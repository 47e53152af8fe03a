//! What is known of the versions of objects while places are proposed.

use ir_log::Event;
use ir_picture::{Point, START, later};
use std::alloc::{AllocError, Global};

// What is known of a version of an object.
#[derive(Clone, Copy, Debug, PartialEq, Eq)]
struct Version {
    // After what made it, if that has its place.
    made: Option<Point>,
    // How many of its read entries have their places.
    readers: u32,
    // After these.
    left: Point,
}

const NOTHING: Version = Version {
    made: None,
    readers: 0,
    left: START,
};

/// What is known of each version of each object.
#[derive(Drop)]
pub struct Known {
    objects: Vec<Vec<Version>>,
}

impl Known {
    /// Nothing, of this many objects.
    ///
    /// # Errors
    /// Out of memory.
    pub fn new(alloc: Global, objects: u8) -> Result<Known, AllocError> {
        let mut all = Vec::new(alloc);
        for _ in 0..objects {
            all.push(Vec::new(alloc))?;
        }
        Ok(Known { objects: all })
    }

    // What is known of a version.
    fn at(&self, object: u8, version: usize) -> Version {
        let Some(versions) = self.objects.get(object as usize) else {
            return NOTHING;
        };
        match versions.get(version) {
            Some(known) => *known,
            None => NOTHING,
        }
    }

    // Notes what is known of a version.
    fn set(&mut self, object: u8, version: usize, known: Version) -> Result<(), AllocError> {
        let Some(versions) = self.objects.get_mut(object as usize) else {
            return Ok(());
        };
        if versions.len() <= version {
            versions.resize(version.saturating_add(1), NOTHING)?;
        }
        if let Some(place) = versions.get_mut(version) {
            *place = known;
        }
        Ok(())
    }

    // After what made a version, if that has its place; nothing made the first.
    fn after_maker(&self, object: u8, version: u32) -> Option<Point> {
        if version == 0 {
            Some(START)
        } else {
            self.at(object, version as usize).made
        }
    }

    /// After all that an event needs, if all of that has its place.
    pub fn after_needs(&self, event: Event) -> Option<Point> {
        match event {
            Event::Answer(..) => Some(START),
            Event::Try { .. } => Some(START),
            Event::Read { object, version } => self.after_maker(object, version),
            Event::Write {
                object,
                version,
                readers,
            } => {
                let known = self.at(object, version as usize);
                if known.readers == readers {
                    Some(later(self.after_maker(object, version)?, known.left))
                } else {
                    None
                }
            }
        }
    }

    // Notes that an event has its place, and the first place after it.
    fn note(&mut self, event: Event, after: Point) -> Result<(), AllocError> {
        match event {
            Event::Answer(..) => Ok(()),
            Event::Try { .. } => Ok(()),
            Event::Read { object, version } => {
                let known = self.at(object, version as usize);
                let more = Version {
                    readers: known.readers.saturating_add(1),
                    left: later(known.left, after),
                    ..known
                };
                self.set(object, version as usize, more)
            }
            Event::Write {
                object,
                version,
                ..
            } => {
                let next = (version as usize).saturating_add(1);
                let more = Version {
                    made: Some(after),
                    ..self.at(object, next)
                };
                self.set(object, next, more)
            }
        }
    }

    /// Notes that events have their place, and the first place after it.
    ///
    /// # Errors
    /// Out of memory.
    pub fn note_all(&mut self, events: &[Event], after: Point) -> Result<(), AllocError> {
        for event in events {
            self.note(*event, after)?;
        }
        Ok(())
    }
}
