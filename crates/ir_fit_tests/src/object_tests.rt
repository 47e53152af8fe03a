//! The word beside a list of readers and a writer.

use ir_image::MOST_OBJECT_WORDS;
use ir_object::{Object, Word};
use ir_runs::Access;
use std::alloc::Global;
use std::test::Fail;

// The slow way: the numbers of the readers inside, and the writer's.
#[derive(Drop)]
struct Slow {
    version: u64,
    left: u64,
    readers: Vec<u64>,
    writer: Option<u64>,
}

impl Slow {
    fn can(&self, thread: u64, step: u64) -> bool {
        let reads = self.readers.as_slice().contains(&thread);
        match step {
            0 => self.writer.is_none() && !reads,
            1 => self.writer.is_none() && self.readers.is_empty(),
            _ => reads || self.writer == Some(thread),
        }
    }

    fn take(&mut self, thread: u64, step: u64) -> Result<(), Fail> {
        match step {
            0 => self.readers.push(thread)?,
            1 => self.writer = Some(thread),
            _ if self.writer == Some(thread) => {
                self.version = self.version.saturating_add(1);
                self.left = 0;
                self.writer = None;
            }
            _ => {
                self.left = self.left.saturating_add(1);
                self.readers.retain(|reader| *reader != thread);
            }
        }
        Ok(())
    }

    // Whether the object says the same: its word, and who can enter.
    fn is(&self, object: &Object) -> bool {
        let enters = object.can_read() == self.can(9, 0) && object.can_write() == self.can(9, 1);
        enters && object.word().bits == self.word()
    }

    fn word(&self) -> u64 {
        let readers = self.readers.len() as u64;
        let writer = u64::from(self.writer.is_some());
        self.version
            .saturating_mul(0x1_0000_0000)
            .saturating_add(self.left.saturating_mul(128))
            .saturating_add(readers.saturating_mul(2))
            .saturating_add(writer)
    }
}

// The object after the step, where the step is one that its word allows.
fn fast(object: &mut Object, step: u64, writes: bool) {
    let fields = object.fields();
    if fields.inside > 50 || fields.left > 100 || fields.version > 100 {
        return;
    }
    match step {
        0 if object.can_read() => object.enter(Access::Reading),
        1 if object.can_write() => object.enter(Access::Writing),
        2 if writes && fields.writer => object.leave(Access::Writing),
        2 if !writes && fields.inside > 0 => object.leave(Access::Reading),
        _ => {}
    }
}

// Whether the two go together along five steps of three threads, each of which enters for reading by 0, for writing by 1
// and leaves by 2; the number says which steps.
fn go_together(alloc: Global, number: u64) -> Result<bool, Fail> {
    let mut slow = Slow {
        version: 0,
        left: 0,
        readers: Vec::new(alloc),
        writer: None,
    };
    let mut object = Object::new([0; MOST_OBJECT_WORDS]);
    let mut rest = number;
    for _ in 0..5 {
        let (thread, step) = (rest % 3, rest / 3 % 3);
        rest /= 9;
        if slow.can(thread, step) {
            fast(&mut object, step, slow.writer.is_some());
            slow.take(thread, step)?;
        }
        if !slow.is(&object) {
            return Ok(false);
        }
    }
    Ok(true)
}

#[test]
fn the_word_goes_with_the_list(rt: HostRuntime) -> Result<(), Fail> {
    for number in 0..59_049u64 {
        assert!(rt; go_together(rt.alloc(), number)?, "by {number}");
    }
    Ok(())
}

#[test]
fn words_say_what_was_packed(rt: HostRuntime) {
    let word = Word {
        bits: 0x0000_0007_0000_0483,
    };
    let fields = word.fields();
    assert_eq!(rt;
        (fields.version, fields.left, fields.inside, fields.writer),
        (7, 9, 1, true)
    );
    assert_eq!(rt; Word::pack(fields), word);
}

// As a reader leaves, 126 is added: it is no longer inside, and has left.
#[test]
fn a_reader_leaves_by_126(rt: HostRuntime) {
    let mut object = Object::new([0; MOST_OBJECT_WORDS]);
    object.enter(Access::Reading);
    let inside = object.word().bits;
    object.leave(Access::Reading);
    assert_eq!(rt; (inside, object.word().bits), (2, 128));
    assert_eq!(rt; Word::READER_LEAVES, 126);
    object.enter(Access::Writing);
    assert_eq!(rt; object.word().bits, 129);
}

#[test]
fn what_is_put_is_held(rt: HostRuntime) {
    let mut object = Object::new([5; MOST_OBJECT_WORDS]);
    object.put(3, 8);
    assert_eq!(rt; (object.get(3), object.get(7)), (8, 5));
    let copy = object.copy();
    assert_eq!(rt; &copy.contents()[..5], [5, 5, 5, 8, 5].as_slice());
    assert_eq!(rt; copy.contents().len(), 16);
}
