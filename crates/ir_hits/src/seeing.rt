//! What points see of a thread before and after one of its steps.

ghost use Rattle.std.specs.Prelude.{◌≡◌, ◌<◌, ◌↔◌, true, false, Some, length, IsTrue};
ghost use Rattle.ir_hits.specs.Hits.{puts_at};
ghost use Rattle.ir_runs.specs.declared.access.Access.TheVariants.{Writing};
ghost use Rattle.ir_thread.specs.State.{held_at};
ghost use Rattle.ir_hits.specs.Watchable.{AreWatchable, IsWatchable};
ghost use Rattle.ir_hits.specs.Seeing.{SomeConcerns, Concerns, IsNoted, AllNoted, SeesHit, IsLowestOf, lower_of};

use crate::before::Before;
use crate::point::{NumberedPoint, OBJECT_SIZE, OBJECTS_START};
use ir_command::Point;
use ir_image::Code;
use ir_runs::Access;
use ir_thread::{Ask, Thread};

// Whether the point may hit thread t.
fn concerns(t: usize, point: Point) -> bool
    ensures { IsTrue result ↔ Concerns t point }
{
    match point {
        Point::Break { thread, .. } | Point::Watch { thread, .. } => thread as usize == t,
        Point::WatchObject { .. } => true,
    }
}

// Whether some point may.
pub fn some_concerns(t: usize, points: &[NumberedPoint]) -> bool
    ensures { result ≡ false → SomeConcerns t points.now → ⊥ }
{
    for i in 0..points.len() {
        if concerns(t, points[i].point()) {
            return true;
        }
    }
    false
}

// Whether the thread is inside the object for writing.
fn is_writing(thread: &Thread, object: u32) -> bool
    ensures { IsTrue result ↔ (held_at thread.now.held object ≡ Some Writing) }
{
    let held = thread.held();
    let o = object as usize;
    o < held.len() && matches!(held[o], Some(Access::Writing))
}

// Whether what a thread asks is to put the word of an object at an address.
fn puts_at(address: u32, asked: Ask) -> bool
    ensures { result ≡ puts_at address asked }
{
    let Ask::Put(object, index, _) = asked else {
        return false;
    };
    OBJECTS_START + OBJECT_SIZE * u32::from(object) + 4 * u32::from(index) == address
}

// What the point notes of thread t.
fn note(thread: &Thread, code: &Code, t: usize, point: Point) -> Before
    requires { IsWatchable point }
    ensures { IsNoted code.now t thread.now point result }
{
    match point {
        Point::Break { .. } => Before::Nothing,
        Point::Watch { thread: u, address } => {
            if u as usize != t {
                return Before::Nothing;
            }
            if address < OBJECTS_START {
                return Before::Word(thread.mach().load_word(address));
            }
            if puts_at(address, thread.ask(code)) {
                return Before::Putting;
            }
            Before::Nothing
        }
        Point::WatchObject { object } => {
            if is_writing(thread, object) {
                Before::Inside
            } else {
                Before::Nothing
            }
        }
    }
}

// What each point notes of thread t.
pub fn note_all(
    thread: &Thread,
    code: &Code,
    t: usize,
    points: &[NumberedPoint],
    notes: &mut [Before],
)
    requires points { AreWatchable points.now }
    requires size { length notes.old ≡ length points.now }
    ensures { AllNoted code.now t thread.now points.now notes.new }
{
    for i in 0..points.len() {
        notes[i] = note(thread, code, t, points[i].point());
    }
}

// Whether the point hits thread t, whose last position is this, where it noted this of it before the step.
fn hits(thread: &Thread, t: usize, last: u64, before: Before, point: Point) -> bool
    requires { IsWatchable point }
    ensures { IsTrue result ↔ SeesHit t last thread.now before point }
{
    match point {
        Point::Break { thread: u, address } => {
            u as usize == t && thread.mach().pc() == address && thread.steps() < last
        }
        Point::Watch { address, .. } => match before {
            Before::Word(word) => {
                address < OBJECTS_START && word != thread.mach().load_word(address)
            }
            Before::Putting => true,
            Before::Nothing | Before::Inside => false,
        },
        Point::WatchObject { object } => match before {
            Before::Inside => !is_writing(thread, object),
            Before::Nothing | Before::Word(_) | Before::Putting => false,
        },
    }
}

// The lower of both numbers, where there are two.
fn lower(found: Option<u32>, number: u32) -> u32
    ensures { result ≡ lower_of found number }
{
    found.map_or(number, |least| least.min(number))
}

// The lowest number of the points that hit thread t, if one does.
pub fn lowest(
    thread: &Thread,
    t: usize,
    last: u64,
    points: &[NumberedPoint],
    notes: &[Before],
) -> Option<u32>
    requires points { AreWatchable points.now }
    requires size { length notes.now ≡ length points.now }
    ensures { IsLowestOf t last thread.now notes.now points.now (length points.now) result }
{
    let mut found: Option<u32> = None;
    for i in 0..points.len() {
        let point = points[i];
        let before = notes[i];
        if hits(thread, t, last, before, point.point()) {
            found = Some(lower(found, point.number()));
        }
    }
    found
}
