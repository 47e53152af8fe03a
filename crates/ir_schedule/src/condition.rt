//! What a hunt looks for in what a run came to.

ghost use Rattle.ir_schedule.specs.Conditions.{as_condition, as_fact, as_literal, fulfils, holds, is_about, is_about_each, is_so, end_state};
ghost use Rattle.std.specs.Prelude.{◌≡◌};
ghost use Rattle.std.specs.List.{list_all, list_any};

use crate::outcome::{
    end_at, ends_by, exits_with, output_at, some_bad, some_fault, some_spent, word_at,
};
use crate::text::occurs;
use ir_flat::Flat;
use ir_image::Image;

/// A fact of what a run came to. Threads, objects and words are given by their numbers, from 0.
#[derive(Clone, Copy, Debug, PartialEq, Eq)]
pub enum Fact<'a> {
    /// The thread's end has this number.
    End(u32, u32),
    /// The thread exits with this code.
    Code(u32, u32),
    /// The object's word of this index has this value at the end.
    Word(u32, u32, u32),
    /// The text occurs in what the thread printed.
    Printed(u32, &'a [u8]),
    /// Some thread doesn't exit.
    Fault,
    /// Some thread doesn't exit with code 0.
    Bad,
    /// Some thread's budget is spent.
    Budget,
}

/// A fact, or that it isn't so.
#[derive(Clone, Copy, Debug, PartialEq, Eq)]
pub struct Literal<'a> {
    /// Whether it must not be so.
    pub is_denied: bool,
    /// The fact.
    pub fact: Fact<'a>,
}

/// Literals, of which one has to hold.
#[derive(Debug, Drop)]
pub struct Condition<'a> {
    /// The literals, as they are written. There is at least one in a condition that `condition_of` gives.
    pub alternatives: Vec<Literal<'a>>,
}

impl Fact<'_> {
    // Whether it is so of what these threads and objects came to.
    fn is_so(&self, flat: &Flat<'_>) -> bool
        ensures { result ≡ is_so (as_fact self.now) (end_state flat.now) }
    {
        match *self {
            Fact::End(thread, number) => ends_by(end_at(flat, thread), number),
            Fact::Code(thread, code) => exits_with(end_at(flat, thread), code),
            Fact::Word(object, index, value) => word_at(flat, object, index) == value,
            Fact::Printed(thread, text) => occurs(text, output_at(flat, thread)),
            Fact::Fault => some_fault(flat.threads()),
            Fact::Bad => some_bad(flat.threads()),
            Fact::Budget => some_spent(flat.threads()),
        }
    }

    // Whether the guest has what it is about.
    fn is_about(&self, image: &Image) -> bool
        ensures { result ≡ is_about (as_fact self.now) image.now }
    {
        let threads = image.entries().len();
        match *self {
            Fact::End(thread, _) | Fact::Code(thread, _) | Fact::Printed(thread, _) => {
                (thread as usize) < threads
            }
            Fact::Word(object, index, _) => {
                (object as usize) < image.object_count() && (index as usize) < image.object_words()
            }
            Fact::Fault | Fact::Bad | Fact::Budget => true,
        }
    }
}

impl Literal<'_> {
    // Whether it holds of what these threads and objects came to.
    fn holds(&self, flat: &Flat<'_>) -> bool
        ensures { result ≡ holds (as_literal self.now) (end_state flat.now) }
    {
        self.fact.is_so(flat) != self.is_denied
    }
}

// Whether some literal holds of what these threads and objects came to.
fn some_holds(literals: &[Literal<'_>], flat: &Flat<'_>) -> bool
    ensures { result ≡ list_any (λ l. holds (as_literal l) (end_state flat.now)) literals.now }
{
    literals.iter().any(|literal| literal.holds(flat))
}

// Whether the guest has what each literal is about.
fn each_is_about(literals: &[Literal<'_>], image: &Image) -> bool
    ensures { result ≡ list_all (λ l. is_about (as_fact l.fact) image.now) literals.now }
{
    literals.iter().all(|literal| literal.fact.is_about(image))
}

impl Condition<'_> {
    /// Whether one of its literals holds of what these threads and objects came to.
    pub fn holds(&self, flat: &Flat<'_>) -> bool
        ensures { result ≡ fulfils (as_condition self.now) (end_state flat.now) }
    {
        some_holds(self.alternatives.as_slice(), flat)
    }

    /// Whether the guest has the threads, the objects and the words that its literals are about.
    pub fn is_about(&self, image: &Image) -> bool
        ensures { result ≡ is_about_each (as_condition self.now) image.now }
    {
        each_is_about(self.alternatives.as_slice(), image)
    }
}
