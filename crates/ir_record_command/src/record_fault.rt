//! Why there is no recording.

ghost use Rattle.std.specs.Prelude.{◌≡◌};
ghost use Rattle.ir_record_command.specs.Faults.{image_words};

use crate::order::OrderErr;
use ir_files::ExitStatus;
use ir_image::ImageErr;
use std::alloc::AllocError;

/// Why a guest was not recorded, or its recording not written.
#[derive(Debug, Drop)]
pub enum RecordFault {
    /// The image is refused.
    Image(ImageErr),
    /// The guest has more threads or objects than the profile allows. Only the first allows fewer than an image may have.
    TooLarge,
    /// The list spells no order of the guest's threads, of which there are so many.
    Order(usize),
    /// Out of memory.
    NoMem,
    /// The clock can't be read.
    Clock,
    /// The trace can't be written.
    Trace,
    /// What a thread printed can't be written.
    Output,
    /// The lines can't be written.
    Lines,
}

impl RecordFault {
    ghost use Rattle.ir_record_command.specs.Faults.{fault_status, record_fault_words, of_image, of_order};

    /// The fault that a refusal of the image is.
    pub fn of_image(why: &ImageErr) -> RecordFault
        ensures { result ≡ of_image why.now }
    {
        match why {
            ImageErr::Short => RecordFault::Image(ImageErr::Short),
            ImageErr::Magic => RecordFault::Image(ImageErr::Magic),
            ImageErr::Count => RecordFault::Image(ImageErr::Count),
            ImageErr::Entry => RecordFault::Image(ImageErr::Entry),
            ImageErr::Trailing => RecordFault::Image(ImageErr::Trailing),
            ImageErr::NoMem => RecordFault::NoMem,
        }
    }

    /// The fault that a refusal of the list is, for a guest of `threads` threads.
    pub fn of_order(why: &OrderErr, threads: usize) -> RecordFault
        ensures { result ≡ of_order threads why.now }
    {
        match why {
            OrderErr::Bad => RecordFault::Order(threads),
            OrderErr::NoMem => RecordFault::NoMem,
        }
    }

    /// The exit status.
    pub fn status(&self) -> ExitStatus
        ensures { result ≡ fault_status self.now }
    {
        match self {
            RecordFault::Image(_) | RecordFault::TooLarge | RecordFault::Order(_) => {
                ExitStatus::Refused
            }
            RecordFault::NoMem | RecordFault::Clock => ExitStatus::Failed,
            RecordFault::Trace | RecordFault::Output | RecordFault::Lines => ExitStatus::Failed,
        }
    }

    /// The fault in words.
    pub fn words(&self) -> &'static str
        ensures { result.now ≡ record_fault_words self.now }
    {
        match self {
            RecordFault::Image(why) => image_words(why),
            RecordFault::TooLarge =>
                "the first profile takes at most 8 threads and 16 objects, and --profile 2 takes more",
            RecordFault::Order(_) => "LIST is no order of this image's threads",
            RecordFault::NoMem => "memory ran out",
            RecordFault::Clock => "the clock can't be read",
            RecordFault::Trace => "the trace can't be written",
            RecordFault::Output => "an output can't be written",
            RecordFault::Lines => "standard output can't be written",
        }
    }
}

fn image_words(why: &ImageErr) -> &'static str
    ensures { result.now ≡ image_words why.now }
{
    match why {
        ImageErr::Short => "the image is refused, 1: a field passes the end",
        ImageErr::Magic => "the image is refused, 2: these bytes are no image",
        ImageErr::Count => "the image is refused, 3: a count is over its limit, or no thread",
        ImageErr::Entry => "the image is refused, 4: an entry is no place in the code",
        ImageErr::Trailing => "the image is refused, 5: bytes stand after the end",
        ImageErr::NoMem => "memory ran out",
    }
}

impl From<AllocError> for RecordFault {
    ghost use Rattle.ir_record_command.specs.declared.record_fault.RecordFault.TheVariants.{NoMem};

    ghost from_gives = { λ _ e. e ≡ NoMem };

    fn from(_e: AllocError) -> RecordFault {
        RecordFault::NoMem
    }
}
