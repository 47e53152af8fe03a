//! Laws of what recordings come to, and of hangs. Each function does nothing: its contract is the law.

ghost use Rattle.ir_explore.specs.Recorded.{HangsNeverComplete, RecordingsAreListed, RecordingsAreUntimed, RecordingsHaveOutcomes, RecordingsNeverFulfil, UntimedRecordingsAreListed};

/// A recording of the explored guest, by threads too, has one of its outcomes, unless it answered CLOCK, spent a budget or filled a log.
pub fn recordings_have_outcomes()
    ensures { RecordingsHaveOutcomes }
{}

/// If a search is finished, such a recording has one of the listed outcomes.
pub fn recordings_are_listed()
    ensures { RecordingsAreListed }
{}

/// If no run of the guest that counts answers a call for the time, no such recording does, by real threads either.
pub fn recordings_are_untimed()
    ensures { RecordingsAreUntimed }
{}

/// If a search is finished whose last line doesn't say `clock counted`, each recording of the guest has one of the listed outcomes, unless it
/// spent a budget or filled a log.
pub fn untimed_recordings_are_listed()
    ensures { UntimedRecordingsAreListed }
{}

/// If it is known that no outcome fulfils the conditions, no such recording does.
pub fn recordings_never_fulfil()
    ensures { RecordingsNeverFulfil }
{}

/// No run of the guest continues a hang to an end of all threads, unless a budget is spent or a log is full.
pub fn hangs_never_complete()
    ensures { HangsNeverComplete }
{}
