//! What a question is about and isn't there.

ghost use Rattle.std.specs.Prelude.{◌≡◌};

/// What a trace or a run doesn't have.
#[derive(Clone, Copy, Debug, PartialEq, Eq)]
pub enum Absent {
    /// The object.
    Object,
    /// The version of the object.
    Version,
    /// The word of the object.
    Word,
    /// The thread.
    Thread,
    /// The event of the thread.
    Event,
    /// The consistent cut.
    Cut,
}

impl Absent {
    ghost use Rattle.ir_past.specs.Replies.{absent_words};

    /// What isn't there, in words.
    pub fn words(self) -> &'static str
        ensures { result.now ≡ absent_words self }
    {
        match self {
            Absent::Object => "the trace has no object of this number",
            Absent::Version => "the object has no version of this number",
            Absent::Word => "the object has no word of this number",
            Absent::Thread => "the trace has no thread of this number",
            Absent::Event => "the thread has no event of this number",
            Absent::Cut => "the positions are no consistent cut of the run",
        }
    }
}
