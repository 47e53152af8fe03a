//! What holds of recording and of judging a trace together. The functions do nothing: their contracts are the laws.

ghost use Rattle.ir_tests.specs.Laws.{RecordingsFit, TurnsFit, NoRefusal};

/// A recording's trace is that of a complete run of its guest under the budget in it, whatever the order, the threads'
/// speeds and their worlds' answers; so `fit` doesn't refuse it.
pub fn recordings_fit()
    ensures by_threads { RecordingsFit }
    ensures in_turns { TurnsFit }
    ensures accepted { NoRefusal }
{}
