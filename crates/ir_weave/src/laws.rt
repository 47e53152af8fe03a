//! What holds of states at consistent cuts. The function does nothing: its contract is the law.

ghost use Rattle.ir_weave.specs.Laws.{OneStateEach};

/// A guest with a trace has one state at each cut, whatever order led there.
pub fn one_state_each()
    ensures { OneStateEach }
{}
