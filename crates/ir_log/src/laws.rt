//! Laws of events, each the contract of a function without parameters.

ghost use Rattle.std.specs.Prelude.{◌≡◌};
ghost use Rattle.ir_log.specs.Logging.{label_of};
ghost use Rattle.ir_log.specs.declared.event.Event.{Event};

/// Different events are the labels of different steps.
pub fn one_label_each()
    ensures { (a b : Event) → label_of a ≡ label_of b → a ≡ b }
{}
