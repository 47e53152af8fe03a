//! Laws of the lines that ask something of a recorded run.

ghost use Rattle.std.specs.Prelude.{◌≡◌, ℕ, List, Some, Err};
ghost use Rattle.ir_command.specs.Commands.{command_of};
ghost use Rattle.ir_command.specs.declared.refusal.Refusal.TheVariants.{UnknownCommand};
ghost use Rattle.ir_monitor.specs.Asking.{asked_of};
ghost use Rattle.ir_monitor.specs.declared.asked.Asked.{Asked};

/// No question is a command of a session: a session refuses its line as an unknown command.
pub fn no_question_is_a_command()
    ensures { (line : List ℕ) (asked : Asked) → asked_of line ≡ Some asked → command_of line ≡ Err UnknownCommand }
{}
