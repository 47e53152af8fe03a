//! Laws of runs by an order, each the contract of a function without parameters.

ghost use Rattle.ir_order.specs.Complete.{CompleteRunsHaveSteps};
ghost use Rattle.ir_order.specs.OneRun.{OneRunByAnOrder, OneRunByTurns, PlainTurnsAreOrders};
ghost use Rattle.ir_order.specs.Recording.{OneRecordingByAList, RecordingsAreOfTheRun};

/// Of a guest, an order of its threads and what their worlds are made with, there is one run.
pub fn one_run_by_an_order()
    ensures { OneRunByAnOrder }
{}

/// The same of turns, in which tries may be refused.
pub fn one_run_by_turns()
    ensures { OneRunByTurns }
{}

/// Turns in which no try is refused that may enter are the order of their threads.
pub fn plain_turns_are_orders()
    ensures { PlainTurnsAreOrders }
{}

/// What is recorded with a list is of each run that the guest makes by the list's turns with the same answers.
pub fn recordings_are_of_the_run()
    ensures { RecordingsAreOfTheRun }
{}

/// What is recorded of an image with a list is always the same.
pub fn one_recording_by_a_list()
    ensures { OneRecordingByAList }
{}

/// A complete run of a guest has a step, so its order can be printed.
pub fn complete_runs_have_steps()
    ensures { CompleteRunsHaveSteps }
{}
