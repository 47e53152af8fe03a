//! Laws of runs by a chooser, each the contract of a function without parameters.

ghost use Rattle.ir_schedule.specs.Laws.{SchedulesAreOrders, SchedulesAreOfThreads};

/// A run by a chooser is the run by the order of its steps' threads.
pub fn schedules_are_orders()
    ensures { SchedulesAreOrders }
{}

/// Each step of a run by a chooser is of one of the guest's threads.
pub fn schedules_are_of_threads()
    ensures { SchedulesAreOfThreads }
{}
