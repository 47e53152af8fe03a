//! What holds of the places and rows of the boxes of a run. The functions do nothing: their contracts are the laws.

ghost use Rattle.ir_run_picture.specs.Laws.{BehindComesFirst, BehindIsInCut, BehindIsLeft, LeftIsConsistent, LeftIsCut, RightIsAnOrder, RowsDontOverlap};

/// In each run with the trace what the thread of an event that is needed logged before it left that comes before the event that needs it.
pub fn behind_comes_first()
    ensures { BehindComesFirst }
{}

/// A consistent cut that has the step of an event has what the thread of an event that it needs logged before it left what is needed.
pub fn behind_is_in_cut()
    ensures { BehindIsInCut }
{}

/// What an event needs, and what the thread of that logged before it left what is needed, is drawn left of the event.
pub fn behind_is_left()
    ensures { BehindIsLeft }
{}

/// What is left of an x is a consistent cut.
pub fn left_is_consistent()
    ensures { LeftIsConsistent }
{}

/// For each x there is such a cut.
pub fn left_is_cut()
    ensures { LeftIsCut }
{}

/// Left to right is the order of some run with the trace: that run takes the steps at which boxes start and end so.
pub fn right_is_an_order()
    ensures { RightIsAnOrder }
{}

/// Two boxes of a thread that have the same row don't overlap.
pub fn rows_do_not_overlap()
    ensures { RowsDontOverlap }
{}
