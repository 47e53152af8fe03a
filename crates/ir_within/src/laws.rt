//! What the answers mean for the runs of the guests. Each function does nothing: its contract is the law.

ghost use Rattle.ir_within.specs.Laws.{ClassHasFewest, EachClassIsListed, OutsideIsSome, RecordedIsOutside, WithinIsEach};

/// If the answer is `within`, each complete run of the guest comes to what some complete run of the other comes to, in what counts. Runs in which
/// a budget is spent or a log is full aside.
pub fn within_is_each()
    ensures { WithinIsEach }
{}

/// If the answer is `outside`, some complete run of the guest comes to what no complete run of the other comes to, in what counts.
pub fn outside_is_some()
    ensures { OutsideIsSome }
{}

/// Once the search is finished, each complete run of the guest comes to an outcome whose class is printed. Runs in which a budget is spent or a log is
/// full aside.
pub fn each_class_is_listed()
    ensures { EachClassIsListed }
{}

/// Once the search is finished, no complete run of the guest that comes to an outcome of a class has fewer switches than the outcome that is printed
/// of it. Runs in which a budget is spent or a log is full aside.
pub fn class_has_fewest()
    ensures { ClassHasFewest }
{}

/// What is recorded of an outcome that is outside is of a complete run of the guest, which comes to what no complete run of the other comes to, in what
/// counts. Runs in which a budget is spent or a log is full aside.
pub fn recorded_is_outside()
    ensures { RecordedIsOutside }
{}
