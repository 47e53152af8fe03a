//! What holds of runs by items. The function does nothing: its contract is the law.

ghost use Rattle.ir_shrink.specs.Laws.{EachRunIsNoBetter};

/// Of items that aren't better each run doesn't fulfil all, or has no fewer switches: so where `minimal` is said, no run by a list from which a turn
/// boundary is taken does.
pub fn each_run_is_no_better()
    ensures { EachRunIsNoBetter }
{}
