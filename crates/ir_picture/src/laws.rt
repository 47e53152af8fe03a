//! What a reader may rely on of places, and of traces of runs. The functions do nothing: their contracts are the laws.

ghost use Rattle.ir_picture.specs.Places.{PlacedNeedsAreLeft};
ghost use Rattle.ir_picture.specs.Runs.{RunsHaveNoCircle};

/// Of boxes that are placed, what a box needs ends left of where it starts, by both numbers.
pub fn needs_are_left()
    ensures { PlacedNeedsAreLeft }
{}

/// A trace of a run, of threads of any code, has no circle: the run logs each event after all that it needs.
pub fn runs_have_no_circle()
    ensures { RunsHaveNoCircle }
{}
