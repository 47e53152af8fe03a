//! What holds of all runs of a guest and of all traces. The functions do nothing: their contracts are the laws.

ghost use Rattle.ir_fit.specs.Laws.{TraceDetermines, RecordedDetermines, CutsAreRuns, OwnTraceCoherent, CompleteFits, EachRunIsRecorded, MaximalExists, OneVerdict, FitsExactly, OneStepEach};

/// Runs with one trace have the same threads at each position, the same consistent cuts and at these the same objects;
/// so have any two complete runs of a guest with one recorded trace.
pub fn trace_determines()
    ensures runs { TraceDetermines }
    ensures recorded { RecordedDetermines }
{}

/// At a consistent cut of a run the steps in it are a run, which leads to the threads at their positions.
pub fn cuts_are_runs()
    ensures { CutsAreRuns }
{}

/// The trace of each run is coherent.
pub fn own_trace_coherent()
    ensures { OwnTraceCoherent }
{}

/// The trace of each complete run fits: whatever follows it as far as any run can is that run, up to the order of steps.
pub fn complete_fits()
    ensures { CompleteFits }
{}

/// The trace of each complete run can be recorded, where the profile allows the guest; `fit`, which refuses only what no
/// run has, never refuses it.
pub fn each_run_is_recorded()
    ensures { EachRunIsRecorded }
{}

/// Each trace has a run that follows it as far as any can.
pub fn maximal_exists()
    ensures { MaximalExists }
{}

/// Of a coherent trace each thread has one verdict, whatever run it is read off that follows the trace as far as any can.
pub fn one_verdict()
    ensures { OneVerdict }
{}

/// At the end of a run that follows a coherent trace as far as any can, all threads are the same exactly where there is a
/// complete run with the trace.
pub fn fits_exactly()
    ensures { FitsExactly }
{}

/// A run follows as far as any can where one step of each thread, with the result that its log gives, doesn't follow.
pub fn one_step_each()
    ensures { OneStepEach }
{}
