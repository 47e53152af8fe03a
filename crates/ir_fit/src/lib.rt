//! Traces and the runs that follow them: whether a recorded trace is a run of the guest's, and else where each thread
//! stops following it.
#![tactic(auto)]

mod coherence;
mod fit_err;
mod fitted;
mod fitting;
mod follower;
mod header;
mod header_cause;
mod laws;
mod leave;
mod object_places;
mod passed_state;
mod place;
mod places;
mod run_visits;
mod stretch;
mod verdict;
mod visit_kind;
mod visiting;
mod visits;

pub use coherence::coherent;
pub use fit_err::FitErr;
pub use fitted::Fitted;
pub use fitting::{fit, fit_passing};
pub use follower::look::is_open;
pub use header_cause::HeaderCause;
pub use ir_coherence::Cause;
pub use laws::{
    complete_fits, cuts_are_runs, each_run_is_recorded, fits_exactly, maximal_exists,
    one_step_each, one_verdict, own_trace_coherent, trace_determines,
};
pub use leave::Leave;
pub use passed_state::PassedState;
pub use place::Place;
pub use verdict::Verdict;
