//! `ir explore --within`: whether each outcome of a guest is one of another guest's, in what counts of it; and `--only`: outcomes by what counts.
#![tactic(auto)]

mod aspects;
mod classes;
mod fault;
mod first_outside;
mod judging;
mod laws;
mod outside;
mod run;
mod seen;
mod seen_end;
mod seen_set;
mod texts;
mod verdict;

pub use aspects::Aspects;
pub use classes::{ClassesPlan, classes_run};
pub use fault::WithinFault;
pub use laws::{
    class_has_fewest, each_class_is_listed, outside_is_some, recorded_is_outside, within_is_each,
};
pub use outside::outside_run;
pub use run::{WithinPlan, within_run};
pub use verdict::Verdict;
