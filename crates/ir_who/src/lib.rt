//! Who made each version of an object, and who read it, by a recorded trace.
#![tactic(auto)]

mod dated;
mod fit_lines;
mod fit_run;
mod lines;
mod question;
mod run;
mod texts;
mod version;
mod versions;

pub use dated::Dated;
pub use lines::object_line;
pub use question::Question;
pub use version::Version;
pub use versions::versions_of;
