//! Options that say how a guest is recorded, by whatever order.

ghost use Rattle.std.specs.Prelude.{◌≡◌, ◌≤◌, option_map};
ghost use Rattle.ir_thread.specs.State.{most_budget};

use crate::forms::Form;
use ir_record_command::RecordPlan;
use ir_thread::Profile;

/// The name of the option that bounds the steps of each thread.
pub const BUDGET: &str = "budget";

/// The name of the option that says where random words start.
pub const RANDOM: &str = "random";

/// The name of the option that says which system calls there are.
pub const PROFILE: &str = "profile";

/// The name of the option that names the file that guests read.
pub const INPUT: &str = "input";

/// The name of the option that asks for what threads print.
pub const OUTPUT: &str = "output";

/// The option that bounds the steps of each thread.
pub const BUDGET_FORM: Form<'static> = Form::ValuedOr(
    BUDGET,
    "B",
    "1000000",
    "The most steps of each thread, at most 1000000000000",
);

/// The option that says where random words start.
pub const RANDOM_FORM: Form<'static> = Form::ValuedOr(
    RANDOM,
    "S",
    "0",
    "Where random words start, at most 18446744073709551615",
);

/// The option that says which system calls there are.
pub const PROFILE_FORM: Form<'static> = Form::ValuedOr(
    PROFILE,
    "P",
    "1",
    "Which system calls there are: 1, calls 1 to 12, or 2, TRY_WRITE too",
);

/// The option that names the file that guests read.
pub const INPUT_FORM: Form<'static> = Form::Valued(INPUT, "FILE", "The file that guests read");

/// The option that asks for what threads print.
pub const OUTPUT_FORM: Form<'static> = Form::Valued(
    OUTPUT,
    "PREFIX",
    "What each thread T prints is written to the file PREFIX.T",
);

/// How a guest is recorded, by whatever order, and where what it prints goes.
#[derive(Drop)]
pub struct RecordingOptions {
    /// The most steps of each thread.
    pub budget: u64,
    /// Where random words start.
    pub random: u64,
    /// Which system calls guests may make.
    pub profile: Profile,
    /// The file that guests read.
    pub input: Option<String>,
    /// What the paths of the files of what threads print begin with, if they are asked for.
    pub output: Option<String>,
    ghost within: { budget ≤ most_budget },
}

impl RecordingOptions {
    /// The plan of a recording, in the order of this list if there is one, of a guest that reads these bytes.
    pub fn plan<'a>(&self, order: Option<&'a str>, input: &'a [u8]) -> RecordPlan<'a>
        ensures { result ≡ record { order = option_map (λ s. s.now) order.entry; budget = self.now.budget; random = self.now.random; input = input.now; profile = self.now.profile } }
    {
        RecordPlan {
            order,
            budget: self.budget,
            random: self.random,
            input,
            profile: self.profile,
        }
    }
}
