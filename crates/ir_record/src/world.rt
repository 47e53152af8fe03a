//! The world outside, which answers a thread's calls of the environment.

ghost use Rattle.ir_record.specs.Worlds.{AnsweredCall};
ghost use Rattle.ir_thread.specs.State.{is_result};
ghost use Rattle.std.specs.Prelude.{◌≡◌, ◌++◌, [], ◌∷◌, List, Bool, true, false, IfOk, OnOk, OnErr};

use ir_runs::EnvKind;

/// The world could not answer. It has failed, and stays so.
#[derive(Clone, Copy, Debug, PartialEq, Eq)]
pub struct WorldErr;

/// Answers a thread's calls of the environment. In clauses the list of its answers so far, whether it has failed, and what
/// tells it apart from other worlds.
pub trait World {
    ghost answers: { Self → List AnsweredCall };

    /// What tells worlds apart, which no answer changes. Which world is handed back to whom is said by this alone.
    ghost Origin: { Type 0 };

    ghost origin: { Self → Self.Origin };

    ghost broken: { Self → Bool };

    /// The next answer to such a call: to a call for input a byte, or 0xFFFFFFFF at its end.
    ///
    /// # Errors
    /// The world has failed; its list of answers stays.
    fn answer(&mut self, kind: EnvKind) -> Result<u32, WorldErr>
        requires { broken self.old ≡ false }
        ensures origin { origin self.new ≡ origin self.old }
        ensures fits { IfOk result (λ value. is_result kind value ≡ true) }
        ensures answered { IfOk result (λ value. answers self.new ≡ answers self.old ++ (kind, value) ∷ []) }
        ensures works { OnOk result (broken self.new ≡ false) }
        ensures kept { OnErr result (answers self.new ≡ answers self.old) }
        ensures failed { OnErr result (broken self.new ≡ true) };

    /// Whether it has failed.
    fn failed(&self) -> bool
        ensures { result ≡ broken self.now };
}
