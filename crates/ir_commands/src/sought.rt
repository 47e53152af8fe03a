//! A run that a command looks for, and records into files.

ghost use Rattle.std.specs.Prelude.{◌≡◌, ℕ, List, IfErr, IfOk, OnOk, false, true};
ghost use Rattle.std.specs.Io.KnownBytes.{Appends};
ghost use Rattle.ir_files.specs.Outputs.{TookEach, output_writer_of};
ghost use Rattle.ir_files.specs.Writers.{Writer, writer_of};
ghost use Rattle.ir_files.specs.declared.exit_status.ExitStatus.{ExitStatus};
ghost use Rattle.ir_trace.specs.Recorded.{Recorded};
ghost use Rattle.ir_commands.specs.Files.{GoesOn};
ghost use Rattle.ir_commands.specs.Sought.{RecordsRun};

use ir_files::{ExitStatus, OutputSink, WholeSink};
use ir_record_command::RecordFiles;
use ir_stream::Sink;

/// A run that is looked for.
pub trait RunSought {
    /// What is handed back of the run that was recorded.
    type Run: Drop;

    /// Its trace.
    ghost trace_of: { Self.Run → Recorded };

    /// What holds of this run: of what was reported as it was looked for, of what its threads printed, and of the text that says what was found.
    ghost is_found: { Self → Self.Run → Writer → List (List ℕ) → List ℕ → Type 0 };

    /// What holds where there is none: of the exit status, and of what was printed and reported.
    ghost is_missed: { Self → ExitStatus → Writer → Writer → Type 0 };

    /// Looks for the run, and records it into these files.
    ///
    /// # Errors
    /// The exit status: there is none, or a fault stopped the recording.
    fn recorded<W: WholeSink, P: OutputSink, O: Sink, E: Sink>(
        &self,
        files: &mut RecordFiles<W, P>,
        out: &mut O,
        faults: &mut E,
    ) -> Result<Self::Run, ExitStatus>
        requires writes { W.broken files.old.trace ≡ false }
        requires puts { P.broken files.old.outputs ≡ false }
        requires prints { O.broken out.old ≡ false }
        requires reports { E.broken faults.old ≡ false }
        ensures found { IfOk result (λ run. RecordsRun (trace_of run) (is_found self.now run (writer_of (E.written faults.old) (E.written faults.new) (E.broken faults.new)))
            (λ bytes printed. Appends (W.written files.old.trace) (W.written files.new.trace) bytes
            × TookEach (output_writer_of (P.taken files.old.outputs) (P.taken files.new.outputs) (P.broken files.new.outputs)) printed)
            (writer_of (O.written out.old) (O.written out.new) (O.broken out.new))) }
        ensures none { IfErr result (λ answered. is_missed self.now answered (writer_of (O.written out.old) (O.written out.new) (O.broken out.new))
            (writer_of (E.written faults.old) (E.written faults.new) (E.broken faults.new))) }
        ensures grows { OnOk result (GoesOn (E.written faults.old) (E.written faults.new)) }
        ensures whole { OnOk result (W.whole files.new.trace ≡ true) }
        ensures home { W.home files.new.trace ≡ W.home files.old.trace }
        ensures places { P.home files.new.outputs ≡ P.home files.old.outputs };
}
