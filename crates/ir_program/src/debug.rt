//! `ir debug` and `ir gdb`: a session over an image and a trace in files.

ghost use Rattle.std.specs.Prelude.{◌≡◌, ◌↔◌, ◌⊎◌, OnOk, OnErr, IfOk, IfErr, true, false};
ghost use Rattle.std.specs.String.{string_bytes};
ghost use Rattle.ir_commands.specs.Files.{IsFileIn, IsImageIn, IsStatusOfNone, TellsFault};
ghost use Rattle.ir_files.specs.Writers.{writer_of};
ghost use Rattle.ir_files.specs.declared.exit_status.ExitStatus.TheVariants as exit;
ghost use Rattle.ir_program.specs.Connecting.{HeldConnection};
ghost use Rattle.ir_program.specs.Doing.{HoldsConnectionOf, HoldsSessionOf};
ghost use Rattle.ir_program.specs.Taking.{reader_of};

use crate::debugging::debug_run;
use crate::gdb::gdb_run;
use ir_arguments::DebugArguments;
use ir_commands::{Surroundings, bytes_of, explain_files, image_in};
use ir_files::{ExitStatus, Folder, MOST_FILE_BYTES};
use ir_object::{Gate, Given, Hands};
use ir_stream::{Sink, Source, next_byte};
use std::alloc::Global;
use std::thread::Threads;
use std::time::Clock;

// Whether nothing was opened.
fn is_refusal(status: ExitStatus) -> bool
    ensures { (result ≡ true) ↔ ((status ≡ exit.Refused) ⊎ (status ≡ exit.NotFit)) }
{
    matches!(status, ExitStatus::Refused | ExitStatus::NotFit)
}

// The bytes of the image and of the trace that are named; if there are none, the reason is reported.
fn read_files<D: Folder, E: Sink>(
    alloc: Global,
    folder: &D,
    arguments: &DebugArguments,
    faults: &mut E,
) -> Result<(Vec<u8>, Vec<u8>), ExitStatus>
    ensures kept { OnOk result (faults.new ≡ faults.old) }
    ensures image { IfOk result (λ read. IsImageIn (D.bytes_at folder.now (string_bytes arguments.now.image)) read.0.items) }
    ensures trace { IfOk result (λ read. IsFileIn (D.bytes_at folder.now (string_bytes arguments.now.trace)) read.1.items) }
    ensures status { IfErr result (IsStatusOfNone (D.bytes_at folder.now (string_bytes arguments.now.image))) }
    ensures told { OnErr result (E.broken faults.old ≡ false → TellsFault (writer_of (E.written faults.old) (E.written faults.new) (E.broken faults.new))) }
{
    let image = image_in(alloc, folder, faults, arguments.image.as_str())?;
    match bytes_of(
        alloc,
        folder,
        faults,
        arguments.trace.as_str(),
        MOST_FILE_BYTES,
    ) {
        Some(trace) => Ok((image, trace)),
        None => Err(ExitStatus::Failed),
    }
}

/// The session of lines of an image and a trace in files: what `debug_run` does with their bytes. If nothing is opened, it is reported why.
pub fn debug_files<R, D, G, I, O, E>(
    around: &Surroundings<'_, R, D, G>,
    arguments: &DebugArguments,
    reader: &mut I,
    out: &mut O,
    faults: &mut E,
) -> ExitStatus
where
    R: Threads + Clock + Sync + AllocGlobal,
    D: Folder,
    G: Gate + Sync,
    I: Source,
    O: Sink,
    E: Sink,
    requires reads { I.broken reader.old ≡ false }
    requires writes { O.broken out.old ≡ false }
    requires reports { E.broken faults.old ≡ false }
    // The bytes of the files were read, and their session was held; or nothing was read of the reader, and nothing written.
    ensures { HoldsSessionOf (D.bytes_at around.now.folder.now) arguments.now result (reader_of (I.left reader.old) (I.left reader.new) (I.broken reader.new))
        (writer_of (O.written out.old) (O.written out.new) (O.broken out.new)) (writer_of (E.written faults.old) (E.written faults.new) (E.broken faults.new))
        ((reader.new ≡ reader.old) × (out.new ≡ out.old)) }
{
    let alloc = around.rt.alloc();
    let (image, trace) = match read_files(alloc, around.folder, arguments, faults) {
        Ok(files) => files,
        Err(status) => return status,
    };
    let (image, trace) = (image.as_slice(), trace.as_slice());
    let hands = Given::new(around.rt, alloc, around.gate);
    let status = debug_run(&hands, image, trace, reader, out, faults);
    explain_files(alloc, image, trace, status, faults);
    status
}

// The connection of gdb to the run of an image and a trace. If nothing is opened, it is reported why, and a byte is waited for.
fn connection<H: Hands, I: Source, O: Sink, E: Sink>(
    hands: &H,
    image: &[u8],
    trace: &[u8],
    reader: &mut I,
    out: &mut O,
    faults: &mut E,
) -> ExitStatus
    requires reads { I.broken reader.old ≡ false }
    requires writes { O.broken out.old ≡ false }
    requires reports { E.broken faults.old ≡ false }
    ensures { HeldConnection image.now trace.now result (reader_of (I.left reader.old) (I.left reader.new) (I.broken reader.new))
        (writer_of (O.written out.old) (O.written out.new) (O.broken out.new)) ((reader.new ≡ reader.old) × (out.new ≡ out.old)) (out.new ≡ out.old) }
{
    let status = gdb_run(hands, image, trace, reader, out, faults);
    explain_files(hands.alloc(), image, trace, status, faults);
    if is_refusal(status) {
        // gdb shows why only if its first packet can still be sent.
        let _ = next_byte(reader);
    }
    status
}

/// The connection of gdb to a recorded run, of an image and a trace in files: what `gdb_run` does with their bytes. If nothing is opened, it is
/// reported why, and it ends only once gdb has sent something.
pub fn gdb_files<R, D, G, I, O, E>(
    around: &Surroundings<'_, R, D, G>,
    arguments: &DebugArguments,
    reader: &mut I,
    out: &mut O,
    faults: &mut E,
) -> ExitStatus
where
    R: Threads + Clock + Sync + AllocGlobal,
    D: Folder,
    G: Gate + Sync,
    I: Source,
    O: Sink,
    E: Sink,
    requires reads { I.broken reader.old ≡ false }
    requires writes { O.broken out.old ≡ false }
    requires reports { E.broken faults.old ≡ false }
    // The bytes of the files were read, and gdb's packets about them were answered; or nothing was read of the reader, and nothing written.
    ensures { HoldsConnectionOf (D.bytes_at around.now.folder.now) arguments.now result (reader_of (I.left reader.old) (I.left reader.new) (I.broken reader.new))
        (writer_of (O.written out.old) (O.written out.new) (O.broken out.new)) (writer_of (E.written faults.old) (E.written faults.new) (E.broken faults.new))
        ((reader.new ≡ reader.old) × (out.new ≡ out.old)) (out.new ≡ out.old) }
{
    let alloc = around.rt.alloc();
    let (image, trace) = match read_files(alloc, around.folder, arguments, faults) {
        Ok(files) => files,
        Err(status) => return status,
    };
    let (image, trace) = (image.as_slice(), trace.as_slice());
    let hands = Given::new(around.rt, alloc, around.gate);
    connection(&hands, image, trace, reader, out, faults)
}
