//! The bytes of an image in, the lines of its code out.

ghost use Rattle.std.specs.Prelude.{◌≡◌, ◌⊎◌, false, OnOk, IfErr};
ghost use Rattle.std.specs.Io.KnownBytes.{Appends};
ghost use Rattle.ir_files.specs.Writers.{writer_of, Reports, fault_text};
ghost use Rattle.ir_files.specs.declared.exit_status.ExitStatus.TheVariants as status;
ghost use Rattle.ir_list.specs.Listing.{listing_text};
ghost use Rattle.ir_past.specs.Answers.{Answered, NotAnswered, Stops, fault_words};
ghost use Rattle.ir_past.specs.declared.past_err.PastErr.{PastErr};
ghost use Rattle.ir_listing.specs.Code.{IsCodeListing, RefusesImage};

use ir_files::{ExitStatus, tell};
use ir_image::{Image, ImageErr, read_image};
use ir_list::{ListErr, list_run};
use ir_past::PastErr;
use ir_record_command::RecordFault;
use ir_stream::Sink;
use ir_symbols::SymbolTable;
use std::alloc::Global;

// Writes the listing of a guest.
fn put_listing<O: Sink>(
    alloc: Global,
    image: &Image,
    symbols: &SymbolTable,
    out: &mut O,
) -> Result<(), PastErr>
    requires { O.broken out.old ≡ false }
    ensures ok { OnOk result (Appends (O.written out.old) (O.written out.new) (listing_text image.now symbols.now)) }
    ensures works { OnOk result (O.broken out.new ≡ false) }
    ensures fails { IfErr result (λ e. Stops e (writer_of (O.written out.old) (O.written out.new) (O.broken out.new)) (listing_text image.now symbols.now)) }
{
    match list_run(alloc, image, symbols, out) {
        Ok(()) => Ok(()),
        Err(ListErr::NoMem) => Err(PastErr::NoMem),
        Err(ListErr::Device) => Err(PastErr::Write),
    }
}

/// Writes the code of the guest whose image the bytes are, with the names of these symbols: a line for each thread with its entry, a line for
/// each word with its address and its text, and a line for each symbol before its word. The exit status is `Done` if all of it was written,
/// and `Refused` if the bytes are no image; then nothing was written, and the first fault is reported in one line. It is `Failed` if memory
/// ran out or the writer failed, with a prefix written at most and the fault reported in one line.
pub fn list_report<O: Sink, E: Sink>(
    alloc: Global,
    image: &[u8],
    symbols: &SymbolTable,
    out: &mut O,
    faults: &mut E,
) -> ExitStatus
    requires writes { O.broken out.old ≡ false }
    requires reports { E.broken faults.old ≡ false }
    ensures one { (result ≡ status.Done) ⊎ (result ≡ status.Refused) ⊎ (result ≡ status.Failed) }
    // The listing was written, and no fault reported.
    ensures done { result ≡ status.Done → Answered (IsCodeListing image.now symbols.now) result (writer_of (O.written out.old) (O.written out.new) (O.broken out.new)) × (faults.new ≡ faults.old) }
    ensures refused { result ≡ status.Refused → RefusesImage image.now (writer_of (O.written out.old) (O.written out.new) (O.broken out.new))
        (writer_of (E.written faults.old) (E.written faults.new) (E.broken faults.new)) }
    // Else what stopped it, what that leaves, and that it is reported.
    ensures stopped { result ≡ status.Failed → (e : PastErr)
        × NotAnswered (IsCodeListing image.now symbols.now) e (writer_of (O.written out.old) (O.written out.new) (O.broken out.new))
        × Reports (writer_of (E.written faults.old) (E.written faults.new) (E.broken faults.new)) (fault_text (fault_words e)) }
{
    match read_image(alloc, image) {
        Ok(image) => match put_listing(alloc, &image, symbols, out) {
            Ok(()) => ExitStatus::Done,
            Err(why) => {
                tell(faults, why.words());
                ExitStatus::Failed
            }
        },
        Err(ImageErr::NoMem) => {
            tell(faults, PastErr::NoMem.words());
            ExitStatus::Failed
        }
        Err(why) => {
            tell(faults, RecordFault::of_image(&why).words());
            ExitStatus::Refused
        }
    }
}
