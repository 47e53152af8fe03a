//! An image that is parsed once.

ghost use Rattle.std.specs.Prelude.{◌≡◌, ◌≢◌, ℕ, List, Ok, IfOk, IfErr, IfSome, OnOk};
ghost use Rattle.ir_image.specs.Guest.{guest_at};
ghost use Rattle.ir_image.specs.Results.{YieldsImage};
ghost use Rattle.ir_thread.specs.State.{IsAllowed};
ghost use Rattle.ir_record_command.specs.Faults.{Allows, RefusesRecord};
ghost use Rattle.ir_record_command.specs.Images.{image_thread_count};
ghost use Rattle.ir_record_command.specs.declared.record_fault.RecordFault.TheVariants.{Clock, Order};

use crate::plan::RecordPlan;
use crate::record_fault::RecordFault;
use ir_image::{Image, ImageErr, read_image};
use std::alloc::{AllocError, Global};
use std::marker::Model;

/// The bytes of an image, with the guest that they encode or the fault for which they are refused.
#[derive(Drop)]
pub struct ParsedImage<'a> {
    bytes: &'a [u8],
    guest: Result<Image, ImageErr>,
}

impl<'a> Model for ParsedImage<'a> {
    ghost Value = { List ℕ };

    ghost view = { λ i. i.bytes.now };

    ghost invariant = { λ i. YieldsImage (λ guest. guest) i.guest (guest_at i.bytes.now) };
}

impl<'a> ParsedImage<'a> {
    /// Parses the bytes.
    pub fn new(alloc: Global, bytes: &'a [u8]) -> ParsedImage<'a>
        ensures { result ≡ bytes.now }
    {
        ParsedImage {
            bytes,
            guest: read_image(alloc, bytes),
        }
    }

    /// Its guest, if it isn't refused.
    pub fn guest(&self) -> Option<&Image>
        ensures { IfSome result (λ guest. guest_at self.now ≡ Ok guest.now) }
    {
        match &self.guest {
            Ok(guest) => Some(guest),
            Err(_) => None,
        }
    }

    /// How many threads it has. Bytes that are no image have none.
    ///
    /// # Errors
    /// Memory ran out as it was parsed.
    pub fn threads(&self) -> Result<usize, AllocError>
        ensures { IfOk result (λ n. n ≡ image_thread_count (guest_at self.now)) }
    {
        match &self.guest {
            Ok(guest) => Ok(guest.entries().len()),
            Err(ImageErr::NoMem) => Err(AllocError),
            Err(_) => Ok(0),
        }
    }

    /// Its guest, where the plan's profile allows its threads and objects.
    ///
    /// # Errors
    /// Why it isn't recorded.
    pub fn allowed(&self, plan: &RecordPlan<'_>) -> Result<&Image, RecordFault>
        ensures exact { IfOk result (λ guest. guest_at self.now ≡ Ok guest.now) }
        ensures allowed { IfOk result (λ guest. IsAllowed plan.now.profile guest.now) }
        ensures allows { OnOk result (Allows self.now plan.now) }
        ensures refused { IfErr result (λ e. RefusesRecord e self.now plan.now) }
        ensures only { IfErr result (λ e. ((n : ℕ) → e ≢ Order n) × (e ≢ Clock)) }
    {
        match &self.guest {
            Ok(guest) if plan.profile.allows(guest) => Ok(guest),
            Ok(_) => Err(RecordFault::TooLarge),
            Err(why) => Err(RecordFault::of_image(why)),
        }
    }
}
