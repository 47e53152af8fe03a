//! Guests of a few words of code.

ghost use Rattle.std.specs.Prelude.{IfOk};
ghost use Rattle.ir_thread.specs.State.{IsAllowed};
ghost use Rattle.ir_thread.specs.declared.profile.Profile.TheVariants.{One};

use ir_image::{Image, read_image};
use ir_thread::Profile;
use std::alloc::{AllocError, Global};
use std::test::Fail;

pub const ECALL: u32 = 0x73;

// addi a7, zero, 1, and so on for the other calls.
pub const EXIT: u32 = 0x0010_0893;

pub const PRINT_BYTE: u32 = 0x0020_0893;

pub const PRINT_NUMBER: u32 = 0x0030_0893;

pub const CLOCK: u32 = 0x0040_0893;

pub const INPUT: u32 = 0x0060_0893;

pub const ENTER_READ: u32 = 0x0070_0893;

pub const ENTER_WRITE: u32 = 0x0080_0893;

pub const LEAVE: u32 = 0x0090_0893;

pub const GET: u32 = 0x00a0_0893;

pub const PUT: u32 = 0x00b0_0893;

// addi a0, zero, 0.
pub const FIRST_OBJECT: u32 = 0x0000_0513;

// addi a0, zero, 1.
pub const SECOND_OBJECT: u32 = 0x0010_0513;

// addi a7, zero, 13
pub const TRY_WRITE: u32 = 0x00d0_0893;

// The bytes of such a guest's image.
fn bytes_of(
    alloc: Global,
    starts: &[u8],
    objects: u8,
    code: &[u32],
) -> Result<Vec<u8>, AllocError> {
    let mut bytes = Vec::new(alloc);
    let threads = starts.len().min(8) as u8;
    bytes.extend_from_slice(&[0x49, 0x52, 0x49, 0x31, threads, objects])?;
    bytes.extend_from_slice(&[code.len().min(255) as u8, 0, 0, 0, 0, 0, 0, 0])?;
    for start in starts {
        bytes.extend_from_slice(&[*start, 0, 1, 0])?;
    }
    put_words(&mut bytes, code)?;
    bytes.resize(bytes.len().min(10_000) + 32 * objects as usize, 0)?;
    Ok(bytes)
}

fn put_words(bytes: &mut Vec<u8>, words: &[u32]) -> Result<(), AllocError> {
    for word in words {
        bytes.extend_from_slice(&word.to_le_bytes())?;
    }
    Ok(())
}

// The guest of the image's bytes, which the profile allows.
pub fn allowed(alloc: Global, profile: Profile, bytes: &[u8]) -> Result<Image, Fail>
    ensures { IfOk result (λ image. IsAllowed profile image) }
{
    let image = read_image(alloc, bytes)?;
    if !profile.allows(&image) {
        return Err(Fail::from("too many threads or objects"));
    }
    Ok(image)
}

// A guest whose threads start at these bytes of the code, and objects that begin with zeros.
pub fn guest_for(
    alloc: Global,
    profile: Profile,
    starts: &[u8],
    objects: u8,
    code: &[u32],
) -> Result<Image, Fail>
    ensures { IfOk result (λ image. IsAllowed profile image) }
{
    let bytes = bytes_of(alloc, starts, objects, code)?;
    allowed(alloc, profile, &bytes)
}

// The same for the first profile.
pub fn guest(alloc: Global, starts: &[u8], objects: u8, code: &[u32]) -> Result<Image, Fail>
    ensures { IfOk result (λ image. IsAllowed One image) }
{
    guest_for(alloc, Profile::One, starts, objects, code)
}
