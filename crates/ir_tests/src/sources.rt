//! Sources in parts.

ghost use Rattle.std.specs.Prelude.{IfOk};
ghost use Rattle.ir_thread.specs.State.{IsAllowed};
ghost use Rattle.ir_thread.specs.declared.profile.Profile.TheVariants.{One};

use ir_asm::assemble;
use ir_image::{Image, write_image};
use ir_thread::Profile;
use std::alloc::{AllocError, Global};
use std::test::Fail;

/// The parts, one after the other.
pub fn joined(alloc: Global, parts: &[&str]) -> Result<String, AllocError> {
    let mut source = String::new(alloc);
    for part in parts {
        source.push_str(part)?;
        source.push_str("\n")?;
    }
    Ok(source)
}

/// The guest of the parts, which the profile allows.
pub fn image_for(alloc: Global, profile: Profile, parts: &[&str]) -> Result<Image, Fail>
    ensures { IfOk result (λ image. IsAllowed profile image) }
{
    let image = assemble(alloc, joined(alloc, parts)?.as_str())?;
    if !profile.allows(&image) {
        return Err(Fail::from("too many threads or objects"));
    }
    Ok(image)
}

/// The same for the first profile.
pub fn image_of(alloc: Global, parts: &[&str]) -> Result<Image, Fail>
    ensures { IfOk result (λ image. IsAllowed One image) }
{
    image_for(alloc, Profile::One, parts)
}

/// The bytes of the image of the parts.
pub fn image_bytes(alloc: Global, parts: &[&str]) -> Result<Vec<u8>, Fail> {
    let image = assemble(alloc, joined(alloc, parts)?.as_str())?;
    Ok(write_image(alloc, &image)?)
}
