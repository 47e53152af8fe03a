//! Which system calls a guest may make.

ghost use Rattle.std.specs.Prelude.{◌≡◌, ◌↔◌, IsTrue};
ghost use Rattle.ir_thread.specs.State.{largest, IsAllowed};

use ir_image::{Image, ImageForm};

/// Which system calls there are.
#[derive(Clone, Copy, Debug, PartialEq, Eq)]
pub enum Profile {
    /// Calls 1 to 12.
    One,
    /// Call 13, TRY_WRITE, beside these.
    Two,
}

impl Profile {
    /// The form of images that has as many threads and objects as a trace of this profile may have: at most 8 and 16 in the
    /// first, 16 and 64 in the second.
    pub fn largest(self) -> ImageForm
        ensures { result ≡ largest self }
    {
        match self {
            Profile::One => ImageForm::Small,
            Profile::Two => ImageForm::Large,
        }
    }

    /// Whether the guest has no more threads and objects than these.
    pub fn allows(self, image: &Image) -> bool
        ensures { IsTrue result ↔ IsAllowed self image.now }
    {
        let limits = self.largest().limits();
        image.entries().len() <= limits.threads as usize
            && image.object_count() <= limits.objects as usize
    }
}
