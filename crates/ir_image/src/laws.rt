//! Laws of the images' encoding.

ghost use Rattle.std.specs.Prelude.{◌≡◌, List, ℕ, Ok};
ghost use Rattle.std.specs.List.{AllByRecursion};
ghost use Rattle.ir_image.specs.Guest.{Guest, guest_at};
ghost use Rattle.ir_image.specs.Bounds.{IsByte, IsGuest};
ghost use Rattle.ir_image.specs.Encoding.{encoding};
ghost use Rattle.ir_image.specs.Fields.{image_fault};
ghost use Rattle.ir_bytes.specs.Format.{fault_of};

/// The encoding of a guest within its limits is read as that guest, so no two guests are encoded alike.
pub fn encoding_is_read()
    ensures { (g : Guest) → IsGuest g → guest_at (encoding g) ≡ Ok g }
{}

/// Bytes that are read as a guest are the encoding of it, so no guest is encoded in two ways, and it is within its limits.
pub fn read_is_encoded()
    ensures { (bytes : List ℕ) (g : Guest) → AllByRecursion IsByte bytes → guest_at bytes ≡ Ok g → IsGuest g × (bytes ≡ encoding g) }
{}

/// Bytes are refused exactly for the first of an image's fields, from the left, that isn't whole or holds what it may not, or
/// else because bytes follow the last; and for that field's fault. Bytes without such a field are read.
pub fn first_fault_is_named()
    ensures { (bytes : List ℕ) → fault_of (guest_at bytes) ≡ image_fault bytes }
{}
