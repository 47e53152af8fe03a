//! What `ir asm` and `ir elf` do: a source or an ELF file in, the image of its guest or why there is none out. And the image in a file
//! that is an image or an ELF file.
#![tactic(auto)]

mod assembling;
mod converting;
mod laws;
mod mapping;
mod opening;
mod reporting;
mod writing;

pub use assembling::asm_run;
pub use converting::elf_run;
pub use laws::{images_stay, labels_are_symbols};
pub use mapping::map_run;
pub use opening::{image_bytes, is_elf};
