//! Images of guests: their bytes, and the code that they hold.
#![tactic(auto)]

mod code;
mod counts;
mod fetched;
mod form;
mod image;
mod image_err;
mod laws;
mod layout;
mod lowering;
mod operation;
mod reading;
mod writing;

pub use code::Code;
pub use fetched::Fetched;
pub use form::{ImageForm, Limits, MOST_OBJECT_WORDS, MOST_OBJECTS, MOST_THREADS};
pub use image::Image;
pub use image_err::ImageErr;
pub use laws::{encoding_is_read, first_fault_is_named, read_is_encoded};
pub use layout::{CODE_START, MEMORY_SIZE, MEMORY_START, MOST_CODE_WORDS};
pub use operation::{Kind, Operation};
pub use reading::read_image;
pub use writing::write_image;
