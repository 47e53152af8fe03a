//! How many parts an image announces.

use crate::form::ImageForm;

/// Its form, and how many threads, objects, words of code and bytes of data an image has.
#[derive(Clone, Copy)]
pub struct Counts {
    pub form: ImageForm,
    pub threads: u8,
    pub objects: u8,
    pub words: u32,
    pub bytes: u32,
}
