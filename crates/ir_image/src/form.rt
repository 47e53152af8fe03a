//! The forms of images.

ghost use Rattle.std.specs.Prelude.{◌≡◌, ◌*◌, ◌<◌, ◌≤◌};
ghost use Rattle.ir_image.specs.Guest.{limits_of, magic_number, form_of, most_object_words};

/// The form of an image, which says how many threads and objects it may have, and how many words each object has.
#[derive(Clone, Copy, Debug, PartialEq, Eq)]
pub enum ImageForm {
    /// `IRI1`.
    Small,
    /// `IRI2`.
    Large,
}

/// What a form allows.
#[derive(Clone, Copy)]
pub struct Limits {
    /// The most threads.
    pub threads: u8,
    /// The most objects.
    pub objects: u8,
    /// How many words each object has.
    pub words: usize,
}

const SMALL: Limits = Limits {
    threads: 8,
    objects: 16,
    words: 8,
};

const LARGE: Limits = Limits {
    threads: 16,
    objects: 64,
    words: 16,
};

/// The most threads of a guest of any form.
pub const MOST_THREADS: u8 = LARGE.threads;

/// The most objects of a guest of any form.
pub const MOST_OBJECTS: u8 = LARGE.objects;

/// The most words of an object of any form.
pub const MOST_OBJECT_WORDS: usize = LARGE.words;

impl ImageForm {
    /// Its limits.
    pub fn limits(self) -> Limits
        ensures exact { result ≡ limits_of self }
        ensures some { 0 < result.words }
        ensures few { result.words ≤ most_object_words }
    {
        match self {
            ImageForm::Small => SMALL,
            ImageForm::Large => LARGE,
        }
    }

    /// How many words `objects` objects have.
    pub fn words_of(self, objects: u32) -> usize
        ensures exact { result ≡ (limits_of self).words * objects }
        ensures few { result ≤ most_object_words * objects }
    {
        match self {
            ImageForm::Small => SMALL.words * objects as usize,
            ImageForm::Large => LARGE.words * objects as usize,
        }
    }

    /// The number of the four bytes, the lowest first, that an image of this form begins with.
    pub fn magic(self) -> u32
        ensures { result ≡ magic_number self }
    {
        match self {
            ImageForm::Small => 0x3149_5249,
            ImageForm::Large => 0x3249_5249,
        }
    }

    /// The form whose number this is; of a number that is none's it says nothing.
    pub fn of_magic(magic: u32) -> ImageForm
        ensures { result ≡ form_of magic }
    {
        if magic == ImageForm::Large.magic() {
            ImageForm::Large
        } else {
            ImageForm::Small
        }
    }
}
