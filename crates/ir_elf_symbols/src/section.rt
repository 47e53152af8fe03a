//! A section of an ELF file.

/// What the header of a section says.
#[derive(Clone, Copy, Debug, PartialEq, Eq)]
pub struct Section {
    /// Its kind.
    pub kind: u32,
    /// Where its bytes begin in the file.
    pub place: u32,
    /// How many they are.
    pub size: u32,
    /// The number of the section that belongs to it: for symbols the section of their names.
    pub link: u32,
}
