//! Why an ELF file is no guest.

ghost use Rattle.std.specs.Prelude.{◌≡◌};
ghost use Rattle.ir_elf.specs.Refusal.{elf_refusal_number, refusal_words};

use std::{error, fmt};

/// The first test that fails. Fields are read from the left, each whole and then tested.
#[derive(Clone, Copy, Debug, PartialEq, Eq)]
pub enum Refusal {
    /// A field or a segment passes the end of the file.
    Short,
    /// The file is no ELF file.
    Magic,
    /// The file isn't of 32 bits, little-endian, version 1.
    Class,
    /// The file is no linked RISC-V program.
    Kind,
    /// The flags aren't 0: they name compressed instructions, floating-point registers, RV32E or another memory order.
    Flags,
    /// The program headers aren't of 32 bytes, or they aren't 1 to 64.
    Headers,
    /// The program is dynamic, wants an interpreter or has thread-local variables.
    Dynamic,
    /// A segment isn't within the code's, the memory's or the table's addresses.
    Outside,
    /// A segment begins before the end of the one before it.
    Order,
    /// A segment of the code is writable.
    Writable,
    /// There is no code.
    NoCode,
    /// There is no table of threads and objects.
    NoTable,
    /// The table has no known form, a wrong number of threads, or no whole objects.
    Table,
    /// A thread's entry is no place in the code.
    Entry,
}

impl Refusal {
    /// The number of the refusal, 1 to 14 in the order above.
    pub fn number(self) -> u8
        ensures { result ≡ elf_refusal_number self }
    {
        match self {
            Refusal::Short => 1,
            Refusal::Magic => 2,
            Refusal::Class => 3,
            Refusal::Kind => 4,
            Refusal::Flags => 5,
            Refusal::Headers => 6,
            Refusal::Dynamic => 7,
            Refusal::Outside => 8,
            Refusal::Order => 9,
            Refusal::Writable => 10,
            Refusal::NoCode => 11,
            Refusal::NoTable => 12,
            Refusal::Table => 13,
            Refusal::Entry => 14,
        }
    }

    /// The refusal in words.
    pub fn words(self) -> &'static str
        ensures { result.now ≡ refusal_words self }
    {
        match self {
            Refusal::Short => "a field or a segment passes the end of the file",
            Refusal::Magic => "the file is no ELF file",
            Refusal::Class => "the file isn't of 32 bits, little-endian, version 1",
            Refusal::Kind => "the file is no linked RISC-V program",
            Refusal::Flags =>
                "the flags name compressed instructions, floating-point registers, RV32E or another memory order",
            Refusal::Headers => "the program headers aren't of 32 bytes, or they aren't 1 to 64",
            Refusal::Dynamic =>
                "the program is dynamic, wants an interpreter or has thread-local variables",
            Refusal::Outside =>
                "a segment isn't within the code's, the memory's or the table's addresses",
            Refusal::Order => "a segment begins before the end of the one before it",
            Refusal::Writable => "a segment of the code is writable",
            Refusal::NoCode => "there is no code",
            Refusal::NoTable => "there is no table of threads and objects",
            Refusal::Table =>
                "the table has no known form, a wrong number of threads, or no whole objects",
            Refusal::Entry => "a thread's entry is no place in the code",
        }
    }
}

impl fmt::Display for Refusal {
    fn fmt<W: fmt::Write>(&self, f: &mut fmt::Formatter<W>) -> fmt::Result {
        f.write_str(self.words())
    }
}

impl error::Error for Refusal {}
