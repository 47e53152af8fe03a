//! What an expression reads.

ghost use Rattle.std.specs.Prelude.{◌≡◌, ℕ};
ghost use Rattle.std.specs.declared.option.Option.{Option};

/// Registers and memory, as an expression reads them.
pub trait Seen {
    /// The register of each number, where there is one.
    ghost registers: { Self → ℕ → Option ℕ };

    /// The byte at each address, where there is one.
    ghost bytes: { Self → ℕ → Option ℕ };

    /// The register of a number, if there is one.
    fn register(&self, number: u64) -> Option<u32>
        ensures { result ≡ registers self.now number };

    /// The byte at an address, if there is one.
    fn byte(&self, address: u32) -> Option<u8>
        ensures { result ≡ bytes self.now address };
}
