//! What answers a thread that is recorded in a given order.

ghost use Rattle.std.specs.Prelude.{◌≡◌, ◌<◌, ◌≤◌, ◌+◌, ◌^◌, [], ◌∷◌, true, false, length, IfOk, IfSome, None};
ghost use Rattle.ir_world.specs.Sources.{Source, source, given};
ghost use Rattle.ir_thread.specs.State.{is_result};
ghost use Rattle.ir_runs.specs.declared.env_kind.EnvKind.TheVariants.{Clock, Random, Input};

use ir_runs::EnvKind;
use rand_core::SeedableRng;
use rand_core::utils::NextWord;
use rand_pcg::Pcg32;
use std::alloc::AllocError;
use std::marker::Model;

/// A count for the clock, a generator of random words, and the bytes of a file.
#[derive(Drop)]
pub struct Sources<'a> {
    ticks: u32,
    random: Pcg32,
    input: &'a [u8],
}

impl<'a> Model for Sources<'a> {
    ghost Value = { Source };

    ghost view = { λ s. record { ticks = s.ticks; random = s.random; input = s.input.now } };
}

impl<'a> Sources<'a> {
    /// Before the first call: the generator started by the seed, and all bytes of the file.
    pub fn new(seed: u64, file: &'a [u8]) -> Sources<'a>
        ensures { result ≡ source seed file.now }
    {
        Sources {
            ticks: 0,
            random: Pcg32::seed_from_u64(seed),
            input: file,
        }
    }

    // How many calls for it came before this one.
    fn time(&mut self) -> u32
        requires { self.old.ticks + 1 < 2 ^ 32 }
        ensures given { (result, self.new) ≡ given Clock self.old }
        ensures fits { result < 2 ^ 32 }
    {
        let time = self.ticks;
        self.ticks += 1;
        time
    }

    // The generator's next word.
    fn word(&mut self) -> u32
        ensures given { (result, self.new) ≡ given Random self.old }
        ensures fits { result < 2 ^ 32 }
    {
        self.random.next_word()
    }

    // The next byte, or 0xFFFFFFFF after the last.
    fn byte(&mut self) -> u32
        ensures given { (result, self.new) ≡ given Input self.old }
        ensures fits { is_result Input result ≡ true }
    {
        match self.input {
            [byte, rest @ ..] => {
                self.input = rest;
                *byte as u32
            }
            [] => u32::MAX,
        }
    }

    /// The answer to a call.
    pub fn answer(&mut self, kind: EnvKind) -> u32
        requires { self.old.ticks + 1 < 2 ^ 32 }
        ensures given { (result, self.new) ≡ given kind self.old }
        ensures fits { is_result kind result ≡ true }
    {
        match kind {
            EnvKind::Clock => self.time(),
            EnvKind::Random => self.word(),
            EnvKind::Input => self.byte(),
        }
    }

    /// The answer to a call; none where the calls for the time are as many as can be counted.
    pub fn try_answer(&mut self, kind: EnvKind) -> Option<u32>
        ensures given { IfSome result (λ r. (r, self.new) ≡ given kind self.old) }
        ensures fits { IfSome result (λ r. is_result kind r ≡ true) }
        ensures none { result ≡ None → (self.new ≡ self.old) × (kind ≡ Clock) × (2 ^ 32 ≤ self.old.ticks + 1) }
    {
        match kind {
            EnvKind::Clock => {
                if self.ticks == u32::MAX {
                    return None;
                }
                Some(self.time())
            }
            EnvKind::Random => Some(self.word()),
            EnvKind::Input => Some(self.byte()),
        }
    }

    /// An equal value.
    ///
    /// # Errors
    /// Out of memory.
    pub fn copy(&self) -> Result<Sources<'a>, AllocError>
        ensures { IfOk result (λ s. s ≡ self.now) }
    {
        Ok(Sources {
            ticks: self.ticks,
            random: self.random.clone()?,
            input: self.input,
        })
    }

    /// Whether all that is still to come is the same.
    pub fn same(&self, other: &Sources<'_>) -> bool
        ensures same { result ≡ true → self.now ≡ other.now }
        ensures other { result ≡ false → self.now ≡ other.now → ⊥ }
    {
        self.ticks == other.ticks
            && self.random == other.random
            && self.input.len() == other.input.len()
            && self.input == other.input
    }

    /// Three numbers that are the same where all that is still to come is.
    pub fn mark(&self) -> [u64; 3]
        ensures { result ≡ self.now.ticks ∷ self.now.random.state ∷ length self.now.input ∷ [] }
    {
        [
            self.ticks as u64,
            self.random.state(),
            self.input.len() as u64,
        ]
    }
}
