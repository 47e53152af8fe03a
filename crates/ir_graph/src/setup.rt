//! A guest that is explored, and what answers its threads.

ghost use Rattle.std.specs.Prelude.{◌≡◌, ℕ, IfOk, length};
ghost use Rattle.ir_thread.specs.State.{IsAllowed};
ghost use Rattle.ir_world.specs.Sources.{seed_of, source};
ghost use Rattle.ir_graph.specs.Setup.{Setup, first_sources, setup_start};

use ir_flat::Flat;
use ir_image::{Code, Image};
use ir_state_store::SourcedFlat;
use ir_thread::{MOST_BUDGET, Profile};
use ir_world::Sources;
use std::alloc::{AllocError, Global};
use std::marker::Model;

/// A guest, which calls its threads make, and what answers them.
#[derive(Drop)]
pub struct Setup<'a> {
    /// The image of the guest.
    pub image: &'a Image,
    /// Which calls its threads make.
    pub profile: Profile,
    /// The number that random words start from: those of thread T start from this plus T.
    pub random: u64,
    /// The input of each thread.
    pub input: &'a [u8],
}

impl<'a> Model for Setup<'a> {
    ghost Value = { Setup };

    ghost view = { λ x. record { guest = x.image.now; profile = x.profile; random = x.random; input = x.input.now } };
}

impl<'a> Setup<'a> {
    /// The same once more.
    pub fn copy(&self) -> Setup<'a>
        ensures { result ≡ self.now }
    {
        Setup {
            image: self.image,
            profile: self.profile,
            random: self.random,
            input: self.input,
        }
    }

    /// The image of the guest.
    pub fn image(&self) -> &'a Image
        ensures { result.now ≡ self.now.guest }
    {
        self.image
    }

    /// Its code.
    pub fn code(&self) -> &'a Code
        ensures { result.now ≡ self.now.guest.code }
    {
        self.image.code()
    }

    /// Which calls its threads make.
    pub fn profile(&self) -> Profile
        ensures { result ≡ self.now.profile }
    {
        self.profile
    }

    // What answers a thread at first.
    fn source(&self, thread: usize) -> Sources<'a>
        ensures { result ≡ source (seed_of self.now.random thread) self.now.input }
    {
        Sources::new(self.random.wrapping_add(thread as u64), self.input)
    }

    // What answers each thread at first.
    fn sources(&self, alloc: Global) -> Result<Vec<Sources<'a>>, AllocError>
        ensures { IfOk result (λ sources. sources.items ≡ first_sources self.now) }
    {
        let threads = self.image.entries().len();
        let mut sources = Vec::with_capacity(alloc, threads)?;
        for thread in 0..threads {
            sources.push(self.source(thread))?;
        }
        Ok(sources)
    }

    /// The guest where its runs begin, each thread with the highest budget.
    ///
    /// # Errors
    /// Out of memory.
    pub fn start(&self, alloc: Global) -> Result<SourcedFlat<'a>, AllocError>
        requires { IsAllowed self.now.profile self.now.guest }
        ensures { IfOk result (λ state. state ≡ setup_start self.now) }
    {
        let flat = Flat::start(alloc, self.image, MOST_BUDGET, self.profile)?;
        let sources = self.sources(alloc)?;
        Ok(SourcedFlat { flat, sources })
    }
}
