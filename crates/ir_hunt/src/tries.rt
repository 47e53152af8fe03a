//! What tries the seeds of a hunt.

ghost use Rattle.std.specs.Prelude.{◌≡◌, ◌≤◌, IfOk};
ghost use Rattle.ir_hunt.specs.Hunt.{Hunt, hunt_of};
ghost use Rattle.ir_hunt.specs.Parts.{IsPartOf};
ghost use Rattle.ir_thread.specs.State.{IsAllowed};

use crate::part::Part;
use crate::plan::HuntPlan;
use crate::seeker::{Lost, Seeker};
use ir_image::Image;
use ir_schedule::{Choices, Seeds};
use std::alloc::{AllocError, Global};
use std::marker::Model;
use std::time::Clock;

// What was tried of these seeds from the first on, until one is found.
fn tried<C: Clock>(
    seeker: &mut Seeker<'_, C>,
    choices: &Choices,
    seeds: Seeds,
) -> Result<Part, AllocError>
    requires { seeds.first ≤ seeds.last }
    ensures image { seeker.new.image ≡ seeker.old.image }
    ensures plan { seeker.new.plan ≡ seeker.old.plan }
    ensures part { IfOk result (λ part. IsPartOf (hunt_of seeker.old.image.now seeker.old.plan.now choices.now) seeds part) }
{
    let Seeds { first, last } = seeds;
    let mut left_out = 0u128;
    let mut seed = first;
    'seeds: loop {
        match seeker.list_of_seed(seed, choices) {
            Ok(Some(list)) => {
                let seeds = Seeds { first, last: seed };
                return Ok(Part {
                    seeds,
                    left_out,
                    list: Some(list),
                });
            }
            Ok(None) => {}
            Err(Lost::TooLong) => left_out += 1,
            Err(Lost::NoMem) => return Err(AllocError),
        }
        if seed == last {
            return Ok(Part {
                seeds,
                left_out,
                list: None,
            });
        }
        seed += 1;
    }
}

/// What tries the seeds of a hunt, one after the other.
#[derive(Drop)]
pub struct Tries<'a, C> {
    seeker: Seeker<'a, C>,
    // How often each thread is chosen in the run in rounds.
    choices: Choices,
}

impl<'a, C> Model for Tries<'a, C> {
    ghost Value = { Hunt };

    ghost view = { λ t. hunt_of t.seeker.image.now t.seeker.plan.now t.choices };
}

impl<'a, C: Clock> Tries<'a, C> {
    /// Before the first seed, by the choices of the run in rounds.
    ///
    /// # Errors
    /// Out of memory.
    pub fn new(
        alloc: Global,
        clock: &'a C,
        image: &'a Image,
        plan: &'a HuntPlan<'a>,
    ) -> Result<Tries<'a, C>, AllocError>
        requires { IsAllowed plan.now.record.profile image.now }
        ensures { IfOk result (λ t. t ≡ hunt_of image.now plan.now t.choices) }
    {
        let mut seeker = Seeker::new(alloc, clock, image, plan)?;
        let choices = seeker.choices()?;
        Ok(Tries { seeker, choices })
    }

    /// The same of the same hunt.
    ///
    /// # Errors
    /// Out of memory.
    pub fn again(
        &self,
        alloc: Global,
        clock: &'a C,
        image: &'a Image,
        plan: &'a HuntPlan<'a>,
    ) -> Result<Tries<'a, C>, AllocError>
        requires allowed { IsAllowed plan.now.record.profile image.now }
        requires same { self.now ≡ hunt_of image.now plan.now self.now.choices }
        ensures { IfOk result (λ t. t ≡ self.now) }
    {
        let choices = self.choices;
        let seeker = Seeker::new(alloc, clock, image, plan)?;
        Ok(Tries { seeker, choices })
    }

    /// Tries these seeds from the first on, until one is found.
    ///
    /// # Errors
    /// Out of memory.
    pub fn try_all(&mut self, seeds: Seeds) -> Result<Part, AllocError>
        requires { seeds.first ≤ seeds.last }
        ensures same { self.new ≡ self.old }
        ensures part { IfOk result (λ part. IsPartOf self.old seeds part) }
    {
        tried(&mut self.seeker, &self.choices, seeds)
    }
}
