//! How a guest is explored.

ghost use Rattle.std.specs.Prelude.{◌≡◌, ◌≤◌, None};
ghost use Rattle.ir_explore.specs.Plan.{ExplorePlan, setup_of};

use ir_graph::{Bounds, Setup};
use ir_image::Image;
use ir_record_command::ParsedImage;
use ir_schedule::Condition;
use ir_thread::Profile;
use std::marker::Model;

/// How far a guest is explored, and what answers its threads.
#[derive(Drop)]
pub struct ExplorePlan<'a> {
    /// How many states there may be, how many steps of a thread up to its next entry or try, how many seconds and how many outcomes.
    pub bounds: Bounds,
    /// The most switches of the thread that enters or tries.
    pub switches: usize,
    /// Which system calls there are.
    pub profile: Profile,
    /// Where random words start.
    pub random: u64,
    /// The bytes that each thread reads.
    pub input: &'a [u8],
    ghost some: { 1 ≤ bounds.nodes },
}

impl<'a> Model for ExplorePlan<'a> {
    ghost Value = { ExplorePlan };

    ghost view = { λ p. record { bounds = p.bounds; switches = p.switches; profile = p.profile; random = p.random; input = p.input.now } };
}

impl<'a> ExplorePlan<'a> {
    /// At most so many states, steps of a thread up to its next entry or try, and switches, in any time, and with any number of outcomes; which
    /// system calls there are; where random words start, and the bytes that each thread reads.
    pub fn new(
        states: usize,
        private: u64,
        switches: usize,
        profile: Profile,
        random: u64,
        input: &'a [u8],
    ) -> ExplorePlan<'a>
        requires { 1 ≤ states }
        ensures states { result.bounds.nodes ≡ states }
        ensures private { result.bounds.private ≡ private }
        ensures seconds { result.bounds.seconds ≡ None }
        ensures outcomes { result.bounds.outcomes ≡ None }
        ensures switches { result.switches ≡ switches }
        ensures profile { result.profile ≡ profile }
        ensures random { result.random ≡ random }
        ensures input { result.input ≡ input.now }
    {
        ExplorePlan {
            bounds: Bounds {
                nodes: states,
                private,
                seconds: None,
                outcomes: None,
            },
            switches,
            profile,
            random,
            input,
        }
    }

    /// The same, in so many seconds and with so many different outcomes at most, where these are given.
    pub fn bounded(&self, seconds: Option<u32>, outcomes: Option<usize>) -> ExplorePlan<'a>
        ensures { result ≡ record self.now { bounds = record self.now.bounds { seconds = seconds; outcomes = outcomes } } }
    {
        ExplorePlan {
            bounds: Bounds {
                seconds,
                outcomes,
                ..self.bounds
            },
            switches: self.switches,
            profile: self.profile,
            random: self.random,
            input: self.input,
        }
    }

    /// The same, up to so many switches.
    pub fn within(&self, switches: usize) -> ExplorePlan<'a>
        ensures { result ≡ record self.now { switches = switches } }
    {
        ExplorePlan {
            bounds: self.bounds,
            switches,
            profile: self.profile,
            random: self.random,
            input: self.input,
        }
    }

    /// The most switches of the thread that enters or tries.
    pub fn most(&self) -> usize
        ensures { result ≡ self.now.switches }
    {
        self.switches
    }

    /// The guest of an image that is explored so, and what answers its threads.
    pub fn setup(&self, image: &'a Image) -> Setup<'a>
        ensures { result ≡ setup_of image.now self.now }
    {
        Setup {
            image,
            profile: self.profile,
            random: self.random,
            input: self.input,
        }
    }
}

/// Which guest is explored for a hang, and how far.
#[derive(Drop)]
pub struct HangPlan<'a, 'i, 'o, W> {
    /// The guest's image.
    pub image: &'a ParsedImage<'i>,
    /// How the guest is explored.
    pub explore: ExplorePlan<'a>,
    /// What is told how far the search is.
    pub observer: &'o W,
}

/// What is looked for among the outcomes of a guest, and how far.
#[derive(Drop)]
pub struct UntilPlan<'a, 'i, 'o, W> {
    /// The guest's image.
    pub image: &'a ParsedImage<'i>,
    /// How the guest is explored.
    pub explore: ExplorePlan<'a>,
    /// What has to hold of an outcome, all of it.
    pub conditions: &'a [Condition<'a>],
    /// What is told how far the search is.
    pub observer: &'o W,
}
