//! What holds of the consistent cuts of all runs. The functions do nothing: their contracts are the laws.

ghost use Rattle.ir_cut.specs.Laws.{Persistence, Progresses, Lattice, LeastExists, GreatestExists, LeastExact, GreatestExact, FollowersAdmitted};

/// A thread that is admitted stays so until it moves.
pub fn persistence()
    ensures { Persistence }
{}

/// Below a consistent target some thread below its own is admitted.
pub fn progresses()
    ensures { Progresses }
{}

/// Two consistent cuts have a larger and a smaller one.
pub fn lattice()
    ensures { Lattice }
{}

/// There is a least consistent cut above a given one with a thread at a position or more.
pub fn least_exists()
    ensures { LeastExists }
{}

/// There is a greatest consistent cut below a given one with a thread at a position or less.
pub fn greatest_exists()
    ensures { GreatestExists }
{}

/// The least cut has the thread exactly at its position.
pub fn least_exact()
    ensures { LeastExact }
{}

/// The greatest cut has the thread exactly at its position.
pub fn greatest_exact()
    ensures { GreatestExact }
{}

/// A thread that can take its step at a cut, and logs by it what it logs in the run, is admitted there.
pub fn followers_admitted()
    ensures { FollowersAdmitted }
{}
