//! Numbers that a generator draws.

ghost use Rattle.ir_schedule.specs.Draws.{generator_of, drawn};
ghost use Rattle.std.specs.Prelude.{◌≡◌, ◌<◌};

use rand_core::SeedableRng;
use rand_core::utils::NextWord;
use rand_pcg::Pcg32;

// The generator of a seed.
pub fn generator_of(seed: u64) -> Pcg32
    ensures { result ≡ generator_of seed }
{
    Pcg32::seed_from_u64(u64::MAX - seed)
}

// A number below n.
pub fn draw(random: &mut Pcg32, n: u32) -> u32
    requires { 0 < n }
    ensures drawn { (result, random.new) ≡ drawn n random.old }
    ensures below { result < n }
{
    let word = random.next_word();
    ((word as u64 * n as u64) >> 32) as u32
}
