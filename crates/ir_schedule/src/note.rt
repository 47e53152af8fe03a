//! Turns that are noted.

ghost use Rattle.std.specs.Prelude.{◌≡◌, ◌++◌, ◌<◌, true, false, length, replicate, vec_len, vec_capacity, OnOk, OnErr, IfErr};
ghost use Rattle.ir_schedule.specs.declared.stop.Stop.TheVariants.{TooLong};
ghost use Rattle.ir_record.specs.Recording.{order_of_turns};

use crate::stop::Stop;
use ir_record::Turns;

// `count` turns more of this thread are added to its last ones, if they fit.
fn lengthen(turns: &mut Vec<Turns>, thread: u8, count: u64) -> bool
    ensures noted { result ≡ true → order_of_turns turns.new.items ≡ order_of_turns turns.old.items ++ replicate count thread }
    ensures same { result ≡ false → turns.new ≡ turns.old }
{
    if turns.is_empty() {
        return false;
    }
    let last = turns.len() - 1;
    if turns[last].thread != thread {
        return false;
    }
    match turns[last].count.checked_add(count) {
        Some(sum) => {
            turns[last] = Turns { thread, count: sum };
            true
        }
        None => false,
    }
}

// `count` turns more of this thread, for which no memory is made.
pub fn note(turns: &mut Vec<Turns>, thread: u8, count: u64) -> Result<(), Stop>
    ensures noted { OnOk result (order_of_turns turns.new.items ≡ order_of_turns turns.old.items ++ replicate count thread) }
    ensures full { OnErr result (vec_len turns.new ≡ vec_capacity turns.new) }
    ensures why { IfErr result (λ stop. stop ≡ TooLong) }
{
    if lengthen(turns, thread, count) {
        return Ok(());
    }
    if turns.len() == turns.capacity() {
        return Err(Stop::TooLong);
    }
    turns.push_reserved(Turns { thread, count });
    Ok(())
}
