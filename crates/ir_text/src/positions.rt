//! The answer to a move: where all threads are.

ghost use Rattle.std.specs.Prelude.{◌≡◌, ◌≤◌, ◌+◌, ◌*◌, ◌++◌, length, codes, decimal};
ghost use Rattle.arrayvec.specs.ArrayVec.{array_vec_len};
ghost use Rattle.ir_image.specs.Guest.{most_threads};
ghost use Rattle.ir_text.specs.Texts.{hit_text, positions_text, stop_text};

use crate::text::{ROOM, Text, put_number};
use ir_command::Hit;
use ir_stream::append;
use itoa::Buffer;

fn put_position(text: &mut Text, position: u64)
    requires { array_vec_len text.old + 21 ≤ ROOM }
    ensures text { text.new.items ≡ text.old.items ++ (codes " " ++ decimal position) }
    ensures len { array_vec_len text.new ≤ array_vec_len text.old + 21 }
{
    let mut buffer = Buffer::new();
    append(text, b" ");
    append(text, buffer.format(position).as_bytes());
}

/// Puts the position of each thread at the end.
pub fn put_positions(text: &mut Text, at: &[u64])
    requires room { array_vec_len text.old ≤ 256 }
    requires few { length at.now ≤ most_threads }
    ensures text { text.new.items ≡ text.old.items ++ positions_text at.now }
    ensures len { array_vec_len text.new ≤ array_vec_len text.old + 340 }
{
    append(text, b"at");
    for position in at {
        put_position(text, *position);
    }
}

/// Puts at the end whether a thread is at its last position, which is given, or at 0.
pub fn put_stop(text: &mut Text, last: u64, at: u64)
    requires { array_vec_len text.old ≤ 500 }
    ensures text { text.new.items ≡ text.old.items ++ stop_text last at }
    ensures len { array_vec_len text.new ≤ array_vec_len text.old + 6 }
{
    if at == last {
        append(text, b" end");
    } else if at == 0 {
        append(text, b" start");
    }
}

/// Puts at the end which point hit, if one did.
pub fn put_hit(text: &mut Text, hit: Option<Hit>)
    requires { array_vec_len text.old ≤ 340 }
    ensures text { text.new.items ≡ text.old.items ++ hit_text hit }
    ensures len { array_vec_len text.new ≤ array_vec_len text.old + 25 }
{
    if let Some(hit) = hit {
        put_number(text, b" hit ", hit.number as u64);
    }
}
