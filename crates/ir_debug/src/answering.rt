//! The texts of answers, as they are written.

ghost use Rattle.std.specs.Prelude.{◌≡◌, ◌≤◌, ◌<◌, ◌+◌, ◌++◌, codes, None, length, flat_map};
ghost use Rattle.std.specs.List.{AllByRecursion};
ghost use Rattle.ir_image.specs.Guest.{most_threads};
ghost use Rattle.std.specs.Io.KnownBytes.{Appends};
ghost use Rattle.arrayvec.specs.ArrayVec.{array_vec_len};
ghost use Rattle.ir_stream.specs.Answers.{AppendsPrefix};
ghost use Rattle.ir_stream.specs.Writing.{WritesOrFails, WritesText};
ghost use Rattle.ir_command.specs.declared.command.Command.TheVariants as command;
ghost use Rattle.ir_debug.specs.AtHand.{text_here};
ghost use Rattle.ir_debug.specs.Debugging.{IsLast, IsText, moved_text, continued_text};
ghost use Rattle.ir_debug.specs.Machine.{kept_line, refusal_of};
ghost use Rattle.ir_cut.specs.Positions.{cut_of, threads_of, last_of};
ghost use Rattle.ir_text.specs.Texts.{positions_text, stop_text};

use crate::answer::Answer;
use crate::debugger::Debugger;
use crate::kept::KeptCut;
use crate::refusals::thread_named;
use crate::showing::write_shown;
use ir_command::{Command, Hit, Move};
use ir_stream::{DeviceErr, Sink, append, write_all};
use ir_text::{Text, put_hit, put_number, put_positions, put_stop, write_number, write_refusal};

// Puts at the end where all threads are.
#[tactic(auto, using(ir_image::proofs::CallerLemmas::guest_threads_within))]
fn put_cut(text: &mut Text, debugger: &Debugger)
    requires { array_vec_len text.old ≡ 0 }
    ensures text { text.new.items ≡ text.old.items ++ positions_text debugger.now.desk.at }
    ensures len { array_vec_len text.new ≤ 340 }
{
    debugger.fitted().image().entries();
    put_positions(text, debugger.at().positions());
}

// Puts at the end whether this thread is at its last position, or at 0.
fn put_stopped(text: &mut Text, debugger: &Debugger, thread: u32)
    requires thread { thread < threads_of debugger.now.desk.fitted }
    requires room { array_vec_len text.old ≤ 500 }
    ensures text { text.new.items ≡ text.old.items ++ stop_text (last_of debugger.now.desk.fitted thread) (cut_of debugger.now.desk.at thread) }
    ensures len { array_vec_len text.new ≤ array_vec_len text.old + 6 }
{
    let number = thread as usize;
    let last = debugger.fitted().trace().threads()[number].steps();
    put_stop(text, last, debugger.at().position(number));
}

fn put_moved(text: &mut Text, debugger: &Debugger, asked: Move)
    requires empty { array_vec_len text.old ≡ 0 }
    requires passed { refusal_of debugger.now.desk (command.Move asked) ≡ None }
    ensures { text.new.items ≡ text.old.items ++ moved_text debugger.now.desk.fitted asked debugger.now.desk.at }
{
    put_cut(text, debugger);
    if let Some(thread) = thread_named(&Command::Move(asked)) {
        put_stopped(text, debugger, thread);
    }
    append(text, b"\n");
}

fn write_moved<W: Sink>(debugger: &Debugger, asked: Move, writer: &mut W) -> Result<(), DeviceErr>
    requires { refusal_of debugger.now.desk (command.Move asked) ≡ None }
    ensures { WritesText W.written W.broken writer.old writer.new (moved_text debugger.now.desk.fitted asked debugger.now.desk.at) result }
{
    let mut text = Text::new();
    put_moved(&mut text, debugger, asked);
    write_all(writer, text.as_slice())
}

fn put_continued(text: &mut Text, debugger: &Debugger, thread: u32, hit: Option<Hit>)
    requires empty { array_vec_len text.old ≡ 0 }
    requires thread { thread < threads_of debugger.now.desk.fitted }
    ensures { text.new.items ≡ text.old.items ++ continued_text debugger.now.desk.fitted thread hit debugger.now.desk.at }
{
    put_cut(text, debugger);
    put_hit(text, hit);
    put_stopped(text, debugger, thread);
    append(text, b"\n");
}

fn write_continued<W: Sink>(
    debugger: &Debugger,
    thread: u32,
    hit: Option<Hit>,
    writer: &mut W,
) -> Result<(), DeviceErr>
    requires { thread < threads_of debugger.now.desk.fitted }
    ensures { WritesText W.written W.broken writer.old writer.new (continued_text debugger.now.desk.fitted thread hit debugger.now.desk.at) result }
{
    let mut text = Text::new();
    put_continued(&mut text, debugger, thread, hit);
    write_all(writer, text.as_slice())
}

fn write_position<W: Sink>(debugger: &Debugger, writer: &mut W) -> Result<(), DeviceErr>
    ensures { WritesText W.written W.broken writer.old writer.new (positions_text debugger.now.desk.at ++ codes "\n") result }
{
    let mut text = Text::new();
    put_cut(&mut text, debugger);
    append(&mut text, b"\n");
    write_all(writer, text.as_slice())
}

// Puts the line of a kept cut into an empty text.
fn put_kept(text: &mut Text, kept: &KeptCut)
    requires empty { array_vec_len text.old ≡ 0 }
    requires few { length kept.now.cut ≤ most_threads }
    ensures { text.new.items ≡ text.old.items ++ kept_line kept.now }
{
    put_number(text, b"", kept.number() as u64);
    append(text, b" ");
    put_positions(text, kept.cut().positions());
    append(text, b"\n");
}

// Writes a line for each kept cut.
fn write_kept<W: Sink>(kept: &[KeptCut], writer: &mut W) -> Result<(), DeviceErr>
    requires { AllByRecursion (λ k. length k.cut ≤ most_threads) kept.now }
    ensures { WritesText W.written W.broken writer.old writer.new (flat_map kept_line kept.now) result }
{
    for i in 0..kept.len() {
        let mut text = Text::new();
        put_kept(&mut text, &kept[i]);
        write_all(writer, text.as_slice())?;
    }
    Ok(())
}

#[tactic(auto, using(ir_image::proofs::CallerLemmas::guest_threads_within))]
fn write_cuts<W: Sink>(debugger: &Debugger, writer: &mut W) -> Result<(), DeviceErr>
    ensures { WritesText W.written W.broken writer.old writer.new (flat_map kept_line debugger.now.desk.kept) result }
{
    debugger.fitted().image().entries();
    write_kept(debugger.kept(), writer)
}

// The text by the threads and objects in hand.
fn write_here<W: Sink>(
    debugger: &Debugger,
    answer: &Answer,
    writer: &mut W,
) -> Result<(), DeviceErr>
    requires { IsLast debugger.now answer.now }
    ensures { WritesText W.written W.broken writer.old writer.new (text_here debugger.now answer.now) result }
{
    match answer {
        Answer::Moved(asked) => write_moved(debugger, *asked, writer),
        Answer::Continued(thread, hit) => write_continued(debugger, *thread, *hit, writer),
        Answer::Position => write_position(debugger, writer),
        Answer::Shown(show) => write_shown(debugger, *show, writer),
        Answer::Next(line) => write_all(writer, line.as_slice()),
        Answer::Set(number) => write_number(b"point ", *number, writer),
        Answer::Cleared(number) => write_number(b"cleared ", *number, writer),
        Answer::Kept(number) => write_number(b"kept ", *number, writer),
        Answer::Dropped(number) => write_number(b"dropped ", *number, writer),
        Answer::KeptCuts => write_cuts(debugger, writer),
        Answer::Refused(refusal) => write_refusal(*refusal, writer),
        Answer::Bye => write_all(writer, b"bye\n"),
    }
}

/// Writes the answer that the debugger gave last. Takes no memory.
pub fn write_answer<W: Sink>(
    debugger: &Debugger,
    answer: &Answer,
    writer: &mut W,
) -> Result<(), DeviceErr>
    requires { IsLast debugger.now answer.now }
    ensures { WritesOrFails W.broken writer.old writer.new
        (IsText debugger.now answer.now (Appends (W.written writer.old) (W.written writer.new)))
        (IsText debugger.now answer.now (AppendsPrefix (W.written writer.old) (W.written writer.new))) result }
{
    write_here(debugger, answer, writer)
}
