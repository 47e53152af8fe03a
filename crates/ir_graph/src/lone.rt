//! A thread that goes on beside some objects.

ghost use Rattle.std.specs.Prelude.{◌≡◌, ◌<◌, ℕ, true, false, length, slice_index, IfSome};
ghost use Rattle.ir_graph.specs.Lone.{IsAbout, IsGiven, answer_from, cell_after, GoesAmong, MayBegin, MustWait, TakesTurn, AreAmong, MayTake};
ghost use Rattle.ir_graph.specs.Plain.{IsFair, Rests};
ghost use Rattle.ir_world.specs.Sources.{given};
ghost use Rattle.ir_search_laws.specs.Sources.{left_of_source};
ghost use Rattle.ir_thread.specs.State.{ask_of, after_ask, shared_ask};

use ir_image::Code;
use ir_object::Object;
use ir_runs::Access;
use ir_state_store::SourcedThread;
use ir_thread::{Ask, End, Reply, Thread};
use ir_world::Sources;

// Whether a thread that asks so rests.
fn is_rest(asked: Ask) -> bool
    ensures { result ≡ true → Rests asked }
{
    match asked {
        Ask::Enter(_, _) | Ask::Try(_) | Ask::Done => true,
        _ => false,
    }
}

// Whether a thread that asks so goes on, and is about no object but this one.
fn is_about(object: u8, asked: Ask) -> bool
    ensures fair { result ≡ true → IsFair asked }
    ensures about { result ≡ true → IsAbout object asked }
{
    match asked {
        Ask::Private | Ask::Print | Ask::Env(_) => true,
        Ask::Leave(o, _) => o == object,
        Ask::Get(o, _) => o == object,
        Ask::Put(o, _, _) => o == object,
        Ask::End(End::BudgetSpent) | Ask::End(End::LogFull) => false,
        Ask::End(_) => true,
        _ => false,
    }
}

// The thread takes the step that it asked, which is about this object or none; a try is refused or enters, and a call of the environment is
// answered by the thread's source. Whether it did: of a call for the time the count may be at its end.
#[tactic(auto, unfolding(ir_thread::specs::State::after_reply))]
fn take_beside(
    code: &Code,
    thread: &mut Thread,
    source: &mut Sources<'_>,
    object: &mut Object,
    asked: Ask,
    refused: bool,
) -> bool
    requires asked { asked ≡ ask_of code.now thread.old }
    requires may { MayTake refused object.old asked }
    ensures given { result ≡ true → IsGiven source.old asked }
    ensures thread { result ≡ true → thread.new ≡ after_ask code.now thread.old asked (answer_from refused object.old source.old asked) }
    ensures source { result ≡ true → source.new ≡ left_of_source given (shared_ask asked) source.old }
    ensures object { result ≡ true → object.new ≡ cell_after refused object.old asked }
{
    let reply = match asked {
        Ask::Env(kind) => {
            let Some(answer) = source.try_answer(kind) else {
                return false;
            };
            Reply::Value(answer)
        }
        Ask::Enter(_, access) => {
            object.enter(access);
            Reply::Go
        }
        Ask::Try(_) if refused => Reply::Value(0),
        Ask::Try(_) => {
            object.enter(Access::Writing);
            Reply::Value(1)
        }
        Ask::Leave(_, access) => {
            object.leave(access);
            Reply::Go
        }
        Ask::Get(_, index) => Reply::Value(object.get(index)),
        Ask::Put(_, index, value) => {
            object.put(index, value);
            Reply::Go
        }
        _ => Reply::Go,
    };
    thread.take_asked(code, asked, reply);
    true
}

// The place of an object of these numbers such that a thread that asks so goes on, and is about no object but this one.
fn place_of(numbers: &[u8], asked: Ask) -> Option<usize>
    ensures within { IfSome result (λ p. p < length numbers.now) }
    ensures fair { IfSome result (λ _. IsFair asked) }
    ensures about { IfSome result (λ p. IsAbout (slice_index numbers.now p) asked) }
{
    for p in 0..numbers.len() {
        if is_about(numbers[p], asked) {
            return Some(p);
        }
    }
    None
}

// A thread goes on to where it rests, if all its steps up to there, at most `limit`, are about these objects; whether it came there.
fn go_among(
    code: &Code,
    thread: &mut Thread,
    source: &mut Sources<'_>,
    objects: &mut [Object],
    numbers: &[u8],
    limit: u64,
) -> bool
    requires some { 0 < length numbers.now }
    requires among { AreAmong code.now numbers.now thread.old objects.old }
    ensures goes { result ≡ true → (k : ℕ) × GoesAmong code.now numbers.now k (thread.old, source.old) objects.old (thread.new, source.new) objects.new }
    ensures rests { result ≡ true → Rests (ask_of code.now thread.new) }
{
    let mut left = limit;
    'among: loop {
        let (steps, asked) = thread.run_to_ask(code, left);
        left -= steps;
        if is_rest(asked) {
            return true;
        }
        if left == 0 {
            return false;
        }
        let Some(p) = place_of(numbers, asked) else {
            return false;
        };
        if !take_beside(code, thread, source, &mut objects[p], asked, false) {
            return false;
        }
        left -= 1;
    }
}

// What the thread asks, if it can begin a turn with this object: it enters, or its try is refused or enters.
fn first_ask(
    code: &Code,
    thread: &Thread,
    object: &Object,
    number: u8,
    refused: bool,
) -> Option<Ask>
    ensures asks { IfSome result (λ asked. ask_of code.now thread.now ≡ asked) }
    ensures begins { IfSome result (λ asked. MayBegin refused number object.now.fields asked) }
{
    match thread.ask(code) {
        Ask::Enter(o, Access::Reading) if o == number && !refused && object.can_read() => Some(
            Ask::Enter(number, Access::Reading),
        ),
        Ask::Enter(o, Access::Writing) if o == number && !refused && object.can_write() => Some(
            Ask::Enter(number, Access::Writing),
        ),
        Ask::Try(o) if o == number && (refused || object.can_write()) => Some(Ask::Try(number)),
        _ => None,
    }
}

/// Whether a thread that asks so has to wait for this object, by a way that is no refused try.
pub fn waits(asked: Ask, object: &Object, number: u8, refused: bool) -> bool
    ensures { result ≡ true → MustWait refused number object.now.fields asked }
{
    match asked {
        Ask::Enter(o, Access::Reading) if o == number && !refused => !object.can_read(),
        Ask::Enter(o, Access::Writing) if o == number && !refused => !object.can_write(),
        Ask::Try(o) if o == number && !refused => !object.can_write(),
        _ => false,
    }
}

/// A thread that rests enters the first of these objects, or its try is refused or enters, and it goes on to where it rests again, if all its
/// steps up to there, at most `limit`, are about these objects alone; whether it did. Its calls of the environment are answered by its source.
pub fn turn_among(
    code: &Code,
    own: &mut SourcedThread<'_>,
    objects: &mut [Object],
    numbers: &[u8],
    refused: bool,
    limit: u64,
) -> bool
    requires some { 0 < length numbers.now }
    requires among { AreAmong code.now numbers.now own.old.0 objects.old }
    ensures { result ≡ true → TakesTurn code.now numbers.now refused own.old objects.old own.new objects.new }
{
    let Some(asked) = first_ask(code, &own.thread, &objects[0], numbers[0], refused) else {
        return false;
    };
    let took = take_beside(
        code,
        &mut own.thread,
        &mut own.source,
        &mut objects[0],
        asked,
        refused,
    );
    if !took {
        return false;
    }
    go_among(
        code,
        &mut own.thread,
        &mut own.source,
        objects,
        numbers,
        limit,
    )
}
