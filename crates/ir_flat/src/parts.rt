//! The threads and objects of a guest, each for itself.

ghost use Rattle.ir_flat.specs.Flat.{Flat, IsFlat, thread_of, cell_of, start_flat};
ghost use Rattle.ir_flat.specs.Room.{HaveRoom};
ghost use Rattle.ir_flat.specs.Next.{with_thread, with_object, answered, next, next_try, MayStep, MayTry};
ghost use Rattle.ir_image.specs.Guest.{most_object_words, object_count};
ghost use Rattle.ir_object.specs.Standing.{Admitted, CanLeave};
ghost use Rattle.ir_object.specs.Word.{IsFields, entered_word, left_by};
ghost use Rattle.ir_thread.specs.State.{ask_of, after_reply, most_budget, is_result};
ghost use Rattle.ir_thread.specs.Permitted.{run_of, Permits, ReplySuits};
ghost use Rattle.ir_thread.specs.Private.{NoInstruction, UnmarkedSteps, StopsUnmarked};
ghost use Rattle.ir_thread.specs.declared.ask.Ask.TheVariants.{Private, Try};
ghost use Rattle.std.specs.Prelude.{ℕ, ◌≡◌, ◌<◌, ◌≤◌, ◌≢◌, ◌↔◌, true, length, slice_index, slice_set, IsTrue, IfOk};

use crate::start;
use ir_image::{Code, Image};
use ir_mach::MarkedCode;
use ir_object::Object;
use ir_runs::{Access, EnvKind};
use ir_thread::{Ask, Profile, Reply, Thread};
use std::alloc::{AllocError, Global};
use std::marker::Model;

// The code that all threads run, the threads and the objects.
#[derive(Drop)]
pub struct Parts<'a> {
    code: &'a Code,
    threads: Vec<Thread>,
    objects: Vec<Object>,
}

impl<'a> Model for Parts<'a> {
    ghost Value = { Flat };

    ghost view = { λ p. record { code = p.code.now; threads = p.threads.items; objects = p.objects.items } };
}

// Whether the result is one of such a call: for the input a byte or 0xFFFFFFFF.
fn suits(kind: EnvKind, r: u32) -> bool
    ensures { IsTrue result ↔ (is_result kind r ≡ true) }
{
    kind != EnvKind::Input || r < 0x100 || r == 0xffff_ffff
}

impl<'a> Parts<'a> {
    pub fn new(code: &'a Code, threads: Vec<Thread>, objects: Vec<Object>) -> Parts<'a>
        ensures { result ≡ record { code = code.now; threads = threads.items; objects = objects.items } }
    {
        Parts {
            code,
            threads,
            objects,
        }
    }

    pub fn into_parts(self) -> (Vec<Thread>, Vec<Object>)
        ensures threads { result.0.items ≡ self.entry.threads }
        ensures objects { result.1.items ≡ self.entry.objects }
    {
        let Parts {
            threads,
            objects,
            ..
        } = self;
        (threads, objects)
    }

    // The guest before its first step, in the memory that there is.
    pub fn restart(&mut self, image: &'a Image, budget: u64, profile: Profile)
        requires budget { budget ≤ most_budget }
        requires threads { length self.old.threads ≡ length image.now.entries }
        requires objects { length self.old.objects ≡ object_count image.now }
        requires room { HaveRoom self.old.threads (object_count image.now) }
        ensures { self.new ≡ start_flat image.now budget profile }
    {
        self.code = image.code();
        start::restart_threads(&mut self.threads, image, budget, profile);
        start::restart_objects(&mut self.objects, image);
    }

    pub fn code(&self) -> &'a Code
        ensures { result.now ≡ self.now.code }
    {
        self.code
    }

    pub fn threads(&self) -> &[Thread]
        ensures { result.now ≡ self.now.threads }
    {
        self.threads.as_slice()
    }

    pub fn objects(&self) -> &[Object]
        ensures { result.now ≡ self.now.objects }
    {
        self.objects.as_slice()
    }

    pub fn thread(&self, t: usize) -> &Thread
        requires { t < length self.now.threads }
        ensures { result.now ≡ thread_of self.now t }
    {
        &self.threads[t]
    }

    pub fn object(&self, o: u8) -> &Object
        requires { o < length self.now.objects }
        ensures { result.now ≡ cell_of self.now o }
    {
        &self.objects[o as usize]
    }

    pub fn ask(&self, t: usize) -> Ask
        requires { t < length self.now.threads }
        ensures value { result ≡ ask_of self.now.code (thread_of self.now t) }
        ensures permits { Permits (thread_of self.now t) result }
    {
        self.thread(t).ask(self.code)
    }

    // Thread t takes the step that it asked.
    #[tactic(auto, unfolding(ir_thread::specs::State::after_reply))]
    #[inline(always)]
    fn take(&mut self, t: usize, asked: Ask, reply: Reply)
        requires thread { t < length self.old.threads }
        requires asked { asked ≡ ask_of self.old.code (thread_of self.old t) }
        requires suits { ReplySuits asked reply }
        ensures { self.new ≡ answered self.old t asked reply }
    {
        self.threads[t].take_asked(self.code, asked, reply);
    }

    // Thread t takes private steps, at most `limit`: how many they are, and what it asks then.
    #[inline(always)]
    pub fn run_to_ask(&mut self, t: usize, limit: u64) -> (u64, Ask)
        requires { t < length self.old.threads }
        ensures within { result.0 ≤ limit }
        ensures each { (k : ℕ) → k < result.0 → ask_of self.old.code (run_of self.old.code k (thread_of self.old t)) ≡ Private }
        ensures moved { self.new ≡ with_thread self.old t (run_of self.old.code result.0 (thread_of self.old t)) }
        ensures asked { result.1 ≡ ask_of self.new.code (thread_of self.new t) }
        ensures stops { result.0 < limit → NoInstruction self.new.code (thread_of self.new t) }
        ensures shared { result.0 < limit → result.1 ≢ Private }
    {
        self.threads[t].run_to_ask(self.code, limit)
    }

    // Thread t takes instructions none of which is marked, at most `limit`: how many they are.
    pub fn run_unmarked(&mut self, t: usize, code: &MarkedCode<'_>, limit: u64) -> u64
        requires thread { t < length self.old.threads }
        requires code { code.now.words ≡ self.old.code }
        ensures within { result ≤ limit }
        ensures each { (k : ℕ) → k < result → ask_of self.old.code (run_of self.old.code k (thread_of self.old t)) ≡ Private }
        ensures moved { self.new ≡ with_thread self.old t (run_of self.old.code result (thread_of self.old t)) }
        ensures unmarked { UnmarkedSteps code.now result (thread_of self.old t) (thread_of self.new t) }
        ensures stops { result < limit → StopsUnmarked code.now (thread_of self.new t) }
    {
        self.threads[t].run_unmarked(code, limit)
    }

    fn enter(&mut self, o: u8, access: Access)
        requires object { o < length self.old.objects }
        requires admitted { Admitted access (cell_of self.old o).fields }
        requires fits { IsFields (entered_word access (cell_of self.old o).fields) }
        ensures { self.new ≡ with_object self.old o (record (cell_of self.old o) { fields = entered_word access (cell_of self.old o).fields }) }
    {
        self.objects[o as usize].enter(access);
    }

    fn leave(&mut self, o: u8, access: Access)
        requires object { o < length self.old.objects }
        requires inside { CanLeave access (cell_of self.old o).fields }
        requires fits { IsFields (left_by access (cell_of self.old o).fields) }
        ensures { self.new ≡ with_object self.old o (record (cell_of self.old o) { fields = left_by access (cell_of self.old o).fields }) }
    {
        self.objects[o as usize].leave(access);
    }

    fn put(&mut self, o: u8, index: u8, value: u32)
        requires object { o < length self.old.objects }
        requires index { index < most_object_words }
        ensures { self.new ≡ with_object self.old o (record (cell_of self.old o) { words = slice_set (cell_of self.old o).words index value }) }
    {
        self.objects[o as usize].put(index, value);
    }

    // Whether a try may have this result: 1 if no thread is inside, 0 always.
    fn may_try(&self, o: u8, r: u32) -> bool
        requires { o < length self.now.objects }
        ensures { IsTrue result ↔ MayTry (cell_of self.now o).fields r }
    {
        match r {
            0 => true,
            1 => self.object(o).can_write(),
            _ => false,
        }
    }

    // Whether there is the step that thread t asks, with this result.
    #[inline(always)]
    pub fn may(&self, t: usize, r: u32, asked: Ask) -> bool
        requires flat { IsFlat self.now }
        requires thread { t < length self.now.threads }
        requires permits { Permits (thread_of self.now t) asked }
        ensures { IsTrue result ↔ MayStep self.now r asked }
    {
        match asked {
            Ask::Env(kind) => suits(kind, r),
            Ask::Enter(o, Access::Reading) => self.object(o).can_read(),
            Ask::Enter(o, Access::Writing) => self.object(o).can_write(),
            Ask::Try(o) => self.may_try(o, r),
            Ask::Done => false,
            _ => true,
        }
    }

    // Thread t tries to enter, with this result.
    fn try_to_enter(&mut self, t: usize, o: u8, r: u32)
        requires flat { IsFlat self.old }
        requires thread { t < length self.old.threads }
        requires asked { ask_of self.old.code (thread_of self.old t) ≡ Try o }
        requires permits { Permits (thread_of self.old t) (Try o) }
        requires may { MayTry (cell_of self.old o).fields r }
        ensures { self.new ≡ next_try self.old t o r }
    {
        if r == 1 {
            self.enter(o, Access::Writing);
            self.take(t, Ask::Try(o), Reply::Value(1));
        } else {
            self.take(t, Ask::Try(o), Reply::Value(0));
        }
    }

    // Thread t takes the step that it asked.
    #[inline(always)]
    pub fn step(&mut self, t: usize, r: u32, asked: Ask)
        requires flat { IsFlat self.old }
        requires thread { t < length self.old.threads }
        requires asked { asked ≡ ask_of self.old.code (thread_of self.old t) }
        requires permits { Permits (thread_of self.old t) asked }
        requires may { MayStep self.old r asked }
        ensures { self.new ≡ next self.old t r asked }
    {
        match asked {
            Ask::Env(_) => self.take(t, asked, Reply::Value(r)),
            Ask::Enter(o, access) => {
                self.enter(o, access);
                self.take(t, asked, Reply::Go);
            }
            Ask::Try(o) => self.try_to_enter(t, o, r),
            Ask::Leave(o, access) => {
                self.leave(o, access);
                self.take(t, asked, Reply::Go);
            }
            Ask::Get(o, index) => {
                let word = self.object(o).get(index);
                self.take(t, asked, Reply::Value(word));
            }
            Ask::Put(o, index, value) => {
                self.put(o, index, value);
                self.take(t, asked, Reply::Go);
            }
            Ask::Private | Ask::Print | Ask::End(_) => self.take(t, asked, Reply::Go),
            Ask::Done => {}
        }
    }

    pub fn copy(&self) -> Result<Parts<'a>, AllocError>
        ensures { IfOk result (λ p. p ≡ self.now) }
    {
        let alloc = *self.threads.allocator();
        let mut threads = Vec::with_capacity(alloc, self.threads.len())?;
        for thread in self.threads.as_slice() {
            threads.push(thread.copy()?)?;
        }
        let objects = copies(alloc, self.objects.as_slice())?;
        Ok(Parts {
            code: self.code,
            threads,
            objects,
        })
    }
}

// The same objects once more.
fn copies(alloc: Global, objects: &[Object]) -> Result<Vec<Object>, AllocError>
    ensures { IfOk result (λ copies. copies.items ≡ objects.now) }
{
    let mut copies = Vec::with_capacity(alloc, objects.len())?;
    for object in objects {
        copies.push(object.copy())?;
    }
    Ok(copies)
}
