//! A step of one thread, and what is logged of it.

ghost use Rattle.std.specs.Prelude.{◌≡◌, ◌≢◌, ◌<◌, [], ◌∷◌, ◌++◌, ◌≤◌, true, false, List, length, slice_set, replicate};
ghost use Rattle.ir_flat.specs.Alone.{WentAlone};
ghost use Rattle.ir_flat.specs.Flat.{thread_of, IsFlat, tables};
ghost use Rattle.ir_thread.specs.State.{ask_of, is_result};
ghost use Rattle.ir_thread.specs.Permitted.{Permits};
ghost use Rattle.ir_thread.specs.declared.ask.Ask.TheVariants.{Env, Enter, Try};
ghost use Rattle.ir_thread.specs.declared.profile.Profile.{Profile};
ghost use Rattle.ir_log.specs.Logging.{label_of};
ghost use Rattle.ir_runs.specs.Machine.{emitted};
ghost use Rattle.ir_runs.specs.Machine as act;
ghost use Rattle.ir_trace.specs.Bounds.{IsEvent};
ghost use Rattle.ir_record.specs.Progress.{progress, TookSteps, TookIf, TookTurns, HasLogs, IsQuiet};
ghost use Rattle.ir_record.specs.Worlds.{answers_at, AnsweredCall};

use crate::in_order::logged_guest::LoggedGuest;
use ir_log::Event;
use ir_runs::{Access, EnvKind};
use ir_thread::Ask;

impl LoggedGuest<'_> {
    // What thread t asks.
    pub fn ask(&self, t: usize) -> Ask
        requires { t < length self.now.flat.threads }
        ensures value { result ≡ ask_of self.now.flat.code (thread_of self.now.flat t) }
        ensures permits { Permits (thread_of self.now.flat t) result }
        ensures flat { IsFlat self.now.flat }
    {
        self.flat.ask(t)
    }

    // Thread t takes the call of the environment that it asks, with this answer.
    pub fn answer(&mut self, t: usize, kind: EnvKind, value: u32)
        requires has_logs { HasLogs self.old.flat self.old.logs.items }
        requires flat { IsFlat self.old.flat }
        requires thread { t < length self.old.flat.threads }
        requires asked { ask_of self.old.flat.code (thread_of self.old.flat t) ≡ Env kind }
        requires fits { is_result kind value ≡ true }
        ensures took { (answers more : List (List AnsweredCall)) → t < length answers → more ≡ slice_set answers t (answers_at answers t ++ (kind, value) ∷ [])
            → TookIf true (t ∷ []) (progress self.old answers) (progress self.new more) }
        ensures has_logs { HasLogs self.new.flat self.new.logs.items }
    {
        let _ = self.flat.take(t, Ask::Env(kind), value);
        self.logs[t].push(Event::Answer(kind, value));
    }

    // What is logged of an entry to the object now.
    fn entry(&self, object: u8, access: Access) -> Event
        requires { object < length self.now.flat.objects }
        ensures emitted { label_of result ≡ emitted (act.Entered object access 0) ((tables self.now.flat).objects object) }
        ensures fits { (profile : Profile) → IsEvent profile (length self.now.flat.objects) result }
    {
        let fields = self.flat.objects()[object as usize].fields();
        match access {
            Access::Reading => Event::Read {
                object,
                version: fields.version,
            },
            Access::Writing => Event::Write {
                object,
                version: fields.version,
                readers: fields.left,
            },
        }
    }

    // Thread t enters the object that it asks for, unless it must wait.
    pub fn enter(&mut self, t: usize, object: u8, access: Access) -> bool
        requires has_logs { HasLogs self.old.flat self.old.logs.items }
        requires flat { IsFlat self.old.flat }
        requires thread { t < length self.old.flat.threads }
        requires asked { ask_of self.old.flat.code (thread_of self.old.flat t) ≡ Enter object access }
        ensures took { (answers : List (List AnsweredCall))
            → TookIf result (t ∷ []) (progress self.old answers) (progress self.new answers) }
        ensures waits { result ≡ false → self.new.flat ≡ self.old.flat }
        ensures has_logs { HasLogs self.new.flat self.new.logs.items }
    {
        let event = self.entry(object, access);
        if self.flat.take(t, Ask::Enter(object, access), 0).is_err() {
            return false;
        }
        self.logs[t].push(event);
        true
    }

    // Thread t tries to enter the object that it asks for: it enters if no thread is inside, and otherwise continues without it.
    pub fn try_to_enter(&mut self, t: usize, object: u8)
        requires has_logs { HasLogs self.old.flat self.old.logs.items }
        requires flat { IsFlat self.old.flat }
        requires thread { t < length self.old.flat.threads }
        requires asked { ask_of self.old.flat.code (thread_of self.old.flat t) ≡ Try object }
        ensures took { (answers : List (List AnsweredCall)) → TookIf true (t ∷ []) (progress self.old answers) (progress self.new answers) }
        ensures has_logs { HasLogs self.new.flat self.new.logs.items }
    {
        let event = self.entry(object, Access::Writing);
        match self.flat.take(t, Ask::Try(object), 1) {
            Ok(()) => self.logs[t].push(event),
            Err(_) => {
                let _ = self.flat.take(t, Ask::Try(object), 0);
                self.logs[t].push(Event::Try { object });
            }
        }
    }

    // Thread t tries to enter the object that it asks for, and is refused.
    pub fn refuse(&mut self, t: usize, object: u8)
        requires has_logs { HasLogs self.old.flat self.old.logs.items }
        requires flat { IsFlat self.old.flat }
        requires thread { t < length self.old.flat.threads }
        requires asked { ask_of self.old.flat.code (thread_of self.old.flat t) ≡ Try object }
        ensures took { (answers : List (List AnsweredCall)) → TookTurns ((t, true) ∷ []) (progress self.old answers) (progress self.new answers) }
        ensures has_logs { HasLogs self.new.flat self.new.logs.items }
    {
        let asked = Ask::Try(object);
        let _ = self.flat.take(t, asked, 0);
        self.logs[t].push(Event::Try { object });
    }

    // Thread t takes the step that it asks, which nothing is logged of; one that is done has none.
    #[inline(always)]
    pub fn go(&mut self, t: usize, asked: Ask) -> bool
        requires has_logs { HasLogs self.old.flat self.old.logs.items }
        requires flat { IsFlat self.old.flat }
        requires thread { t < length self.old.flat.threads }
        requires asked { ask_of self.old.flat.code (thread_of self.old.flat t) ≡ asked }
        requires quiet { IsQuiet asked }
        ensures took { (answers : List (List AnsweredCall))
            → TookIf result (t ∷ []) (progress self.old answers) (progress self.new answers) }
        ensures none { result ≡ false → self.new.flat ≡ self.old.flat }
        ensures has_logs { HasLogs self.new.flat self.new.logs.items }
    {
        self.flat.take(t, asked, 0).is_ok()
    }

    // Thread t takes at most `limit` instructions: how many they are, and what it asks then.
    #[inline(always)]
    pub fn run(&mut self, t: usize, limit: u64) -> (u64, Ask)
        requires has_logs { HasLogs self.old.flat self.old.logs.items }
        requires thread { t < length self.old.flat.threads }
        ensures within { result.0 ≤ limit }
        ensures asked { result.1 ≡ ask_of self.new.flat.code (thread_of self.new.flat t) }
        ensures flat { IsFlat self.old.flat }
        ensures still_flat { IsFlat self.new.flat }
        ensures alone { WentAlone self.old.flat self.new.flat t result.0 }
        ensures logs { self.new.logs ≡ self.old.logs }
        ensures took { (answers : List (List AnsweredCall)) → TookSteps (replicate result.0 t) (progress self.old answers) (progress self.new answers) }
        ensures has_logs { HasLogs self.new.flat self.new.logs.items }
    {
        self.flat.run_to_ask(t, limit)
    }
}
