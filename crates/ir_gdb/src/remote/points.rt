//! `Z` and `z`: breakpoints and watches.

ghost use Rattle.std.specs.Prelude.{◌≡◌, ◌++◌, [], ◌∷◌, true};
ghost use Rattle.ir_mach.specs.Execution.{lies_in_memory};
ghost use Rattle.ir_gdb.specs.Setting.{has_break, breaks_without, is_code_word, lies_in_objects, can_watch, room_setting, break_setting, watch_setting, setting_reply};
ghost use Rattle.ir_gdb.specs.Setting.{with_break, with_watch, clear_break_reply, clear_watch_reply, without_break, without_watch};

use crate::guarded::Guarded;
use crate::holders::{has_break, has_watch};
use crate::point::{Breakpoint, Setting, Watched};
use crate::remote::Remote;
use ir_debug::MOST_POINTS;
use ir_hits::{OBJECT_SIZE, OBJECTS_START};
use ir_image::{CODE_START, Image, MEMORY_SIZE, MEMORY_START};
use ir_packet::Reply;

// The most bytes of a watch.
const MOST_WATCHED: u32 = 256;

// Whether an address is that of a word of the code.
fn is_code_word(image: &Image, address: u32) -> bool
    ensures { result ≡ is_code_word image.now address }
{
    let code_end = u64::from(CODE_START) + 4 * image.code().words().len() as u64;
    address % 4 == 0 && CODE_START <= address && u64::from(address) + 4 <= code_end
}

// Whether bytes from an address on are all of private memory.
fn lies_in_memory(watched: Watched) -> bool
    ensures { result ≡ lies_in_memory watched.size watched.address }
{
    let Watched { address, size } = watched;
    let end = u64::from(MEMORY_START) + u64::from(MEMORY_SIZE);
    MEMORY_START <= address && u64::from(address) + u64::from(size) <= end
}

// Whether they are all of objects that there are.
fn lies_in_objects(image: &Image, watched: Watched) -> bool
    ensures { result ≡ lies_in_objects image.now watched.size watched.address }
{
    let Watched { address, size } = watched;
    let end = u64::from(OBJECTS_START) + u64::from(OBJECT_SIZE) * image.object_count() as u64;
    OBJECTS_START <= address && u64::from(address) + u64::from(size) <= end
}

// Whether bytes from an address on can be watched: they are a few, and all of private memory or all of objects.
fn can_watch(image: &Image, watched: Watched) -> bool
    ensures { result ≡ can_watch image.now watched }
{
    0 < watched.size
        && watched.size <= MOST_WATCHED
        && (lies_in_memory(watched) || lies_in_objects(image, watched))
}

// The reply to a point that is set, or isn't.
fn setting_reply(setting: Setting) -> Reply
    ensures { result ≡ setting_reply setting }
{
    match setting {
        Setting::BadAddress => Reply::BadAddress,
        Setting::Full => Reply::NoSpace,
        Setting::There | Setting::New => Reply::Done,
    }
}

impl Remote {
    // What becomes of a point that is there, or isn't.
    fn setting(&self, is_there: bool) -> Setting
        ensures { result ≡ room_setting self.now.stub is_there }
    {
        if is_there {
            return Setting::There;
        }
        if self.breaks.as_slice().len() + self.watches.as_slice().len() >= MOST_POINTS {
            return Setting::Full;
        }
        Setting::New
    }

    // What becomes of a breakpoint.
    fn break_setting(&self, point: Breakpoint) -> Setting
        ensures { result ≡ break_setting self.now.stub point }
    {
        if !is_code_word(self.debugger.fitted().image(), point.address) {
            return Setting::BadAddress;
        }
        self.setting(has_break(self.breaks.as_slice(), point))
    }

    // What becomes of a watch.
    fn watch_setting(&self, watched: Watched) -> Setting
        ensures { result ≡ watch_setting self.now.stub watched }
    {
        if !can_watch(self.debugger.fitted().image(), watched) {
            return Setting::BadAddress;
        }
        self.setting(has_watch(self.watches.as_slice(), watched))
    }

    #[tactic(auto, using(crate::proofs::Setting::stub_with_replaced_break_is_stub, crate::proofs::Setting::room_without_break))]
    // A breakpoint that is there gets other conditions.
    fn replace_break(&mut self, guarded: Guarded)
        requires { has_break self.old.stub.breaks guarded.point ≡ true }
        ensures { self.new.stub ≡ record self.old.stub { breaks = breaks_without self.old.stub.breaks guarded.point ++ guarded ∷ [] } }
    {
        self.breaks.clear(guarded.point());
        self.breaks.set(guarded);
    }

    #[tactic(auto, using(crate::proofs::Setting::stub_with_break_is_stub, crate::proofs::Setting::break_is_there))]
    /// `Z0`, `Z1`: sets a breakpoint of all threads.
    pub fn set_break(&mut self, guarded: Guarded) -> Reply
        ensures reply { result ≡ setting_reply (break_setting self.old.stub guarded.point) }
        ensures stub { self.new.stub ≡ with_break self.old.stub guarded }
    {
        let setting = self.break_setting(guarded.point());
        match setting {
            Setting::New => self.breaks.set(guarded),
            Setting::There => self.replace_break(guarded),
            Setting::BadAddress | Setting::Full => {}
        }
        setting_reply(setting)
    }

    #[tactic(auto, using(crate::proofs::Setting::stub_without_break_is_stub))]
    /// `z0`, `z1`: takes a breakpoint away.
    pub fn clear_break(&mut self, point: Breakpoint) -> Reply
        ensures reply { result ≡ clear_break_reply self.old.stub point }
        ensures stub { self.new.stub ≡ without_break self.old.stub point }
    {
        if !is_code_word(self.debugger.fitted().image(), point.address) {
            return Reply::BadAddress;
        }
        self.breaks.clear(point);
        Reply::Done
    }

    #[tactic(auto, using(crate::proofs::Setting::stub_with_watch_is_stub))]
    /// `Z2`: sets a watch of the words in which bytes lie.
    pub fn set_watch(&mut self, watched: Watched) -> Reply
        ensures reply { result ≡ setting_reply (watch_setting self.old.stub watched) }
        ensures stub { self.new.stub ≡ with_watch self.old.stub watched }
    {
        self.debugger.fitted().image().object_count();
        let setting = self.watch_setting(watched);
        if let Setting::New = setting {
            self.watches.set(watched);
        }
        setting_reply(setting)
    }

    #[tactic(auto, using(crate::proofs::Setting::stub_without_watch_is_stub))]
    /// `z2`: takes a watch away.
    pub fn clear_watch(&mut self, watched: Watched) -> Reply
        ensures reply { result ≡ clear_watch_reply self.old.stub watched }
        ensures stub { self.new.stub ≡ without_watch self.old.stub watched }
    {
        if !can_watch(self.debugger.fitted().image(), watched) {
            return Reply::BadAddress;
        }
        self.watches.clear(watched);
        Reply::Done
    }
}
