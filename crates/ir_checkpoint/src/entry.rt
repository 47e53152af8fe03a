//! A kept cut as it lies: with the pages that differ from those of the next older one.

ghost use Rattle.std.specs.Prelude.{◌≡◌, ◌<◌, length, slice_index_or, MatchOption, Some, None};
ghost use Rattle.ir_checkpoint.specs.Store.{first_stored, handed};
ghost use Rattle.ir_checkpoint.specs.Store as store;

use crate::page::Page;
use ir_cut::Cut;
use ir_object::Object;
use ir_thread::Frame;
use std::marker::Model;

/// A kept cut; of the pages only those that aren't the same in the next older one.
#[derive(Drop)]
pub struct Entry {
    pub(crate) number: u32,
    pub(crate) cut: Cut,
    pub(crate) frames: Vec<Frame>,
    pub(crate) objects: Vec<Object>,
    pub(crate) pages: Vec<Option<Page>>,
}

impl Model for Entry {
    ghost Value = { store.Entry };

    ghost view = { λ e. record {
      number = e.number;
      cut = e.cut;
      frames = e.frames.items;
      objects = e.objects.items;
      pages = e.pages.items;
    } };
}

// Its own page, or else the gift.
fn prefer(own: &mut Option<Page>, gift: Option<Page>)
    ensures { own.new ≡ first_stored own.old gift }
{
    if own.is_none() {
        *own = gift;
    }
}

// The pages that another has none of go over to it.
pub fn hand_on(own: &mut [Option<Page>], gifts: Vec<Option<Page>>)
    requires { length own.old ≡ length gifts.items }
    ensures { own.new ≡ handed own.old gifts.items }
{
    let mut gifts = gifts;
    for i in 0..own.len() {
        let gift = gifts[i].take();
        prefer(&mut own[i], gift);
    }
}

impl Entry {
    /// Takes over the pages of the next older entry.
    pub fn take_over(&mut self, older: Entry)
        requires { length self.old.pages ≡ length older.pages }
        ensures { self.new ≡ record self.old { pages = handed self.old.pages older.pages } }
    {
        let Entry { pages, .. } = older;
        hand_on(&mut self.pages, pages);
    }

    /// Its page at a place, if it has one of its own there.
    pub fn page(&self, place: usize) -> Option<&Page>
        requires { place < length self.now.pages }
        ensures { MatchOption result (slice_index_or self.now.pages place None ≡ None) (λ page. slice_index_or self.now.pages place None ≡ Some page.now) }
    {
        self.pages[place].as_ref()
    }
}
