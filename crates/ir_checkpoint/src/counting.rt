//! How many pages are kept.

ghost use Rattle.std.specs.Prelude.{◌≡◌, ◌<◌, ◌≤◌, ◌^◌, length};
ghost use Rattle.std.specs.List.{All};
ghost use Rattle.ir_checkpoint.specs.Store as store;

use crate::entry::Entry;
use crate::page::Page;

fn owned(pages: &[Option<Page>]) -> u32
    requires { length pages.now < 2 ^ 32 }
    ensures { result ≡ store.owned pages.now }
{
    let mut own = 0;
    for page in pages {
        if page.is_some() {
            own += 1;
        }
    }
    own
}

// How many pages entries have of their own.
pub fn stored(entries: &[Entry]) -> u32
    requires all { store.stored_pages entries.now < 2 ^ 32 }
    requires each { All (λ e. length e.pages < 2 ^ 32) entries.now }
    ensures { result ≡ store.stored_pages entries.now }
{
    let mut all = 0;
    for entry in entries {
        all += owned(entry.pages.as_slice());
    }
    all
}
