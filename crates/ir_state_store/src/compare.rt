//! States that look the same, by their numbers.

ghost use Rattle.std.specs.Prelude.{◌≡◌, ◌≢◌, ℕ, ◌<◌, List, true, false, length};
ghost use Rattle.std.specs.List.{slice_index_or};
ghost use Rattle.ir_object.specs.Empty.{empty};
ghost use Rattle.ir_state_store.specs.Nodes.{MomentsLookSame, cells_at, AreSameLooks, sourced_in, looks_in, node_words_in};
ghost use Rattle.ir_state_store.specs.Hashes as hashes;
ghost use Rattle.ir_state_store.specs.Nodes as nodes;
ghost use Rattle.ir_state_store.specs.Table.{AreIn, beside_at};

use crate::hash::{after_number, empty_hash};
use crate::node::Node;
use crate::spot::Spot;
use crate::table::Table;

// The hash, after these objects too.
fn after_spots(hash: u64, spots: &[Spot]) -> u64
    ensures { result ≡ hashes.after_numbers hash (node_words_in spots.now) }
{
    let mut hash = hash;
    for spot in spots {
        hash = after_number(hash, spot.words as u64);
    }
    hash
}

// The hash of the numbers that stand for these threads.
fn looks_hash(table: &Table<'_>, threads: &[u32]) -> u64
    requires { AreIn table.now.items threads.now }
    ensures { result ≡ hashes.after_numbers hashes.empty_hash (looks_in table.now.looks threads.now) }
{
    let mut hash = empty_hash();
    for n in threads {
        hash = after_number(hash, table.look(*n as usize) as u64);
    }
    hash
}

/// A hash of what the threads can see of a state.
pub fn hash_of(table: &Table<'_>, node: &Node<'_>) -> u64
    requires { AreIn table.now.items node.now.threads }
    ensures { result ≡ nodes.node_hash table.now.looks node.now }
{
    let hash = looks_hash(table, node.threads.as_slice());
    after_spots(hash, node.objects.as_slice())
}

// Whether the threads of these numbers look the same.
fn same_threads(table: &Table<'_>, first: &[u32], second: &[u32]) -> bool
    requires first { AreIn table.now.items first.now }
    requires second { AreIn table.now.items second.now }
    ensures same { result ≡ true → (t : ℕ) → t < length first.now → MomentsLookSame table.now.basis.code (beside_at table.now.items first.now t) (beside_at table.now.items second.now t) }
    ensures other { result ≡ false → looks_in table.now.looks first.now ≢ looks_in table.now.looks second.now }
{
    if first.len() != second.len() {
        return false;
    }
    for t in 0..first.len() {
        if !table.same_look(first[t] as usize, second[t] as usize) {
            return false;
        }
    }
    true
}

// Whether the objects have the same words.
fn same_spots(first: &[Spot], second: &[Spot]) -> bool
    ensures same { result ≡ true → (words : List (List ℕ)) (o : ℕ) → (slice_index_or (cells_at words first.now) o empty).words ≡ (slice_index_or (cells_at words second.now) o empty).words }
    ensures other { result ≡ false → node_words_in first.now ≢ node_words_in second.now }
{
    if first.len() != second.len() {
        return false;
    }
    for o in 0..first.len() {
        if first[o].words != second[o].words {
            return false;
        }
    }
    true
}

/// Whether a state has the same numbers as the one of these: they look the same.
pub fn same_looks(table: &Table<'_>, first: &Node<'_>, threads: &[u32], objects: &[Spot]) -> bool
    requires first { AreIn table.now.items first.now.threads }
    requires second { AreIn table.now.items threads.now }
    ensures same { result ≡ true → (words : List (List ℕ)) (code : List ℕ) → AreSameLooks table.now.basis.code (sourced_in (record { threads = table.now.items; words = words }) first.now)
        (sourced_in (record { threads = table.now.items; words = words }) (record { code = code; threads = threads.now; objects = objects.now })) }
    ensures other { result ≡ false → looks_in table.now.looks first.now.threads ≡ looks_in table.now.looks threads.now → node_words_in first.now.objects ≢ node_words_in objects.now }
{
    same_threads(table, first.threads.as_slice(), threads)
        && same_spots(first.objects.as_slice(), objects)
}
