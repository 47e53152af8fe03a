//! The graph at first: the node where a guest comes to rest.

ghost use Rattle.std.specs.Prelude.{◌≡◌, ◌⊎◌, ℕ, ◌<◌, ◌≤◌, [], ◌∷◌, None, length, vec_len, IfOk, IfErr, OnOk};
ghost use Rattle.ir_search.specs.declared.stop.Stop.TheVariants.{Memory};
ghost use Rattle.ir_flat.specs.Flat.{IsFlat};
ghost use Rattle.ir_graph.specs.Graph.{IsGraph};
ghost use Rattle.ir_graph.specs.Nodes.{AllRest};
ghost use Rattle.ir_graph.specs.Notes.{noted_by, noted_in};
ghost use Rattle.ir_graph.specs.Plain.{GoesPlain};
ghost use Rattle.ir_graph.specs.Setup.{Setup, setup_start};
ghost use Rattle.ir_graph.specs.Stops.{IsStop};
ghost use Rattle.ir_graph.specs.Times.{KnowsTimes};
ghost use Rattle.ir_mach.specs.Core.{memory_size};
ghost use Rattle.ir_thread.specs.State.{IsAllowed};
ghost use Rattle.ir_thread.specs.declared.profile.Profile.TheVariants.{One, Two};

use crate::ahead::Ahead;
use crate::bounds::Bounds;
use crate::graph::Graph;
use crate::notes::Row;
use crate::rest::run_to_rest;
use crate::setup::Setup;
use ir_image::{Image, MEMORY_SIZE};
use ir_search::Stop;
use ir_state_store::{SourcedFlat, Store};
use ir_thread::Profile;
use ir_thread_bytes::Basis;
use std::alloc::{AllocError, Global};

// Each thread runs on alone to its first entry or try.
fn rest_all(state: &mut SourcedFlat<'_>, limit: u64) -> Result<(), Stop>
    requires { length state.old.sources ≡ length state.old.flat.threads }
    ensures goes { GoesPlain state.old state.new }
    ensures rest { OnOk result (AllRest state.new.flat) }
    ensures flat { IsFlat state.new.flat }
    ensures stopped { IfErr result (λ stop. (x : Setup) → state.old ≡ setup_start x → IsStop x limit stop) }
{
    for thread in 0..state.flat.threads().len() {
        if let Err(stop) = run_to_rest(state, thread, limit) {
            return Err(stop);
        }
    }
    Ok(())
}

// An empty row for each thread.
fn no_notes(alloc: Global, threads: usize) -> Result<Vec<Row>, AllocError>
    ensures free { IfOk result (λ rows. (t v : ℕ) → t < threads → noted_in rows.items t v ≡ None) }
    ensures threads { IfOk result (λ rows. length rows.items ≡ threads) }
{
    let mut rows: Vec<Row> = Vec::with_capacity(alloc, threads)?;
    for _ in 0..threads {
        rows.push(Vec::new(alloc))?;
    }
    Ok(rows)
}

// An empty row for each thread that may try: none in the first profile.
fn no_refused_rows(alloc: Global, threads: usize, profile: Profile) -> Result<Vec<Row>, AllocError>
    ensures one { IfOk result (λ rows. profile ≡ One → rows.items ≡ []) }
    ensures two { IfOk result (λ rows. profile ≡ Two → (t v : ℕ) → t < threads → noted_in rows.items t v ≡ None) }
    ensures threads { IfOk result (λ rows. length rows.items ≤ threads) }
{
    match profile {
        Profile::One => Ok(Vec::new(alloc)),
        Profile::Two => no_notes(alloc, threads),
    }
}

// The private memory of each thread at first.
fn first_memory(alloc: Global, image: &Image) -> Result<Vec<u8>, AllocError>
    ensures { IfOk result (λ memory. vec_len memory ≡ memory_size) }
{
    let mut memory = Vec::from_slice(alloc, image.bytes())?;
    memory.resize(MEMORY_SIZE as usize, 0)?;
    Ok(memory)
}

/// The graph of a guest: one node, where it comes to rest from its start.
///
/// # Errors
/// What `run_to_rest` gives, or out of memory.
pub fn start_graph<'a>(alloc: Global, setup: &Setup<'a>, bounds: Bounds) -> Result<Graph<'a>, Stop>
    requires allowed { IsAllowed setup.now.profile setup.now.guest }
    ensures stopped { IfErr result (λ stop. (stop ≡ Memory) ⊎ IsStop setup.now bounds.private stop) }
    ensures setup { IfOk result (λ graph. graph.setup ≡ setup.now) }
    ensures one { IfOk result (λ graph. length graph.flats.items ≡ 1) }
    ensures bounds { IfOk result (λ graph. graph.bounds ≡ bounds) }
    ensures threads { IfOk result (λ graph. length graph.rows.items ≡ length setup.now.guest.entries) }
    ensures sound { IfOk result (λ graph. IsGraph setup.now graph.flats.items (noted_by graph.rows.items graph.refused_rows.items) (length graph.rows.items)) }
    ensures times { IfOk result (λ graph. KnowsTimes setup.now graph.flats.items (noted_by graph.rows.items graph.refused_rows.items) graph.timed) }
    ensures none { IfOk result (λ graph. graph.ahead ≡ []) }
    ensures code { IfOk result (λ graph. graph.flats.code ≡ setup.now.guest.code) }
{
    let mut state = setup.start(alloc)?;
    rest_all(&mut state, bounds.private)?;
    let threads = state.flat.threads().len();
    let rows = no_notes(alloc, threads)?;
    let refused_rows = no_refused_rows(alloc, threads, setup.profile())?;
    let image = setup.image();
    let start = first_memory(alloc, image)?;
    let basis = Basis::new(alloc, setup.code(), start)?;
    let mut flats = Store::new(alloc, image.form(), basis);
    let first = flats.by_numbers(&state)?;
    let timed = flats.is_timed(&first);
    flats.push(first)?;
    Ok(Graph {
        setup: setup.copy(),
        flats,
        bounds,
        timed,
        ahead: Ahead::new(alloc),
        rows,
        refused_rows,
    })
}
