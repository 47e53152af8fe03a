//! Where each thread leads from each node, as far as it is known.

ghost use Rattle.std.specs.Prelude.{◌≡◌, ◌⊎◌, ℕ, ◌<◌, Bool, Some, None, length, IfOk, OnOk, OnErr};
ghost use Rattle.std.specs.List.{slice_index_or};
ghost use Rattle.ir_search.specs.Following.{Keeps};
ghost use Rattle.ir_graph.specs.Notes.{noted_by, noted_in};

use crate::way::Way;
use std::alloc::AllocError;
use std::marker::Model;

// One more than the largest number of a node that a lead can have.
const MOST_LED: usize = 0xffff_fffe;

/// Where a thread leads from a node, in 32 bits. In clauses it is `None` if the thread hasn't been asked there.
#[derive(Clone, Copy)]
pub struct Lead {
    code: u32,
}

impl Model for Lead {
    ghost use Rattle.std.specs.Prelude.{ℕ, Option};
    ghost use Rattle.ir_graph.specs.Notes.{lead_of, code_of, code_of_lead};

    ghost Value = { Option (Option ℕ) };

    ghost view = { λ n. lead_of n.code };

    ghost inverse = { λ x. record { code = code_of x } };

    ghost inverse_ok = { λ a h. λ i. record { code = code_of_lead a.code i } };
}

impl Lead {
    // The thread hasn't been asked.
    fn unknown() -> Lead
        ensures { result ≡ None }
    {
        Lead { code: 0 }
    }

    // It leads to no node, or to this one. The error is for a number that is too large.
    fn of(next: Option<usize>) -> Result<Lead, AllocError>
        ensures { IfOk result (λ lead. lead ≡ Some next) }
    {
        match next {
            None => Ok(Lead { code: 1 }),
            Some(node) if node < MOST_LED => Ok(Lead {
                code: node as u32 + 2,
            }),
            Some(_) => Err(AllocError),
        }
    }

    // What is known.
    fn known(self) -> Option<Option<usize>>
        ensures { result ≡ self }
    {
        match self.code {
            0 => None,
            1 => Some(None),
            code => Some(Some((code - 2) as usize)),
        }
    }
}

/// A thread's row: a lead for each node that it was asked at.
pub type Row = Vec<Lead>;

/// What is known of a thread and a node; a number that is no row's thread leads to no node.
pub fn known(rows: &[Row], thread: usize, node: usize) -> Option<Option<usize>>
    ensures { result ≡ noted_in rows.now thread node }
{
    if thread >= rows.len() {
        return Some(None);
    }
    let row = &rows[thread];
    if node < row.len() {
        row[node].known()
    } else {
        None
    }
}

// What is known of a node, in a thread's row that is made as long as there are nodes.
fn put(row: &mut Row, nodes: usize, node: usize, next: Option<usize>) -> Result<(), AllocError>
    requires { node < nodes }
    ensures found { OnOk result (slice_index_or row.new.items node None ≡ Some next) }
    ensures others { (v : ℕ) → (v ≡ node → ⊥) → slice_index_or row.new.items v None ≡ slice_index_or row.old.items v None }
    ensures err { OnErr result (row.new.items ≡ row.old.items) }
{
    let lead = Lead::of(next)?;
    if row.len() < nodes {
        row.resize(nodes, Lead::unknown())?;
    }
    row[node] = lead;
    Ok(())
}

// Notes where a thread leads from a node; there are so many nodes.
fn note(
    rows: &mut [Row],
    nodes: usize,
    thread: usize,
    node: usize,
    next: Option<usize>,
) -> Result<(), AllocError>
    requires thread { thread < length rows.old }
    requires node { node < nodes }
    requires fresh { noted_in rows.old thread node ≡ None }
    ensures found { OnOk result (noted_in rows.new thread node ≡ Some next) }
    ensures kept { (t : ℕ) → Keeps (noted_in rows.old t) (noted_in rows.new t) }
    ensures only { (t v : ℕ) → (noted_in rows.new t v ≡ noted_in rows.old t v) ⊎ ((t ≡ thread) × (v ≡ node) × (noted_in rows.new t v ≡ Some next)) }
    ensures threads { length rows.new ≡ length rows.old }
{
    put(&mut rows[thread], nodes, node, next)?;
    Ok(())
}

/// Notes where a thread leads from a node by one of its ways, each of which has its own rows; there are so many nodes.
///
/// # Errors
/// Out of memory, or the node's number is too large for a lead; nothing is noted.
pub fn note_way(
    rows: &mut [Row],
    refused_rows: &mut [Row],
    nodes: usize,
    way: Way,
    next: Option<usize>,
) -> Result<(), AllocError>
    requires node { way.node < nodes }
    requires fresh { noted_by rows.old refused_rows.old way.thread way.refused way.node ≡ None }
    ensures found { OnOk result (noted_by rows.new refused_rows.new way.thread way.refused way.node ≡ Some next) }
    ensures kept { (t : ℕ) (refused : Bool) → Keeps (noted_by rows.old refused_rows.old t refused) (noted_by rows.new refused_rows.new t refused) }
    ensures only { (t : ℕ) (refused : Bool) (v : ℕ) → (noted_by rows.new refused_rows.new t refused v ≡ noted_by rows.old refused_rows.old t refused v)
        ⊎ ((t ≡ way.thread) × (refused ≡ way.refused) × (v ≡ way.node) × (noted_by rows.new refused_rows.new t refused v ≡ Some next)) }
    ensures threads { length rows.new ≡ length rows.old }
    ensures refused_rows { length refused_rows.new ≡ length refused_rows.old }
{
    if way.refused {
        note(refused_rows, nodes, way.thread, way.node, next)
    } else {
        note(rows, nodes, way.thread, way.node, next)
    }
}
