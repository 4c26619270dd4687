// Row 4: the shape of a table. Edges are counted and nodes ranked once, and each node is judged from its own cells.
// Assumes that the bytes span the counts, and that rows 2 and 3 passed where a function says so.
#![tactic(auto)]

ghost use Rattle.std.specs.Prelude.{◌≡◌, false, not, ◌&&◌, List, ℕ, ◌+◌, ◌*◌, ◌≤◌, ◌<◌, leb, eqb, length, set};
ghost use Rattle.paper.specs.Lists.{at, lowest, one_if};
ghost use Rattle.paper.specs.Limits.{limits};
ghost use Rattle.paper.specs.Table.{nodes, edges, kind, lower, is_input, shape_fine, chain};
ghost use Rattle.wire.specs.Refusals.{found};
ghost use Rattle.table.specs.Reading.{Spans, NodesFine, EdgesFine, Blank};
ghost use Rattle.table_shape.specs.Shape.{Counts, degrees_at, Tallied, is_fed, Fed};
ghost use Rattle.table_shape.specs.Shape.{of_one_kind, split_fine, meets_in, merge_fine, join_shape, action_shape};

use table::{Table, is_control_node};
use words::mark;

// How many edges of each kind stand on one side of a node.
#[derive(Clone, Copy)]
struct Side {
    control: u8,
    object: u8,
}

// The two sides of a node.
#[derive(Clone, Copy)]
struct Degrees {
    into: Side,
    out: Side,
}

impl Degrees {
    // A node's cells in a tally: control and object edges in, then out.
    const CELLS: usize = 4;
}

// The degrees of node i, from its four cells.
fn degrees_at(cells: &[u8], i: usize) -> Degrees
    requires { 4 * i + 4 ≤ length cells.now }
    ensures { result ≡ degrees_at cells.now i }
{
    let c = Degrees::CELLS * i;
    Degrees {
        into: Side {
            control: cells[c],
            object: cells[c + 1],
        },
        out: Side {
            control: cells[c + 2],
            object: cells[c + 3],
        },
    }
}

// One more in a cell.
fn bump(cells: &mut [u8], c: usize)
    requires { (c < length cells.old) × (at cells.old c < 255) }
    ensures { cells.new ≡ set cells.old c (at cells.old c + 1) }
{
    cells[c] += 1;
}

// Every edge is counted once at its target and once at its source.
fn tally(s: &[u8], table: Table, cells: &mut [u8])
    requires { Spans s.now table × EdgesFine s.now × (4 * table.nodes ≤ length cells.old) × Blank cells.old }
    ensures { Tallied s.now cells.new }
{
    for j in 0..table.edges {
        let k = table.edge_kind(s, j);
        bump(cells, Degrees::CELLS * table.target(s, j) + k);
        bump(cells, Degrees::CELLS * table.source(s, j) + 2 + k);
    }
}

// Whether node i is an input pin that must hold a value for its action to run.
fn feeds(s: &[u8], table: Table, i: usize) -> bool
    requires { Spans s.now table × (i < table.nodes) }
    ensures { result ≡ is_input (kind s.now i) && leb 1 (lower s.now i) }
{
    table.kind(s, i) == Table::INPUT && 1 <= table.lower(s, i)
}

// Marks the actions that an input pin feeds.
fn mark_fed(s: &[u8], table: Table, fed: &mut [u8])
    requires { Spans s.now table × (table.nodes ≤ length fed.old) }
    ensures { Blank fed.old → Fed s.now fed.new }
{
    for i in 0..table.nodes {
        mark(fed, feeds(s, table, i), table.owner(s, i));
    }
}

// How many edges there are on a side.
fn degree(side: Side) -> usize
    ensures { result ≡ side.control + side.object }
{
    wire::wide(side.control) + wire::wide(side.object)
}

// Edges of one kind alone, in and out. Sums take one test where four cells would take four.
fn has_one_kind(d: Degrees) -> bool
    ensures { (t : List ℕ) (i : ℕ) → Counts t i d → result ≡ of_one_kind t i }
{
    wire::wide(d.into.control) + wire::wide(d.out.control) == 0
        || wire::wide(d.into.object) + wire::wide(d.out.object) == 0
}

// A decision or a fork: one edge in, some out.
fn split_fine(d: Degrees) -> bool
    ensures { (t : List ℕ) (i : ℕ) → Counts t i d → result ≡ split_fine t i }
{
    degree(d.into) == 1 && 1 <= degree(d.out) && has_one_kind(d)
}

// What a merge and a join share: some edges in, one out.
fn meets(d: Degrees) -> bool
    ensures { (t : List ℕ) (i : ℕ) → Counts t i d → result ≡ meets_in t i }
{
    1 <= degree(d.into) && degree(d.out) == 1
}

fn merge_fine(d: Degrees) -> bool
    ensures { (t : List ℕ) (i : ℕ) → Counts t i d → result ≡ merge_fine t i }
{
    meets(d) && has_one_kind(d)
}

fn join_fine(d: Degrees) -> bool
    ensures { (t : List ℕ) (i : ℕ) → Counts t i d → result ≡ join_shape t i }
{
    meets(d) && d.into.object <= 1 && d.out.object == d.into.object
}

fn action_fine(d: Degrees, fed: u8) -> bool
    ensures { (t : List ℕ) (i : ℕ) → Counts t i d → fed ≡ one_if (is_fed t i) → result ≡ action_shape t i }
{
    1 <= d.into.control || fed == 1
}

// Row 4 at a node, from its kind, its degrees, its mark and its rank. Most nodes are asked for no more than these two kinds.
fn shape_fine(k: usize, d: Degrees, fed: u8, rank: u8) -> bool
    ensures { (t : List ℕ) (i : ℕ) → k ≡ kind t i → Counts t i d → fed ≡ one_if (is_fed t i) → eqb rank limits.chain_too_long ≡ chain t limits.chain_too_long i → result ≡ shape_fine t limits i }
{
    if rank == table_ranks::HIGHEST {
        return false;
    }
    if k == Table::ACTION {
        return action_fine(d, fed);
    }
    if !is_control_node(k) {
        return true;
    }
    if k == Table::MERGE {
        return merge_fine(d);
    }
    if k == Table::JOIN {
        return join_fine(d);
    }
    split_fine(d)
}

// The lowest node that row 4 refuses. Edges are counted and nodes ranked once, so that each node is judged from its own cells.
pub fn bad_shape(s: &[u8], table: Table) -> Option<usize>
    requires { Spans s.now table × NodesFine s.now × EdgesFine s.now }
    ensures { found result ≡ lowest (λ i. not (shape_fine s.now limits i)) (nodes s.now) }
{
    let mut cells = [0u8; Degrees::CELLS * Table::MOST_NODES];
    tally(s, table, &mut cells);
    let mut fed = [0u8; Table::MOST_NODES];
    mark_fed(s, table, &mut fed);
    let rk = table_ranks::ranks(s, table);
    for i in 0..table.nodes {
        if !shape_fine(table.kind(s, i), degrees_at(&cells, i), fed[i], rk[i]) {
            return Some(i);
        }
    }
    None
}
