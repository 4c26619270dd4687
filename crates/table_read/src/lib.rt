// Reading a table: rows 1 to 4 of the paper's table of refusals.
// `read` assumes nothing. Functions that read fields require that the bytes span the counts (`Spans`), which it makes sure of first.
#![tactic(auto)]

ghost use Rattle.std.specs.Prelude.{◌≡◌, not, ◌&&◌, cond, ◌<◌, leb, ltb, eqb};
ghost use Rattle.paper.specs.Lists.{lowest, within};
ghost use Rattle.paper.specs.Limits.{limits};
ghost use Rattle.paper.specs.Table.{nodes, edges, kind, is_pin, is_action, is_input, is_object_node, may_leave, may_enter};
ghost use Rattle.paper.specs.Table.{frame_fine, node_fine, edge_fine};
ghost use Rattle.table.specs.Reading.{read_under, table_read, under, Holdable, Spans};
ghost use Rattle.wire.specs.Refusals.{said, found};

use table::{Limits, Table, is_control_node, is_object_node, is_pin, within};
use table_shape::bad_shape;
use wire::Refusal;

// Whether an edge may leave a node of kind k.
fn may_leave(object: bool, k: usize) -> bool
    ensures { result ≡ may_leave object k }
{
    if is_control_node(k) {
        return true;
    }
    if object {
        within(Table::OUTPUT, Table::INCOMING, k)
    } else {
        within(Table::INITIAL, Table::ACTION, k)
    }
}

// Whether an edge may enter a node of kind k.
fn may_enter(object: bool, k: usize) -> bool
    ensures { result ≡ may_enter object k }
{
    if within(Table::DECISION, Table::ACTIVITY_FINAL, k) {
        return true;
    }
    if !object {
        return k == Table::ACTION;
    }
    if k == Table::INPUT {
        return true;
    }
    k == Table::BUFFER || k == Table::OUTGOING
}

// Row 1, under the limits that are handed.
#[tactic(auto, unfolding(paper::specs::Table::frame_fine, paper::specs::Table::version))]
fn frame_fine(s: &[u8], most: Limits) -> bool
    ensures { result ≡ frame_fine s.now (under most) }
{
    let l = s.len();
    if l < Table::HEADER {
        return false;
    }
    if wire::read16(s, 0) + 2 != l {
        return false;
    }
    if wire::wide(s[Table::HEADER - 3]) != Table::VERSION {
        return false;
    }
    let table = Table::counts(s);
    let n = table.nodes;
    let e = table.edges;
    if !within(1, most.nodes, n) {
        return false;
    }
    if most.edges < e {
        return false;
    }
    l == table.edge_at(e)
}

// The parts of row 2: the owner of a node of kind k, its upper and its lower.
fn owner_fine(s: &[u8], table: Table, k: usize, o: usize) -> bool
    requires { Spans s.now table }
    ensures { result ≡ cond (is_pin k) (ltb o (nodes s.now) && is_action (kind s.now o)) (eqb o 255) }
{
    if is_pin(k) {
        o < table.nodes && table.kind(s, o) == Table::ACTION
    } else {
        o == Table::NO_OWNER
    }
}

fn upper_fine(k: usize, u: usize) -> bool
    ensures { result ≡ cond (is_object_node k) (within 1 limits.most_upper u) (eqb u 0) }
{
    if is_object_node(k) {
        within(1, Table::MOST_UPPER, u)
    } else {
        u == 0
    }
}

fn lower_fine(k: usize, l: usize, u: usize) -> bool
    ensures { result ≡ cond (is_input k) (leb l u) (eqb l 0) }
{
    if k == Table::INPUT { l <= u } else { l == 0 }
}

// Row 2 at node i.
#[tactic(auto, unfolding(paper::specs::Table::node_fine))]
fn node_fine(s: &[u8], table: Table, i: usize) -> bool
    requires { Spans s.now table × (i < table.nodes) }
    ensures { result ≡ node_fine s.now limits i }
{
    let k = table.kind(s, i);
    if !within(Table::INITIAL, Table::ACTIVITY_FINAL, k) {
        return false;
    }
    if !owner_fine(s, table, k, table.owner(s, i)) {
        return false;
    }
    let u = table.upper(s, i);
    if !upper_fine(k, u) {
        return false;
    }
    lower_fine(k, table.lower(s, i), u)
}

// Row 3 at edge j.
#[tactic(auto, unfolding(paper::specs::Table::edge_fine))]
fn edge_fine(s: &[u8], table: Table, j: usize) -> bool
    requires { Spans s.now table × (j < table.edges) }
    ensures { result ≡ edge_fine s.now j }
{
    let k = table.edge_kind(s, j);
    if Table::OBJECT < k {
        return false;
    }
    let from = table.source(s, j);
    if table.nodes <= from {
        return false;
    }
    let to = table.target(s, j);
    if table.nodes <= to {
        return false;
    }
    if 1 < table.guarded(s, j) {
        return false;
    }
    if !may_leave(k == Table::OBJECT, table.kind(s, from)) {
        return false;
    }
    may_enter(k == Table::OBJECT, table.kind(s, to))
}

// The lowest node that row 2 refuses.
fn bad_node(s: &[u8], table: Table) -> Option<usize>
    requires { Spans s.now table }
    ensures { found result ≡ lowest (λ i. not (node_fine s.now limits i)) (nodes s.now) }
{
    for i in 0..table.nodes {
        if !node_fine(s, table, i) {
            return Some(i);
        }
    }
    None
}

// The lowest edge that row 3 refuses.
fn bad_edge(s: &[u8], table: Table) -> Option<usize>
    requires { Spans s.now table }
    ensures { found result ≡ lowest (λ j. not (edge_fine s.now j)) (edges s.now) }
{
    for j in 0..table.edges {
        if !edge_fine(s, table, j) {
            return Some(j);
        }
    }
    None
}

// The table in the bytes, or the first of rows 1 to 4 that refuses it, under any limits that arrays hold.
pub fn read_under(s: &[u8], most: Limits) -> Result<Table, Refusal>
    requires { Holdable most }
    ensures { said result ≡ read_under (under most) s.now }
{
    if !frame_fine(s, most) {
        return Err(Refusal::Frame);
    }
    let table = Table::counts(s);
    if let Some(i) = bad_node(s, table) {
        return Err(Refusal::Node(i as u8));
    }
    if let Some(j) = bad_edge(s, table) {
        return Err(Refusal::Edge(j as u8));
    }
    if let Some(i) = bad_shape(s, table) {
        return Err(Refusal::Shape(i as u8));
    }
    Ok(table)
}

// Under today's.
pub fn read(s: &[u8]) -> Result<Table, Refusal>
    ensures { said result ≡ table_read s.now }
{
    read_under(
        s,
        Limits {
            nodes: Table::MOST_NODES,
            edges: Table::MOST_EDGES,
        },
    )
}
