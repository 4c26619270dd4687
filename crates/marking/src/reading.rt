// Row 5: reading a marking. One walk, front to back, takes up of each node's field the place behind its first byte and that byte, which is a stock's
// count or a running byte, and of each counted edge its count.
ghost use Rattle.std.specs.Prelude.{◌≡◌, Bool, true, false, List, ℕ, ◌+◌, ◌≤◌, ◌<◌, length, drop};
ghost use Rattle.paper.specs.Lists.{at, all, below, gather};
ghost use Rattle.paper.specs.Bytes.{values_read, up_to};
ghost use Rattle.paper.specs.Table.{nodes, edges};
ghost use Rattle.paper.specs.Marking.{Marking, blank, counted, node_fields, fields_read, marking, marking_fine, pin_fine};
ghost use Rattle.paper.specs.Answers.{good};
ghost use Rattle.table.specs.Reading.{Spans, table_read};
ghost use Rattle.marking.specs.Reading.{Reads, edge_fields, NodesRead, EdgesRead, ReadsInto, node_clear, edge_clear, Head, Walk, MarkingRead};
ghost use Rattle.std.proofs.Math.Option.{none};

use table::Table;
use wire::{Refusal, wide};

// What was read of a marking: of each node's field the place behind its first byte, and that byte, which is a stock's count or a running byte; of each edge
// with a count the count.
#[derive(Clone, Copy)]
pub struct Fields {
    pub from: [u16; Table::MOST_NODES],
    pub kept: [u8; Table::MOST_NODES],
    pub tokens: [u8; Table::MOST_EDGES],
}

// A count, at most `most`, and that many values.
pub fn stock_end(b: &[u8], from: usize, most: usize) -> Option<usize>
    requires { (from ≤ length b.now) × (most < 256) }
    ensures { Reads result (values_read most (drop from b.now)) b.now }
{
    if b.len() <= from {
        return None;
    }
    let n = wide(b[from]);
    if most < n {
        return None;
    }
    if b.len() - from - 1 < 4 * n {
        return None;
    }
    Some(from + 1 + 4 * n)
}

// A byte that is at most `most`.
fn byte_end(b: &[u8], from: usize, most: usize) -> Option<usize>
    requires { from ≤ length b.now }
    ensures { Reads result (up_to most (drop from b.now)) b.now }
{
    if b.len() <= from {
        return None;
    }
    if most < wide(b[from]) {
        return None;
    }
    Some(from + 1)
}

// The first byte of a field that goes from a place to another, 0 if it has none.
fn first_of(b: &[u8], place: usize, end: usize) -> u8
    requires { end ≤ length b.now }
    ensures { (place < end → result ≡ at b.now place) × (end ≤ place → result ≡ 0) }
{
    if end <= place {
        return 0;
    }
    b[place]
}

// The field of node i, if it has one.
fn node_end(t: &[u8], table: Table, b: &[u8], from: usize, i: usize) -> Option<usize>
    requires { Spans t.now table × (i < table.nodes) × (from ≤ length b.now) }
    ensures { (m : Marking) → Reads result (fields_read t.now (node_fields t.now i) m (drop from b.now)) b.now }
{
    let k = table.kind(t, i);
    if table::is_object_node(k) {
        return stock_end(b, from, table.upper(t, i));
    }
    if k == Table::ACTION {
        return byte_end(b, from, 1);
    }
    Some(from)
}

// Every node's field. Each takes at most 65 bytes, so that two bytes say every place.
fn nodes_end(t: &[u8], table: Table, b: &[u8], from: &mut [u16], kept: &mut [u8]) -> Option<usize>
    requires { (table_read t.now ≡ good table) × (4 ≤ length b.now) × (table.nodes ≤ length from.old) × (table.nodes ≤ length kept.old) }
    ensures { (e : Bool) → ReadsInto (λ m. NodesRead t.now m b.now from.new kept.new (nodes t.now)) result (fields_read t.now (gather (node_fields t.now) (below (nodes t.now))) (blank e) (drop 4 b.now)) b.now }
{
    let mut place: usize = 4;
    for i in 0..table.nodes {
        let q = node_end(t, table, b, place, i)?;
        from[i] = (place + 1) as u16;
        kept[i] = first_of(b, place, q);
        place = q;
    }
    Some(place)
}

// Whether edge j has a count: a control edge that leaves an initial node or an action. In a table that was read no other edges leave these.
pub fn has_count(t: &[u8], table: Table, j: usize) -> bool
    requires { (table_read t.now ≡ good table) × (j < table.edges) }
    ensures { result ≡ counted t.now j }
{
    let k = table.kind(t, table.source(t, j));
    table::within(Table::INITIAL, Table::ACTION, k)
}

// The count of edge j, if it has one.
fn edge_end(t: &[u8], table: Table, b: &[u8], from: usize, j: usize) -> Option<usize>
    requires { (table_read t.now ≡ good table) × (j < table.edges) × (from ≤ length b.now) }
    ensures { (m : Marking) → Reads result (fields_read t.now (edge_fields t.now j) m (drop from b.now)) b.now }
{
    if !has_count(t, table, j) {
        return Some(from);
    }
    if b.len() <= from {
        return None;
    }
    Some(from + 1)
}

// Every edge's count.
fn edges_end(t: &[u8], table: Table, b: &[u8], start: usize, tokens: &mut [u8]) -> Option<usize>
    requires { (table_read t.now ≡ good table) × (start ≤ length b.now) × (table.edges ≤ length tokens.old) }
    ensures { (a : Marking) → ReadsInto (λ m. EdgesRead t.now m tokens.new (edges t.now)) result (fields_read t.now (gather (edge_fields t.now) (below (edges t.now))) a (drop start b.now)) b.now }
{
    let mut place: usize = start;
    for j in 0..table.edges {
        let q = edge_end(t, table, b, place, j)?;
        tokens[j] = first_of(b, place, q);
        place = q;
    }
    Some(place)
}

// Whether pin p holds what its action's running byte asks; any other node does.
fn pin_fine(t: &[u8], table: Table, kept: &[u8], p: usize) -> bool
    requires { (table_read t.now ≡ good table) × (p < table.nodes) × (table.nodes ≤ length kept.now) }
    ensures { (m : Marking) (b from : List ℕ) → NodesRead t.now m b from kept.now (nodes t.now) → result ≡ pin_fine t.now m p }
{
    if table.kind(t, p) != Table::INPUT {
        return true;
    }
    let a = table.owner(t, p);
    if kept[a] == 1 {
        return table.lower(t, p) <= wide(kept[p]);
    }
    kept[p] == 0
}

// Whether every pin holds what it should.
fn pins_fine(t: &[u8], table: Table, kept: &[u8]) -> bool
    requires { (table_read t.now ≡ good table) × (table.nodes ≤ length kept.now) }
    ensures { (m : Marking) (b from : List ℕ) → NodesRead t.now m b from kept.now (nodes t.now) → result ≡ all (pin_fine t.now m) (below (nodes t.now)) }
{
    for p in 0..table.nodes {
        if !pin_fine(t, table, kept, p) {
            return false;
        }
    }
    true
}

// Whether node i is clear, as an ended marking wants it.
fn node_clear(t: &[u8], table: Table, kept: &[u8], i: usize) -> bool
    requires { (table_read t.now ≡ good table) × (i < table.nodes) × (table.nodes ≤ length kept.now) }
    ensures { (m : Marking) (b from : List ℕ) → NodesRead t.now m b from kept.now (nodes t.now) → result ≡ node_clear t.now m i }
{
    if table.kind(t, i) == Table::OUTGOING {
        return true;
    }
    kept[i] == 0
}

// Whether every node is clear.
fn nodes_clear(t: &[u8], table: Table, kept: &[u8]) -> bool
    requires { (table_read t.now ≡ good table) × (table.nodes ≤ length kept.now) }
    ensures { (m : Marking) (b from : List ℕ) → NodesRead t.now m b from kept.now (nodes t.now) → result ≡ all (node_clear t.now m) (below (nodes t.now)) }
{
    for i in 0..table.nodes {
        if !node_clear(t, table, kept, i) {
            return false;
        }
    }
    true
}

// Whether no edge has a token, as an ended marking wants it; n is the number of edges.
fn edges_clear(tokens: &[u8], n: usize) -> bool
    requires { n ≤ length tokens.now }
    ensures { (t : List ℕ) (m : Marking) → EdgesRead t m tokens.now n → result ≡ all (edge_clear t m) (below n) }
{
    for j in 0..n {
        if tokens[j] != 0 {
            return false;
        }
    }
    true
}

// The length, the version and the state.
fn head_fine(b: &[u8]) -> bool
    ensures { (result ≡ true → Head b.now) × (result ≡ false → (t : List ℕ) → marking t b.now ≡ none) }
{
    if b.len() < 4 {
        return false;
    }
    if wire::read16(b, 0) + 2 != b.len() {
        return false;
    }
    if b[2] != 1 {
        return false;
    }
    b[3] <= 1
}

// Whether what takes the whole marking is fine: the pins, and an ended marking's being clear.
fn settled(t: &[u8], table: Table, ended: bool, kept: &[u8], tokens: &[u8]) -> bool
    requires { (table_read t.now ≡ good table) × (table.nodes ≤ length kept.now) × (table.edges ≤ length tokens.now) }
    ensures { (m : Marking) (b from : List ℕ) → NodesRead t.now m b from kept.now (nodes t.now) → EdgesRead t.now m tokens.now (edges t.now) → m.ended ≡ ended → result ≡ marking_fine t.now m }
{
    if !pins_fine(t, table, kept) {
        return false;
    }
    if !ended {
        return true;
    }
    if !nodes_clear(t, table, kept) {
        return false;
    }
    edges_clear(tokens, table.edges)
}

// All fields, to the last byte.
fn walk(
    t: &[u8],
    table: Table,
    b: &[u8],
    from: &mut [u16],
    kept: &mut [u8],
    tokens: &mut [u8],
) -> bool
    requires { (table_read t.now ≡ good table) × (4 ≤ length b.now) × (table.nodes ≤ length from.old) × (table.nodes ≤ length kept.old) × (table.edges ≤ length tokens.old) }
    ensures { Head b.now → Walk t.now b.now from.new kept.new tokens.new result }
{
    let Some(after) = nodes_end(t, table, b, from, kept) else {
        return false;
    };
    let Some(end) = edges_end(t, table, b, after, tokens) else {
        return false;
    };
    end == b.len()
}

// What is said of a marking whose fields were walked through, or weren't all there: whether it is ended.
fn judged(
    t: &[u8],
    table: Table,
    b: &[u8],
    walked: bool,
    kept: &[u8],
    tokens: &[u8],
) -> Result<bool, Refusal>
    requires { (table_read t.now ≡ good table) × (4 ≤ length b.now) × (table.nodes ≤ length kept.now) × (table.edges ≤ length tokens.now) }
    ensures { (from : List ℕ) → Walk t.now b.now from kept.now tokens.now walked → MarkingRead t.now b.now from kept.now tokens.now (marking t.now b.now) result }
{
    if !walked {
        return Err(Refusal::Marking);
    }
    let ended = b[3] == 1;
    if !settled(t, table, ended, kept, tokens) {
        return Err(Refusal::Marking);
    }
    Ok(ended)
}

// The whole marking, and whether it is ended.
pub fn read(
    t: &[u8],
    table: Table,
    b: &[u8],
    from: &mut [u16],
    kept: &mut [u8],
    tokens: &mut [u8],
) -> Result<bool, Refusal>
    requires { (table_read t.now ≡ good table) × (table.nodes ≤ length from.old) × (table.nodes ≤ length kept.old) × (table.edges ≤ length tokens.old) }
    ensures { MarkingRead t.now b.now from.new kept.new tokens.new (marking t.now b.now) result }
{
    if !head_fine(b) {
        return Err(Refusal::Marking);
    }
    let walked = walk(t, table, b, from, kept, tokens);
    judged(t, table, b, walked, kept, tokens)
}
