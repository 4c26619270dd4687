// Writing a marking that is held in columns, which are lent: its size first, then its bytes, front to back (`MarkingHeld`). What stays is taken from the old
// bytes, what comes from others, where all of it stands (`HeldInside`).
#![tactic(auto)]

ghost use Rattle.std.specs.Prelude.{◌≡◌, true, List, ℕ, ◌+◌, ◌*◌, ◌≤◌, ◌<◌, length};
ghost use Rattle.std.proofs.lemmas.List.Edits.{sets};
ghost use Rattle.paper.specs.Lists.{at, below, gather, one_if};
ghost use Rattle.paper.specs.Limits.{limits};
ghost use Rattle.paper.specs.Table.{nodes, edges, is_object_node};
ghost use Rattle.paper.specs.Marking.{Marking, encode};
ghost use Rattle.paper.specs.Answers.{good};
ghost use Rattle.paper.specs.Operations.{in_room, Reply};
ghost use Rattle.table.specs.Reading.{Spans, table_read};
ghost use Rattle.wire.specs.Totals.{total};
ghost use Rattle.marking_held.specs.MarkingHeld.{MarkingHeld, HeldInside, HeldLengths, held_in};
ghost use Rattle.wire.specs.Refusals.{word_of, BelowRefusals};
ghost use Rattle.marking_write.specs.Writing.{NodeInside, NodesLong, nodes_held, size_as, most_node_size, node_size, edge_size, size_of, most_size};
ghost use Rattle.marking_write.specs.Writing.{stock_bytes, field_bytes, node_bytes, edge_bytes};

use marking::has_count;
use table::Table;
use wire::Refusal;

// What is held of one node.
#[derive(Clone, Copy)]
struct NodeHeld {
    pub from: u16,
    pub kept: u8,
    pub place: u16,
    pub more: u8,
    pub runs: u8,
}

// What the field of a node takes, which has kind k and will hold so many values.
fn node_size(k: usize, values: usize) -> usize
    requires { values ≤ 510 }
    ensures { (result ≡ size_as k values) × (result ≤ most_node_size) }
{
    if table::is_object_node(k) {
        return 1 + 4 * values;
    }
    if k == Table::ACTION {
        return 1;
    }
    0
}

// What the nodes' fields take.
fn nodes_size(t: &[u8], table: Table, kept: &[u8], more: &[u8]) -> usize
    requires { Spans t.now table × (table.nodes ≤ length kept.now) × (table.nodes ≤ length more.now) }
    ensures { (result ≡ total (node_size t.now kept.now more.now) (nodes t.now))
        × (result ≤ limits.most_nodes * most_node_size) }
{
    let mut taken: usize = 0;
    for i in 0..table.nodes {
        taken += node_size(table.kind(t, i), wire::wide(kept[i]) + wire::wide(more[i]));
    }
    taken
}

// What the count of edge j takes.
fn edge_size(t: &[u8], table: Table, j: usize) -> usize
    requires { (table_read t.now ≡ good table) × (j < table.edges) }
    ensures { (result ≡ edge_size t.now j) × (result ≤ 1) }
{
    has_count(t, table, j) as usize
}

// What the edges' counts take.
fn edges_size(t: &[u8], table: Table) -> usize
    requires { table_read t.now ≡ good table }
    ensures { (result ≡ total (edge_size t.now) (edges t.now)) × (result ≤ limits.most_edges) }
{
    let mut taken: usize = 0;
    for j in 0..table.edges {
        taken += edge_size(t, table, j);
    }
    taken
}

// What the marking takes.
fn size(t: &[u8], table: Table, kept: &[u8], more: &[u8]) -> usize
    requires { (table_read t.now ≡ good table) × (table.nodes ≤ length kept.now) × (table.nodes ≤ length more.now) }
    ensures { (result ≡ size_of t.now kept.now more.now) × (4 ≤ result) × (result ≤ most_size) }
{
    4 + nodes_size(t, table, kept, more) + edges_size(t, table)
}

// A stock: its count, the values kept, and those that come behind them.
fn write_stock(old: &[u8], extra: &[u8], node: NodeHeld, out: &mut [u8], to: usize) -> usize
    requires { NodeInside old.now extra.now node × (to + (1 + 4 * (node.kept + node.more)) ≤ length out.old) }
    ensures { (result ≡ to + (1 + 4 * (node.kept + node.more)))
        × (out.new ≡ sets out.old to (stock_bytes old.now extra.now node)) }
{
    let kept = 4 * wire::wide(node.kept);
    let more = 4 * wire::wide(node.more);
    let behind = to + 1 + kept;
    out[to] = node.kept + node.more;
    wire::copy(old, wire::wide16(node.from), kept, out, to + 1);
    wire::copy(extra, wire::wide16(node.place), more, out, behind);
    behind + more
}

// The field of a node of kind k, if it has one.
fn write_node(
    k: usize,
    old: &[u8],
    extra: &[u8],
    node: NodeHeld,
    out: &mut [u8],
    to: usize,
) -> usize
    requires { (is_object_node k ≡ true → NodeInside old.now extra.now node) × (to + size_as k (node.kept + node.more) ≤ length out.old) }
    ensures { (result ≡ to + size_as k (node.kept + node.more))
        × (out.new ≡ sets out.old to (field_bytes k old.now extra.now node)) }
{
    if table::is_object_node(k) {
        return write_stock(old, extra, node, out, to);
    }
    if k == Table::ACTION {
        out[to] = node.runs;
        return to + 1;
    }
    to
}

// Every node's field, behind the head; and where the bytes after them start.
fn write_nodes(
    t: &[u8],
    table: Table,
    old: &[u8],
    extra: &[u8],
    from: &[u16],
    kept: &[u8],
    place: &[u16],
    more: &[u8],
    runs: &[u8],
    out: &mut [u8],
) -> usize
    requires { Spans t.now table × NodesLong table.nodes (nodes_held from.now kept.now place.now more.now runs.now)
        × HeldInside t.now old.now extra.now (nodes_held from.now kept.now place.now more.now runs.now)
        × (4 + total (node_size t.now kept.now more.now) (nodes t.now) ≤ length out.old) }
    ensures { (result ≡ 4 + total (node_size t.now kept.now more.now) (nodes t.now))
        × (out.new ≡ sets out.old 4 (gather (node_bytes t.now old.now extra.now
        (nodes_held from.now kept.now place.now more.now runs.now))
        (below (nodes t.now)))) }
{
    let mut to: usize = 4;
    for i in 0..table.nodes {
        let node = NodeHeld {
            from: from[i],
            kept: kept[i],
            place: place[i],
            more: more[i],
            runs: runs[i],
        };
        to = write_node(table.kind(t, i), old, extra, node, out, to);
    }
    to
}

// The count of edge j, if it has one.
fn write_edge(t: &[u8], table: Table, tokens: u8, j: usize, out: &mut [u8], to: usize) -> usize
    requires { (table_read t.now ≡ good table) × (j < table.edges) × (to + edge_size t.now j ≤ length out.old) }
    ensures { (result ≡ to + edge_size t.now j) × ((all : List ℕ) → tokens ≡ at all j
        → out.new ≡ sets out.old to (edge_bytes t.now all j)) }
{
    if !has_count(t, table, j) {
        return to;
    }
    out[to] = tokens;
    to + 1
}

// Every edge's count.
fn write_edges(t: &[u8], table: Table, tokens: &[u8], out: &mut [u8], start: usize)
    requires { (table_read t.now ≡ good table) × (table.edges ≤ length tokens.now)
        × (start + total (edge_size t.now) (edges t.now) ≤ length out.old) }
    ensures { out.new
        ≡ sets out.old start (gather (edge_bytes t.now tokens.now) (below (edges t.now))) }
{
    let mut to: usize = start;
    for j in 0..table.edges {
        to = write_edge(t, table, tokens[j], j, out, to);
    }
}

// The marking that is held, at the front of `out`, if the room is enough (row 17). What stands behind it is left as it was.
pub fn reply(
    t: &[u8],
    table: Table,
    state: u8,
    old: &[u8],
    extra: &[u8],
    from: &[u16],
    kept: &[u8],
    place: &[u16],
    more: &[u8],
    runs: &[u8],
    tokens: &[u8],
    out: &mut [u8],
) -> Result<usize, Refusal>
    requires { (table_read t.now ≡ good table) × HeldLengths (held_in from.now kept.now place.now more.now runs.now tokens.now)
        × HeldInside t.now old.now extra.now (held_in from.now kept.now place.now more.now runs.now tokens.now) }
    ensures { ((m : Marking) → MarkingHeld t.now m old.now extra.now
        (held_in from.now kept.now place.now more.now runs.now tokens.now)
        → state ≡ one_if m.ended
        → Reply (in_room (length out.old) (good (encode t.now m))) (word_of result) out.old out.new)
        × BelowRefusals result }
{
    let len = size(t, table, kept, more);
    if out.len() < len {
        return Err(Refusal::Room);
    }
    let next = write_nodes(t, table, old, extra, from, kept, place, more, runs, out);
    write_edges(t, table, tokens, out, next);
    // last, as what it stores to could be what was handed here: the compiler would copy all that is held once more
    wire::write_head(len, state, out);
    Ok(len)
}
