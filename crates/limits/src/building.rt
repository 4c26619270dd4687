// The tables of the cases, and a marking, put together in lent bytes. Each builder says which case it serves and answers how many bytes it wrote.
// Assumes no more than its `requires`. All edges are control edges with no guard, and no node is a pin.
ghost use Rattle.std.specs.Prelude.{◌≡◌, ◌+◌, ◌*◌, ◌≤◌, length};
ghost use Rattle.paper.specs.Limits.{limits};
ghost use Rattle.limits.specs.Rooms.{most_table};

use table::Table;

// Room for a table with a node and an edge more than the limits allow.
pub const ROOM: usize = Table::HEADER
    + Table::NODE * (Table::MOST_NODES + 1)
    + Table::EDGE * (Table::MOST_EDGES + 1);

// Node i: its kind, no owner, lower 0, its upper.
fn put_node(t: &mut [u8], i: usize, kind: usize, upper: usize)
    requires { (i ≤ limits.most_nodes) × (kind ≤ 13) × (most_table ≤ length t.old) }
{
    let at = Table::node_at(i);
    wire::write16(t, at, kind * 256 + Table::NO_OWNER);
    wire::write16(t, at + 2, upper);
}

// Edge j of a table of so many nodes: kind 0 and source, then target and no guard.
fn put_edge(t: &mut [u8], nodes: usize, j: usize, source: usize, target: usize)
    requires { (nodes ≤ limits.most_nodes + 1) × (j ≤ limits.most_edges) × (target ≤ limits.most_nodes) × (most_table ≤ length t.old) }
{
    let counts = Table { nodes, edges: 0 };
    let at = counts.edge_at(j);
    wire::write16(t, at, source);
    wire::write16(t, at + 2, target * 256);
}

// The first `width` edges, all from node 0 to node 1.
fn put_edges(t: &mut [u8], nodes: usize, width: usize)
    requires { (nodes ≤ limits.most_nodes + 1) × (width ≤ limits.most_edges + 1) × (most_table ≤ length t.old) }
{
    for j in 0..width {
        put_edge(t, nodes, j, 0, 1);
    }
}

// The header: the number of bytes after the length, version 1 and the two counts. Answers the whole table's length.
fn put_header(t: &mut [u8], nodes: usize, edges: usize) -> usize
    requires { (nodes ≤ limits.most_nodes + 1) × (edges ≤ limits.most_edges + 1) × (most_table ≤ length t.old) }
    ensures { result ≡ 5 + 4 * nodes + 4 * edges }
{
    let counts = Table { nodes, edges };
    let len = counts.edge_at(edges);
    wire::write_head(len, nodes as u8, t);
    t[Table::HEADER - 1] = edges as u8;
    len
}

// So many nodes and no edge.
pub fn nodes_alone(t: &mut [u8], nodes: usize) -> usize
    requires { (nodes ≤ limits.most_nodes + 1) × (most_table ≤ length t.old) }
    ensures { result ≡ 5 + 4 * nodes }
{
    for i in 0..nodes {
        put_node(t, i, Table::ACTIVITY_FINAL, 0);
    }
    put_header(t, nodes, 0)
}

// Two nodes, of which node 1 is a buffer of the given upper.
pub fn buffer(t: &mut [u8], upper: usize) -> usize
    requires { most_table ≤ length t.old }
    ensures { result ≡ 13 }
{
    let len = nodes_alone(t, 2);
    put_node(t, 1, Table::BUFFER, upper);
    len
}

// `width` edges from the initial node into a chain of control nodes, in turn merge, fork, join and decision, which ends in the final node.
// With no control node the edges go straight there. Each edge of the chain carries as many offers as enter it, so there are width times
// (chain + 1) offers, each of one path, and `width` ends.
pub fn chained(t: &mut [u8], width: usize, chain: usize) -> usize
    requires { (width + chain ≤ limits.most_edges + 1) × (chain ≤ 16) × (most_table ≤ length t.old) }
    ensures { result ≡ 13 + 4 * width + 8 * chain }
{
    let nodes = chain + 2;
    put_node(t, 0, Table::INITIAL, 0);
    put_node(t, nodes - 1, Table::ACTIVITY_FINAL, 0);
    put_edges(t, nodes, width);
    for i in 1..chain + 1 {
        put_node(t, i, Table::DECISION + i % 4, 0);
        put_edge(t, nodes, width + i - 1, i, i + 1);
    }
    put_header(t, nodes, width + chain)
}

// `width` edges from the initial node to a node of the given kind, node 1, and an edge from there to the final node. A join's one offer has
// as many paths as edges lead to it.
pub fn through(t: &mut [u8], width: usize, kind: usize) -> usize
    requires { (width ≤ limits.most_edges) × (kind ≤ 13) × (most_table ≤ length t.old) }
    ensures { result ≡ 21 + 4 * width }
{
    let len = chained(t, width, 1);
    put_node(t, 1, kind, 0);
    len
}

// The marking of such a table in which node 1 is an action and runs, with no token on the one edge to it and so many on the edge from it.
pub fn running(marking: &mut [u8], tokens: u8) -> usize
    requires { 7 ≤ length marking.old }
    ensures { result ≡ 7 }
{
    wire::write_head(7, 0, marking);
    marking[4] = 1;
    marking[5] = 0;
    marking[6] = tokens;
    7
}
