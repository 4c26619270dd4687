// The rank of each node: how many control nodes the longest chain has that ends there. Row 4 asks for it, and those who build offers go by it.
// Assumes that the bytes span the counts and edges have nodes at their ends (`Framed`).
#![tactic(auto)]

ghost use Rattle.std.specs.Prelude.{◌≡◌, false, ℕ, ◌+◌, ◌≤◌, ◌<◌, length};
ghost use Rattle.paper.specs.Limits.{limits};
ghost use Rattle.paper.specs.Table.{edges};
ghost use Rattle.table.specs.Reading.{Spans, Blank};
ghost use Rattle.table_ranks.specs.Chains.{Framed, AllRanked, Links, NextRank};

use table::{Table, is_control_node};
use words::mark;

// The highest rank: that of nodes at which a chain of the forbidden length ends.
pub const HIGHEST: u8 = Table::CHAIN_TOO_LONG as u8;

// Marks the control nodes: rank 1, for a chain of one ends there.
fn mark_control(s: &[u8], table: Table, marks: &mut [u8])
    requires { Spans s.now table × (table.nodes ≤ length marks.old) }
    ensures { Blank marks.old → AllRanked s.now marks.new 1 }
{
    for i in 0..table.nodes {
        mark(marks, is_control_node(table.kind(s, i)), i);
    }
}

// The numbers of the edges from a control node to a control node, and how many there are: chains go over no others.
fn list_links(s: &[u8], table: Table, rk: &[u8], links: &mut [u8]) -> usize
    requires { Framed s.now table × AllRanked s.now rk.now 1 × (table.nodes ≤ length rk.now) × (table.edges ≤ length links.old) }
    ensures { (result ≤ table.edges) × Links s.now links.new (edges s.now) result }
{
    let mut n: usize = 0;
    for j in 0..table.edges {
        if rk[table.source(s, j)] != 0 && rk[table.target(s, j)] != 0 {
            links[n] = j as u8;
            n += 1;
        }
    }
    n
}

// What a node of rank r lifts the nodes behind it to: one more, as far as ranks go.
fn next_rank(r: u8) -> u8
    ensures { NextRank r result }
{
    if r < HIGHEST { r + 1 } else { HIGHEST }
}

// Each of the n links lifts the rank of its target above that of its source; whether a rank has changed. Chains that are told apart grow by one or more.
fn lift(s: &[u8], table: Table, links: &[u8], n: usize, rk: &mut [u8]) -> bool
    requires { Framed s.now table × Links s.now links.now (edges s.now) n × (n ≤ length links.now) × (table.nodes ≤ length rk.old) }
    ensures { (k : ℕ) → 1 ≤ k → k < limits.chain_too_long → AllRanked s.now rk.old k → AllRanked s.now rk.new (k + 1) × (result ≡ false → AllRanked s.now rk.new limits.chain_too_long) }
{
    let mut any = false;
    for x in 0..n {
        let j = wire::wide(links[x]);
        let i = table.target(s, j);
        let r = next_rank(rk[table.source(s, j)]);
        if rk[i] < r {
            rk[i] = r;
            any = true;
        }
    }
    any
}

// The rank of each node: how many control nodes the longest chain has that ends there, and 16 where a chain of 16 ends. A pass that lifts nothing settles it.
pub fn ranks(s: &[u8], table: Table) -> [u8; Table::MOST_NODES]
    requires { Framed s.now table }
    ensures { (length result ≡ limits.most_nodes) × AllRanked s.now result limits.chain_too_long }
{
    let mut rk = [0u8; Table::MOST_NODES];
    mark_control(s, table, &mut rk);
    let mut links = [0u8; Table::MOST_EDGES];
    let n = list_links(s, table, &rk, &mut links);
    for k in 1..Table::CHAIN_TOO_LONG {
        if !lift(s, table, &links, n, &mut rk) {
            return rk;
        }
    }
    rk
}
