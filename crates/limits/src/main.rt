// Tries the paper's limits, each on both sides, and prints a line a case: how many of what are tried, then the refusal and its place, and of a reply what it says.
// Assumes no more than its `requires`. The tables and the markings are made here; the file `stdout` has what the paper says of each case.
#![tactic(auto)]

ghost use Rattle.std.specs.Prelude.{◌≡◌, true, ◌+◌, ◌*◌, ◌%◌, ◌≤◌, length, drop, replicate};
ghost use Rattle.paper.specs.Limits.{limits};
ghost use Rattle.table.specs.Reading.{Holdable};

use std::io;
use table::{Limits, Table};

mod building;
mod telling;

// What each byte of a room holds before it is lent.
const MARK: u8 = 170;

// The line of a table's check. A builder left the table in the first `len` bytes.
fn checked(rt: &impl Print, bytes: &[u8], len: usize, n: usize, what: &[u8]) -> io::Result<()>
    requires { len ≤ length bytes.now }
{
    telling::tried(rt, n, what, keshmirun::check(&bytes[..len]))?;
    telling::words(rt, b"\n")
}

// The line of reading a table under limits: the same function that the library calls with today's.
fn read_under(
    rt: &impl Print,
    bytes: &[u8],
    len: usize,
    n: usize,
    what: &[u8],
    most: Limits,
) -> io::Result<()>
    requires { (len ≤ length bytes.now) × Holdable most }
{
    let word = wire::word(table_read::read_under(&bytes[..len], most).map(|_| 0));
    telling::tried(rt, n, what, word)?;
    telling::number(rt, b", under ", most.nodes)?;
    telling::number(rt, b" and ", most.edges)?;
    telling::words(rt, b"\n")
}

fn nodes(rt: &impl Print, n: usize, most: Limits) -> io::Result<()>
    requires { (n ≤ limits.most_nodes + 1) × Holdable most }
{
    let mut table = [0u8; building::ROOM];
    let len = building::nodes_alone(&mut table, n);
    read_under(rt, &table, len, n, b" nodes", most)
}

fn edges(rt: &impl Print, n: usize, most: Limits) -> io::Result<()>
    requires { (n ≤ limits.most_edges + 1) × Holdable most }
{
    let mut table = [0u8; building::ROOM];
    let len = building::chained(&mut table, n, 0);
    read_under(rt, &table, len, n, b" edges", most)
}

// The same of the library's check.
fn all_nodes(rt: &impl Print, n: usize) -> io::Result<()>
    requires { n ≤ limits.most_nodes + 1 }
{
    let mut table = [0u8; building::ROOM];
    let len = building::nodes_alone(&mut table, n);
    checked(rt, &table, len, n, b" nodes")
}

fn all_edges(rt: &impl Print, n: usize) -> io::Result<()>
    requires { n ≤ limits.most_edges + 1 }
{
    let mut table = [0u8; building::ROOM];
    let len = building::chained(&mut table, n, 0);
    checked(rt, &table, len, n, b" edges")
}

fn upper(rt: &impl Print, n: usize) -> io::Result<()> {
    let mut table = [0u8; building::ROOM];
    let len = building::buffer(&mut table, n);
    checked(rt, &table, len, n, b" as the upper of node 1")
}

fn chain(rt: &impl Print, n: usize) -> io::Result<()>
    requires { n ≤ 16 }
{
    let mut table = [0u8; building::ROOM];
    let len = building::chained(&mut table, 1, n);
    checked(rt, &table, len, n, b" control nodes in a chain")
}

// The marking with which a table starts that has no incoming parameter, and its length.
fn start(table: &[u8], marking: &mut [u8]) -> usize
    ensures { result ≤ length marking.new }
{
    wire::length_in(keshmirun::start(table, b"", marking))
}

// The sheet of a table at its start, every guard at 1. The first n bytes of the room are lent.
fn sheet(bytes: &[u8], len: usize, room: &mut [u8], n: usize) -> u64
    requires { (5 ≤ len) × (len ≤ length bytes.now) × (n ≤ length room.old) }
    ensures { result % 4294967296 ≤ n }
{
    let table = &bytes[..len];
    let mut marking = [0u8; Table::LONGEST_MARKING];
    let m = start(table, &mut marking);
    let counts = Table::counts(table);
    let edges = counts.edges;
    let guards = [1u8; 256];
    keshmirun::sheet(
        table,
        &marking[..m],
        &guards[..edges],
        &keshmirun::NO_BOUNDS,
        &mut room[..n],
    )
}

// The line of that sheet: of a reply also the number of ends, which stands at 3, and the length.
fn shown(rt: &impl Print, bytes: &[u8], len: usize, n: usize, what: &[u8]) -> io::Result<()>
    requires { (5 ≤ len) × (len ≤ length bytes.now) }
{
    let mut room = [0u8; 4096];
    let word = sheet(bytes, len, &mut room, 4096);
    telling::tried(rt, n, what, word)?;
    let written = wire::length_in(word);
    if 0 < written {
        telling::number(rt, b", ends ", wire::wide(room[3]))?;
        telling::number(rt, b", length ", written)?;
    }
    telling::words(rt, b"\n")
}

// n offers, which are width times (chain + 1).
fn offers(rt: &impl Print, n: usize, width: usize, chain: usize) -> io::Result<()>
    requires { (n ≡ width * (chain + 1)) × (width ≤ 20) × (chain ≤ 15) }
{
    let mut table = [0u8; building::ROOM];
    let len = building::chained(&mut table, width, chain);
    shown(rt, &table, len, n, b" offers")
}

fn paths(rt: &impl Print, n: usize) -> io::Result<()>
    requires { n ≤ 9 }
{
    let mut table = [0u8; building::ROOM];
    let len = building::through(&mut table, n, Table::JOIN);
    shown(rt, &table, len, n, b" paths in an offer")
}

fn ends(rt: &impl Print, n: usize) -> io::Result<()>
    requires { n ≤ 21 }
{
    let mut table = [0u8; building::ROOM];
    let len = building::chained(&mut table, n, 0);
    shown(rt, &table, len, n, b" ends")
}

// The finish of an action from which an edge leads that has so many tokens.
fn finish(tokens: u8, out: &mut [u8]) -> u64 {
    let mut table = [0u8; building::ROOM];
    let len = building::through(&mut table, 1, Table::ACTION);
    let mut marking = [0u8; Table::LONGEST_MARKING];
    let m = building::running(&mut marking, tokens);
    keshmirun::finish(&table[..len], &marking[..m], 1, b"", out)
}

// The line of that finish: of a reply also what the edge has then, which is its last byte.
fn finished(rt: &impl Print, tokens: u8) -> io::Result<()> {
    let mut out = [0u8; Table::LONGEST_MARKING];
    let word = finish(tokens, &mut out);
    telling::tried(rt, wire::wide(tokens), b" on an edge before finish", word)?;
    if 0 < wire::length_in(word) {
        telling::number(rt, b", then ", wire::wide(out[6]))?;
    }
    telling::words(rt, b"\n")
}

// Whether the bytes of a room are as they were lent, from a place on.
fn untouched(lent: &[u8], from: usize) -> bool
    requires { (from ≤ 4096) × (length lent.now ≡ 4096) }
    ensures { (result ≡ true → drop from lent.now ≡ drop from (replicate 4096 170)) × (drop from lent.now ≡ drop from (replicate 4096 170) → result ≡ true) }
{
    let fresh = [MARK; 4096];
    lent[from..] == fresh[from..]
}

// A sheet of 35 bytes in a room of n: what the reply doesn't take stays as it was, beyond the room too.
fn room(rt: &impl Print, n: usize) -> io::Result<()>
    requires { n ≤ 4096 }
{
    let mut table = [0u8; building::ROOM];
    let len = building::through(&mut table, 8, Table::JOIN);
    let mut lent = [MARK; 4096];
    let word = sheet(&table, len, &mut lent, n);
    telling::tried(rt, n, b" bytes of room for a sheet of 35", word)?;
    let taken = wire::length_in(word);
    if untouched(&lent, taken) {
        telling::number(rt, b", none changed from byte ", taken)?;
    }
    telling::words(rt, b"\n")
}

// The limits before wish 6, and today's.
fn smaller() -> Limits
    ensures { Holdable result }
{
    Limits {
        nodes: 48,
        edges: 64,
    }
}

fn larger() -> Limits
    ensures { Holdable result }
{
    Limits {
        nodes: Table::MOST_NODES,
        edges: Table::MOST_EDGES,
    }
}

// The cases of both limits on the number of nodes and of edges: so many are allowed, and one more isn't.
fn around(rt: &impl Print, most: Limits) -> io::Result<()>
    requires { Holdable most }
{
    nodes(rt, most.nodes, most)?;
    nodes(rt, most.nodes + 1, most)?;
    edges(rt, most.edges, most)?;
    edges(rt, most.edges + 1, most)
}

fn main(rt: HostRuntime) -> io::Result<()> {
    around(&rt, smaller())?;
    around(&rt, larger())?;
    all_nodes(&rt, Table::MOST_NODES)?;
    all_nodes(&rt, Table::MOST_NODES + 1)?;
    all_edges(&rt, Table::MOST_EDGES)?;
    all_edges(&rt, Table::MOST_EDGES + 1)?;
    upper(&rt, 16)?;
    upper(&rt, 17)?;
    chain(&rt, 15)?;
    chain(&rt, 16)?;
    offers(&rt, 64, 16, 3)?;
    offers(&rt, 65, 13, 4)?;
    paths(&rt, 8)?;
    paths(&rt, 9)?;
    ends(&rt, 20)?;
    ends(&rt, 21)?;
    finished(&rt, 254)?;
    finished(&rt, 255)?;
    room(&rt, 35)?;
    room(&rt, 34)
}
