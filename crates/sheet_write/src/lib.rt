// Writing a sheet: its size first, then its bytes, front to back.
// Rows, ends and paths stand in lent slices, which hold what is read of them (`Measured`, `Shows`).
#![tactic(auto)]

ghost use Rattle.std.specs.Prelude.{◌≡◌, ◌++◌, ℕ, ◌+◌, ◌≤◌, ◌<◌, length, drop};
ghost use Rattle.std.proofs.lemmas.List.Edits.{sets};
ghost use Rattle.paper.specs.Lists.{at, below, gather};
ghost use Rattle.paper.specs.Limits.{limits};
ghost use Rattle.paper.specs.Answers.{good};
ghost use Rattle.paper.specs.Operations.{in_room, Reply};
ghost use Rattle.wire.specs.Totals.{total};
ghost use Rattle.wire.specs.Refusals.{word_of, BelowRefusals};
ghost use Rattle.offers.specs.Rows.{row_cells};
ghost use Rattle.ends_paths.specs.Blocks.{most_blocks, block_cells, first_block, block_start};
ghost use Rattle.sheet_write.specs.Listing.{value_shown, front_shown, path_shown, path_of, path_takes, end_takes, most_end_size, sheet_takes, most_sheet_size, end_shown, sheet_shown, Measured, Shows};

use offers::{MOST_PATHS, has_of, last_of, paths_of, value_of};
use table::Table;
use wire::{Refusal, wide};

// What the path in a block takes.
fn path_size(lens: &[u8], q: usize) -> usize
    requires { q < length lens.now }
    ensures { (result ≡ 1 + at lens.now q) × (result ≤ 256) }
{
    1 + wide(lens[q])
}

// What end k takes.
fn end_size(rows: &[u64], ends: &[u8], order: &[u8], lens: &[u8], n: usize, k: usize) -> usize
    requires { Measured rows.now ends.now order.now lens.now n × (k < n) }
    ensures { (result ≡ end_takes rows.now ends.now order.now lens.now k) × (result ≤ most_end_size) }
{
    let m = paths_of(rows, wide(ends[k]));
    let mut taken: usize = 7;
    for j in 0..m {
        taken += path_size(lens, wide(order[MOST_PATHS * k + j]));
    }
    taken
}

// What the sheet of n ends takes.
fn size(rows: &[u64], ends: &[u8], order: &[u8], lens: &[u8], n: usize) -> usize
    requires { Measured rows.now ends.now order.now lens.now n }
    ensures { (result ≡ sheet_takes rows.now ends.now order.now lens.now n) × (4 ≤ result) × (result ≤ most_sheet_size) }
{
    let mut taken: usize = 4;
    for k in 0..n {
        taken += end_size(rows, ends, order, lens, n, k);
    }
    taken
}

// 1 or 0 for value or none, and four bytes.
fn write_value(has: u8, value: u32, out: &mut [u8], to: usize)
    requires { to + 5 ≤ length out.old }
    ensures { out.new ≡ sets out.old to (value_shown has value) }
{
    if has == 0 {
        out[to] = 0;
        wire::write32(out, to + 1, 0);
        return;
    }
    out[to] = 1;
    wire::write32(out, to + 1, value);
}

// What stands before the paths of row i: its last edge, its value, and the number of its paths.
fn write_front(rows: &[u64], i: usize, out: &mut [u8], to: usize)
    requires { ((i < limits.most_offers) × (row_cells ≤ length rows.now)) × (to + 7 ≤ length out.old) }
    ensures { out.new ≡ sets out.old to (front_shown rows.now i) }
{
    out[to] = last_of(rows, i);
    write_value(has_of(rows, i), value_of(rows, i), out, to + 1);
    out[to + 6] = paths_of(rows, i) as u8;
}

// The path in block q: its length and edges; and where the bytes after it start.
fn write_path(lens: &[u8], cells: &[u8], q: usize, out: &mut [u8], to: usize) -> usize
    requires { ((q < length lens.now) × (at lens.now q ≤ limits.longest_path)) × (block_start q + limits.longest_path ≤ length cells.now) × (to + (1 + at lens.now q) ≤ length out.old) }
    ensures { (result ≡ to + (1 + at lens.now q)) × (out.new ≡ sets out.old to (path_shown lens.now cells.now q)) }
{
    let n = wide(lens[q]);
    out[to] = lens[q];
    wire::copy(
        cells,
        Table::LONGEST_PATH * q + (Table::LONGEST_PATH - n),
        n,
        out,
        to + 1,
    );
    to + 1 + n
}

// The m paths of end k.
fn write_paths(
    order: &[u8],
    lens: &[u8],
    cells: &[u8],
    k: usize,
    m: usize,
    out: &mut [u8],
    start: usize,
) -> usize
    requires { ((first_block k + m ≤ length order.now) × (m ≤ limits.most_paths)) × ((j : ℕ) → j < m → at order.now (first_block k + j) < most_blocks) × ((j : ℕ) → j < m → at lens.now (at order.now (first_block k + j)) ≤ limits.longest_path) × (most_blocks ≤ length lens.now) × (block_cells ≤ length cells.now) × (start + total (path_takes order.now lens.now k) m ≤ length out.old) }
    ensures { (result ≡ start + total (path_takes order.now lens.now k) m) × (out.new ≡ sets out.old start (gather (path_of order.now lens.now cells.now k) (below m))) }
{
    let mut to = start;
    for j in 0..m {
        to = write_path(lens, cells, wide(order[MOST_PATHS * k + j]), out, to);
    }
    to
}

// End k.
fn write_end(
    rows: &[u64],
    ends: &[u8],
    order: &[u8],
    lens: &[u8],
    cells: &[u8],
    n: usize,
    k: usize,
    out: &mut [u8],
    to: usize,
) -> usize
    requires { Shows rows.now ends.now order.now lens.now cells.now n × (k < n) × (to + end_takes rows.now ends.now order.now lens.now k ≤ length out.old) }
    ensures { (result ≡ to + end_takes rows.now ends.now order.now lens.now k) × (out.new ≡ sets out.old to (end_shown rows.now ends.now order.now lens.now cells.now k)) }
{
    let i = wide(ends[k]);
    write_front(rows, i, out, to);
    write_paths(order, lens, cells, k, paths_of(rows, i), out, to + 7)
}

// Every end, behind the head.
fn write_ends(
    rows: &[u64],
    ends: &[u8],
    order: &[u8],
    lens: &[u8],
    cells: &[u8],
    n: usize,
    out: &mut [u8],
)
    requires { Shows rows.now ends.now order.now lens.now cells.now n × (sheet_takes rows.now ends.now order.now lens.now n ≤ length out.old) }
    ensures { out.new ≡ sets out.old 4 (gather (end_shown rows.now ends.now order.now lens.now cells.now) (below n)) }
{
    let mut to: usize = 4;
    for k in 0..n {
        to = write_end(rows, ends, order, lens, cells, n, k, out, to);
    }
}

// The sheet of n ends, which takes `len` bytes, at the front of a slice.
fn write(
    rows: &[u64],
    ends: &[u8],
    order: &[u8],
    lens: &[u8],
    cells: &[u8],
    n: usize,
    len: usize,
    out: &mut [u8],
)
    requires { Shows rows.now ends.now order.now lens.now cells.now n × (len ≡ sheet_takes rows.now ends.now order.now lens.now n) × (4 ≤ len) × (len ≤ length out.old) }
    ensures { out.new ≡ sheet_shown rows.now ends.now order.now lens.now cells.now n ++ drop len out.old }
{
    wire::write_head(len, n as u8, out);
    write_ends(rows, ends, order, lens, cells, n, out);
}

// The sheet that the slices show, if the room is enough (row 17).
pub fn show(
    rows: &[u64],
    ends: &[u8],
    order: &[u8],
    lens: &[u8],
    cells: &[u8],
    n: usize,
    out: &mut [u8],
) -> Result<usize, Refusal>
    requires { Shows rows.now ends.now order.now lens.now cells.now n }
    ensures { Reply (in_room (length out.old) (good (sheet_shown rows.now ends.now order.now lens.now cells.now n))) (word_of result) out.old out.new × BelowRefusals result }
{
    let len = size(rows, ends, order, lens, n);
    if out.len() < len {
        return Err(Refusal::Room);
    }
    write(rows, ends, order, lens, cells, n, len, out);
    Ok(len)
}
