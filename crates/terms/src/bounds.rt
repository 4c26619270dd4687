// Row 18: a bounds list, read by offsets, and the entry of an edge.
// The table's bytes were read as a table; of a list that wasn't judged no more is read than it has.
ghost use Rattle.std.specs.Prelude.{◌≡◌, ◌&&◌, List, ℕ, ◌+◌, ◌*◌, ◌≤◌, ◌<◌, eqb, length, IfSome};
ghost use Rattle.paper.specs.Bytes.{framed};
ghost use Rattle.paper.specs.Offers.{bounds_version, bounds_count, bound_at, low as low_of, high as high_of, bound_fine, bounds_fine};
ghost use Rattle.paper.proofs.BoundsLists.{GoodBounds};
ghost use Rattle.table.specs.Reading.{Spans};
ghost use Rattle.terms.specs.Terms.{Entries, EntryFound};

use table::Table;
use wire::{read16, read32, wide};

// Bytes before the entries: the length, the version, then the count; and of an entry: the edge, low and high.
const HEADER: usize = 4;

const ENTRY: usize = 9;

// So long is a list of one entry.
pub const ONE_ENTRY: usize = 13;

const LOW: usize = 1;

const HIGH: usize = 5;

// Whether length, version and count agree with the slice.
fn frame_fine(x: &[u8]) -> bool
    ensures { result ≡ framed x.now && eqb (bounds_version x.now) 1 && eqb (length x.now) (bound_at x.now (bounds_count x.now)) }
{
    let n = x.len();
    if n < HEADER {
        return false;
    }
    if read16(x, 0) + 2 != n {
        return false;
    }
    if x[2] != 1 {
        return false;
    }
    n == HEADER + ENTRY * wide(x[3])
}

// Whether entry k is fine: an object edge of the table, above that of the entry before, with low at most high.
fn bound_fine(t: &[u8], table: Table, x: &[u8], k: usize) -> bool
    requires { Spans t.now table × (k < 255) × (4 + 9 * (k + 1) ≤ length x.now) }
    ensures { result ≡ bound_fine x.now t.now k }
{
    let from = HEADER + ENTRY * k;
    let e = wide(x[from]);
    if table.edges <= e {
        return false;
    }
    if table.edge_kind(t, e) != 1 {
        return false;
    }
    if read32(x, from + HIGH) < read32(x, from + LOW) {
        return false;
    }
    if k == 0 {
        return true;
    }
    wide(x[from - ENTRY]) < e
}

// Whether the list is one of this table.
pub fn bounds_fine(t: &[u8], table: Table, x: &[u8]) -> bool
    requires { Spans t.now table }
    ensures { result ≡ bounds_fine t.now x.now }
{
    if !frame_fine(x) {
        return false;
    }
    let n = wide(x[3]);
    for k in 0..n {
        if !bound_fine(t, table, x, k) {
            return false;
        }
    }
    true
}

// ---- entries
// How many entries there are: the count, unless the slice is too short for so many.
pub fn entries(x: &[u8]) -> usize
    ensures { Entries x.now result }
{
    if x.len() < HEADER {
        return 0;
    }
    let n = wide(x[3]);
    if x.len() < HEADER + ENTRY * n {
        return 0;
    }
    n
}

// The entry of edge e among n, if it has one. Edges rise, so the search ends where they pass e.
pub fn find(x: &[u8], n: usize, e: usize) -> Option<usize>
    requires { Entries x.now n }
    ensures { IfSome result (λ k. k < n) × ((t : List ℕ) → GoodBounds t x.now → EntryFound x.now e result) }
{
    for k in 0..n {
        let f = wide(x[HEADER + ENTRY * k]);
        if e == f {
            return Some(k);
        }
        if e < f {
            return None;
        }
    }
    None
}

// The bounds of entry k, low and high.
pub fn low_high(x: &[u8], n: usize, k: usize) -> (u32, u32)
    requires { Entries x.now n × (k < n) }
    ensures { (result.0 ≡ low_of x.now k) × (result.1 ≡ high_of x.now k) }
{
    let from = HEADER + ENTRY * k;
    (read32(x, from + LOW), read32(x, from + HIGH))
}
