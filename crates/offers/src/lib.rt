// Offers as numbered rows: what a row says, and how one is put at the end. Of the table it reads nothing.
#![tactic(auto)]

ghost use Rattle.std.specs.Prelude.{◌≡◌, true, List, [], ◌∷◌, ◌++◌, ℕ, ◌+◌, ◌%◌, ◌≤◌, ◌<◌, length};
ghost use Rattle.paper.specs.Table.{is_join};
ghost use Rattle.paper.specs.Offers.{Offer};
ghost use Rattle.offers.specs.Sets.{words_clash};
ghost use Rattle.offers.specs.Rows.{entry_of, rows_in, row_cells, cell, up_to_most, Holds, Pushed, Controls, Hits, Ready, Led};
ghost use Rattle.paper.specs.Limits.{limits};

use words::{JOIN, bit_of, hits};

// While they are built the rows stand in one lent slice, so that nothing but a slice and a count goes from call to call. A row is 16 cells: last
// edge, the node it leaves, whether there is a value, the value, the number of paths, the words of parents, makers and foes, and for each path
// what it goes on from, 0 for nothing and 8 * j + l + 1 for path l of row j. Foes are the earlier offers that clash with a maker, so that a new
// row changes no old one; x and y compete exactly if the foes of one meet the makers of the other.
pub const WIDTH: usize = 16;

// The cells of as many rows as there may be.
pub const CELLS: usize = WIDTH * MOST_OFFERS;

// Places in a row; the last edge is at 0.
pub const NODE: usize = 1;

pub const HAS: usize = 2;

pub const VALUE: usize = 3;

pub const PATHS: usize = 4;

pub const PARENTS: usize = 5;

pub const MAKERS: usize = 6;

pub const FOES: usize = 7;

pub const BEFORE: usize = 8;

// "At most 64 offers, 8 paths in an offer, 20 ends".
pub const MOST_OFFERS: usize = 64;

pub const MOST_PATHS: usize = 8;

pub const MOST_ENDS: usize = 20;

// The list of offers, by value, for those who judge and take ends: a row each, without what only ends are asked for, the numbers of paths, makers and foes, and
// what paths go on from.
// kept: the paper names this form, arrays with their count.
#[derive(Clone, Copy)]
pub struct Offers {
    pub last: [u8; MOST_OFFERS],
    pub node: [u8; MOST_OFFERS],
    pub has: [u8; MOST_OFFERS],
    pub value: [u32; MOST_OFFERS],
    pub parents: [u64; MOST_OFFERS],
    pub count: usize,
}

// The edge that offers go onto, the node that it leaves, and that node's kind.
#[derive(Clone, Copy)]
pub struct Onto {
    pub edge: u8,
    pub node: u8,
    pub kind: u8,
}

// What an offer carries: a token where `has` is 0, else the value.
// kept: no Option, since these are two cells of a row, which go from row to row as they stand (fixed memory).
#[derive(Clone, Copy)]
pub struct Worth {
    pub has: u64,
    pub value: u64,
}

// One row at the end.
fn push(
    rows: &mut [u64],
    count: usize,
    onto: Onto,
    worth: Worth,
    paths: u64,
    parents: u64,
    makers: u64,
    foes: u64,
)
    requires { (count < limits.most_offers) × (row_cells ≤ length rows.old) }
    ensures { Pushed (rows_in rows.old count) (rows_in rows.new (count + 1)) (entry_of onto.edge onto.node worth.has worth.value paths parents makers foes) }
{
    let at = WIDTH * count;
    rows[at] = onto.edge as u64;
    rows[at + NODE] = onto.node as u64;
    rows[at + HAS] = worth.has;
    rows[at + VALUE] = worth.value;
    rows[at + PATHS] = paths;
    rows[at + PARENTS] = parents;
    rows[at + MAKERS] = makers;
    rows[at + FOES] = foes;
}

// The rows on control edges, those without a value. A join alone asks for them.
fn controls(rows: &[u64], count: usize, k: u64) -> u64
    requires { (count ≤ limits.most_offers) × (row_cells ≤ length rows.now) }
    ensures { is_join k ≡ true → Controls (rows_in rows.now count) count result }
{
    if k != JOIN {
        return 0;
    }
    let mut d: u64 = 0;
    for j in 0..count {
        if rows[WIDTH * j + HAS] == 0 {
            d |= bit_of(j);
        }
    }
    d
}

// The rows that clash with a new one; c has those on control edges.
fn clashes(rows: &[u64], count: usize, n: u64, k: u64, a: u64, c: u64) -> u64
    requires { (count ≤ limits.most_offers) × (row_cells ≤ length rows.now) }
    ensures { Hits (rows_in rows.now count) n k a c count result }
{
    let mut d: u64 = 0;
    for j in 0..count {
        if hits(
            n,
            k,
            a,
            rows[WIDTH * j + NODE],
            rows[WIDTH * j + PARENTS],
            c,
        ) {
            d |= bit_of(j);
        }
    }
    d
}

// One offer more: the one place that makes a row. `makers` and `foes` are those of what it was made of.
pub fn grow(
    rows: &mut [u64],
    count: usize,
    onto: Onto,
    worth: Worth,
    paths: u64,
    parents: u64,
    makers: u64,
    foes: u64,
)
    requires { (count < limits.most_offers) × (row_cells ≤ length rows.old) }
    ensures { (t : List ℕ) (ts : List Offer) (x : Offer) → Holds t (rows_in rows.old count) ts → Ready t (rows_in rows.old count) ts x onto worth paths parents makers foes → Holds t (rows_in rows.new (count + 1)) (ts ++ (x ∷ [])) }
{
    let n = onto.node as u64;
    let k = onto.kind as u64;
    let c = controls(rows, count, k);
    let d = clashes(rows, count, n, k, parents, c);
    push(
        rows,
        count,
        onto,
        worth,
        paths,
        parents,
        bit_of(count) | makers,
        foes | d,
    );
}

// The number of paths of row i; no good list has more than 8 in a row.
pub fn paths_of(rows: &[u64], i: usize) -> usize
    requires { (i < limits.most_offers) × (row_cells ≤ length rows.now) }
    ensures { (result ≡ up_to_most (cell rows.now i 4)) × (result ≤ limits.most_paths) }
{
    let p = rows[WIDTH * i + PATHS];
    if (MOST_PATHS as u64) < p {
        return MOST_PATHS;
    }
    p as usize
}

// The last edge of row i.
// kept: three functions of a line each, of two types; one for all would be no plainer.
pub fn last_of(rows: &[u64], i: usize) -> u8
    requires { (i < limits.most_offers) × (row_cells ≤ length rows.now) }
    ensures { result ≡ ((rows_in rows.now 0).entry i).last % 256 }
{
    (rows[WIDTH * i] % 256) as u8
}

// Whether row i has a value, 1 or 0.
pub fn has_of(rows: &[u64], i: usize) -> u8
    requires { (i < limits.most_offers) × (row_cells ≤ length rows.now) }
    ensures { result ≡ ((rows_in rows.now 0).entry i).has % 256 }
{
    (rows[WIDTH * i + HAS] % 256) as u8
}

// The value of row i.
pub fn value_of(rows: &[u64], i: usize) -> u32
    requires { (i < limits.most_offers) × (row_cells ≤ length rows.now) }
    ensures { result ≡ ((rows_in rows.now 0).entry i).value % 4294967296 }
{
    (rows[WIDTH * i + VALUE] % 4294967296) as u32
}

// The paths of row j, n of them, are what the row to come goes on from, from its path `at` on.
pub fn lead(rows: &mut [u64], count: usize, at: usize, j: usize, n: usize)
    requires { ((count < limits.most_offers) × (row_cells ≤ length rows.old)) × ((at ≤ 1000) × ((j < limits.most_offers) × (n ≤ limits.most_paths))) }
    ensures { Led rows.old rows.new count at j n }
{
    for k in 0..n {
        if at + k < MOST_PATHS {
            rows[WIDTH * count + BEFORE + (at + k)] = (MOST_PATHS * j + k + 1) as u64;
        }
    }
}

// Whether an offer with foes f and makers m competes with one that has foes g and makers n.
pub fn compete(f: u64, m: u64, g: u64, n: u64) -> bool
    ensures { result ≡ words_clash f m g n }
{
    f & n != 0 || g & m != 0
}
