// The ends of a board by value, each with what is asked of it, and masks of ends and words of rows by which the rules on choices are asked.
// Loops take the columns of the ends as lent slices: a struct is copied at each call. Words and numbers only; what they mean for offers is said by the
// laws. Assumes no more than its `requires`.
#![tactic(auto)]

ghost use Rattle.std.specs.Prelude.{◌≡◌, Bool, not, ◌&&◌, cond, ℕ, ◌+◌, ◌≤◌, ◌<◌, eqb, length};
ghost use Rattle.std.specs.Int.Bits.{bit_and};
ghost use Rattle.paper.specs.Lists.{at, has};
ghost use Rattle.paper.specs.Answers.{good};
ghost use Rattle.paper.specs.Table.{kind, owner, is_pin};
ghost use Rattle.table.specs.Reading.{table_read};
ghost use Rattle.offers.specs.Sets.{Marks};
ghost use Rattle.offers.specs.Rows.{row_cells, cell};
ghost use Rattle.ends_masks.specs.Seating.{Columns, Rowed, Seatable, EndsFull, EndsSeated, rival, siblings, makes};
ghost use Rattle.paper.specs.Limits.{limits};

use offers::MOST_ENDS;
use table::Table;

// The ends of a board, in order: each one's row of the offer list, its last edge, its target, the node that the target belongs to, and the words of its makers
// and foes.
// kept: a struct of arrays in fixed memory, since loops that run often are lent one column of it.
#[derive(Clone, Copy)]
pub struct Ends {
    pub row: [u8; MOST_ENDS],
    pub edge: [u8; MOST_ENDS],
    pub target: [u8; MOST_ENDS],
    pub home: [u8; MOST_ENDS],
    pub makers: [u64; MOST_ENDS],
    pub foes: [u64; MOST_ENDS],
    pub count: usize,
}

// ---- columns

// Where an end at node i belongs: to its action, if i is a pin.
fn home_of(t: &[u8], table: Table, i: usize) -> u8
    requires { (table_read t.now ≡ good table) × (i < table.nodes) }
    ensures { result ≡ cond (is_pin (kind t.now i)) (owner t.now i) i }
{
    if table::is_pin(table.kind(t, i)) {
        return table.owner(t, i) as u8;
    }
    i as u8
}

// The last edge of each end, its target, and the node that the target belongs to.
fn columns(
    t: &[u8],
    table: Table,
    rows: &[u64],
    ends: &[u8],
    n: usize,
    edge: &mut [u8],
    target: &mut [u8],
    home: &mut [u8],
)
    requires { (table_read t.now ≡ good table) × Seatable rows.now ends.now n table.edges × (n ≤ length edge.old) × (n ≤ length target.old) × (n ≤ length home.old) }
    ensures { Columns t.now rows.now ends.now edge.new target.new home.new n }
{
    for k in 0..n {
        let e = offers::last_of(rows, wire::wide(ends[k]));
        let to = table.target(t, wire::wide(e));
        edge[k] = e;
        target[k] = to as u8;
        home[k] = home_of(t, table, to);
    }
}

// Cell i of each end's row.
fn words_of(rows: &[u64], i: usize, ends: &[u8], n: usize) -> [u64; MOST_ENDS]
    requires { Rowed ends.now n limits.most_offers × (row_cells ≤ length rows.now) × (i < 8) × (n ≤ limits.most_ends) }
    ensures { (length result ≡ limits.most_ends) × ((k : ℕ) → k < n → at result k ≡ cell rows.now (at ends.now k) i) }
{
    let mut to = [0u64; MOST_ENDS];
    for k in 0..n {
        to[k] = rows[offers::WIDTH * wire::wide(ends[k]) + i];
    }
    to
}

// Each end's row.
fn rows_of(ends: &[u8], n: usize) -> [u8; MOST_ENDS]
    requires { (n ≤ length ends.now) × (n ≤ limits.most_ends) }
    ensures { (length result ≡ limits.most_ends) × ((k : ℕ) → k < n → at result k ≡ at ends.now k) }
{
    let mut to = [0u8; MOST_ENDS];
    to[..n].copy_from_slice(&ends[..n]);
    to
}

// The n ends that are the rows `ends` of the offer list, whose cells are lent.
pub fn seat(t: &[u8], table: Table, rows: &[u64], ends: &[u8], n: usize) -> Ends
    requires { (table_read t.now ≡ good table) × Seatable rows.now ends.now n table.edges × (n ≤ limits.most_ends) }
    ensures { EndsFull result × (result.count ≡ n) × EndsSeated t.now rows.now ends.now result }
{
    let mut edge = [0u8; MOST_ENDS];
    let mut target = [0u8; MOST_ENDS];
    let mut home = [0u8; MOST_ENDS];
    columns(t, table, rows, ends, n, &mut edge, &mut target, &mut home);
    Ends {
        row: rows_of(ends, n),
        edge: edge,
        target: target,
        home: home,
        makers: words_of(rows, offers::MAKERS, ends, n),
        foes: words_of(rows, offers::FOES, ends, n),
        count: n,
    }
}

// ---- words, one digit after another

// The word of the numbers below n that pass.
fn passing<P: Fn(usize) -> bool>(n: usize, passes: P) -> u64
    requires few { n ≤ 64 }
    requires callable { (k : ℕ) → k < n → P.pre passes k }
    ensures { (p : ℕ → Bool) → ((k : ℕ) (on : Bool) → k < n → P.post passes k on → on ≡ p k) → Marks p n result }
{
    let mut w: u64 = 0;
    for k in 0..n {
        if passes(k) {
            w |= words::bit_of(k);
        }
    }
    w
}

// The ends that have x in a column.
pub fn same(column: &[u8], n: usize, x: usize) -> u32
    requires { (n ≤ length column.now) × (n ≤ limits.most_ends) }
    ensures { Marks (λ k. eqb (at column.now k) x) n result }
{
    passing(n, |k| wire::wide(column[k]) == x) as u32
}

// The ends that have a row of the word w among their makers.
pub fn made(makers: &[u64], n: usize, rows: u64) -> u32
    requires { (n ≤ length makers.now) × (n ≤ limits.most_ends) }
    ensures { Marks (λ k. not (eqb (bit_and (at makers.now k) rows) 0)) n result }
{
    passing(n, |k| makers[k] & rows != 0) as u32
}

// Whether ends k and j compete.
fn are_rivals(foes: &[u64], makers: &[u64], k: usize, j: usize) -> bool
    requires { (k < length foes.now) × (j < length foes.now) × (k < length makers.now) × (j < length makers.now) }
    ensures { result ≡ rival foes.now makers.now k j }
{
    if j == k {
        return false;
    }
    offers::compete(foes[k], makers[k], foes[j], makers[j])
}

// The ends that compete with end k.
pub fn rivals(foes: &[u64], makers: &[u64], n: usize, k: usize) -> u32
    requires { (n ≤ length foes.now) × (n ≤ length makers.now) × (k < n) × (n ≤ limits.most_ends) }
    ensures { Marks (rival foes.now makers.now k) n result }
{
    passing(n, |j| are_rivals(foes, makers, k, j)) as u32
}

// Whether rows y and z leave the same node and were made from an offer in common.
fn are_siblings(node: &[u8], parents: &[u64], y: usize, z: usize) -> bool
    requires { (y < length node.now) × (z < length node.now) × (y < length parents.now) × (z < length parents.now) }
    ensures { result ≡ siblings node.now parents.now y z }
{
    if node[y] != node[z] {
        return false;
    }
    parents[y] & parents[z] != 0
}

// The rows that leave the same node as row z and were made from an offer in common with it.
pub fn family(node: &[u8], parents: &[u64], rows: usize, z: usize) -> u64
    requires { (rows ≤ length node.now) × (rows ≤ length parents.now) × (rows ≤ limits.most_offers) × (z < rows) }
    ensures { Marks (λ y. siblings node.now parents.now y z) rows result }
{
    passing(rows, |y| are_siblings(node, parents, y, z))
}

// The makers of end k, if it is taken.
fn makers_if_taken(makers: &[u64], c: u32, k: usize) -> u64
    requires { (k < length makers.now) × (k < 32) }
    ensures { (y : ℕ) → has result y ≡ has c k && has (at makers.now k) y }
{
    if (c >> (k as u32)) % 2 != 1 {
        return 0;
    }
    makers[k]
}

// The rows that are makers of taken ends.
pub fn all_makers(makers: &[u64], n: usize, c: u32) -> u64
    requires { (n ≤ length makers.now) × (n ≤ limits.most_ends) }
    ensures { (y : ℕ) → has result y ≡ makes makers.now n c y }
{
    let mut w: u64 = 0;
    for k in 0..n {
        w = w | makers_if_taken(makers, c, k);
    }
    w
}
