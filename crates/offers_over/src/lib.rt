// Offers over an edge: what it lets over it, offers extended over it, and first offers on it, each put at the end of the rows.
// Of the table it reads nothing but the lists of the edges into each node.
#![tactic(auto)]

ghost use Rattle.std.specs.Prelude.{◌≡◌, List, [], ◌∷◌, ◌++◌, ℕ, ◌+◌, ◌^◌, ◌≤◌, ◌<◌, length};
ghost use Rattle.paper.specs.Lists.{gather};
ghost use Rattle.paper.specs.Table.{into};
ghost use Rattle.paper.specs.Offers.{Offer, first, over};
ghost use Rattle.paper.proofs.Members.{In};
ghost use Rattle.offers.specs.Sets.{nth};
ghost use Rattle.offers.specs.Rows.{rows_in, row_cells, value_of, Holds};
ghost use Rattle.offers_over.specs.Over.{admitted, let_over, Grown, Outcome, overs, LeavesControl, Ext, Space, Feeds, Pass, begun_on, Begin};
ghost use Rattle.paper.specs.Limits.{limits};

use offers::{
    BEFORE, FOES, HAS, MAKERS, MOST_OFFERS, Onto, VALUE, WIDTH, Worth, grow, lead, paths_of,
};
use table::Table;
use wire::wide;
use words::bit_of;

// What an edge lets over it: nothing, whatever comes, or of values those from `low` to `high` and whatever has no value.
#[derive(Clone, Copy, Debug, PartialEq, Eq)]
pub enum Gate {
    Closed,
    Open,
    Within { low: u64, high: u64 },
}

// Whether an offer goes over an edge; h is 0 where it has no value, else v is its value.
pub fn admits(gate: Gate, h: u64, v: u64) -> bool
    ensures { result ≡ admitted gate (value_of h v) }
{
    match gate {
        Gate::Closed => false,
        Gate::Open => true,
        Gate::Within { low, high } => h == 0 || low <= v && v <= high,
    }
}

// ---- offers extended, and first offers
// A function that makes rows answers how many there are after it; none where there are too many offers or paths.

// Offer i extended.
fn extend(rows: &mut [u64], count: usize, i: usize, onto: Onto)
    requires { ((i < count) × (count < limits.most_offers)) × (row_cells ≤ length rows.old) }
    ensures { (t : List ℕ) (ts : List Offer) → Holds t (rows_in rows.old count) ts → (In (over (nth ts i) onto.edge) ts → ⊥) → LeavesControl t onto → Holds t (rows_in rows.new (count + 1)) (ts ++ (over (nth ts i) onto.edge ∷ [])) }
{
    let p = paths_of(rows, i);
    lead(rows, count, 0, i, p);
    let at = WIDTH * i;
    let worth = Worth {
        has: rows[at + HAS],
        value: rows[at + VALUE],
    };
    let m = rows[at + MAKERS];
    let f = rows[at + FOES];
    grow(rows, count, onto, worth, p as u64, bit_of(i), m, f);
}

// Offer i extended, if the gate lets it. One that it bars is not counted, however full the rows are.
fn extend_one(rows: &mut [u64], count: usize, i: usize, onto: Onto, gate: Gate) -> Option<usize>
    requires { ((i < count) × (count ≤ limits.most_offers)) × (row_cells ≤ length rows.old) }
    ensures { Grown count result × ((t : List ℕ) (ts : List Offer) (x : Offer) → Ext t (rows_in rows.old count) ts (x ∷ []) i (i + 1) onto (admitted gate) → Outcome t rows.new result (ts ++ overs onto.edge (let_over (admitted gate) (x ∷ [])))) }
{
    if !admits(gate, rows[WIDTH * i + HAS], rows[WIDTH * i + VALUE]) {
        return Some(count);
    }
    if MOST_OFFERS <= count {
        return None;
    }
    extend(rows, count, i, onto);
    Some(count + 1)
}

// Those of the offers a to b that the gate lets over, extended.
fn extend_all(
    rows: &mut [u64],
    count: usize,
    a: usize,
    b: usize,
    onto: Onto,
    gate: Gate,
) -> Option<usize>
    requires { ((a ≤ b) × (b ≤ count)) × ((count ≤ limits.most_offers) × (row_cells ≤ length rows.old)) }
    ensures { Grown count result × ((t : List ℕ) (ts xs : List Offer) → Ext t (rows_in rows.old count) ts xs a b onto (admitted gate) → Outcome t rows.new result (ts ++ overs onto.edge (let_over (admitted gate) xs))) }
{
    let mut c = count;
    for i in a..b {
        c = extend_one(rows, c, i, onto, gate)?;
    }
    Some(c)
}

// An offer that begins, if the gate lets it.
fn begin_one(rows: &mut [u64], count: usize, onto: Onto, gate: Gate, worth: Worth) -> Option<usize>
    requires { (count ≤ limits.most_offers) × (row_cells ≤ length rows.old) × (worth.has < 2 ^ 8) × (worth.value < 2 ^ 32) }
    ensures { Grown count result × ((t : List ℕ) (ts : List Offer) → Begin t (rows_in rows.old count) ts onto (first onto.edge (value_of worth.has worth.value) ∷ []) (admitted gate) → Outcome t rows.new result (ts ++ let_over (admitted gate) (first onto.edge (value_of worth.has worth.value) ∷ []))) }
{
    if !admits(gate, worth.has, worth.value) {
        return Some(count);
    }
    if MOST_OFFERS <= count {
        return None;
    }
    rows[WIDTH * count + BEFORE] = 0;
    grow(rows, count, onto, worth, 1, 0, 0, 0);
    Some(count + 1)
}

// What an edge carries at first.
#[derive(Clone, Copy, Debug, PartialEq, Eq)]
pub enum Start {
    Nothing,
    Token,
    Value(u32),
}

// A first offer, if there is one and the gate lets it.
pub fn begin(rows: &mut [u64], count: usize, onto: Onto, gate: Gate, start: Start) -> Option<usize>
    requires { (count ≤ limits.most_offers) × (row_cells ≤ length rows.old) }
    ensures { Grown count result × ((t : List ℕ) (ts : List Offer) → Begin t (rows_in rows.old count) ts onto (begun_on onto.edge start) (admitted gate) → Outcome t rows.new result (ts ++ let_over (admitted gate) (begun_on onto.edge start))) }
{
    let worth = match start {
        Start::Nothing => return Some(count),
        Start::Token => Worth { has: 0, value: 0 },
        Start::Value(v) => Worth {
            has: 1,
            value: v as u64,
        },
    };
    begin_one(rows, count, onto, gate, worth)
}

// The offers on each edge into the node that the gate lets over, extended. `first` and `next` list the edges into each node, `from` and `to` are the
// segments of the edges.
pub fn pass(
    rows: &mut [u64],
    count: usize,
    first: &[u8],
    next: &[u8],
    from: &[u8],
    to: &[u8],
    onto: Onto,
    gate: Gate,
) -> Option<usize>
    requires { Space rows.old from.now to.now count × Feeds first.now next.now onto.node }
    ensures { Grown count result × ((t : List ℕ) (ts : List Offer) (on : ℕ → List Offer) → Pass t (rows_in rows.old count) ts on first.now next.now from.now to.now onto (admitted gate) → Outcome t rows.new result (ts ++ overs onto.edge (let_over (admitted gate) (gather on (into t onto.node))))) }
{
    let mut c = count;
    let mut j = wide(first[wide(onto.node)]);
    while j < Table::MOST_EDGES {
        c = extend_all(rows, c, wide(from[j]), wide(to[j]), onto, gate)?;
        j = wide(next[j]);
    }
    Some(c)
}
