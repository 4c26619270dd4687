// A join: the search for its ways, depth first with a look-ahead, each put at the end of the rows of offers.
// Of the table it reads nothing but the lists of the edges into each node.
#![tactic(auto)]

ghost use Rattle.std.specs.Prelude.{◌≡◌, Bool, true, List, [], ◌∷◌, ◌++◌, ℕ, ◌+◌, ◌≤◌, ◌<◌, length, get_or};
ghost use Rattle.std.proofs.Math.Option.{Option};
ghost use Rattle.paper.specs.Lists.{each};
ghost use Rattle.paper.specs.Table.{into};
ghost use Rattle.paper.specs.Offers.{Offer, over, ways};
ghost use Rattle.paper.proofs.Members.{In};
ghost use Rattle.table.specs.Incoming.{ListFrom};
ghost use Rattle.offers_ahead.specs.Dead.{Dead, AheadRoom};
ghost use Rattle.offers.specs.Sets.{nth};
ghost use Rattle.offers.specs.Rows.{row_cells, rows_in, Holds};
ghost use Rattle.offers_over.specs.Over.{admitted, let_over, LeavesControl, Grown, Outcome, overs, Space, Feeds};
ghost use Rattle.offers_join.specs.Joins.{together, found_ways, Taken, Picked, RivalRow, Rivals, Span, SegmentWords, BarredRows, Within, Safe, Dfs, Brings, Meeting};
ghost use Rattle.paper.specs.Limits.{limits};

use offers::{
    FOES, HAS, MAKERS, MOST_OFFERS, MOST_PATHS, Onto, VALUE, WIDTH, Worth, compete, grow, lead,
    paths_of,
};
use offers_over::{Gate, admits};
use table::Table;
use wire::wide;
use words::{bit_of, in_word};

// The offers that compete with offer i.
fn rivals_of(rows: &[u64], count: usize, i: usize) -> u64
    requires { (i < count) × ((count ≤ limits.most_offers) × (row_cells ≤ length rows.now)) }
    ensures { (t : List ℕ) (ts : List Offer) → Holds t (rows_in rows.now count) ts → RivalRow t ts count i result }
{
    let m = rows[WIDTH * i + MAKERS];
    let f = rows[WIDTH * i + FOES];
    let mut d: u64 = 0;
    for j in 0..count {
        if compete(f, m, rows[WIDTH * j + FOES], rows[WIDTH * j + MAKERS]) {
            d |= bit_of(j);
        }
    }
    d
}

// A row of rivals for each offer in `wanted`.
fn rival_rows(rows: &[u64], count: usize, wanted: u64, rivals: &mut [u64])
    requires { ((count ≤ limits.most_offers) × (row_cells ≤ length rows.now)) × (limits.most_offers ≤ length rivals.old) }
    ensures { (t : List ℕ) (ts : List Offer) → Holds t (rows_in rows.now count) ts → Rivals t ts count wanted rivals.new }
{
    for i in 0..count {
        if in_word(wanted, i) {
            rivals[i] = rivals_of(rows, count, i);
        }
    }
}

// The numbers from a to b.
fn span(a: usize, b: usize) -> u64
    requires { b ≤ limits.most_offers }
    ensures { Span a b result }
{
    let mut d: u64 = 0;
    for i in a..b {
        d |= bit_of(i);
    }
    d
}

// The offers on each of d edges, as words; the answer has all of them.
fn spans(lo: &[u8], hi: &[u8], d: usize, edges: &mut [u64]) -> u64
    requires { ((d ≤ length lo.now) × (d ≤ length hi.now)) × ((d ≤ length edges.old) × Within lo.now hi.now d limits.most_offers) }
    ensures { SegmentWords lo.now hi.now d edges.new result }
{
    let mut wanted: u64 = 0;
    for k in 0..d {
        let s = span(wide(lo[k]), wide(hi[k]));
        edges[k] = s;
        wanted |= s;
    }
    wanted
}

// The offers that a gate doesn't let over its edge.
fn barred(rows: &[u64], count: usize, gate: Gate) -> u64
    requires { (count ≤ limits.most_offers) × (row_cells ≤ length rows.now) }
    ensures { (t : List ℕ) (ts : List Offer) → Holds t (rows_in rows.now count) ts → BarredRows (admitted gate) ts count result }
{
    let mut d: u64 = 0;
    for j in 0..count {
        if !admits(gate, rows[WIDTH * j + HAS], rows[WIDTH * j + VALUE]) {
            d |= bit_of(j);
        }
    }
    d
}

// What the offers taken at a join come to.
// kept: `has` and `value` are cells of a row, as in `Worth`.
#[derive(Clone, Copy)]
struct Way {
    pub parents: u64,
    pub makers: u64,
    pub foes: u64,
    pub paths: usize,
    pub has: u64,
    pub value: u64,
}

// Offer i taken too: the row to come goes on from its paths.
fn add(rows: &mut [u64], count: usize, w: Way, i: usize) -> Way
    requires { ((i < limits.most_offers) × (count < limits.most_offers)) × ((row_cells ≤ length rows.old) × (w.paths ≤ 512)) }
    ensures { (result.paths ≤ w.paths + 8) × ((t : List ℕ) (ts ps : List Offer) → Holds t (rows_in rows.old count) ts → i < length ts → Taken t (rows_in rows.old count) ts ps w → Holds t (rows_in rows.new count) ts × Taken t (rows_in rows.new count) ts (ps ++ (nth ts i ∷ [])) result) }
{
    let p = paths_of(rows, i);
    let at = w.paths;
    lead(rows, count, at, i, p);
    let m = rows[WIDTH * i + MAKERS];
    let f = rows[WIDTH * i + FOES];
    let h = w.has;
    let b = bit_of(i);
    if h == 0 {
        return Way {
            parents: w.parents | b,
            makers: w.makers | m,
            foes: w.foes | f,
            paths: at + p,
            has: rows[WIDTH * i + HAS],
            value: rows[WIDTH * i + VALUE],
        };
    }
    Way {
        parents: w.parents | b,
        makers: w.makers | m,
        foes: w.foes | f,
        paths: at + p,
        has: h,
        value: w.value,
    }
}

// The d offers chosen, taken together.
fn taken(rows: &mut [u64], count: usize, chosen: &[u8], d: usize) -> Way
    requires { ((count < limits.most_offers) × (row_cells ≤ length rows.old)) × (((d ≤ limits.most_offers) × (d ≤ length chosen.now)) × ((k : ℕ) → k < d → get_or chosen.now k 0 < limits.most_offers)) }
    ensures { (result.paths ≤ 512) × ((t : List ℕ) (ts ps : List Offer) → Holds t (rows_in rows.old count) ts → Picked ts chosen.now d ps → Holds t (rows_in rows.new count) ts × Taken t (rows_in rows.new count) ts ps result) }
{
    let mut w = Way {
        parents: 0,
        makers: 0,
        foes: 0,
        paths: 0,
        has: 0,
        value: 0,
    };
    for q in 0..d {
        w = add(rows, count, w, wide(chosen[q]));
    }
    w
}

// The d offers chosen, joined.
fn leaf(rows: &mut [u64], count: usize, chosen: &[u8], d: usize, onto: Onto) -> Option<usize>
    requires { ((count ≤ limits.most_offers) × (row_cells ≤ length rows.old)) × (((d ≤ limits.most_offers) × (d ≤ length chosen.now)) × ((k : ℕ) → k < d → get_or chosen.now k 0 < limits.most_offers)) }
    ensures { Grown count result × ((t : List ℕ) (ts ps : List Offer) → Holds t (rows_in rows.old count) ts → Picked ts chosen.now d ps → 0 < length ps → (In (over (together ps) onto.edge) ts → ⊥) → LeavesControl t onto → Outcome t rows.new result (ts ++ (over (together ps) onto.edge ∷ []))) }
{
    if MOST_OFFERS <= count {
        return None;
    }
    let w = taken(rows, count, chosen, d);
    let p = w.paths;
    if MOST_PATHS < p {
        return None;
    }
    let worth = Worth {
        has: w.has,
        value: w.value,
    };
    grow(
        rows, count, onto, worth, p as u64, w.parents, w.makers, w.foes,
    );
    Some(count + 1)
}

// Whether it is sure that no way goes on. With one or two edges left the search itself is as quick.
fn lost(rivals: &[u64], edges: &[u64], n: usize, q: usize, d: usize, blocked: u64) -> bool
    requires { AheadRoom rivals.now edges.now n d }
    ensures { result ≡ true → Dead rivals.now edges.now n q d 0 blocked }
{
    q < d && 2 < d - q && offers_ahead::dead(rivals, edges, n, q, d, 0, blocked, d)
}

// The search for ways, depth first: offers are chosen on the edges before q, and those in `blocked` compete with one of them or are barred by the
// gate. So a barred offer is never taken, and the look-ahead knows of it. n is the number of offers before the join: its own come after
// them.
fn join(
    rows: &mut [u64],
    count: usize,
    lo: &[u8],
    hi: &[u8],
    rivals: &[u64],
    edges: &[u64],
    chosen: &mut [u8],
    n: usize,
    d: usize,
    q: usize,
    blocked: u64,
    onto: Onto,
) -> Option<usize>
    requires { Safe rows.old lo.now hi.now rivals.now edges.now chosen.old n count d q }
    ensures { Grown count result × (((k : ℕ) → k < q → get_or chosen.new k 0 ≡ get_or chosen.old k 0) × ((t : List ℕ) (goes : Option ℕ → Bool) (ts pre : List Offer) (oss : List (List Offer)) (wanted : ℕ) → Dfs t goes (rows_in rows.old count) ts pre oss lo.now hi.now rivals.now edges.now chosen.old n d q blocked wanted onto → Outcome t rows.new result (ts ++ found_ways t goes onto.edge pre oss))) }
{
    if q == d {
        return leaf(rows, count, chosen, d, onto);
    }
    if lost(rivals, edges, n, q, d, blocked) {
        return Some(count);
    }
    let from = wide(lo[q]);
    let end = wide(hi[q]);
    let mut c = count;
    for i in from..end {
        if !in_word(blocked, i) {
            chosen[q] = i as u8;
            c = join(
                rows,
                c,
                lo,
                hi,
                rivals,
                edges,
                chosen,
                n,
                d,
                q + 1,
                blocked | rivals[i],
                onto,
            )?;
        }
    }
    Some(c)
}

// The segments of the incoming edges of node s, in order, and their number. Each edge needs an offer of its own: none can be joined where one has none,
// nor where there are more edges than there may be offers.
fn incoming(
    first: &[u8],
    next: &[u8],
    from: &[u8],
    to: &[u8],
    s: u8,
    lo: &mut [u8],
    hi: &mut [u8],
) -> Option<usize>
    requires { Feeds first.now next.now s × (((limits.most_edges ≤ length from.now) × (limits.most_edges ≤ length to.now)) × ((limits.most_offers ≤ length lo.old) × (limits.most_offers ≤ length hi.old))) }
    ensures { (js : List ℕ) → ListFrom next.now (get_or first.now s 0) js → Brings from.now to.now js lo.new hi.new result }
{
    let mut d: usize = 0;
    let mut j = wide(first[wide(s)]);
    while j < Table::MOST_EDGES {
        if MOST_OFFERS <= d {
            return None; // more edges than offers
        }
        if to[j] <= from[j] {
            return None;
        }
        lo[d] = from[j];
        hi[d] = to[j];
        d += 1;
        j = wide(next[j]);
    }
    if d == 0 {
        return None;
    }
    Some(d)
}

// The offers on the edges into a join, joined as far as the gate lets them.
pub fn meet(
    rows: &mut [u64],
    count: usize,
    first: &[u8],
    next: &[u8],
    from: &[u8],
    to: &[u8],
    onto: Onto,
    gate: Gate,
) -> Option<usize>
    requires { Space rows.old from.now to.now count × Feeds first.now next.now onto.node }
    ensures { Grown count result × ((t : List ℕ) (ts : List Offer) (on : ℕ → List Offer) → Meeting t (admitted gate) (rows_in rows.old count) ts on first.now next.now from.now to.now onto → Outcome t rows.new result (ts ++ overs onto.edge (let_over (admitted gate) (ways t (each on (into t onto.node)))))) }
{
    let mut lo = [0u8; MOST_OFFERS];
    let mut hi = [0u8; MOST_OFFERS];
    let Some(d) = incoming(first, next, from, to, onto.node, &mut lo, &mut hi) else {
        return Some(count);
    };
    let mut edges = [0u64; MOST_OFFERS];
    let mut rivals = [0u64; MOST_OFFERS];
    let mut chosen = [0u8; MOST_OFFERS];
    let wanted = spans(&lo, &hi, d, &mut edges);
    rival_rows(rows, count, wanted, &mut rivals);
    let blocked = barred(rows, count, gate);
    join(
        rows,
        count,
        &lo,
        &hi,
        &rivals,
        &edges,
        &mut chosen,
        count,
        d,
        0,
        blocked,
        onto,
    )
}
