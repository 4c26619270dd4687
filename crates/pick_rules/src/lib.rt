// The rules on choices as a net in a lent slice: the rivals of each end, then a row for each row of the offer list that leaves a fork, for each edge into
// an action and each pin and store that has an end, and one for all ends that can't be taken. A row that binds nothing is left out.
// Words and numbers only: what they mean for offers is said by the laws of ends_masks. Assumes no more than its `requires`.
#![tactic(auto)]

ghost use Rattle.std.specs.Prelude.{◌≡◌, true, List, [], ◌∷◌, ℕ, ◌+◌, ◌-◌, ◌%◌, ◌^◌, ◌≤◌, ◌<◌, eqb, length, set};
ghost use Rattle.paper.specs.Lists.{below};
ghost use Rattle.paper.specs.Answers.{good};
ghost use Rattle.table.specs.Reading.{table_read};
ghost use Rattle.pick_bounds.specs.Net.{rule, obeys};
ghost use Rattle.offers.specs.Struct.{Full};
ghost use Rattle.ends_masks.specs.Seating.{EndsFull, allowed};
ghost use Rattle.choice_masks.specs.Masks.{Masks};
ghost use Rattle.pick_rules.specs.Rules.{most_rules, net_cells, holds, on_each, Starts, RulesAdded, AddedUpto, Roomy, BarredEnds};
ghost use Rattle.pick_rules.specs.Rules.{clash_kept, fork_kept, edge_row, edge_bar, target_row, node_bar, bars_kept, destination_tests};
ghost use Rattle.paper.specs.Limits.{limits};

use choice_masks::{fill_masks, owned};
use ends_masks::Ends;
use offers::{MOST_ENDS, MOST_OFFERS, Offers};
use pick_bounds::Rule;
use table::Table;

// The rules that a call can have: a row for each offer, for each edge and each target with an end, and one for what can't be taken.
pub const MOST: usize = MOST_OFFERS + (MOST_ENDS + MOST_ENDS) + 1;

// The cells of a net with as many rules, after the rivals of each end.
pub const CELLS: usize = MOST_ENDS + 4 * MOST;

// ---- one row

// The upper bound hi on the ends in `only`, or none where there are no more than hi of them.
fn bound(only: u32, hi: u32) -> u32
    ensures { (m when lo c : ℕ) → m ≤ 32 → obeys m (rule when only lo result) c ≡ obeys m (rule when only lo hi) c }
{
    if pick_bounds::held(only, only) <= hi {
        return pick_bounds::ALL;
    }
    hi
}

// Whether a rule is seen to bind no set: nothing meets it, or it has no upper bound and a lower one that what meets it has.
fn is_idle(when: u32, only: u32, lo: u32, hi: u32) -> bool
    ensures { result ≡ true → (m c : ℕ) → m ≤ 32 → obeys m (rule when only lo hi) c ≡ true }
{
    if when == 0 {
        return true;
    }
    if hi < pick_bounds::ALL {
        return false;
    }
    if lo == 0 {
        return true;
    }
    if 1 < lo {
        return false;
    }
    when & only == when
}

// A rule after k others: a set that meets `when` holds from lo to hi of the ends in `only`. One that binds nothing is left out.
fn add(net: &mut [u32], k: usize, new: Rule) -> usize
    requires { (k < most_rules) × (net_cells ≤ length net.old) }
    ensures { (m : ℕ) → m ≤ 32 → RulesAdded net.old k net.new result 1 m (obeys m new ∷ []) }
{
    let most = bound(new.only, new.hi);
    if is_idle(new.when, new.only, new.lo, most) {
        return k;
    }
    let j = pick_bounds::ENDS + 4 * k;
    net[j] = new.when;
    net[j + 1] = new.only;
    net[j + 2] = new.lo;
    net[j + 3] = most;
    k + 1
}

// Where nothing is asked.
fn no_rule() -> Rule
    ensures { (m c : ℕ) → obeys m result c ≡ true }
{
    Rule {
        when: 0,
        only: 0,
        lo: 0,
        hi: 0,
    }
}

// ---- masks of ends

// Whether end k is the first of those in a word.
fn leads(here: u32, k: usize) -> bool
    requires { k < 32 }
    ensures { result ≡ eqb (here % 2 ^ k) 0 }
{
    here & (words::end_of(k) - 1) == 0
}

// ---- rule 1

// Each end is taken with none of its rivals. The cells past the last end bind no set of n ends, and are left as they are.
pub fn fill_rivals(net: &mut [u32], foes: &[u64], makers: &[u64], n: usize)
    requires { (net_cells ≤ length net.old) × (n ≤ length foes.now) × (n ≤ length makers.now) × (n ≤ limits.most_ends) }
    ensures { Starts net.new n (on_each (clash_kept foes.now makers.now n) (below n) ∷ []) }
{
    for k in 0..n {
        net[k] = ends_masks::rivals(foes, makers, n, k);
    }
}

// ---- rule 2

// Where row z leaves a fork, an end that a sibling of it makes comes with one that it makes.
fn fork_rule(
    t: &[u8],
    table: Table,
    node: &[u8],
    parents: &[u64],
    makers: &[u64],
    rows: usize,
    n: usize,
    z: usize,
) -> Rule
    requires { (table_read t.now ≡ good table) × (rows ≤ length node.now) × (rows ≤ length parents.now) × (n ≤ length makers.now) × (rows ≤ limits.most_offers) × (z < rows) × (n ≤ limits.most_ends) }
    ensures { (c : ℕ) → obeys n result c ≡ fork_kept t.now node.now parents.now makers.now rows n z c }
{
    let i = wire::wide(node[z]);
    if table.nodes <= i {
        return no_rule();
    }
    if table.kind(t, i) != Table::FORK {
        return no_rule();
    }
    let family = ends_masks::family(node, parents, rows, z);
    let kin = ends_masks::made(makers, n, family);
    let own = ends_masks::made(makers, n, words::bit_of(z));
    Rule {
        when: kin,
        only: own,
        lo: 1,
        hi: pick_bounds::ALL,
    }
}

// From the last row to the first, since later rows leave inner forks: what those need is then known to the outer ones.
pub fn add_forks(
    net: &mut [u32],
    count: usize,
    t: &[u8],
    table: Table,
    offers: Offers,
    ends: Ends,
) -> usize
    requires { (count + offers.count ≤ most_rules) × (net_cells ≤ length net.old) × (table_read t.now ≡ good table) × Full offers × EndsFull ends }
    ensures { AddedUpto net.old count net.new result ends.count (fork_kept t.now offers.node offers.parents ends.makers offers.count ends.count) offers.count }
{
    let node = offers.node;
    let parents = offers.parents;
    let makers = ends.makers;
    let rows = offers.count;
    let mut r = count;
    for z in (0..rows).rev() {
        let new = fork_rule(t, table, &node, &parents, &makers, rows, ends.count, z);
        r = add(net, r, new);
    }
    r
}

// ---- rule 3: edges into actions

// An action that starts has one end on each edge into it. The rule of an edge comes with the first of its ends.
fn edge_rule(
    t: &[u8],
    table: Table,
    edge: &[u8],
    by_edge: &[u32],
    by_target: &[u32],
    by_home: &[u32],
    k: usize,
) -> Rule
    requires { (table_read t.now ≡ good table) × (k < length edge.now) × (k < limits.most_ends) × (table.edges ≤ length by_edge.now) × (table.nodes ≤ length by_target.now) × (table.nodes ≤ length by_home.now) }
    ensures { (target home : List ℕ) (n : ℕ) → k < n → Masks table edge.now target home n by_edge.now by_target.now by_home.now → (c : ℕ) → obeys n result c ≡ edge_row t.now edge.now target home n k c }
{
    let e = wire::wide(edge[k]);
    if table.edges <= e {
        return no_rule();
    }
    let here = by_edge[e];
    if !leads(here, k) {
        return no_rule();
    }
    let i = table.target(t, e);
    if table.kind(t, i) != Table::ACTION {
        return no_rule();
    }
    Rule {
        when: owned(by_target, by_home, i),
        only: here,
        lo: 1,
        hi: 1,
    }
}

// kept: beside `add_targets`, since the rules ask other columns and promise for all that the columns leave open; a closure would have to promise that.
fn add_edges(
    net: &mut [u32],
    count: usize,
    t: &[u8],
    table: Table,
    edge: &[u8],
    by_edge: &[u32],
    by_target: &[u32],
    by_home: &[u32],
    n: usize,
) -> usize
    requires { (count + n ≤ most_rules) × (net_cells ≤ length net.old) × (table_read t.now ≡ good table) × (n ≤ length edge.now) × (n ≤ limits.most_ends) × (table.edges ≤ length by_edge.now) × (table.nodes ≤ length by_target.now) × (table.nodes ≤ length by_home.now) }
    ensures { (result ≤ count + n) × ((target home : List ℕ) → Masks table edge.now target home n by_edge.now by_target.now by_home.now → AddedUpto net.old count net.new result n (edge_row t.now edge.now target home n) n) }
{
    let mut r = count;
    for k in 0..n {
        let new = edge_rule(t, table, edge, by_edge, by_target, by_home, k);
        r = add(net, r, new);
    }
    r
}

// The ends that can't be taken since edge e, into their action, has none.
fn barred_at_edge(
    t: &[u8],
    table: Table,
    by_edge: &[u32],
    by_target: &[u32],
    by_home: &[u32],
    e: usize,
) -> u32
    requires { (table_read t.now ≡ good table) × (e < table.edges) × (table.edges ≤ length by_edge.now) × (table.nodes ≤ length by_target.now) × (table.nodes ≤ length by_home.now) }
    ensures { (edge target home : List ℕ) (n : ℕ) → Masks table edge target home n by_edge.now by_target.now by_home.now → BarredEnds n result (edge_bar t.now edge target home n e) }
{
    if by_edge[e] != 0 {
        return 0;
    }
    let i = table.target(t, e);
    if table.kind(t, i) != Table::ACTION {
        return 0;
    }
    owned(by_target, by_home, i)
}

// kept: beside `barred_at_nodes`, for the same reason.
fn barred_at_edges(
    t: &[u8],
    table: Table,
    by_edge: &[u32],
    by_target: &[u32],
    by_home: &[u32],
) -> u32
    requires { (table_read t.now ≡ good table) × (table.edges ≤ length by_edge.now) × (table.nodes ≤ length by_target.now) × (table.nodes ≤ length by_home.now) }
    ensures { (edge target home : List ℕ) (n : ℕ) → Masks table edge target home n by_edge.now by_target.now by_home.now → BarredEnds n result (on_each (edge_bar t.now edge target home n) (below table.edges)) }
{
    let mut w: u32 = 0;
    for e in 0..table.edges {
        w |= barred_at_edge(t, table, by_edge, by_target, by_home, e);
    }
    w
}

// ---- rule 3: actions, their pins, and stores

// What is left of an upper bound.
fn room(most: usize, have: usize) -> usize
    ensures { result ≡ most - have }
{
    if most <= have {
        return 0;
    }
    most - have
}

// An input pin of an action that starts has from lower to upper ends, a store no more than it has room for. The rule comes with the first of its ends.
fn target_rule(
    t: &[u8],
    table: Table,
    target: &[u8],
    by_target: &[u32],
    by_home: &[u32],
    stock: &[u8],
    k: usize,
) -> Rule
    requires { (table_read t.now ≡ good table) × (k < length target.now) × (k < limits.most_ends) × (table.nodes ≤ length by_target.now) × (table.nodes ≤ length by_home.now) × (table.nodes ≤ length stock.now) }
    ensures { (byEdge edge home runs : List ℕ) (n : ℕ) → k < n → Masks table edge target.now home n byEdge by_target.now by_home.now → (c : ℕ) → obeys n result c ≡ target_row t.now target.now home runs stock.now n k c }
{
    let i = wire::wide(target[k]);
    if table.nodes <= i {
        return no_rule();
    }
    let here = by_target[i];
    if !leads(here, k) {
        return no_rule();
    }
    let kind = table.kind(t, i);
    if kind == Table::INPUT {
        return Rule {
            when: owned(by_target, by_home, table.owner(t, i)),
            only: here,
            lo: table.lower(t, i) as u32,
            hi: table.upper(t, i) as u32,
        };
    }
    if !table::is_store(kind) {
        return no_rule();
    }
    Rule {
        when: here,
        only: here,
        lo: 0,
        hi: room(table.upper(t, i), wire::wide(stock[i])) as u32,
    }
}

fn add_targets(
    net: &mut [u32],
    count: usize,
    t: &[u8],
    table: Table,
    target: &[u8],
    by_target: &[u32],
    by_home: &[u32],
    stock: &[u8],
    n: usize,
) -> usize
    requires { (count + n ≤ most_rules) × (net_cells ≤ length net.old) × (table_read t.now ≡ good table) × (n ≤ length target.now) × (n ≤ limits.most_ends) × (table.nodes ≤ length by_target.now) × (table.nodes ≤ length by_home.now) × (table.nodes ≤ length stock.now) }
    ensures { (result ≤ count + n) × ((byEdge edge home runs : List ℕ) → Masks table edge target.now home n byEdge by_target.now by_home.now → AddedUpto net.old count net.new result n (target_row t.now target.now home runs stock.now n) n) }
{
    let mut r = count;
    for k in 0..n {
        let new = target_rule(t, table, target, by_target, by_home, stock, k);
        r = add(net, r, new);
    }
    r
}

// The ends that can't be taken since node i is an action that runs, or a pin of theirs that needs an end and has none.
fn barred_at_node(
    t: &[u8],
    table: Table,
    by_target: &[u32],
    by_home: &[u32],
    runs: &[u8],
    i: usize,
) -> u32
    requires { (table_read t.now ≡ good table) × (i < table.nodes) × (table.nodes ≤ length by_target.now) × (table.nodes ≤ length by_home.now) × (table.nodes ≤ length runs.now) }
    ensures { (byEdge edge target home stock : List ℕ) (n : ℕ) → Masks table edge target home n byEdge by_target.now by_home.now → BarredEnds n result (node_bar t.now target home runs.now stock n i) }
{
    let kind = table.kind(t, i);
    if kind == Table::ACTION {
        if runs[i] == 0 {
            return 0;
        }
        return owned(by_target, by_home, i);
    }
    if kind != Table::INPUT {
        return 0;
    }
    if by_target[i] != 0 {
        return 0;
    }
    if table.lower(t, i) == 0 {
        return 0;
    }
    owned(by_target, by_home, table.owner(t, i))
}

fn barred_at_nodes(t: &[u8], table: Table, by_target: &[u32], by_home: &[u32], runs: &[u8]) -> u32
    requires { (table_read t.now ≡ good table) × (table.nodes ≤ length by_target.now) × (table.nodes ≤ length by_home.now) × (table.nodes ≤ length runs.now) }
    ensures { (byEdge edge target home stock : List ℕ) (n : ℕ) → Masks table edge target home n byEdge by_target.now by_home.now → BarredEnds n result (on_each (node_bar t.now target home runs.now stock n) (below table.nodes)) }
{
    let mut w: u32 = 0;
    for i in 0..table.nodes {
        w |= barred_at_node(t, table, by_target, by_home, runs, i);
    }
    w
}

// ---- rule 3: all of it

// The ends that can't be taken.
fn barred(
    t: &[u8],
    table: Table,
    by_edge: &[u32],
    by_target: &[u32],
    by_home: &[u32],
    runs: &[u8],
) -> u32
    requires { (table_read t.now ≡ good table) × (table.edges ≤ length by_edge.now) × (table.nodes ≤ length by_target.now) × (table.nodes ≤ length by_home.now) × (table.nodes ≤ length runs.now) }
    ensures { (edge target home stock : List ℕ) (n : ℕ) → Masks table edge target home n by_edge.now by_target.now by_home.now → BarredEnds n result (bars_kept t.now edge target home runs.now stock n) }
{
    barred_at_edges(t, table, by_edge, by_target, by_home)
        | barred_at_nodes(t, table, by_target, by_home, runs)
}

// Destinations fit: the rows of edges and of targets, and one for all ends that can't be taken. What each edge and each node has of ends is found once.
pub fn add_destinations(
    net: &mut [u32],
    count: usize,
    t: &[u8],
    table: Table,
    ends: Ends,
    kept: [u8; Table::MOST_NODES],
) -> usize
    requires { (count ≤ limits.most_offers) × (net_cells ≤ length net.old) × (table_read t.now ≡ good table) × EndsFull ends × (length kept ≡ limits.most_nodes) }
    ensures { RulesAdded net.old count net.new result 41 ends.count (destination_tests t.now ends.edge ends.target ends.home kept kept ends.count) }
{
    let edge = ends.edge;
    let target = ends.target;
    let home = ends.home;
    let n = ends.count;
    let mut by_edge = [0u32; Table::MOST_EDGES];
    let mut by_target = [0u32; Table::MOST_NODES];
    let mut by_home = [0u32; Table::MOST_NODES];
    fill_masks(&mut by_edge, &edge, n);
    fill_masks(&mut by_target, &target, n);
    fill_masks(&mut by_home, &home, n);
    let edges = add_edges(
        net, count, t, table, &edge, &by_edge, &by_target, &by_home, n,
    );
    let targets = add_targets(
        net, edges, t, table, &target, &by_target, &by_home, &kept, n,
    );
    let barred = barred(t, table, &by_edge, &by_target, &by_home, &kept);
    add(
        net,
        targets,
        Rule {
            when: barred,
            only: barred,
            lo: 0,
            hi: 0,
        },
    )
}

// The net of a call: how many rules it has.
pub fn fill(
    net: &mut [u32],
    t: &[u8],
    table: Table,
    offers: Offers,
    ends: Ends,
    kept: [u8; Table::MOST_NODES],
) -> usize
    requires { (net_cells ≤ length net.old) × (table_read t.now ≡ good table) × Full offers × EndsFull ends × (length kept ≡ limits.most_nodes) }
    ensures { (result ≤ most_rules) × (Roomy t.now kept → (c : ℕ) → holds net.new result ends.count c ≡ allowed t.now offers ends kept kept c) }
{
    let foes = ends.foes;
    let makers = ends.makers;
    fill_rivals(net, &foes, &makers, ends.count);
    let forks = add_forks(net, 0, t, table, offers, ends);
    add_destinations(net, forks, t, table, ends, kept)
}
