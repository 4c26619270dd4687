// why on a board: the first level at which no choice is left for a node, and that byte written.
// Takes a board's offers, its ends and what is kept of a marking by value; what they mean is said of any board that stands in them (`OnBoard`). A level is asked as
// pick is, of a net with the rules of the levels up to it.
#![tactic(auto)]

ghost use Rattle.std.specs.Prelude.{◌≡◌, cond, ◌&&◌, [], ◌∷◌, ℕ, suc, ◌+◌, ◌^◌, ◌≤◌, ◌<◌, leb, eqb, length};
ghost use Rattle.paper.specs.Limits.{limits};
ghost use Rattle.paper.specs.Answers.{good};
ghost use Rattle.paper.specs.Choices.{how_many};
ghost use Rattle.paper.specs.Operations.{in_room, Reply, Leaves, own_of, levels, left, FirstEmpty, Reason, WhyIf};
ghost use Rattle.table.specs.Reading.{table_read, Blank};
ghost use Rattle.offers.specs.Struct.{Full};
ghost use Rattle.pick_bounds.specs.Net.{held};
ghost use Rattle.ends_masks.specs.Seating.{EndsFull};
ghost use Rattle.pick_rules.specs.Rules.{most_rules, net_cells, Roomy, holds};
ghost use Rattle.wire.specs.Refusals.{word_of, BelowRefusals};
ghost use Rattle.pick.specs.Picking.{Answered};
ghost use Rattle.why.specs.Reasons.{OnBoard, OwnOnly, OwnEnds, asks, Whether};

use ends_masks::Ends;
use offers::Offers;
use pick::Question;
use table::Table;
use wire::Refusal;

// A number that no node and no edge has.
const NO_ONE: u8 = 255;

// ---- a node's own rule

// The node whose rule is a node's own: its action for a pin, itself for others.
fn own_of(t: &[u8], table: Table, i: usize) -> usize
    requires { (table_read t.now ≡ good table) × (i < table.nodes) }
    ensures { result ≡ own_of t.now i }
{
    if table::is_pin(table.kind(t, i)) {
        return table.owner(t, i);
    }
    i
}

// An end's entry in a column, if its home is `own`.
fn own_entry(entry: u8, home: u8, own: usize) -> u8
    ensures { result ≡ cond (eqb home own) entry 255 }
{
    if wire::wide(home) == own {
        return entry;
    }
    NO_ONE
}

// A column without the entries of ends that belong elsewhere.
fn leave_own(column: &mut [u8], home: &[u8], n: usize, own: usize)
    requires { (n ≤ length column.old) × (n ≤ length home.now) }
    ensures { OwnOnly column.old home.now n own column.new }
{
    for k in 0..n {
        column[k] = own_entry(column[k], home[k], own);
    }
}

// The ends, with the targets and homes of those that belong to `own` only. The last edges stay: rules on edges ask for ends by their targets and homes.
fn own_ends(ends: Ends, own: usize) -> Ends
    requires { EndsFull ends }
    ensures { OwnEnds ends own result }
{
    let row = ends.row;
    let edge = ends.edge;
    let all = ends.home;
    let makers = ends.makers;
    let foes = ends.foes;
    let n = ends.count;
    let mut target = ends.target;
    let mut home = ends.home;
    leave_own(&mut target, &all, n, own);
    leave_own(&mut home, &all, n, own);
    Ends {
        row: row,
        edge: edge,
        target: target,
        home: home,
        makers: makers,
        foes: foes,
        count: n,
    }
}

// ---- the net of a level

// The rules of the first k levels past that of taking an end, in a blank net: those on targets and homes, which are a node's own, then rivals, then forks.
fn fill(
    net: &mut [u32],
    t: &[u8],
    table: Table,
    offers: Offers,
    ends: Ends,
    kept: [u8; Table::MOST_NODES],
    k: usize,
) -> usize
    requires { Blank net.old × (net_cells ≤ length net.old) × (table_read t.now ≡ good table) × Full offers × EndsFull ends × (length kept ≡ limits.most_nodes) }
    ensures { (result ≤ most_rules) × (k ≤ 3 → Roomy t.now kept → (c : ℕ) → holds net.new result ends.count c ≡ left (asks t.now offers ends kept kept) k c) }
{
    if k == 0 {
        return 0;
    }
    if k == 1 {
        return pick_rules::add_destinations(net, 0, t, table, ends, kept);
    }
    let foes = ends.foes;
    let makers = ends.makers;
    pick_rules::fill_rivals(net, &foes, &makers, ends.count);
    let own = pick_rules::add_destinations(net, 0, t, table, ends, kept);
    if k == 2 {
        return own;
    }
    pick_rules::add_forks(net, own, t, table, offers, ends)
}

// The net of a level and what is wanted of it: an end of the node, its own rule, and the first rules of the list; k levels past the first.
fn prepare(
    t: &[u8],
    table: Table,
    offers: Offers,
    ends: Ends,
    kept: [u8; Table::MOST_NODES],
    node: u8,
    k: usize,
    net: &mut [u32],
) -> Question
    requires { (table_read t.now ≡ good table) × Full offers × EndsFull ends × (length kept ≡ limits.most_nodes) × (node < table.nodes) × Blank net.old × (net_cells ≤ length net.old) }
    ensures { (result.rules ≤ most_rules) × (k ≤ 3 → OnBoard t.now offers ends kept (λ d. (c : ℕ) → holds net.new result.rules ends.count c && leb result.want.least (held ends.count c result.want.ends) ≡ left (levels d node) (suc k) c)) }
{
    let target = ends.target;
    let home = ends.home;
    let own = own_ends(ends, own_of(t, table, wire::wide(node)));
    let rules = fill(net, t, table, offers, own, kept, k);
    Question {
        rules: rules,
        want: pick_wanted::wanted(&target, &home, ends.count, node),
    }
}

// ---- the first level at which no choice is left

// The first choice that is left at a level, k levels past the first. At the last level it is pick's.
fn find(
    t: &[u8],
    table: Table,
    offers: Offers,
    ends: Ends,
    kept: [u8; Table::MOST_NODES],
    node: u8,
    k: usize,
) -> Option<u32>
    requires { (table_read t.now ≡ good table) × Full offers × EndsFull ends × (length kept ≡ limits.most_nodes) × (node < table.nodes) }
    ensures { k ≤ 4 → OnBoard t.now offers ends kept (λ d. Answered (left (levels d node) (suc k)) (how_many d) result) }
{
    if 3 < k {
        return pick::choose(t, table, offers, ends, kept, node);
    }
    let mut net = [0u32; pick_rules::CELLS];
    let asked = prepare(t, table, offers, ends, kept, node, k, &mut net);
    pick::first(&net, asked, ends.count)
}

// Whether a choice is left at a level, k levels past the first.
fn is_left(
    t: &[u8],
    table: Table,
    offers: Offers,
    ends: Ends,
    kept: [u8; Table::MOST_NODES],
    node: u8,
    k: usize,
) -> bool
    requires { (table_read t.now ≡ good table) × Full offers × EndsFull ends × (length kept ≡ limits.most_nodes) × (node < table.nodes) }
    ensures { k ≤ 4 → OnBoard t.now offers ends kept (λ d. Whether (levels d node) (how_many d) (suc k) result) }
{
    find(t, table, offers, ends, kept, node, k).is_some()
}

// The first level at which none is left, or 0.
fn climb(
    t: &[u8],
    table: Table,
    offers: Offers,
    ends: Ends,
    kept: [u8; Table::MOST_NODES],
    node: u8,
) -> u8
    requires { (table_read t.now ≡ good table) × Full offers × EndsFull ends × (length kept ≡ limits.most_nodes) × (node < table.nodes) }
    ensures { OnBoard t.now offers ends kept (λ d. FirstEmpty (levels d node) (how_many d) result) }
{
    for k in 0..5 {
        if !is_left(t, table, offers, ends, kept, node, k) {
            return k as u8 + 1;
        }
    }
    0
}

// The reason for a node, if one is named.
fn reason(
    t: &[u8],
    table: Table,
    offers: Offers,
    ends: Ends,
    kept: [u8; Table::MOST_NODES],
    node: u8,
) -> u8
    requires { (table_read t.now ≡ good table) × Full offers × EndsFull ends × (length kept ≡ limits.most_nodes) }
    ensures { OnBoard t.now offers ends kept (λ d. Reason d node result) }
{
    if node == NO_ONE {
        return 0;
    }
    if table.nodes <= wire::wide(node) {
        return 1;
    }
    climb(t, table, offers, ends, kept, node)
}

// How many states the search at a level visits, k levels past the first, from 4 on pick's: what a test can hold down.
pub fn states(
    t: &[u8],
    table: Table,
    offers: Offers,
    ends: Ends,
    kept: [u8; Table::MOST_NODES],
    node: u8,
    k: usize,
) -> usize
    requires { (table_read t.now ≡ good table) × Full offers × EndsFull ends × (length kept ≡ limits.most_nodes) }
    ensures { (1 ≤ result) × (result < 2 ^ (ends.count + 22)) }
{
    if 3 < k {
        return pick::states(t, table, offers, ends, kept, node);
    }
    if table.nodes <= wire::wide(node) {
        return 1;
    }
    let mut net = [0u32; pick_rules::CELLS];
    let asked = prepare(t, table, offers, ends, kept, node, k, &mut net);
    pick::effort(&net, asked, ends.count)
}

// One byte, if there is room for it (row 17).
fn tell(byte: u8, out: &mut [u8]) -> Result<usize, Refusal>
    ensures { Reply (in_room (length out.old) (good (byte ∷ []))) (word_of result) out.old out.new × BelowRefusals result }
{
    if out.is_empty() {
        return Err(Refusal::Room);
    }
    out[0] = byte;
    Ok(1)
}

// why on a board of n ends.
pub fn why(
    t: &[u8],
    table: Table,
    offers: Offers,
    ends: Ends,
    kept: [u8; Table::MOST_NODES],
    node: u8,
    out: &mut [u8],
) -> Result<usize, Refusal>
    requires { (table_read t.now ≡ good table) × Full offers × EndsFull ends × (length kept ≡ limits.most_nodes) }
    ensures { OnBoard t.now offers ends kept (λ d. Leaves (WhyIf (good d) node) (word_of result) out.old out.new) × BelowRefusals result }
{
    let byte = reason(t, table, offers, ends, kept, node);
    tell(byte, out)
}
