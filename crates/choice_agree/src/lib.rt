// "Each destination agrees", asked of one choice: the lowest node that doesn't, if any. Edges, pins and nodes that are wrong mark the node that it is told of,
// and the lowest mark is the answer. Ends are counted by the ones of mask and choice.
// Assumes no more than its `requires`: slices that are long enough, and a table that was read.
#![tactic(auto)]

ghost use Rattle.std.specs.Prelude.{◌≡◌, Bool, ◌&&◌, ◌||◌, List, ℕ, ◌≤◌, ◌<◌, eqb, length};
ghost use Rattle.std.specs.Int.Bits.{bit_and};
ghost use Rattle.std.specs.Int.Count.{ones};
ghost use Rattle.paper.specs.Limits.{limits};
ghost use Rattle.paper.specs.Lists.{lowest};
ghost use Rattle.paper.specs.Table.{nodes, edges, kind, owner, target as target_of, is_action};
ghost use Rattle.words.specs.Marks.{MarksOf, is_marked, placed};
ghost use Rattle.table.specs.Reading.{Spans, Blank};
ghost use Rattle.choice_masks.specs.Masks.{Masked};
ghost use Rattle.ends_masks.specs.Seating.{EndsFull, homes};
ghost use Rattle.wire.specs.Refusals.{found};
ghost use Rattle.choice_agree.specs.Agreeing.{starts_in, edge_wrong, pin_wrong, node_wrong};

use ends_masks::Ends;
use table::Table;

// The lowest of the first n places that is marked.
pub fn lowest_marked(marks: &[u8], n: usize) -> Option<u8>
    requires { (n ≤ length marks.now) × (n ≤ 256) }
    ensures { (p : ℕ → Bool) → MarksOf p n marks.now → found result ≡ lowest p n }
{
    for i in 0..n {
        if marks[i] != 0 {
            return Some(i as u8);
        }
    }
    None
}

// How many ends of a mask are taken.
fn taken_of(mask: u32, c: u32) -> usize
    ensures { (result ≡ ones (bit_and mask c)) × (result ≤ 32) }
{
    u32::count_ones(mask & c) as usize
}

// Marks a node, if it is an action.
fn mark_action(t: &[u8], table: Table, node: u8, marks: &mut [u8])
    requires { Spans t.now table × (table.nodes ≤ length marks.old) }
    ensures { (p : ℕ → Bool) → MarksOf p table.nodes marks.old → MarksOf (λ i. p i || (is_action (kind t.now i) && eqb node i)) table.nodes marks.new }
{
    let i = wire::wide(node);
    if table.nodes <= i {
        return;
    }
    words::mark(marks, table.kind(t, i) == Table::ACTION, i);
}

// Marks the actions to which a taken end belongs. Nothing is assumed of the columns, so targets are asked too, though an action is its own home.
fn mark_starting(t: &[u8], table: Table, ends: Ends, c: u32, starting: &mut [u8])
    requires { Spans t.now table × EndsFull ends × (table.nodes ≤ length starting.old) }
    ensures { Blank starting.old → MarksOf (starts_in t.now ends.target ends.home ends.count c) table.nodes starting.new }
{
    for k in 0..ends.count {
        if choice::is_taken(c, k) {
            mark_action(t, table, ends.target[k], starting);
            mark_action(t, table, ends.home[k], starting);
        }
    }
}

// Whether edge e goes into an action that starts, and none or more than one end is taken on it.
fn edge_wrong(t: &[u8], table: Table, by_edge: &[u32], starting: &[u8], c: u32, e: usize) -> bool
    requires { Spans t.now table × (e < table.edges) × (e < length by_edge.now) }
    ensures { result ≡ edge_wrong t.now (is_marked starting.now) c by_edge.now e }
{
    if !words::is_marked(starting, table.target(t, e)) {
        return false;
    }
    taken_of(by_edge[e], c) != 1
}

// Marks the actions that start without one end on each of their edges.
// kept: beside `mark_pins` and `mark_nodes`, since each has its own test and place; two closures and what they promise are longer than the loop.
fn mark_edges(t: &[u8], table: Table, by_edge: &[u32], starting: &[u8], c: u32, unfit: &mut [u8])
    requires { Spans t.now table × (table.edges ≤ length by_edge.now) × (table.nodes ≤ length unfit.old) }
    ensures { (p : ℕ → Bool) → MarksOf p table.nodes unfit.old → MarksOf (λ i. p i || placed (edge_wrong t.now (is_marked starting.now) c by_edge.now) (target_of t.now) (edges t.now) i) table.nodes unfit.new }
{
    for e in 0..table.edges {
        words::mark(
            unfit,
            edge_wrong(t, table, by_edge, starting, c, e),
            table.target(t, e),
        );
    }
}

// Whether p is an input pin of an action that starts, and fewer or more ends are taken at it than it wants.
fn pin_wrong(t: &[u8], table: Table, by_target: &[u32], starting: &[u8], c: u32, p: usize) -> bool
    requires { Spans t.now table × (p < table.nodes) × (p < length by_target.now) }
    ensures { result ≡ pin_wrong t.now (is_marked starting.now) c by_target.now p }
{
    if table.kind(t, p) != Table::INPUT {
        return false;
    }
    if !words::is_marked(starting, table.owner(t, p)) {
        return false;
    }
    let k = taken_of(by_target[p], c);
    if k < table.lower(t, p) {
        return true;
    }
    table.upper(t, p) < k
}

// Marks the actions that start without what their pins want.
fn mark_pins(t: &[u8], table: Table, by_target: &[u32], starting: &[u8], c: u32, unfit: &mut [u8])
    requires { Spans t.now table × (table.nodes ≤ length by_target.now) × (table.nodes ≤ length unfit.old) }
    ensures { (p : ℕ → Bool) → MarksOf p table.nodes unfit.old → MarksOf (λ i. p i || placed (pin_wrong t.now (is_marked starting.now) c by_target.now) (owner t.now) (nodes t.now) i) table.nodes unfit.new }
{
    for p in 0..table.nodes {
        words::mark(
            unfit,
            pin_wrong(t, table, by_target, starting, c, p),
            table.owner(t, p),
        );
    }
}

// Whether node i starts though it runs, or is a store in which what is taken has no room beside its stock before the step. What is kept says both: of an
// action whether it runs, of a store its stock.
fn node_wrong(
    t: &[u8],
    table: Table,
    by_target: &[u32],
    starting: &[u8],
    kept: &[u8],
    c: u32,
    i: usize,
) -> bool
    requires { Spans t.now table × (i < table.nodes) × (i < length by_target.now) × (i < length kept.now) }
    ensures { result ≡ node_wrong t.now (is_marked starting.now) c by_target.now kept.now kept.now i }
{
    if words::is_marked(starting, i) && kept[i] != 0 {
        return true;
    }
    if !table::is_store(table.kind(t, i)) {
        return false;
    }
    table.upper(t, i) < wire::wide(kept[i]) + taken_of(by_target[i], c)
}

// Marks the nodes that are wrong by themselves.
fn mark_nodes(
    t: &[u8],
    table: Table,
    by_target: &[u32],
    starting: &[u8],
    kept: [u8; Table::MOST_NODES],
    c: u32,
    unfit: &mut [u8],
)
    requires { Spans t.now table × (table.nodes ≤ length by_target.now) × (length kept ≡ limits.most_nodes) × (table.nodes ≤ length unfit.old) }
    ensures { (p : ℕ → Bool) → MarksOf p table.nodes unfit.old → MarksOf (λ i. p i || node_wrong t.now (is_marked starting.now) c by_target.now kept kept i) table.nodes unfit.new }
{
    for i in 0..table.nodes {
        words::mark(
            unfit,
            node_wrong(t, table, by_target, starting, &kept, c, i),
            i,
        );
    }
}

// The lowest node that doesn't agree with what is taken, by the masks of the ends and the marks of what starts.
fn unfit_by_masks(
    t: &[u8],
    table: Table,
    by_edge: &[u32],
    by_target: &[u32],
    starting: &[u8],
    kept: [u8; Table::MOST_NODES],
    c: u32,
) -> Option<u8>
    requires { Spans t.now table × (table.edges ≤ length by_edge.now) × (table.nodes ≤ length by_target.now) × (length kept ≡ limits.most_nodes) }
    ensures { (edge target home : List ℕ) (n : ℕ) → Masked edge n by_edge.now → Masked target n by_target.now → MarksOf (starts_in t.now target home n c) table.nodes starting.now → found result ≡ homes t.now edge target home kept kept n c }
{
    let mut unfit = [0u8; Table::MOST_NODES];
    mark_edges(t, table, by_edge, starting, c, &mut unfit);
    mark_pins(t, table, by_target, starting, c, &mut unfit);
    mark_nodes(t, table, by_target, starting, kept, c, &mut unfit);
    lowest_marked(&unfit, table.nodes)
}

// The lowest node that doesn't agree with what is taken.
pub fn unfit_node(
    t: &[u8],
    table: Table,
    ends: Ends,
    kept: [u8; Table::MOST_NODES],
    c: u32,
) -> Option<u8>
    requires { Spans t.now table × EndsFull ends × (length kept ≡ limits.most_nodes) }
    ensures { found result ≡ homes t.now ends.edge ends.target ends.home kept kept ends.count c }
{
    let edge = ends.edge;
    let target = ends.target;
    let mut by_edge = [0u32; Table::MOST_EDGES];
    let mut by_target = [0u32; Table::MOST_NODES];
    let mut starting = [0u8; Table::MOST_NODES];
    choice_masks::fill_masks(&mut by_edge, &edge, ends.count);
    choice_masks::fill_masks(&mut by_target, &target, ends.count);
    mark_starting(t, table, ends, c, &mut starting);
    unfit_by_masks(t, table, &by_edge, &by_target, &starting, kept, c)
}
