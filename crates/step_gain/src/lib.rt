// "Then destinations gain, in end order: values append to pins, buffers and parameters, and actions run. Finals drop what arrives."
// The values that come to a node stand one behind another in a slice of their own. A final has no stock, so nobody looks at what came to it.
// The nodes at which something is taken are marked first, and only they are asked. The columns of the ends are lent, and those of the marking that are changed.
#![tactic(auto)]

ghost use Rattle.std.specs.Prelude.{◌≡◌, Bool, not, ◌&&◌, ◌||◌, cond, ℕ, ◌+◌, ◌*◌, ◌≤◌, ◌<◌, eqb, length};
ghost use Rattle.std.proofs.lemmas.List.Edits.{sets};
ghost use Rattle.paper.specs.Lists.{at, has, gather};
ghost use Rattle.paper.specs.Bytes.{four};
ghost use Rattle.paper.specs.Limits.{limits};
ghost use Rattle.paper.specs.Table.{is_action};
ghost use Rattle.words.specs.Marks.{MarksOf, placed};
ghost use Rattle.table.specs.Reading.{Spans};
ghost use Rattle.offers.specs.Sets.{Marks};
ghost use Rattle.ends_masks.specs.Seating.{Rowed, EndsFull, served};
ghost use Rattle.step_gain.specs.Gains.{goes_to, brought, coming, Came, starts, Started};

use ends_masks::Ends;
use offers::MOST_ENDS;
use table::Table;

// Room for the values of all ends.
pub const ROOM: usize = 4 * MOST_ENDS;

// ---- the values that come

// Whether end k is taken and has a value, as its row says.
fn brings_value(valued: u8, c: u32, k: usize) -> bool
    requires { k < 32 }
    ensures { result ≡ has c k && not (eqb valued 0) }
{
    if !choice::is_taken(c, k) {
        return false;
    }
    valued != 0
}

// The ends that are taken and have a value.
pub fn bringing(valued: &[u8], row: &[u8], n: usize, c: u32) -> u32
    requires { Rowed row.now n (length valued.now) × (n ≤ limits.most_ends) }
    ensures { Marks (λ k. has c k && not (eqb (at valued.now (at row.now k)) 0)) n result }
{
    let mut w: u32 = 0;
    for k in 0..n {
        if brings_value(valued[wire::wide(row[k])], c, k) {
            w = w | words::end_of(k);
        }
    }
    w
}

// Whether end k is of the word w and goes to node i.
fn goes_to(target: &[u8], w: u32, i: usize, k: usize) -> bool
    requires { (k < length target.now) × (k < 32) }
    ensures { result ≡ goes_to target.now w i k }
{
    if !choice::is_taken(w, k) {
        return false;
    }
    wire::wide(target[k]) == i
}

// The value that end k brings to node i, at a place; and how many that is, 1 or 0.
fn gain_end(
    target: &[u8],
    row: &[u8],
    value: &[u32],
    w: u32,
    i: usize,
    k: usize,
    extra: &mut [u8],
    place: usize,
) -> usize
    requires { (k < length target.now) × (k < length row.now) × (at row.now k < length value.now) × (k < 32) × (place + 4 * length (brought target.now row.now value.now w i k) ≤ length extra.old) }
    ensures { (result ≡ length (brought target.now row.now value.now w i k)) × (extra.new ≡ sets extra.old place (gather four (brought target.now row.now value.now w i k))) }
{
    if !goes_to(target, w, i, k) {
        return 0;
    }
    wire::write32(extra, place, value[wire::wide(row[k])]);
    1
}

// The values that come to node i, from a place on; and how many they are.
fn gain_node<'a>(
    target: &'a [u8],
    row: &'a [u8],
    value: &[u32],
    w: u32,
    n: usize,
    i: usize,
    extra: &mut [u8],
    place: usize,
) -> usize
    requires { (n ≤ limits.most_ends) × (n ≤ length target.now) × Rowed row.now n (length value.now) × (place + 4 * length (coming target.now row.now value.now w n i) ≤ length extra.old) }
    ensures { (result ≡ length (coming target.now row.now value.now w n i)) × (extra.new ≡ sets extra.old place (gather four (coming target.now row.now value.now w n i))) }
{
    let mut many: usize = 0;
    for k in 0..n {
        many += gain_end(target, row, value, w, i, k, extra, place + 4 * many);
    }
    many
}

// Marks the nodes that the taken ends have in a column.
fn mark_column(column: &[u8], n: usize, c: u32, marks: &mut [u8])
    requires { (n ≤ length column.now) × (n ≤ limits.most_ends) }
    ensures { (p : ℕ → Bool) (most : ℕ) → most ≤ length marks.old → MarksOf p most marks.old → MarksOf (λ i. p i || placed (has c) (at column.now) n i) most marks.new }
{
    for k in 0..n {
        words::mark(marks, choice::is_taken(c, k), wire::wide(column[k]));
    }
}

// The values of the ends of the word w come: they are stored in `extra`, and of each node their place and their number is noted.
pub fn gain(
    table: Table,
    ends: Ends,
    value: &[u32],
    w: u32,
    extra: &mut [u8],
    place: &mut [u16],
    more: &mut [u8],
)
    requires { (table.nodes ≤ limits.most_nodes) × EndsFull ends × Rowed ends.row ends.count (length value.now)
        × (4 * limits.most_ends ≤ length extra.old) × (table.nodes ≤ length place.old) × (table.nodes ≤ length more.old) }
    ensures { Came (coming ends.target ends.row value.now w ends.count) extra.new place.new more.new
        table.nodes }
{
    let n = ends.count;
    let nodes = table.nodes;
    let mut reached = [0u8; Table::MOST_NODES];
    mark_column(&ends.target, n, w, &mut reached);
    let mut to: usize = 0;
    for i in 0..nodes {
        let mut many: usize = 0;
        if reached[i] != 0 {
            many = gain_node(&ends.target, &ends.row, value, w, n, i, extra, to);
        }
        place[i] = to as u16;
        more[i] = many as u8;
        to += 4 * many;
    }
}

// ---- the actions that start

// The nodes to which a taken end belongs, marked.
fn touched_nodes<'a>(target: &'a [u8], home: &'a [u8], n: usize, c: u32) -> [u8; Table::MOST_NODES]
    requires { (n ≤ length target.now) × (n ≤ length home.now) × (n ≤ limits.most_ends) }
    ensures { MarksOf (served target.now home.now n c) limits.most_nodes result }
{
    let mut touched = [0u8; Table::MOST_NODES];
    mark_column(target, n, c, &mut touched);
    mark_column(home, n, c, &mut touched);
    touched
}

// The running byte of a node of kind k after the step: 1 for an action to which a taken end belongs, by its mark, else what it was.
fn runs_then(k: usize, touched: u8, runs: u8) -> u8
    ensures { result ≡ cond (is_action k && not (eqb touched 0)) 1 runs }
{
    if k != Table::ACTION {
        return runs;
    }
    if touched == 0 {
        return runs;
    }
    1
}

// The actions start to which a taken end belongs.
pub fn run(t: &[u8], table: Table, ends: Ends, c: u32, runs: &mut [u8])
    requires { Spans t.now table × EndsFull ends × (table.nodes ≤ length runs.old) }
    ensures { Started (starts t.now ends.target ends.home ends.count c) runs.old runs.new table.nodes }
{
    let touched = touched_nodes(&ends.target, &ends.home, ends.count, c);
    for i in 0..table.nodes {
        runs[i] = runs_then(table.kind(t, i), touched[i], runs[i]);
    }
}
