// The rules on choices, asked of one choice: the first that refuses it, with its place. Rows that break a rule mark the node that it is told of, and the lowest
// mark is the answer; whether destinations agree is asked in choice_agree.
// Assumes no more than its `requires`: slices that are long enough, and a table that was read.
#![tactic(auto)]

ghost use Rattle.std.specs.Prelude.{◌≡◌, ◌&&◌, ℕ, ◌≤◌, ◌<◌, length, set};
ghost use Rattle.std.specs.Int.Bits.{bit_or};
ghost use Rattle.paper.specs.Lists.{at, has};
ghost use Rattle.paper.specs.Answers.{good, judged_by};
ghost use Rattle.words.specs.Marks.{MarksOf};
ghost use Rattle.table.specs.Reading.{Spans, Blank, table_read};
ghost use Rattle.offers.specs.Struct.{Full};
ghost use Rattle.ends_masks.specs.Seating.{EndsFull, rivalled, first_rivalled, makes};
ghost use Rattle.wire.specs.Refusals.{said, found};
ghost use Rattle.choice_judge.specs.Judging.{row_rules, forks_in, parted_at, left_out, PassedOn};
ghost use Rattle.paper.specs.Limits.{limits};

use ends_masks::Ends;
use offers::Offers;
use table::Table;
use wire::Refusal;

// ---- "no two of its ends compete"

// Whether end k is taken and competes with a taken one.
fn is_rivalled(foes: &[u64], makers: &[u64], n: usize, c: u32, k: usize) -> bool
    requires { (n ≤ length foes.now) × (n ≤ length makers.now) × (k < n) × (n ≤ limits.most_ends) }
    ensures { result ≡ has c k && rivalled foes.now makers.now n c k }
{
    if !choice::is_taken(c, k) {
        return false;
    }
    ends_masks::rivals(foes, makers, n, k) & c != 0
}

// The lowest taken end that competes with a taken one.
fn rivalled_end(foes: &[u64], makers: &[u64], n: usize, c: u32) -> Option<u8>
    requires { (n ≤ length foes.now) × (n ≤ length makers.now) × (n ≤ limits.most_ends) }
    ensures { found result ≡ first_rivalled foes.now makers.now n c }
{
    for k in 0..n {
        if is_rivalled(foes, makers, n, c, k) {
            return Some(k as u8);
        }
    }
    None
}

// The same, by the word w of the makers of taken ends: where it has no foe of a taken end, none competes.
fn competing_end(foes: &[u64], makers: &[u64], n: usize, c: u32, w: u64) -> Option<u8>
    requires { (n ≤ length foes.now) × (n ≤ length makers.now) × (n ≤ limits.most_ends) }
    ensures { ((y : ℕ) → has w y ≡ makes makers.now n c y) → found result ≡ first_rivalled foes.now makers.now n c }
{
    if ends_masks::all_makers(foes, n, c) & w == 0 {
        return None;
    }
    rivalled_end(foes, makers, n, c)
}

// ---- "forks are passed whole"

// What row y was made from, if it is in the word.
fn made_from(parents: &[u64], w: u64, y: usize) -> u64
    requires { (y < length parents.now) × (y < limits.most_offers) }
    ensures { (b : ℕ) → has result b ≡ has w y && has (at parents.now y) b }
{
    if !words::in_word(w, y) {
        return 0;
    }
    parents[y]
}

// Offers, in the word of node i; past the last word there is none to put them in.
fn add_offers(passed: &mut [u64], i: usize, x: u64)
    ensures { passed.new ≡ set passed.old i (bit_or (at passed.old i) x) }
{
    if passed.len() <= i {
        return;
    }
    passed[i] = passed[i] | x;
}

// For each node, what the rows of the word w that leave it were made from.
fn fill_passed(node: &[u8], parents: &[u64], rows: usize, w: u64, passed: &mut [u64])
    requires { (rows ≤ length node.now) × (rows ≤ length parents.now) × (rows ≤ limits.most_offers) }
    ensures { Blank passed.old → PassedOn node.now parents.now w rows passed.new }
{
    for y in 0..rows {
        add_offers(passed, wire::wide(node[y]), made_from(parents, w, y));
    }
}

// Whether row z leaves a fork and is not in the word w, though a row there was made from an offer in common with it.
fn is_left_out(
    t: &[u8],
    table: Table,
    node: &[u8],
    parents: &[u64],
    w: u64,
    passed: &[u64],
    z: usize,
) -> bool
    requires { Spans t.now table × (z < length node.now) × (z < length parents.now) × (z < limits.most_offers) × (table.nodes ≤ length passed.now) }
    ensures { (rows : ℕ) → PassedOn node.now parents.now w rows passed.now → result ≡ left_out node.now parents.now rows w t.now z }
{
    let i = wire::wide(node[z]);
    if table.nodes <= i {
        return false;
    }
    if table.kind(t, i) != Table::FORK {
        return false;
    }
    if words::in_word(w, z) {
        return false;
    }
    parents[z] & passed[i] != 0
}

// Marks the forks that are not passed whole.
fn mark_parted(
    t: &[u8],
    table: Table,
    node: &[u8],
    parents: &[u64],
    rows: usize,
    w: u64,
    passed: &[u64],
    parted: &mut [u8],
)
    requires { Spans t.now table × (rows ≤ length node.now) × (rows ≤ length parents.now) × (rows ≤ limits.most_offers) × (table.nodes ≤ length passed.now) × (table.nodes ≤ length parted.old) }
    ensures { PassedOn node.now parents.now w rows passed.now → Blank parted.old → MarksOf (parted_at node.now parents.now rows w t.now) table.nodes parted.new }
{
    for z in 0..rows {
        words::mark(
            parted,
            is_left_out(t, table, node, parents, w, passed, z),
            wire::wide(node[z]),
        );
    }
}

// The lowest fork that is not passed whole.
fn parted_fork<'a>(
    t: &[u8],
    table: Table,
    node: &'a [u8],
    parents: &'a [u64],
    rows: usize,
    w: u64,
) -> Option<u8>
    requires { Spans t.now table × (rows ≤ length node.now) × (rows ≤ length parents.now) × (rows ≤ limits.most_offers) }
    ensures { found result ≡ forks_in node.now parents.now rows w t.now }
{
    let mut passed = [0u64; Table::MOST_NODES];
    fill_passed(node, parents, rows, w, &mut passed);
    let mut parted = [0u8; Table::MOST_NODES];
    mark_parted(t, table, node, parents, rows, w, &passed, &mut parted);
    choice_agree::lowest_marked(&parted, table.nodes)
}

// ---- all three

// The first rule that refuses the choice c, with its place.
pub fn judge(
    t: &[u8],
    table: Table,
    offers: Offers,
    ends: Ends,
    kept: [u8; Table::MOST_NODES],
    c: u32,
) -> Result<(), Refusal>
    requires { (table_read t.now ≡ good table) × Full offers × EndsFull ends × (length kept ≡ limits.most_nodes) }
    ensures { said result ≡ judged_by (row_rules t.now offers ends kept kept) c }
{
    let foes = ends.foes;
    let makers = ends.makers;
    let n = ends.count;
    let w = ends_masks::all_makers(&makers, n, c);
    if let Some(k) = competing_end(&foes, &makers, n, c, w) {
        return Err(Refusal::Rivals(k));
    }
    if let Some(i) = parted_fork(t, table, &offers.node, &offers.parents, offers.count, w) {
        return Err(Refusal::Fork(i));
    }
    if let Some(i) = choice_agree::unfit_node(t, table, ends, kept, c) {
        return Err(Refusal::Destination(i));
    }
    Ok(())
}
