// "If an end at an activity final is taken, the marking is ended after that: outgoing parameters keep all, the rest is cleared."
// The columns of the marking that are changed are lent.
// Functions that read a table's fields require that its bytes were read as a table.
#![tactic(auto)]

ghost use Rattle.std.specs.Prelude.{◌≡◌, ◌&&◌, ℕ, ◌≤◌, ◌<◌, length};
ghost use Rattle.paper.specs.Lists.{at, has, one_if};
ghost use Rattle.paper.specs.Limits.{limits};
ghost use Rattle.paper.specs.Table.{kind as kind_of, is_activity_final};
ghost use Rattle.table.specs.Reading.{Spans};
ghost use Rattle.marking_held.specs.Filling.{Filled};
ghost use Rattle.step_close.specs.Closing.{closes, ClearRoom, Emptied, Closed};

use table::Table;

// Whether end k is taken and is at an activity final.
fn is_last(t: &[u8], table: Table, target: &[u8], c: u32, k: usize) -> bool
    requires { Spans t.now table × (k < length target.now) × (at target.now k < table.nodes) × (k < 32) }
    ensures { result ≡ has c k && is_activity_final (kind_of t.now (at target.now k)) }
{
    if !choice::is_taken(c, k) {
        return false;
    }
    table.kind(t, wire::wide(target[k])) == Table::ACTIVITY_FINAL
}

// Whether the choice ends the marking.
fn is_closing(t: &[u8], table: Table, target: &[u8], n: usize, c: u32) -> bool
    requires { Spans t.now table × (n ≤ length target.now) × ((k : ℕ) → k < n → at target.now k < table.nodes) × (n ≤ limits.most_ends) }
    ensures { result ≡ closes t.now target.now n c }
{
    for k in 0..n {
        if is_last(t, table, target, c, k) {
            return true;
        }
    }
    false
}

// Every node but outgoing parameters is empty, and every action idle.
fn clear_nodes(t: &[u8], table: Table, kept: &mut [u8], more: &mut [u8], runs: &mut [u8])
    requires { Spans t.now table × (table.nodes ≤ length kept.old) × (table.nodes ≤ length more.old) × (table.nodes ≤ length runs.old) }
    ensures { Emptied t.now kept.old more.old runs.old
        kept.new more.new runs.new table.nodes }
{
    for i in 0..table.nodes {
        if table.kind(t, i) != Table::OUTGOING {
            kept[i] = 0;
            more[i] = 0;
        }
        runs[i] = 0;
    }
}

// Every count is 0.
fn clear_edges(table: Table, tokens: &mut [u8])
    requires { table.edges ≤ length tokens.old }
    ensures { Filled (λ j. 0) tokens.old tokens.new table.edges }
{
    for j in 0..table.edges {
        tokens[j] = 0;
    }
}

// The marking ended, if the choice ends it; and its state then, 1 if it has ended.
pub fn close(
    t: &[u8],
    table: Table,
    target: &[u8],
    n: usize,
    c: u32,
    kept: &mut [u8],
    more: &mut [u8],
    runs: &mut [u8],
    tokens: &mut [u8],
) -> u8
    requires { Spans t.now table × (n ≤ length target.now) × ((k : ℕ) → k < n → at target.now k < table.nodes) × (n ≤ limits.most_ends)
        × ClearRoom table kept.old more.old runs.old tokens.old }
    ensures { (result ≡ one_if (closes t.now target.now n c))
        × Closed t.now (closes t.now target.now n c)
        kept.old more.old runs.old tokens.old
        kept.new more.new runs.new tokens.new }
{
    if !is_closing(t, table, target, n, c) {
        return 0;
    }
    clear_nodes(t, table, kept, more, runs);
    clear_edges(table, tokens);
    1
}
