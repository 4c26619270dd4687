// "Each first offer among the makers of taken ends is spent; an object node loses its oldest value, a control edge goes to 0."
// The makers of taken ends are given as a word of rows; a row is a first offer if it was made from none. What is spent is marked once, a byte an edge.
// Columns of the offers are lent, and those of the marking that are changed.
// Functions that read a table's fields require that its bytes were read as a table.
#![tactic(auto)]

ghost use Rattle.std.specs.Prelude.{◌≡◌, Bool, not, ◌&&◌, cond, ℕ, ◌+◌, ◌-◌, ◌≤◌, ◌<◌, eqb, length};
ghost use Rattle.paper.specs.Lists.{has};
ghost use Rattle.paper.specs.Limits.{limits};
ghost use Rattle.words.specs.Marks.{MarksOf};
ghost use Rattle.table.specs.Reading.{Spans};
ghost use Rattle.step_spend.specs.Spending.{spends, loses, goes, second_value, TokensGone, OldestGone};

use table::Table;

// Whether row y, which was made from the rows `parents`, is in the word and is a first offer.
fn is_first(parents: u64, w: u64, y: usize) -> bool
    requires { y < 64 }
    ensures { result ≡ has w y && eqb parents 0 }
{
    if !words::in_word(w, y) {
        return false;
    }
    parents == 0
}

// The edges with a first offer in the word w, among so many rows, marked.
pub fn spent_edges<'a>(
    last: &'a [u8],
    parents: &'a [u64],
    rows: usize,
    w: u64,
) -> [u8; Table::MOST_EDGES]
    requires { (rows ≤ length last.now) × (rows ≤ length parents.now) × (rows ≤ limits.most_offers) }
    ensures { MarksOf (spends last.now parents.now rows w) limits.most_edges result }
{
    let mut spent = [0u8; Table::MOST_EDGES];
    for y in 0..rows {
        words::mark(&mut spent, is_first(parents[y], w, y), wire::wide(last[y]));
    }
    spent
}

// What an edge holds after the step, by its mark.
fn tokens_left(spent: u8, tokens: u8) -> u8
    ensures { result ≡ cond (not (eqb spent 0)) 0 tokens }
{
    if spent != 0 {
        return 0;
    }
    tokens
}

// However much an edge holds, it goes to 0 if it is spent. Each count is stored, spent or not: a branch would take longer.
pub fn spend_tokens(table: Table, spent: &[u8], tokens: &mut [u8])
    requires { (table.edges ≤ limits.most_edges) × (table.edges ≤ length spent.now) × (table.edges ≤ length tokens.old) }
    ensures { (p : ℕ → Bool) → MarksOf p limits.most_edges spent.now
        → TokensGone p tokens.old tokens.new table.edges }
{
    for e in 0..table.edges {
        tokens[e] = tokens_left(spent[e], tokens[e]);
    }
}

// The nodes that a spent edge leaves, marked.
fn losing_nodes(t: &[u8], table: Table, spent: &[u8]) -> [u8; Table::MOST_NODES]
    requires { Spans t.now table × (table.edges ≤ length spent.now) }
    ensures { (p : ℕ → Bool) → MarksOf p limits.most_edges spent.now → MarksOf (loses p t.now) limits.most_nodes result }
{
    let mut losing = [0u8; Table::MOST_NODES];
    for e in 0..table.edges {
        words::mark(&mut losing, spent[e] != 0, table.source(t, e));
    }
    losing
}

// Whether the oldest of so many values goes, by the mark of their node.
fn oldest_goes(losing: u8, kept: u8) -> bool
    ensures { result ≡ goes losing kept }
{
    losing != 0 && kept != 0
}

// Where the second value of a stock stands, if two bytes say that place.
fn second_value(from: u16) -> u16
    ensures { result ≡ second_value from }
{
    if from >= 65532 {
        return 0;
    }
    from + 4
}

// Where the values of a node stand that are left, by its mark, if it kept so many.
fn from_left(losing: u8, kept: u8, from: u16) -> u16
    ensures { result ≡ cond (goes losing kept) (second_value from) from }
{
    if oldest_goes(losing, kept) {
        return second_value(from);
    }
    from
}

// How many values are left.
fn kept_left(losing: u8, kept: u8) -> u8
    ensures { result ≡ cond (goes losing kept) (kept - 1) kept }
{
    if oldest_goes(losing, kept) {
        return kept - 1;
    }
    kept
}

// An object node loses one value, the oldest, however many of its edges are spent. Of other nodes nobody looks at what is kept.
pub fn spend_stocks(t: &[u8], table: Table, spent: &[u8], from: &mut [u16], kept: &mut [u8])
    requires { Spans t.now table × (table.edges ≤ length spent.now) × (table.nodes ≤ length from.old) × (table.nodes ≤ length kept.old) }
    ensures { (p : ℕ → Bool) → MarksOf p limits.most_edges spent.now
        → OldestGone (loses p t.now) from.old kept.old from.new kept.new table.nodes }
{
    let losing = losing_nodes(t, table, spent);
    for i in 0..table.nodes {
        from[i] = from_left(losing[i], kept[i], from[i]);
        kept[i] = kept_left(losing[i], kept[i]);
    }
}
