// Row 16, for start and finish alike: whether values that are appended to nodes fit, and tokens from the nodes that fire.
// Functions that read a table's fields require that its bytes were read as a table.
#![tactic(auto)]

ghost use Rattle.std.specs.Prelude.{◌≡◌, ◌&&◌, ℕ, ◌≤◌, ◌<◌, leb, length};
ghost use Rattle.paper.specs.Lists.{all, below};
ghost use Rattle.paper.specs.Answers.{good};
ghost use Rattle.paper.specs.Table.{nodes, source, upper};
ghost use Rattle.paper.specs.Marking.{has_tokens};
ghost use Rattle.table.specs.Reading.{Spans, table_read};
ghost use Rattle.marking_give.specs.Giving.{fires_as, gained, Amounts, CountsHeld, Gained};

use marking::has_count;
use table::Table;

// Which nodes have a list of values: those of a kind that belong to an owner.
#[derive(Clone, Copy)]
pub struct Listing {
    pub kind: usize,
    pub owner: usize,
}

// Which nodes hand out tokens: those of a kind, or one.
#[derive(Clone, Copy)]
pub enum Firing {
    Kind(usize),
    Node(usize),
}

// Whether every stock fits its upper, with the values that are to be appended.
pub fn stocks_fit(t: &[u8], table: Table, kept: &[u8], more: &[u8]) -> bool
    requires { Spans t.now table × (table.nodes ≤ length kept.now) × (table.nodes ≤ length more.now) }
    ensures { (held : ℕ → ℕ) → Amounts t.now held kept.now more.now
        → result ≡ all (λ i. leb (held i) (upper t.now i)) (below (nodes t.now)) }
{
    for i in 0..table.nodes {
        if !stock_fits(t, table, kept, more, i) {
            return false;
        }
    }
    true
}

// Whether node i's stock does.
fn stock_fits(t: &[u8], table: Table, kept: &[u8], more: &[u8], i: usize) -> bool
    requires { Spans t.now table × (i < table.nodes) × (table.nodes ≤ length kept.now) × (table.nodes ≤ length more.now) }
    ensures { (held : ℕ → ℕ) → Amounts t.now held kept.now more.now → result ≡ leb (held i) (upper t.now i) }
{
    if !table::is_object_node(table.kind(t, i)) {
        return true;
    }
    wire::wide(kept[i]) + wire::wide(more[i]) <= table.upper(t, i)
}

// Whether node i fires.
fn fires(t: &[u8], table: Table, firing: Firing, i: usize) -> bool
    requires { Spans t.now table × (i < table.nodes) }
    ensures { result ≡ fires_as t.now firing i }
{
    match firing {
        Firing::Kind(k) => table.kind(t, i) == k,
        Firing::Node(a) => i == a,
    }
}

// Whether edge j gains a token: it has a count, and its source fires.
fn gains(t: &[u8], table: Table, firing: Firing, j: usize) -> bool
    requires { (table_read t.now ≡ good table) × (j < table.edges) }
    ensures { result ≡ has_tokens t.now j && fires_as t.now firing (source t.now j) }
{
    fires(t, table, firing, table.source(t, j)) && has_count(t, table, j)
}

// A further token for every edge with a count whose source fires, unless one is at 255.
pub fn gain(t: &[u8], table: Table, firing: Firing, tokens: &mut [u8]) -> bool
    requires { (table_read t.now ≡ good table) × (table.edges ≤ length tokens.old) }
    ensures { (held : ℕ → ℕ) → CountsHeld t.now held tokens.old
        → Gained t.now (gained t.now (fires_as t.now firing) held) tokens.new result }
{
    for j in 0..table.edges {
        if gains(t, table, firing, j) {
            if tokens[j] == 255 {
                return false;
            }
            tokens[j] = tokens[j] + 1;
        }
    }
    true
}
