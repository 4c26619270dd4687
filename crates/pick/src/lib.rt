// pick on a board: the first acceptable choice, or the first that has an end of the named node, looked for and written.
// Takes a board's offers, its ends and what is kept of a marking by value; what they mean is said of any board that stands in them (`Stands`).
#![tactic(auto)]

ghost use Rattle.std.specs.Prelude.{◌≡◌, true, ◌&&◌, ℕ, ◌+◌, ◌^◌, ◌≤◌, ◌<◌, leb, length};
ghost use Rattle.paper.specs.Answers.{good};
ghost use Rattle.paper.specs.Choices.{Board, how_many, acceptable};
ghost use Rattle.paper.specs.Operations.{Leaves, wanted, PickOn};
ghost use Rattle.table.specs.Reading.{table_read};
ghost use Rattle.offers.specs.Struct.{Full};
ghost use Rattle.ends_masks.specs.Seating.{EndsFull, Stands};
ghost use Rattle.pick_bounds.specs.Net.{held};
ghost use Rattle.pick_rules.specs.Rules.{most_rules, net_cells, holds};
ghost use Rattle.wire.specs.Refusals.{word_of, BelowRefusals};
ghost use Rattle.pick.specs.Picking.{Answered};
ghost use Rattle.paper.specs.Limits.{limits};

use ends_masks::Ends;
use offers::Offers;
use pick_bounds::Wanted;
use table::Table;
use wire::Refusal;

// What the search is asked: a net of so many rules, and the ends that are wanted.
#[derive(Clone, Copy)]
pub struct Question {
    pub rules: usize,
    pub want: Wanted,
}

// The net of a board, and what is wanted of it.
fn prepare(
    t: &[u8],
    table: Table,
    offers: Offers,
    ends: Ends,
    kept: [u8; Table::MOST_NODES],
    node: u8,
    net: &mut [u32],
) -> Question
    requires { (table_read t.now ≡ good table) × Full offers × EndsFull ends × (length kept ≡ limits.most_nodes) × (net_cells ≤ length net.old) }
    ensures { (result.rules ≤ most_rules) × ((d : Board) → Stands t.now d offers ends kept kept → (c : ℕ) → holds net.new result.rules ends.count c && leb result.want.least (held ends.count c result.want.ends) ≡ wanted d node c) }
{
    let target = ends.target;
    let home = ends.home;
    let rules = pick_rules::fill(net, t, table, offers, ends, kept);
    Question {
        rules: rules,
        want: pick_wanted::wanted(&target, &home, ends.count, node),
    }
}

// The first set of n ends that obeys the rules of a net and holds what is wanted.
pub fn first(net: &[u32], asked: Question, n: usize) -> Option<u32>
    requires { (n ≤ limits.most_ends) × (asked.rules ≤ most_rules) × (net_cells ≤ length net.now) }
    ensures { Answered (λ c. holds net.now asked.rules n c && leb asked.want.least (held n c asked.want.ends)) n result }
{
    pick_search::first(&net[0..pick_bounds::ENDS + 4 * asked.rules], asked.want, n)
}

// The first acceptable choice that has an end of the node, if one is named.
pub fn choose(
    t: &[u8],
    table: Table,
    offers: Offers,
    ends: Ends,
    kept: [u8; Table::MOST_NODES],
    node: u8,
) -> Option<u32>
    requires { (table_read t.now ≡ good table) × Full offers × EndsFull ends × (length kept ≡ limits.most_nodes) }
    ensures { (d : Board) → Stands t.now d offers ends kept kept → Answered (wanted d node) (how_many d) result }
{
    let mut net = [0u32; pick_rules::CELLS];
    let asked = prepare(t, table, offers, ends, kept, node, &mut net);
    first(&net, asked, ends.count)
}

// How many states the search in a net visits: what a test can hold down.
pub fn effort(net: &[u32], asked: Question, n: usize) -> usize
    requires { (n ≤ limits.most_ends) × (asked.rules ≤ most_rules) × (net_cells ≤ length net.now) }
    ensures { (1 ≤ result) × (result < 2 ^ (n + 22)) }
{
    pick_search::states(&net[0..pick_bounds::ENDS + 4 * asked.rules], asked.want, n)
}

// How many the search for that choice visits.
pub fn states(
    t: &[u8],
    table: Table,
    offers: Offers,
    ends: Ends,
    kept: [u8; Table::MOST_NODES],
    node: u8,
) -> usize
    requires { (table_read t.now ≡ good table) × Full offers × EndsFull ends × (length kept ≡ limits.most_nodes) }
    ensures { (1 ≤ result) × (result < 2 ^ (ends.count + 22)) }
{
    let mut net = [0u32; pick_rules::CELLS];
    let asked = prepare(t, table, offers, ends, kept, node, &mut net);
    effort(&net, asked, ends.count)
}

// What pick answers of n ends, where `found` is what was looked for: row 13, or a choice.
fn conclude(found: Option<u32>, n: usize, node: u8, out: &mut [u8]) -> Result<usize, Refusal>
    requires { n ≤ limits.most_ends }
    ensures { ((d : Board) → n ≡ how_many d → Answered (wanted d node) (how_many d) found → acceptable d 0 ≡ true → Leaves (PickOn d node) (word_of result) out.old out.new) × BelowRefusals result }
{
    match found {
        None => Err(Refusal::NoChoice(node)),
        Some(c) => choice::tell(c, n, out),
    }
}

// pick on a board of n ends.
pub fn pick(
    t: &[u8],
    table: Table,
    offers: Offers,
    ends: Ends,
    kept: [u8; Table::MOST_NODES],
    node: u8,
    out: &mut [u8],
) -> Result<usize, Refusal>
    requires { (table_read t.now ≡ good table) × Full offers × EndsFull ends × (length kept ≡ limits.most_nodes) }
    ensures { ((d : Board) → Stands t.now d offers ends kept kept → Leaves (PickOn d node) (word_of result) out.old out.new) × BelowRefusals result }
{
    let found = choose(t, table, offers, ends, kept, node);
    conclude(found, ends.count, node, out)
}
