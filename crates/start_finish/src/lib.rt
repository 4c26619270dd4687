// start and finish on a table that was read: the marking taken up, the action that ends, the lists of values appended, the tokens handed out and the
// reply written. What was read of the marking stands in columns, which are lent (`Deliverable`, `LiveMarking`).
#![tactic(auto)]

ghost use Rattle.std.specs.Prelude.{◌≡◌, true, ℕ, ◌≤◌, ◌<◌, eqb, length};
ghost use Rattle.paper.specs.Lists.{at, one_if};
ghost use Rattle.paper.specs.Answers.{good, need};
ghost use Rattle.paper.specs.Table.{nodes, kind, is_action};
ghost use Rattle.paper.specs.Marking.{Marking};
ghost use Rattle.paper.specs.Operations.{Leaves, Only, Reply, in_room, idled, start as started, finish as finished};
ghost use Rattle.table.specs.Reading.{Spans, table_read};
ghost use Rattle.marking_held.specs.MarkingHeld.{HeldLengths, LiveMarking, held_of};
ghost use Rattle.marking_give.specs.Giving.{fires_as};
ghost use Rattle.start_finish.specs.Delivered.{Deliverable, delivered};
ghost use Rattle.start_finish.specs.Running.{runs_in};
ghost use Rattle.wire.specs.Refusals.{said, word_of, BelowRefusals};

use marking_give::{Firing, Listing};
use table::Table;
use wire::Refusal;

// The lists appended and the tokens handed out (rows 15 and 16), then the reply: what start and finish end with.
fn deliver(
    t: &[u8],
    table: Table,
    listing: Listing,
    values: &[u8],
    old: &[u8],
    firing: Firing,
    from: &[u16],
    kept: &[u8],
    tokens: &mut [u8],
    out: &mut [u8],
) -> Result<usize, Refusal>
    requires { (table_read t.now ≡ good table) × HeldLengths (held_of from.now kept.now tokens.old)
        × Deliverable t.now listing.kind listing.owner old.now (held_of from.now kept.now tokens.old) }
    ensures { ((d : Deliverable t.now listing.kind listing.owner old.now
        (held_of from.now kept.now tokens.old))
        → Reply (in_room (length out.old)
        (delivered t.now listing.kind listing.owner (fires_as t.now firing) d.current values.now))
        (word_of result) out.old out.new)
        × BelowRefusals result }
{
    let mut place = [0u16; Table::MOST_NODES];
    let mut more = [0u8; Table::MOST_NODES];
    marking::read_values(
        t,
        table,
        listing.kind,
        listing.owner,
        values,
        &mut place,
        &mut more,
    )?;
    if !marking_give::stocks_fit(t, table, kept, &more) {
        return Err(Refusal::Stock);
    }
    if !marking_give::gain(t, table, firing, tokens) {
        return Err(Refusal::Stock);
    }
    marking_write::reply(
        t, table, 0, old, values, from, kept, &place, &more, kept, tokens, out,
    )
}

// Whether node a is a running action (row 14).
fn running(t: &[u8], table: Table, kept: &[u8], a: usize) -> Result<(), Refusal>
    requires { Spans t.now table × (table.nodes ≤ length kept.now) }
    ensures { (m : Marking) → ((i : ℕ) → i < nodes t.now → is_action (kind t.now i) ≡ true
        → at kept.now i ≡ one_if (m.runs i)) → said result ≡ need 14 (runs_in t.now m a) }
{
    if a >= table.nodes {
        return Err(Refusal::Idle);
    }
    if table.kind(t, a) != Table::ACTION {
        return Err(Refusal::Idle);
    }
    if kept[a] != 1 {
        return Err(Refusal::Idle);
    }
    Ok(())
}

// finish on a live marking that was read and in which action a runs.
fn conclude(
    t: &[u8],
    table: Table,
    b: &[u8],
    a: usize,
    values: &[u8],
    from: &[u16],
    kept: &mut [u8],
    tokens: &mut [u8],
    out: &mut [u8],
) -> Result<usize, Refusal>
    requires { (table_read t.now ≡ good table) × (a < table.nodes) × (is_action (kind t.now a) ≡ true)
        × LiveMarking t.now b.now (held_of from.now kept.old tokens.old) }
    ensures { ((l : LiveMarking t.now b.now (held_of from.now kept.old tokens.old))
        → Reply (in_room (length out.old)
        (delivered t.now 4 a (λ i. eqb i a) (idled t.now a l.current) values.now))
        (word_of result) out.old out.new)
        × BelowRefusals result }
{
    marking_held::idle(t, table, a, kept);
    let listing = Listing {
        kind: Table::OUTPUT,
        owner: a,
    };
    deliver(
        t,
        table,
        listing,
        values,
        b,
        Firing::Node(a),
        from,
        kept,
        tokens,
        out,
    )
}

// start on a table that was read.
pub fn start(t: &[u8], table: Table, values: &[u8], out: &mut [u8]) -> Result<usize, Refusal>
    requires { table_read t.now ≡ good table }
    ensures { Leaves (Only (started t.now values.now)) (word_of result) out.old out.new × BelowRefusals result }
{
    let listing = Listing {
        kind: Table::INCOMING,
        owner: Table::NO_OWNER,
    };
    let firing = Firing::Kind(Table::INITIAL);
    let from = [0u16; Table::MOST_NODES];
    let kept = [0u8; Table::MOST_NODES];
    let mut tokens = [0u8; Table::MOST_EDGES];
    deliver(
        t,
        table,
        listing,
        values,
        values,
        firing,
        &from,
        &kept,
        &mut tokens,
        out,
    )
}

// finish on a table that was read.
pub fn finish(
    t: &[u8],
    table: Table,
    b: &[u8],
    action: u8,
    values: &[u8],
    out: &mut [u8],
) -> Result<usize, Refusal>
    requires { table_read t.now ≡ good table }
    ensures { Leaves (Only (finished t.now b.now action values.now)) (word_of result) out.old out.new × BelowRefusals result }
{
    let mut from = [0u16; Table::MOST_NODES];
    let mut kept = [0u8; Table::MOST_NODES];
    let mut tokens = [0u8; Table::MOST_EDGES];
    let ended = marking::read(t, table, b, &mut from, &mut kept, &mut tokens)?;
    if ended {
        return Err(Refusal::Ended);
    }
    let a = wire::wide(action);
    running(t, table, &kept, a)?;
    conclude(t, table, b, a, values, &from, &mut kept, &mut tokens, out)
}
