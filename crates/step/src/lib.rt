// A step on a board that was read: the choice read and judged, and the marking that it makes written. First offers are spent, then destinations gain, and an
// end at an activity final ends the marking. What was read of the marking and the board's offers and ends are given by value (`Standing`); the stages take the
// columns that they change lent.
#![tactic(auto)]

ghost use Rattle.std.specs.Prelude.{◌≡◌, length};
ghost use Rattle.paper.specs.Answers.{good};
ghost use Rattle.paper.specs.Operations.{Reply, in_room};
ghost use Rattle.table.specs.Reading.{table_read};
ghost use Rattle.offers.specs.Struct.{Full};
ghost use Rattle.ends_masks.specs.Seating.{EndsFull};
ghost use Rattle.marking_held.specs.MarkingHeld.{FieldsLengths, fields_held};
ghost use Rattle.wire.specs.Refusals.{word_of, BelowRefusals};
ghost use Rattle.step.specs.Stepping.{chosen, Standing};

use ends_masks::Ends;
use marking::Fields;
use offers::Offers;
use table::Table;
use wire::Refusal;

// The choice is read (row 9), judged (rows 10 to 12) and, if no rule refuses it, taken. One function, so that the offers aren't copied from stage to stage.
pub fn step(
    t: &[u8],
    table: Table,
    b: &[u8],
    choice: &[u8],
    offers: Offers,
    ends: Ends,
    fields: Fields,
    out: &mut [u8],
) -> Result<usize, Refusal>
    requires { (table_read t.now ≡ good table) × Full offers × EndsFull ends × FieldsLengths fields
        × Standing t.now b.now offers ends (fields_held fields) }
    ensures { ((s : Standing t.now b.now offers ends (fields_held fields))
        → Reply (in_room (length out.old) (chosen t.now s.on choice.now)) (word_of result) out.old out.new)
        × BelowRefusals result }
{
    let c = choice::read_choice(choice, ends.count)?;
    let mut kept = fields.kept;
    choice_judge::judge(t, table, offers, ends, kept, c)?;
    let made = ends_masks::all_makers(&ends.makers, ends.count, c);
    let spent = step_spend::spent_edges(&offers.last, &offers.parents, offers.count, made);
    let bringing = step_gain::bringing(&offers.has, &ends.row, ends.count, c);
    let mut from = fields.from;
    let mut place = [0u16; Table::MOST_NODES];
    let mut more = [0u8; Table::MOST_NODES];
    let mut runs = kept;
    let mut tokens = fields.tokens;
    let mut extra = [0u8; step_gain::ROOM];
    step_spend::spend_tokens(table, &spent, &mut tokens);
    step_spend::spend_stocks(t, table, &spent, &mut from, &mut kept);
    step_gain::gain(
        table,
        ends,
        &offers.value,
        bringing,
        &mut extra,
        &mut place,
        &mut more,
    );
    step_gain::run(t, table, ends, c, &mut runs);
    let state = step_close::close(
        t,
        table,
        &ends.target,
        ends.count,
        c,
        &mut kept,
        &mut more,
        &mut runs,
        &mut tokens,
    );
    marking_write::reply(
        t, table, state, b, &extra, &from, &kept, &place, &more, &runs, &tokens, out,
    )
}
