// What is asked about a board, by sheet, pick, why and step: the table, the marking and the terms are read, the board is laid over what was read, and the
// request is answered on it. How far a search goes is asked here too. Assumes nothing of what is lent (`ask`).
ghost use Rattle.std.specs.Prelude.{◌≡◌};
ghost use Rattle.paper.specs.Answers.{good};
ghost use Rattle.paper.specs.Offers.{terms};
ghost use Rattle.table.specs.Reading.{table_read};
ghost use Rattle.terms.specs.Terms.{terms_fine};
ghost use Rattle.marking_held.specs.MarkingHeld.{LiveMarking, fields_held};
ghost use Rattle.wire.specs.Refusals.{word_of, BelowRefusals};
ghost use Rattle.keshmirun.specs.Asking.{shows, Responds};

use marking::Fields;
use table::Table;
use wire::Refusal;

// What is asked of the choices of a board: the pick for a node, the reason for a node, the step by a choice, or how many states the search for a node visits,
// k levels past the first.
#[derive(Clone, Copy)]
pub enum Query {
    Pick(u8),
    Why(u8),
    Step,
    Count(u8, usize),
}

// The sheet, or what is asked of choices.
#[derive(Clone, Copy)]
pub enum Request {
    Sheet,
    Choice(Query),
}

// Whether the ends' paths are shown.
fn is_shown(request: Request) -> bool
    ensures { result ≡ shows request }
{
    match request {
        Request::Sheet => true,
        Request::Choice(_) => false,
    }
}

// The board is laid over what was read of the marking, and the request answered.
fn respond(
    t: &[u8],
    table: Table,
    b: &[u8],
    fields: Fields,
    g: &[u8],
    bounds: &[u8],
    request: Request,
    choice: &[u8],
    out: &mut [u8],
) -> Result<usize, Refusal>
    requires { (table_read t.now ≡ good table) × LiveMarking t.now b.now (fields_held fields) × (terms_fine t.now g.now bounds.now ≡ good tt) }
    ensures { Responds request t.now b.now (terms g.now bounds.now) choice.now (word_of result) out.old out.new × BelowRefusals result }
{
    let mut rows = [0u64; offers::CELLS];
    let mut found = [0u8; offers::MOST_ENDS];
    let mut order = [0u8; ends_paths::BLOCKS];
    let mut lens = [0u8; ends_paths::BLOCKS];
    let mut cells = [0u8; ends_paths::CELLS];
    let board = board::lay(
        t,
        table,
        b,
        fields,
        g,
        bounds,
        is_shown(request),
        &mut rows,
        &mut found,
        &mut order,
        &mut lens,
        &mut cells,
    )?;
    let n = board.ends;
    let asked = match request {
        Request::Sheet => return sheet_write::show(&rows, &found, &order, &lens, &cells, n, out),
        Request::Choice(asked) => asked,
    };
    let ends = ends_masks::seat(t, table, &rows, &found, n);
    let offers = offers_all::assemble(&rows, board.offers);
    let kept = fields.kept;
    match asked {
        Query::Pick(node) => pick::pick(t, table, offers, ends, kept, node, out),
        Query::Why(node) => why::why(t, table, offers, ends, kept, node, out),
        Query::Step => step::step(t, table, b, choice, offers, ends, fields, out),
        Query::Count(node, k) => Ok(why::states(t, table, offers, ends, kept, node, k)),
    }
}

// The table, the marking and the terms are read (rows 1 to 7, and 18), and the request answered.
pub fn ask(
    t: &[u8],
    b: &[u8],
    g: &[u8],
    bounds: &[u8],
    request: Request,
    choice: &[u8],
    out: &mut [u8],
) -> Result<usize, Refusal>
    ensures { Responds request t.now b.now (terms g.now bounds.now) choice.now (word_of result) out.old out.new × BelowRefusals result }
{
    let table = table_read::read(t)?;
    let mut from = [0u16; Table::MOST_NODES];
    let mut kept = [0u8; Table::MOST_NODES];
    let mut tokens = [0u8; Table::MOST_EDGES];
    let ended = marking::read(t, table, b, &mut from, &mut kept, &mut tokens)?;
    if ended {
        return Err(Refusal::Ended);
    }
    terms::read(t, table, g, bounds)?;
    let fields = Fields {
        from: from,
        kept: kept,
        tokens: tokens,
    };
    respond(t, table, b, fields, g, bounds, request, choice, out)
}
