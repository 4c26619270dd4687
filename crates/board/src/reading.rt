// Row 8, and the ends in order: the board that is laid over the fields of a marking, under guards and bounds that were read. The fields go by value;
// the rows of the offers, the ends and their paths stand in lent slices.
ghost use Rattle.std.specs.Prelude.{◌≡◌, [], ◌≤◌, length};
ghost use Rattle.paper.specs.Answers.{good};
ghost use Rattle.paper.specs.Limits.{limits};
ghost use Rattle.paper.specs.Table.{edges};
ghost use Rattle.paper.specs.Marking.{Marking, Good};
ghost use Rattle.paper.specs.Offers.{terms};
ghost use Rattle.table.specs.Reading.{table_read};
ghost use Rattle.offers.specs.Rows.{Ranges, row_cells};
ghost use Rattle.terms.specs.Terms.{terms_fine, Ties};
ghost use Rattle.offers_over.specs.Over.{Space};
ghost use Rattle.offers_all.specs.Stages.{Gates, Result};
ghost use Rattle.marking_held.specs.MarkingHeld.{MarkingHeld, LiveMarking, fields_held, FieldsLengths};
ghost use Rattle.board.specs.Reading.{ends_lent, EndsRoom, BoardLaid};

use marking::Fields;
use table::Table;
use wire::Refusal;

// What sheet, pick, why and step are asked about: how many offers and ends there are.
#[derive(Clone, Copy)]
pub struct Counts {
    pub offers: usize,
    pub ends: usize,
}

// The offers of a marking, in rows; `from` and `to` get for each edge the segment of its offers.
fn offered(
    t: &[u8],
    table: Table,
    b: &[u8],
    fields: Fields,
    g: &[u8],
    bounds: &[u8],
    rows: &mut [u64],
    from: &mut [u8],
    to: &mut [u8],
) -> Option<usize>
    requires { (table_read t.now ≡ good table) × FieldsLengths fields × (edges t.now ≤ length g.now) × Space rows.old from.old to.old 0 }
    ensures { Ranges from.new to.new limits.most_offers × ((m : Marking) (goes : Gates) → Ties t.now g.now bounds.now goes → Good t.now m → MarkingHeld t.now m b.now [] (fields_held fields) → Result t.now m goes rows.new result from.new to.new) }
{
    offers_all::build(t, table, g, bounds, b, fields, rows, from, to)
}

// The board; the paths of its ends are put together where they are to be shown.
pub fn lay(
    t: &[u8],
    table: Table,
    b: &[u8],
    fields: Fields,
    g: &[u8],
    bounds: &[u8],
    show: bool,
    rows: &mut [u64],
    ends: &mut [u8],
    order: &mut [u8],
    lens: &mut [u8],
    cells: &mut [u8],
) -> Result<Counts, Refusal>
    requires { (table_read t.now ≡ good table) × FieldsLengths fields × (edges t.now ≤ length g.now) × (row_cells ≤ length rows.old) × EndsRoom (ends_lent ends.old order.old lens.old cells.old) }
    ensures { LiveMarking t.now b.now (fields_held fields) → terms_fine t.now g.now bounds.now ≡ good tt → BoardLaid show t.now b.now (terms g.now bounds.now) (fields_held fields) rows.new (ends_lent ends.new order.new lens.new cells.new) result }
{
    let mut low = [0u8; Table::MOST_EDGES];
    let mut high = [0u8; Table::MOST_EDGES];
    let offers = offered(t, table, b, fields, g, bounds, rows, &mut low, &mut high).ok_or(
        Refusal::Size,
    )?;
    let count = ends::arrange(t, table, rows, &low, &high, show, ends, order, lens, cells)?;
    Ok(Counts {
        offers: offers,
        ends: count,
    })
}
