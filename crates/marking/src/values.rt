// Row 15: reading value lists, for start and finish alike. One walk over the nodes notes where each listed node's values stand.
ghost use Rattle.std.specs.Prelude.{◌≡◌, ◌≤◌, ◌<◌, length, drop};
ghost use Rattle.paper.specs.Limits.{limits};
ghost use Rattle.paper.specs.Bytes.{values_read, each_read};
ghost use Rattle.paper.specs.Operations.{value_lists};
ghost use Rattle.table.specs.Reading.{Spans};
ghost use Rattle.marking.specs.Reading.{Reads};
ghost use Rattle.marking.specs.Values.{is_listed, listed_at, listed_nodes, ValuesRead};

use super::reading::stock_end;
use table::Table;
use wire::Refusal;

// Whether node i has a list: it is of the kind and has the owner asked for.
pub fn is_listed(t: &[u8], table: Table, kind: usize, owner: usize, i: usize) -> bool
    requires { Spans t.now table × (i < table.nodes) }
    ensures { result ≡ is_listed t.now kind owner i }
{
    if table.kind(t, i) != kind {
        return false;
    }
    table.owner(t, i) == owner
}

// The list of node i, if it has one.
fn list_end(
    t: &[u8],
    table: Table,
    kind: usize,
    owner: usize,
    b: &[u8],
    from: usize,
    i: usize,
) -> Option<usize>
    requires { Spans t.now table × (i < table.nodes) × (from ≤ length b.now) }
    ensures { Reads result (each_read (λ p. values_read limits.most_upper) (listed_at t.now kind owner i) (drop from b.now)) b.now }
{
    if is_listed(t, table, kind, owner, i) {
        return stock_end(b, from, Table::MOST_UPPER);
    }
    Some(from)
}

// The lists of the nodes of one kind and owner, to the last byte: where each node's values start, and how many there are. Each list takes at most 65
// bytes, so that two bytes say every place.
pub fn read_values(
    t: &[u8],
    table: Table,
    kind: usize,
    owner: usize,
    b: &[u8],
    place: &mut [u16],
    more: &mut [u8],
) -> Result<(), Refusal>
    requires { Spans t.now table × (table.nodes ≤ length place.old) × (table.nodes ≤ length more.old) }
    ensures { ValuesRead t.now kind owner b.now place.new more.new (value_lists (listed_nodes t.now kind owner) b.now) result }
{
    let mut from: usize = 0;
    for i in 0..table.nodes {
        let q = list_end(t, table, kind, owner, b, from, i).ok_or(Refusal::Values)?;
        // a list is a byte and four bytes a value; a node without one takes none
        let values = (q - from) / 4;
        place[i] = (q - 4 * values) as u16;
        more[i] = (values % 256) as u8;
        from = q;
    }
    if from != b.len() {
        return Err(Refusal::Values);
    }
    Ok(())
}
