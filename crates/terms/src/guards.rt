// Row 7: guards, a byte for each edge.
// The table's bytes were read as a table.
ghost use Rattle.std.specs.Prelude.{◌≡◌, ◌&&◌, ◌<◌, leb, eqb, length};
ghost use Rattle.paper.specs.Lists.{at, ◌⇒◌};
ghost use Rattle.paper.specs.Table.{guarded};
ghost use Rattle.paper.specs.Offers.{guards_fine};
ghost use Rattle.table.specs.Reading.{Spans};

use table::Table;

// Whether edge j's byte is 0 or 1, and 1 if the edge is unguarded.
fn guard_fine(t: &[u8], table: Table, g: &[u8], j: usize) -> bool
    requires { Spans t.now table × (j < table.edges) × (j < length g.now) }
    ensures { result ≡ leb (at g.now j) 1 && (eqb (guarded t.now j) 0 ⇒ eqb (at g.now j) 1) }
{
    if 1 < g[j] {
        return false;
    }
    if table.guarded(t, j) != 0 {
        return true;
    }
    g[j] == 1
}

// Whether there is a byte for each edge, and each is fine.
pub fn guards_fine(t: &[u8], table: Table, g: &[u8]) -> bool
    requires { Spans t.now table }
    ensures { result ≡ guards_fine t.now g.now }
{
    let n = table.edges;
    if g.len() != n {
        return false;
    }
    for j in 0..n {
        if !guard_fine(t, table, g, j) {
            return false;
        }
    }
    true
}
