// What a call says of the edges of its table: guards (row 7) and bounds (row 18) read, and the gate that they make of each edge.
// The table's bytes were read as a table; what is lent for guards and bounds may be anything.
#![tactic(auto)]

mod bounds;
mod guards;

ghost use Rattle.std.specs.Prelude.{◌≡◌, List, Bool, ℕ, ◌<◌, length};
ghost use Rattle.std.proofs.Math.Option.{Option};
ghost use Rattle.paper.specs.Lists.{at};
ghost use Rattle.table.specs.Reading.{Spans};
ghost use Rattle.offers_over.specs.Over.{admitted};
ghost use Rattle.terms.specs.Terms.{terms_fine, Ties};
ghost use Rattle.wire.specs.Refusals.{said};

use offers_over::Gate;
use table::Table;
use wire::Refusal;

// The guards and the bounds, judged: row 7, then row 18.
pub fn read(t: &[u8], table: Table, g: &[u8], x: &[u8]) -> Result<(), Refusal>
    requires { Spans t.now table }
    ensures { said result ≡ terms_fine t.now g.now x.now }
{
    if !guards::guards_fine(t, table, g) {
        return Err(Refusal::Guards);
    }
    if !bounds::bounds_fine(t, table, x) {
        return Err(Refusal::Bounds);
    }
    Ok(())
}

// What edge e lets over by the entries of a list, where its guard lets everything over.
fn bounded(x: &[u8], e: usize) -> Gate
    ensures { (t g : List ℕ) (goes : ℕ → Option ℕ → Bool) → Ties t g x.now goes → at g e ≡ 1 → (v : Option ℕ) → goes e v ≡ admitted result v }
{
    let n = bounds::entries(x);
    let Some(k) = bounds::find(x, n, e) else {
        return Gate::Open;
    };
    let (low, high) = bounds::low_high(x, n, k);
    Gate::Within {
        low: low as u64,
        high: high as u64,
    }
}

// What edge e lets over. A list that wasn't judged may make any gate of it. The list with count 0 is asked for nothing else: most calls have it.
pub fn gate(g: &[u8], x: &[u8], e: usize) -> Gate
    requires { e < length g.now }
    ensures { (t : List ℕ) (goes : ℕ → Option ℕ → Bool) → Ties t g.now x.now goes → (v : Option ℕ) → goes e v ≡ admitted result v }
{
    if g[e] != 1 {
        return Gate::Closed;
    }
    if x.len() < bounds::ONE_ENTRY {
        return Gate::Open;
    }
    bounded(x, e)
}
