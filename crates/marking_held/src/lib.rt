// A marking while it changes, in columns: which values of each stock stay and which come, what runs, and the counts (`Held`). What was read of a marking
// has three of them (`held_of`), and of those an action that ends changes one.
// Functions that read a table's fields require that its bytes were read as a table.
#![tactic(auto)]

ghost use Rattle.std.specs.Prelude.{◌≡◌, true, List, [], ℕ, ◌≤◌, ◌<◌, length};
ghost use Rattle.paper.specs.Table.{kind, is_action};
ghost use Rattle.paper.specs.Marking.{Marking};
ghost use Rattle.paper.specs.Operations.{idled};
ghost use Rattle.table.specs.Reading.{Spans};
ghost use Rattle.marking_held.specs.MarkingHeld.{MarkingHeld, held_of};

use marking::is_listed;
use table::Table;

// Action a is idle, and its input pins are empty. A stock's count and a running byte stand at the same place, so that what is kept says both.
pub fn idle(t: &[u8], table: Table, a: usize, kept: &mut [u8])
    requires { Spans t.now table × (a < table.nodes) × (table.nodes ≤ length kept.old) }
    ensures { is_action (kind t.now a) ≡ true → (m : Marking) (old from tokens : List ℕ)
        → MarkingHeld t.now m old [] (held_of from kept.old tokens)
        → MarkingHeld t.now (idled t.now a m) old [] (held_of from kept.new tokens) }
{
    kept[a] = 0;
    for i in 0..table.nodes {
        if is_listed(t, table, Table::INPUT, a, i) {
            kept[i] = 0;
        }
    }
}
