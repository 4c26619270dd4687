// The ends that belong to a node, as a word, and what a named node wants of a choice.
// Words and numbers only: what they mean for offers is said by the laws of seating. Assumes no more than its `requires`.
#![tactic(auto)]

ghost use Rattle.std.specs.Prelude.{◌≡◌, not, ◌||◌, ℕ, ◌≤◌, leb, eqb, length};
ghost use Rattle.paper.specs.Lists.{at};
ghost use Rattle.paper.specs.Operations.{named};
ghost use Rattle.offers.specs.Sets.{Marks};
ghost use Rattle.pick_bounds.specs.Net.{held};
ghost use Rattle.ends_masks.specs.Seating.{served};
ghost use Rattle.paper.specs.Limits.{limits};

use pick_bounds::Wanted;

// The ends that belong to node i: those at it, and if it is an action those at its pins.
fn owned(target: &[u8], home: &[u8], n: usize, i: usize) -> u32
    requires { (n ≤ length target.now) × (n ≤ length home.now) × (n ≤ limits.most_ends) }
    ensures { Marks (λ k. eqb (at target.now k) i || eqb (at home.now k) i) n result }
{
    ends_masks::same(target, n, i) | ends_masks::same(home, n, i)
}

// The ends of a named node, of which one at least is wanted; 255 names none.
pub fn wanted(target: &[u8], home: &[u8], n: usize, node: u8) -> Wanted
    requires { (n ≤ length target.now) × (n ≤ length home.now) × (n ≤ limits.most_ends) }
    ensures { (c : ℕ) → leb result.least (held n c result.ends) ≡ not (named node) || served target.now home.now n c node }
{
    if node == 255 {
        return Wanted { ends: 0, least: 0 };
    }
    Wanted {
        ends: owned(target, home, n, wire::wide(node)),
        least: 1,
    }
}
