// Masks of ends: for each edge or node, the ends that have it in a column. A choice is a mask too, so the taken ones among them are the ones of both.
// Assumes no more than its `requires`.
#![tactic(auto)]

ghost use Rattle.std.specs.Prelude.{◌≡◌, ◌^◌, ◌≤◌, ◌<◌, length, set};
ghost use Rattle.std.specs.Int.Bits.{bit_or};
ghost use Rattle.paper.specs.Lists.{at};
ghost use Rattle.table.specs.Reading.{Blank};
ghost use Rattle.choice_masks.specs.Masks.{Masked};
ghost use Rattle.paper.specs.Limits.{limits};

// End k, in the word of x; past the last word there is none to put it in.
fn add_end(masks: &mut [u32], x: usize, k: usize)
    requires { k < 32 }
    ensures { masks.new ≡ set masks.old x (bit_or (at masks.old x) (2 ^ k)) }
{
    if masks.len() <= x {
        return;
    }
    masks[x] = masks[x] | words::end_of(k);
}

// For each number, the ends that have it in a column.
pub fn fill_masks(masks: &mut [u32], column: &[u8], n: usize)
    requires { Blank masks.old × (n ≤ length column.now) × (n ≤ limits.most_ends) }
    ensures { Masked column.now n masks.new }
{
    for k in 0..n {
        add_end(masks, wire::wide(column[k]), k);
    }
}

// The ends that belong to node i: those at it, and if it is an action those at its pins.
pub fn owned(by_target: &[u32], by_home: &[u32], i: usize) -> u32
    requires { (i < length by_target.now) × (i < length by_home.now) }
    ensures { result ≡ bit_or (at by_target.now i) (at by_home.now i) }
{
    by_target[i] | by_home[i]
}
