// Ends that can change places: no rule, no rival and no wish tells them apart, so that where one can't be had the others can't either.
// That not all such ends are found is no promise broken. Assumes no more than its `requires`.
#![tactic(auto)]

ghost use Rattle.std.specs.Prelude.{◌≡◌, true, ℕ, ◌^◌, ◌≤◌, ◌<◌, length};
ghost use Rattle.paper.specs.Lists.{has};
ghost use Rattle.pick_bounds.specs.Net.{size, rule_at};
ghost use Rattle.pick_bounds.specs.Bounds.{good};
ghost use Rattle.pick_twins.specs.Twins.{AlikeAll, AlikeRivals, SharesRivals, Lacking};
ghost use Rattle.paper.specs.Limits.{limits};

use pick_bounds::{Bounds, Wanted};

// Of these ends those that a set doesn't tell from end k.
fn alike(c: u32, k: usize, ends: u32) -> u32
    requires { k < 32 }
    ensures { (j : ℕ) → has result j ≡ true → (has ends j ≡ true) × (has c j ≡ has c k) }
{
    if pick_bounds::meets(c, words::end_of(k)) {
        return ends & c;
    }
    pick_bounds::without(ends, c)
}

// Of these ends those that no rule tells from end k.
fn alike_in_rules(net: &[u32], k: usize, ends: u32) -> u32
    requires { (limits.most_ends ≤ length net.now) × (k < 32) }
    ensures { (j : ℕ) → has result j ≡ true → (has ends j ≡ true) × AlikeAll net.now k j }
{
    let mut same = ends;
    for i in 0..pick_bounds::size(net) {
        let rule = pick_bounds::rule_at(net, i);
        same = alike(rule.only, k, alike(rule.when, k, same));
    }
    same
}

// Of these ends those that the rivals of end i don't tell from end k; end i itself may be one.
fn alike_but(rivals: u32, k: usize, i: usize, ends: u32) -> u32
    requires { (k < 32) × (i < 32) }
    ensures { (j : ℕ) → has result j ≡ true → (has ends j ≡ true) × ((i ≡ k → ⊥) → (j ≡ i → ⊥) → has rivals j ≡ has rivals k) }
{
    if i == k {
        return ends;
    }
    alike(rivals, k, ends) | (ends & words::end_of(i))
}

// Of these ends those that no other end's rivals tell from end k.
fn alike_in_rivals(net: &[u32], k: usize, ends: u32) -> u32
    requires { (limits.most_ends ≤ length net.now) × (k < 32) }
    ensures { (j : ℕ) → has result j ≡ true → (has ends j ≡ true) × AlikeRivals net.now k j }
{
    let mut same = ends;
    for i in 0..pick_bounds::ENDS {
        same = alike_but(net[i], k, i, same);
    }
    same
}

// Of these ends those that have all rivals of end k, themselves aside.
fn with_rivals(net: &[u32], k: usize, ends: u32) -> u32
    requires { (limits.most_ends ≤ length net.now) × (k < limits.most_ends) }
    ensures { (j : ℕ) → has result j ≡ true → (has ends j ≡ true) × SharesRivals net.now k j }
{
    let mut kept: u32 = 0;
    let mut left = ends;
    while left != 0 {
        let j = pick_bounds::first_of(left);
        kept |= shared(net, k, j);
        left = pick_bounds::without(left, words::end_of(j));
    }
    kept
}

// End j alone, if it has all rivals of end k, itself aside, and nothing if not.
fn shared(net: &[u32], k: usize, j: usize) -> u32
    requires { (limits.most_ends ≤ length net.now) × (k < limits.most_ends) × (j < 32) }
    ensures { (i : ℕ) → has result i ≡ true → (i ≡ j) × SharesRivals net.now k i }
{
    if pick_bounds::ENDS <= j {
        return 0;
    }
    let end = words::end_of(j);
    if pick_bounds::without(net[k], net[j] | end) != 0 {
        return 0;
    }
    end
}

// Open ends that can change places with end k, if it may be had.
pub fn twins(net: &[u32], want: Wanted, k: usize, b: Bounds) -> u32
    requires { limits.most_ends ≤ length net.now }
    ensures { Lacking (good net.now want) b k → (j : ℕ) → has result j ≡ true → Lacking (good net.now want) b j }
{
    if pick_bounds::ENDS <= k {
        return 0;
    }
    let end = words::end_of(k);
    if !pick_bounds::meets(b.may, end) {
        return 0;
    }
    if pick_bounds::meets(net[k], end) {
        return 0;
    }
    let open = pick_bounds::without(b.may, b.must | end);
    let same = alike(want.ends, k, alike_in_rules(net, k, open));
    if same == 0 {
        return 0;
    }
    with_rivals(net, k, alike_in_rivals(net, k, same))
}
