// The first set of ends that passes a net of rules. The search recurses on the number of ends still open, first choice first, and knows nothing but
// the net and the ends that are wanted. What makes it fast is pruning, and scouting. Assumes no more than its `requires`.
#![tactic(auto)]

ghost use Rattle.std.specs.Prelude.{◌≡◌, Bool, true, false, cond, ℕ, ◌+◌, ◌%◌, ◌^◌, ◌≤◌, ◌<◌, length};
ghost use Rattle.std.proofs.Math.Option.{none, some};
ghost use Rattle.paper.specs.Lists.{has};
ghost use Rattle.paper.proofs.Search.{look};
ghost use Rattle.pick_bounds.specs.Net.{meets, net_of};
ghost use Rattle.pick_bounds.specs.Bounds.{good, Between};
ghost use Rattle.pick_twins.specs.Twins.{Lacking};
ghost use Rattle.pick_scout.specs.Scouting.{said, seen};
ghost use Rattle.pick_search.specs.Searching.{Answers, AtPlace, Skipped, stepped, Visited};
ghost use Rattle.paper.specs.Limits.{limits};

use pick_bounds::{Bounds, Wanted};
use pick_scout::{Hint, Visit};

// Where the search is: the weight of the first open end, and the ends taken before it.
#[derive(Clone, Copy)]
struct Place {
    bit: u32,
    taken: u32,
}

// One end less is open: taken, if `end` is its weight, and left, if that is 0.
fn step(p: Place, end: u32) -> Place
    requires { (p.bit ≤ 524288) × (p.taken < p.bit) × (end ≤ p.bit) }
    ensures { result ≡ stepped p end }
{
    Place {
        bit: p.bit * 2,
        taken: p.taken + end,
    }
}

// Where the search goes on, and how many ends are open there.
#[derive(Clone, Copy)]
struct Spot {
    left: usize,
    place: Place,
}

// Whether an end may be had or left.
fn is_open(end: u32, b: Bounds) -> bool
    ensures { result ≡ false → meets 32 b.may end ≡ true → meets 32 b.must end ≡ true }
{
    if !pick_bounds::meets(b.may, end) {
        return false;
    }
    !pick_bounds::meets(b.must, end)
}

// One end less is open: taken, if it may be had.
fn decide(p: Place, b: Bounds) -> Place
    requires { (p.bit ≤ 524288) × (p.taken < p.bit) }
    ensures { result ≡ stepped p (cond (meets 32 b.may p.bit) p.bit 0) }
{
    if pick_bounds::meets(b.may, p.bit) {
        return step(p, p.bit);
    }
    step(p, 0)
}

// The first end that is open between the bounds: those before it are taken if they must be, and left if they may not be had.
fn skip(m: usize, left: usize, p: Place, b: Bounds) -> Spot
    requires { (m ≤ limits.most_ends) × AtPlace m left p }
    ensures { (result.left ≤ left) × AtPlace m result.left result.place × ((passing : ℕ → Bool) → Skipped passing m left p b result) }
{
    let mut place = p;
    for i in (0..left).rev() {
        if is_open(place.bit, b) {
            return Spot { left: i + 1, place };
        }
        place = decide(place, b);
    }
    Spot { left: 0, place }
}

// A set found, or nothing.
fn answer(passes: bool, c: u32, states: usize) -> Visit
    ensures { (said result ≡ cond passes (some c) none) × (seen result ≡ states) }
{
    let found = if passes { Ok(c) } else { Err(0) };
    Visit { found, states }
}

// Whether all ends that may be had pass together, and begin with those taken: then no other set comes before them.
fn is_first(net: &[u32], want: Wanted, m: usize, p: Place, b: Bounds) -> bool
    requires { (limits.most_ends ≤ length net.now) × (m ≤ limits.most_ends) × (1 ≤ p.bit) }
    ensures { result ≡ true → (b.may < 2 ^ m) × (b.may % p.bit ≡ p.taken) × (good net.now want b.may ≡ true) }
{
    if b.may % p.bit != p.taken {
        return false;
    }
    if words::end_of(m) <= b.may {
        return false;
    }
    pick_bounds::passes(net, want, b.may)
}

// Ends that are gone with end k, with which nothing was found by a survey: it, and those that can change places with it.
fn gone(net: &[u32], want: Wanted, k: usize, end: u32, v: Visit, b: Bounds) -> u32
    requires { limits.most_ends ≤ length net.now }
    ensures { end ≡ 2 ^ k → (said v ≡ none → Lacking (good net.now want) b k) → (x : ℕ) → good net.now want x ≡ true → Between b x → has x k ≡ false → meets 32 x result ≡ false }
{
    if v.found.is_ok() {
        return end;
    }
    end | pick_twins::twins(net, want, k, b)
}

// The first set that passes among those that have `p.taken` before the open ends, if those that pass lie between the bounds.
fn search(net: &[u32], want: Wanted, m: usize, left: usize, p: Place, b: Bounds, h: Hint) -> Visit
    requires { (limits.most_ends ≤ length net.now) × (m ≤ limits.most_ends) × AtPlace m left p }
    ensures { Visited (good net.now want) m left p b result }
{
    if pick_bounds::is_dead(b) {
        return pick_scout::at_once(Err(0));
    }
    let s = skip(m, left, p, b);
    let q = s.place;
    if s.left == 0 {
        return answer(pick_bounds::passes(net, want, q.taken), q.taken, 1);
    }
    let fewer = s.left - 1;
    let with = pick_bounds::settle(net, want, pick_bounds::add(q.bit, b));
    let taking = step(q, q.bit);
    if is_first(net, want, m, taking, with) {
        return pick_scout::at_once(Ok(with.may));
    }
    let view = pick_scout::survey(net, want, m, h, with);
    let told = pick_scout::hint_of(view, h);
    let mut tried = view.states;
    if view.found.is_ok() {
        let f = search(net, want, m, fewer, taking, with, told);
        if f.found.is_ok() {
            return pick_scout::after(tried, f);
        }
        tried += f.states;
    }
    let lost = gone(net, want, m - s.left, q.bit, view, b);
    let out = pick_bounds::settle(net, want, pick_bounds::strike(lost, b));
    let leaving = step(q, 0);
    if is_first(net, want, m, leaving, out) {
        return Visit {
            found: Ok(out.may),
            states: tried + 1,
        };
    }
    let v = search(net, want, m, fewer, leaving, out, told);
    pick_scout::after(tried, v)
}

// The search over all sets of m ends.
fn search_all(net: &[u32], want: Wanted, m: usize) -> Visit
    requires { (limits.most_ends ≤ length net.now) × (m ≤ limits.most_ends) }
    ensures { (said result ≡ look (good net.now want) m 0 0) × ((1 ≤ seen result) × (seen result < 2 ^ (m + 22))) }
{
    let p = Place { bit: 1, taken: 0 };
    let all = Bounds {
        must: 0,
        may: words::end_of(m) - 1,
    };
    let b = pick_bounds::settle(net, want, all);
    if is_first(net, want, m, p, b) {
        return pick_scout::at_once(Ok(b.may));
    }
    let h = Hint {
        ends: u32::MAX,
        blame: 0,
    };
    let view = pick_scout::scout(net, want, m, h, b);
    if view.found.is_err() {
        return view;
    }
    let v = search(net, want, m, m, p, b, pick_scout::hint_of(view, h));
    pick_scout::after(view.states, v)
}

// The first set of m ends that passes the net and holds what is wanted.
pub fn first(net: &[u32], want: Wanted, m: usize) -> Option<u32>
    requires { (limits.most_ends ≤ length net.now) × (m ≤ limits.most_ends) }
    ensures { Answers (net_of net.now want) m result }
{
    search_all(net, want, m).found.ok()
}

// How many states that search visits: what a test can hold down.
pub fn states(net: &[u32], want: Wanted, m: usize) -> usize
    requires { (limits.most_ends ≤ length net.now) × (m ≤ limits.most_ends) }
    ensures { (1 ≤ result) × (result < 2 ^ (m + 22)) }
{
    search_all(net, want, m).states
}
