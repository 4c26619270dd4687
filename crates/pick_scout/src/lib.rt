// Whether some set of ends between two bounds passes a net of rules: one is looked for where demands leave the fewest ways, so that what can't be served is
// found out at once, however many ends stand before it. Assumes no more than its `requires`.
#![tactic(auto)]

ghost use Rattle.std.specs.Prelude.{◌≡◌, Some, ℕ, ◌+◌, ◌^◌, ◌≤◌, ◌<◌, length};
ghost use Rattle.pick_bounds.specs.Bounds.{good};
ghost use Rattle.pick_scout.specs.Scouting.{said, seen, at_once, Hinted, Scouted};
ghost use Rattle.paper.specs.Limits.{limits};

use pick_bounds::{Bounds, Wanted};

// What a search found, or else ends to blame that could not be had, and how many states it visited.
#[derive(Clone, Copy)]
pub struct Visit {
    pub found: Result<u32, u32>,
    pub states: usize,
}

// What guides a search, and nothing relies on: a set in view, and ends that could not be had.
#[derive(Clone, Copy)]
pub struct Hint {
    pub ends: u32,
    pub blame: u32,
}

// ---- visits

// What one state shows.
pub fn at_once(found: Result<u32, u32>) -> Visit
    ensures { result ≡ at_once found }
{
    Visit { found, states: 1 }
}

// The same find, with the states visited before it.
pub fn after(states: usize, v: Visit) -> Visit
    requires { states + seen v < 2 ^ 64 }
    ensures { (said result ≡ said v) × (seen result ≡ states + seen v) }
{
    Visit {
        found: v.found,
        states: states + v.states,
    }
}

// The hint that a visit leaves: its set, or else what it blames, if anything.
pub fn hint_of(v: Visit, h: Hint) -> Hint
    ensures { Hinted v h result }
{
    match v.found {
        Ok(c) => Hint {
            ends: c,
            blame: h.blame,
        },
        Err(c) => blaming(c, h),
    }
}

// The hint with these ends to blame, if there are any.
fn blaming(ends: u32, h: Hint) -> Hint
    ensures { result.ends ≡ h.ends }
{
    if ends == 0 {
        return h;
    }
    Hint {
        ends: h.ends,
        blame: ends,
    }
}

// ---- scouting

// The end to try next of these, if there are any: one of the set in view, if there is such. A hint: any end would do.
fn next_of(ends: u32, view: u32) -> Option<usize>
    ensures { (k : ℕ) → result ≡ Some k → k < 32 }
{
    if ends & view != 0 {
        return Some((ends & view).trailing_zeros() as usize);
    }
    if ends != 0 {
        return Some(ends.trailing_zeros() as usize);
    }
    None
}

// A set between bounds where nothing is lacked: all that may be had, if that passes. A hint: the more ends it has, the fewer scouts follow.
fn widest(net: &[u32], want: Wanted, b: Bounds) -> u32
    requires { limits.most_ends ≤ length net.now }
{
    if pick_bounds::passes(net, want, b.may) {
        return b.may;
    }
    b.must
}

// Looks for some set that passes between settled bounds, trying at most so many ends. Only 'nothing' is sure.
pub fn scout(net: &[u32], want: Wanted, left: usize, h: Hint, b: Bounds) -> Visit
    requires { (limits.most_ends ≤ length net.now) × (left ≤ limits.most_ends) }
    ensures { Scouted (good net.now want) left b result }
{
    if pick_bounds::is_dead(b) {
        return at_once(Err(0));
    }
    let Some(next) = pick_demands::look(net, want, h.blame, b) else {
        return at_once(Err(0));
    };
    let k = match next_of(next.ends, h.ends) {
        Some(k) if 0 < left => k,
        _ => return at_once(Ok(widest(net, want, b))),
    };
    let end = words::end_of(k);
    let with = pick_bounds::settle(net, want, pick_bounds::add(end, b));
    let f = scout(net, want, left - 1, h, with);
    if f.found.is_ok() {
        return after(1, f);
    }
    let told = hint_of(f, blaming(next.ends, h));
    let gone = end | pick_twins::twins(net, want, k, b);
    let out = pick_bounds::settle(net, want, pick_bounds::strike(gone, b));
    let v = scout(net, want, left - 1, told, out);
    after(f.states + 1, blamed(v, told.blame))
}

// A visit that found nothing blames these ends, if it has none to blame.
fn blamed(v: Visit, ends: u32) -> Visit
    ensures { (said result ≡ said v) × (seen result ≡ seen v) }
{
    Visit {
        found: v.found.map_err(|c| either(c, ends)),
        states: v.states,
    }
}

fn either(c: u32, d: u32) -> u32 {
    if c == 0 {
        return d;
    }
    c
}

// Whether a set in view lies between the bounds.
fn is_in_view(h: Hint, b: Bounds) -> bool {
    if h.ends & b.may != h.ends {
        return false;
    }
    h.ends & b.must == b.must
}

// What is known before an end is tried, with which the bounds are b: a set in view spares the scout.
pub fn survey(net: &[u32], want: Wanted, m: usize, h: Hint, b: Bounds) -> Visit
    requires { (limits.most_ends ≤ length net.now) × (m ≤ limits.most_ends) }
    ensures { Scouted (good net.now want) m b result }
{
    if is_in_view(h, b) {
        return at_once(Ok(h.ends));
    }
    scout(net, want, m, h, b)
}
