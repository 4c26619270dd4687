// The look-ahead of a join: whether it is sure that no offer can be found for every edge that is still open.
// Words and numbers only: offers are numbers below `count`, `edges[k]` is the word of the offers on edge k, `rivals[i]` that of the offers that
// compete with offer i. Assumes no more than its `requires`.
#![tactic(auto)]

ghost use Rattle.std.specs.Prelude.{◌≡◌, true, IfSome, ◌≤◌, ◌<◌, length};
ghost use Rattle.offers_ahead.specs.Dead.{Dead, AheadRoom, Open};
ghost use Rattle.paper.specs.Limits.{limits};

use words::{bit_of, in_word};

// The open edge with the fewest free offers, if one is open.
fn fewest(edges: &[u64], from: usize, to: usize, served: u64, blocked: u64) -> Option<usize>
    requires { (to ≤ length edges.now) × (to ≤ limits.most_offers) }
    ensures { IfSome result (λ k. Open from to served k) }
{
    let mut best = None;
    let mut low: u32 = 65;
    for k in from..to {
        if !in_word(served, k) {
            // blocked offers count on every edge alike
            let n = u64::count_ones(edges[k] | blocked);
            if n < low {
                best = Some(k);
                low = n;
            }
        }
    }
    best
}

// The offers on the open edges other than k.
fn others(edges: &[u64], from: usize, to: usize, served: u64, k: usize) -> u64
    requires { (to ≤ length edges.now) × (to ≤ limits.most_offers) }
{
    let mut x: u64 = 0;
    for j in from..to {
        if !in_word(served, j) && j != k {
            x |= edges[j];
        }
    }
    x
}

// Whether a free offer of s has no free rival in x.
fn spare(rivals: &[u64], count: usize, s: u64, x: u64, blocked: u64) -> bool
    requires { (count ≤ length rivals.now) × (count ≤ limits.most_offers) }
{
    for i in 0..count {
        if in_word(s, i) && !in_word(blocked, i) && (rivals[i] & x) | blocked == blocked {
            return true;
        }
    }
    false
}

// Open edges that can always be served: they can't make a branch dead. A hint: fewer edges to serve are dead all the more.
fn idle(
    rivals: &[u64],
    edges: &[u64],
    count: usize,
    from: usize,
    to: usize,
    served: u64,
    blocked: u64,
) -> u64
    requires { AheadRoom rivals.now edges.now count to }
{
    let mut x: u64 = 0;
    for k in from..to {
        if !in_word(served, k) {
            let y = others(edges, from, to, served | x, k);
            if spare(rivals, count, edges[k], y, blocked) {
                x |= bit_of(k);
            }
        }
    }
    x
}

// Whether it is sure that no way goes on: of the edges `from` to `to` those not in `served` are open, and offers in `blocked` can't be taken.
// At most `depth` edges are tried; where that is too few the answer is no, which is always sound.
pub fn dead(
    rivals: &[u64],
    edges: &[u64],
    count: usize,
    from: usize,
    to: usize,
    served: u64,
    blocked: u64,
    depth: usize,
) -> bool
    requires { AheadRoom rivals.now edges.now count to }
    ensures { result ≡ true → Dead rivals.now edges.now count from to served blocked }
{
    if depth == 0 {
        return false;
    }
    let v = served | idle(rivals, edges, count, from, to, served, blocked);
    let Some(k) = fewest(edges, from, to, v, blocked) else {
        return false;
    };
    let s = edges[k];
    let u = v | bit_of(k);
    for i in 0..count {
        if in_word(s, i)
            && !in_word(blocked, i)
            && !dead(
                rivals,
                edges,
                count,
                from,
                to,
                u,
                blocked | rivals[i],
                depth - 1,
            )
        {
            return false;
        }
    }
    true
}
