// What the rules of a net ask of the ends that are open between bounds, and whether more is asked for than can be had: than goes together, or than a rule
// has room for. That nothing is left is sure where it is said; that it isn't said where nothing is left is no promise. Assumes no more than its `requires`.
#![tactic(auto)]

ghost use Rattle.std.specs.Prelude.{◌≡◌, Bool, true, None, ℕ, ◌≤◌, ◌<◌, length, take};
ghost use Rattle.std.specs.Int.Bits.{bit_and};
ghost use Rattle.paper.specs.Lists.{has};
ghost use Rattle.pick_bounds.specs.Net.{meets, held};
ghost use Rattle.pick_bounds.specs.Bounds.{good, heeds, Part, Without, Between, NoneIn};
ghost use Rattle.pick_demands.specs.Demands.{Asks, DemandsListed, Shuns, Most, Huddled, Caps, Rouses, Obeying};
ghost use Rattle.paper.specs.Limits.{limits};

use pick_bounds::{Bounds, Rule, Wanted};

// A group of rivals, and the ends that are rivals of all of them.
#[derive(Clone, Copy)]
struct Group {
    ends: u32,
    common: u32,
}

// At most so many of these ends may be had.
#[derive(Clone, Copy)]
struct Room {
    ends: u32,
    most: u32,
}

// A demand is of so many of some open ends. So many are listed at most.
const MOST: usize = 12;

// A demand of nothing.
const NOTHING: Wanted = Wanted { ends: 0, least: 0 };

// ---- rivals

// End k joins a group, if it is a rival of all that are in it.
fn admit(h: Group, foes: u32, k: usize) -> Group
    requires { k < 32 }
    ensures { ((passing : ℕ → Bool) → Shuns passing k foes → Huddled passing h → Huddled passing result) × (has h.common k ≡ true → result.common < h.common) }
{
    let end = words::end_of(k);
    if !pick_bounds::meets(h.common, end) {
        return h;
    }
    Group {
        ends: h.ends | end,
        common: pick_bounds::without(h.common & foes, end),
    }
}

// Some of these ends, the first among them, of which a set that passes has one at most.
fn huddle(net: &[u32], ends: u32) -> u32
    requires { limits.most_ends ≤ length net.now }
    ensures { (want : Wanted) → Most (good net.now want) result 1 }
{
    let mut h = Group {
        ends: 0,
        common: ends,
    };
    while h.common != 0 {
        let k = pick_bounds::first_of(h.common);
        if pick_bounds::ENDS <= k {
            return h.ends;
        }
        h = admit(h, net[k], k);
    }
    h.ends
}

// A number of these ends that no set that passes has more of: groups of rivals are taken away, until none is left.
fn crowd(net: &[u32], ends: u32) -> u32
    requires { limits.most_ends ≤ length net.now }
    ensures { (want : Wanted) → Most (good net.now want) ends result }
{
    let mut left = ends;
    for most in 0..20 {
        if left == 0 {
            return most;
        }
        left = pick_bounds::without(left, huddle(net, left));
    }
    32
}

// ---- one demand

// How many of these ends are lacked, where so many are asked for.
fn lacked(ends: u32, least: u32, b: Bounds) -> u32
    ensures { (free x : ℕ) → Without b.may b.must free → Between b x → least ≤ held 32 x ends → result ≤ held 32 x (bit_and free ends) }
{
    let have = pick_bounds::held(b.must, ends);
    if least <= have {
        return 0;
    }
    least - have
}

// How many open ends of a rule are lacked, if it is set off.
fn lack(want: Wanted, rule: Rule, b: Bounds) -> u32
    ensures { (free : ℕ) → Without b.may b.must free → Asks (heeds want rule) b (bit_and free rule.only) result }
{
    if rule.lo == 0 {
        return 0;
    }
    if !pick_bounds::applies(want, rule.when, b) {
        return 0;
    }
    if pick_bounds::has_least(b.must, rule.only, rule.lo) {
        return 0;
    }
    lacked(rule.only, rule.lo, b)
}

// One demand more on the list, if it is one and there is room.
fn note(list: &mut [Wanted], count: usize, d: Wanted) -> usize
    requires { count ≤ length list.old }
    ensures { (result ≤ length list.new) × ((passing : ℕ → Bool) (b : Bounds) → DemandsListed passing b (take count list.old) → Asks passing b d.ends d.least → DemandsListed passing b (take result list.new)) }
{
    if d.least == 0 || list.len() <= count {
        return count;
    }
    list[count] = d;
    count + 1
}

// ---- the list

// What the rules that are set off lack.
fn list_direct(net: &[u32], want: Wanted, b: Bounds, list: &mut [Wanted]) -> usize
    requires { limits.most_ends ≤ length net.now }
    ensures { (result ≤ length list.new) × DemandsListed (good net.now want) b (take result list.new) }
{
    let open = pick_bounds::without(b.may, b.must);
    let mut count = 0;
    for i in 0..pick_bounds::size(net) {
        let rule = pick_bounds::rule_at(net, i);
        let d = Wanted {
            ends: open & rule.only,
            least: lack(want, rule, b),
        };
        count = note(list, count, d);
    }
    count
}

// Whether a demand can't be met but by one of these ends: fewer of its own are elsewhere.
fn forces(d: Wanted, when: u32) -> bool
    ensures { result ≡ true → (x : ℕ) → d.least ≤ held 32 x d.ends → meets 32 x when ≡ true }
{
    let rest = pick_bounds::without(d.ends, when);
    !pick_bounds::has_least(rest, rest, d.least)
}

// Whether some demand of the list can't be met but by one of these ends.
fn rouses(list: &[Wanted], when: u32) -> bool
    ensures { result ≡ true → Rouses list.now when }
{
    for d in list {
        if forces(*d, when) {
            return true;
        }
    }
    false
}

// How many open ends of a rule are lacked that the list sets off.
fn lack_roused(rule: Rule, b: Bounds, list: &[Wanted]) -> u32
    ensures { (passing : ℕ → Bool) (free : ℕ) → Obeying passing rule → DemandsListed passing b list.now → Without b.may b.must free → Asks passing b (bit_and free rule.only) result }
{
    if pick_bounds::has_least(b.must, rule.only, rule.lo) {
        return 0;
    }
    // what is set off by ends that are taken is listed already
    if pick_bounds::meets(b.must, rule.when) {
        return 0;
    }
    if !rouses(list, rule.when) {
        return 0;
    }
    lacked(rule.only, rule.lo, b)
}

// What the rules that the list sets off lack, from the last rule to the first: inner forks stand before outer ones, and the outer set off the inner.
fn list_roused(net: &[u32], b: Bounds, list: &mut [Wanted], from: usize) -> usize
    requires { (limits.most_ends ≤ length net.now) × (from ≤ length list.old) }
    ensures { (result ≤ length list.new) × ((want : Wanted) → DemandsListed (good net.now want) b (take from list.old) → DemandsListed (good net.now want) b (take result list.new)) }
{
    let open = pick_bounds::without(b.may, b.must);
    let mut count = from;
    for i in (0..pick_bounds::size(net)).rev() {
        let rule = pick_bounds::rule_at(net, i);
        let d = Wanted {
            ends: open & rule.only,
            least: lack_roused(rule, b, &list[..count]),
        };
        count = note(list, count, d);
    }
    count
}

// All that is asked of the open ends.
fn list_all(net: &[u32], want: Wanted, b: Bounds, list: &mut [Wanted]) -> usize
    requires { limits.most_ends ≤ length net.now }
    ensures { (result ≤ length list.new) × DemandsListed (good net.now want) b (take result list.new) }
{
    let direct = list_direct(net, want, b, list);
    let open = pick_bounds::without(b.may, b.must);
    let d = Wanted {
        ends: open & want.ends,
        least: lacked(want.ends, want.least, b),
    };
    let count = note(list, direct, d);
    list_roused(net, b, list, count)
}

// ---- more than can be had

// Two demands as one, if no end is in both.
fn plus(all: Wanted, d: Wanted) -> Wanted
    ensures { ((passing : ℕ → Bool) (b : Bounds) → Asks passing b all.ends all.least → Asks passing b d.ends d.least → Asks passing b result.ends result.least) × ((of : ℕ) → Part all.ends of → Part d.ends of → Part result.ends of) }
{
    if pick_bounds::meets(all.ends, d.ends) {
        return all;
    }
    // no more ends are to be had
    if 32 < all.least || 32 < d.least {
        return all;
    }
    Wanted {
        ends: all.ends | d.ends,
        least: all.least + d.least,
    }
}

// A demand's share of these ends: what is left of it, if all of its others are taken.
fn share(d: Wanted, of: u32) -> Wanted
    ensures { ((passing : ℕ → Bool) (b : Bounds) → Asks passing b d.ends d.least → Asks passing b result.ends result.least) × Part result.ends of }
{
    let rest = pick_bounds::without(d.ends, of);
    if pick_bounds::has_least(rest, rest, d.least) {
        return NOTHING;
    }
    Wanted {
        ends: d.ends & of,
        least: d.least - pick_bounds::held(rest, rest),
    }
}

// What is asked for of these ends in all, the last demands first: those of pins come after those of forks.
fn asked_of(list: &[Wanted], of: u32) -> Wanted
    ensures { ((passing : ℕ → Bool) (b : Bounds) → DemandsListed passing b list.now → Asks passing b result.ends result.least) × Part result.ends of }
{
    let mut all = NOTHING;
    for i in (0..list.len()).rev() {
        all = plus(all, share(list[i], of));
    }
    all
}

// More is asked for than goes together.
fn is_crowded(net: &[u32], list: &[Wanted]) -> bool
    requires { limits.most_ends ≤ length net.now }
    ensures { result ≡ true → (want : Wanted) (b : Bounds) → DemandsListed (good net.now want) b list.now → NoneIn (good net.now want) b }
{
    let all = asked_of(list, u32::MAX);
    // one end goes together with itself
    if all.least <= 1 {
        return false;
    }
    crowd(net, all.ends) < all.least
}

// More is asked for of these ends than so many.
fn is_over(list: &[Wanted], ends: u32, most: u32, b: Bounds) -> bool
    ensures { result ≡ true → (passing : ℕ → Bool) → DemandsListed passing b list.now → Caps passing b ends most → NoneIn passing b }
{
    let may = pick_bounds::held(b.may, ends);
    if may <= most {
        return false;
    }
    let must = pick_bounds::held(b.must, ends);
    if most < must {
        return true;
    }
    let asked = asked_of(list, pick_bounds::without(ends, b.must));
    most - must < asked.least
}

// Whether a rule bounds every set between the bounds from above: it does where its own ends set it off, or it is set off.
fn is_cap(rule: Rule, b: Bounds, list: &[Wanted]) -> bool
    ensures { result ≡ true → (passing : ℕ → Bool) → Obeying passing rule → DemandsListed passing b list.now → Caps passing b rule.only rule.hi }
{
    if pick_bounds::ALL <= rule.hi {
        return false;
    }
    if rule.only & rule.when == rule.only {
        return true;
    }
    if pick_bounds::meets(b.must, rule.when) {
        return true;
    }
    rouses(list, rule.when)
}

// Two caps as one, if no end is in both.
fn both_caps(all: Room, rule: Rule) -> Room
    ensures { (passing : ℕ → Bool) (b : Bounds) → Caps passing b all.ends all.most → Caps passing b rule.only rule.hi → Caps passing b result.ends result.most }
{
    if pick_bounds::meets(all.ends, rule.only) {
        return all;
    }
    // no more ends are to be had
    if 32 < all.most || 32 < rule.hi {
        return all;
    }
    Room {
        ends: all.ends | rule.only,
        most: all.most + rule.hi,
    }
}

// More is asked for than some rule has room for, or than all rules have that bound different ends.
fn is_overdrawn(net: &[u32], b: Bounds, list: &[Wanted]) -> bool
    requires { limits.most_ends ≤ length net.now }
    ensures { result ≡ true → (want : Wanted) → DemandsListed (good net.now want) b list.now → NoneIn (good net.now want) b }
{
    let mut all = Room { ends: 0, most: 0 };
    for i in 0..pick_bounds::size(net) {
        let rule = pick_bounds::rule_at(net, i);
        if is_cap(rule, b, list) {
            if is_over(list, rule.only, rule.hi, b) {
                return true;
            }
            all = both_caps(all, rule);
        }
    }
    is_over(list, all.ends, all.most, b)
}

// ---- what to try next: hints, on which nothing relies

// How easily a demand is met: by the ends that it has to spare, and of as many by how few it asks for; one with an end to blame comes before all others.
fn ease(d: Wanted, blame: u32) -> u32 {
    let many = d.ends.count_ones();
    if many < d.least {
        return 0;
    }
    let ease = 32 * (many - d.least) + (32 - d.least);
    if pick_bounds::meets(d.ends, blame) {
        return ease;
    }
    ease + 2000
}

// Of two demands the harder one, and of two that are as hard the second.
fn harder(c: Wanted, d: Wanted, blame: u32) -> Wanted {
    if c.least == 0 {
        return d;
    }
    if ease(c, blame) < ease(d, blame) {
        return c;
    }
    d
}

// The hardest demand; one of nothing, if none is listed.
fn hardest(list: &[Wanted], blame: u32) -> Wanted {
    let mut hard = NOTHING;
    for d in list {
        hard = harder(hard, *d, blame);
    }
    hard
}

// What to try next between settled bounds: open ends of which so many are lacked, a hint; `None` where nothing is left. `blame` has ends that could not be had
// before.
pub fn look(net: &[u32], want: Wanted, blame: u32, b: Bounds) -> Option<Wanted>
    requires { limits.most_ends ≤ length net.now }
    ensures { result ≡ None → NoneIn (good net.now want) b }
{
    let mut room = [NOTHING; MOST];
    let count = list_all(net, want, b, &mut room);
    let list = &room[..count];
    if is_crowded(net, list) || is_overdrawn(net, b, list) {
        return None;
    }
    Some(hardest(list, blame))
}
