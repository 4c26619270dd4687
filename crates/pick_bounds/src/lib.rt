// Bounds on the sets of ends that pass a net of rules: drawn together rule by rule and by rivals, and never so that a set that passes is lost.
// A net is a lent slice: the rivals of each of 20 ends, then each rule in four cells side by side. Assumes no more than its `requires`.
#![tactic(auto)]

ghost use Rattle.std.specs.Prelude.{◌≡◌, true, not, ◌&&◌, ℕ, ◌+◌, ◌-◌, ◌^◌, ◌≤◌, ◌<◌, leb, ltb, length};
ghost use Rattle.paper.specs.Lists.{at, has, within};
ghost use Rattle.pick_bounds.specs.Net.{held, meets, obeys, size, rule_at};
ghost use Rattle.pick_bounds.specs.Bounds.{good, apart, enough, heeds, Without, Between, Keeps, NoneIn, SetOff};
ghost use Rattle.paper.specs.Limits.{limits};

// At least so many of these ends are wanted; `least` is 0 where none is named.
#[derive(Clone, Copy)]
pub struct Wanted {
    pub ends: u32,
    pub least: u32,
}

// A set that meets `when` holds at least lo and at most hi of the ends in `only`.
#[derive(Clone, Copy)]
pub struct Rule {
    pub when: u32,
    pub only: u32,
    pub lo: u32,
    pub hi: u32,
}

// What is known of the sets still looked for: they hold all of `must`, and nothing that isn't in `may`.
#[derive(Clone, Copy)]
pub struct Bounds {
    pub must: u32,
    pub may: u32,
}

// So many cells of a net are the rivals of ends, one each.
pub const ENDS: usize = 20;

// A rule with as many as this for hi binds nothing from above: a set has no more ends.
pub const ALL: u32 = 32;

// ---- sets as words

// How many ends are in both sets.
pub fn held(c: u32, d: u32) -> u32
    ensures { result ≡ held 32 c d }
{
    (c & d).count_ones()
}

// Whether an end is in both sets.
pub fn meets(c: u32, d: u32) -> bool
    ensures { result ≡ meets 32 c d }
{
    c & d != 0
}

// The set c without the ends in d.
pub fn without(c: u32, d: u32) -> u32
    ensures { Without c d result }
{
    c ^ (c & d)
}

// The first end of a set that has one.
pub fn first_of(c: u32) -> usize
    requires { 1 ≤ c }
    ensures { (result < 32) × (has c result ≡ true) }
{
    c.trailing_zeros() as usize
}

// Whether so many ends are in both sets. One is asked for most, and needs no count.
pub fn has_least(c: u32, d: u32, lo: u32) -> bool
    ensures { result ≡ leb lo (held 32 c d) }
{
    if lo == 0 {
        return true;
    }
    if lo == 1 {
        return meets(c, d);
    }
    lo <= held(c, d)
}

// Whether a set has one end at most.
fn is_one(c: u32) -> bool
    ensures { result ≡ true → held 32 c c ≤ 1 }
{
    if c == 0 {
        return true;
    }
    c == words::end_of(first_of(c))
}

// ---- bounds

// Bounds with nothing between them.
fn none() -> Bounds {
    Bounds {
        must: u32::MAX,
        may: 0,
    }
}

// Nothing lies between the bounds.
pub fn is_dead(b: Bounds) -> bool
    ensures { result ≡ true → (x : ℕ) → Between b x → ⊥ }
{
    b.must & b.may != b.must
}

// Of sets without these ends.
pub fn strike(ends: u32, b: Bounds) -> Bounds
    ensures { Keeps (λ x. not (meets 32 x ends)) b result }
{
    Bounds {
        must: b.must,
        may: without(b.may, ends),
    }
}

// Of sets with an end.
pub fn add(end: u32, b: Bounds) -> Bounds
    ensures { (k : ℕ) → end ≡ 2 ^ k → Keeps (λ x. has x k) b result }
{
    Bounds {
        must: b.must | end,
        may: b.may,
    }
}

// ---- one rule

// How many rules a net has.
pub fn size(net: &[u32]) -> usize
    requires { limits.most_ends ≤ length net.now }
    ensures { result ≡ size net.now }
{
    (net.len() - ENDS) / 4
}

// Rule i of a net.
pub fn rule_at(net: &[u32], i: usize) -> Rule
    requires { i < size net.now }
    ensures { result ≡ rule_at net.now i }
{
    let j = ENDS + 4 * i;
    Rule {
        when: net[j],
        only: net[j + 1],
        lo: net[j + 2],
        hi: net[j + 3],
    }
}

fn obeys(rule: Rule, c: u32) -> bool
    ensures { result ≡ obeys 32 rule c }
{
    if !meets(c, rule.when) {
        return true;
    }
    if !has_least(c, rule.only, rule.lo) {
        return false;
    }
    if ALL <= rule.hi {
        return true;
    }
    held(c, rule.only) <= rule.hi
}

// Every set between the bounds that has what is wanted meets these ends: one that is taken is among them, or all that are wanted are.
pub fn applies(want: Wanted, when: u32, b: Bounds) -> bool
    ensures { result ≡ true → SetOff want when b }
{
    if meets(b.must, when) {
        return true;
    }
    if want.least == 0 {
        return false;
    }
    want.ends & when == want.ends
}

// No set between the bounds has from lo to hi of the rule's ends.
fn breaks(rule: Rule, b: Bounds) -> bool
    ensures { result ≡ true → NoneIn (λ x. within rule.lo rule.hi (held 32 x rule.only)) b }
{
    if !has_least(b.may, rule.only, rule.lo) {
        return true;
    }
    if ALL <= rule.hi {
        return false;
    }
    rule.hi < held(b.must, rule.only)
}

// Whether no more than so many of these ends may be had; it may say no where it is so.
fn is_scarce(ends: u32, least: u32, b: Bounds) -> bool
    ensures { result ≡ true → held 32 b.may ends ≤ least }
{
    if least == 0 {
        return false;
    }
    if least == 1 {
        return is_one(b.may & ends);
    }
    held(b.may, ends) <= least
}

// Of sets with at least so many of these ends: where there are no more, all of them are taken.
fn raise(ends: u32, least: u32, b: Bounds) -> Bounds
    ensures { Keeps (λ x. leb least (held 32 x ends)) b result }
{
    if !is_scarce(ends, least, b) {
        return b;
    }
    Bounds {
        must: b.must | (b.may & ends),
        may: b.may,
    }
}

// Whether as many of these ends are taken as may be, or more; it may say no where it is so.
fn is_full(ends: u32, most: u32, b: Bounds) -> bool
    ensures { result ≡ true → most ≤ held 32 b.must ends }
{
    if ALL <= most {
        return false;
    }
    most <= held(b.must, ends)
}

// Of sets with at most so many of these ends: where so many are taken, no other is.
fn fill(ends: u32, most: u32, b: Bounds) -> Bounds
    ensures { Keeps (λ x. leb (held 32 x ends) most) b result }
{
    if !is_full(ends, most, b) {
        return b;
    }
    strike(without(ends, b.must), b)
}

// What a rule leaves that every set between the bounds meets.
fn hold(rule: Rule, b: Bounds) -> Bounds
    ensures { Keeps (λ x. within rule.lo rule.hi (held 32 x rule.only)) b result }
{
    if breaks(rule, b) {
        return none();
    }
    raise(rule.only, rule.lo, fill(rule.only, rule.hi, b))
}

// What a rule leaves that a set between the bounds may not meet: ends that would break it go.
fn shut(rule: Rule, b: Bounds) -> Bounds
    ensures { Keeps (obeys 32 rule) b result }
{
    if breaks(rule, b) {
        return strike(rule.when, b);
    }
    if !is_full(rule.only, rule.hi, b) {
        return b;
    }
    strike(without(rule.when & rule.only, b.must), b)
}

// What a rule leaves between the bounds.
fn draw(want: Wanted, rule: Rule, b: Bounds) -> Bounds
    ensures { Keeps (heeds want rule) b result }
{
    if applies(want, rule.when, b) {
        return hold(rule, b);
    }
    if !meets(b.may, rule.when) {
        return b;
    }
    shut(rule, b)
}

// ---- all rules

// The rivals of end k go, if it is taken.
fn shun_one(net: &[u32], k: usize, b: Bounds) -> Bounds
    requires { limits.most_ends ≤ length net.now }
    ensures { (want : Wanted) → Keeps (good net.now want) b result }
{
    if ENDS <= k {
        return b;
    }
    if !meets(b.must, words::end_of(k)) {
        return b;
    }
    strike(net[k], b)
}

// The rivals of these ends go, as far as they are taken.
fn shun(net: &[u32], ends: u32, b: Bounds) -> Bounds
    requires { limits.most_ends ≤ length net.now }
    ensures { (want : Wanted) → Keeps (good net.now want) b result }
{
    let mut low = b;
    let mut left = ends;
    while left != 0 {
        let k = first_of(left);
        low = shun_one(net, k, low);
        left = without(left, words::end_of(k));
    }
    low
}

// Bounds that were drawn together, and what the rivals of newly taken ends leave of them.
fn spread(net: &[u32], must: u32, b: Bounds) -> Bounds
    requires { limits.most_ends ≤ length net.now }
    ensures { (want : Wanted) → Keeps (good net.now want) b result }
{
    if b.must == must {
        return b;
    }
    shun(net, without(b.must, must), b)
}

// What is wanted of the sets between the bounds.
fn ask(want: Wanted, b: Bounds) -> Bounds
    ensures { Keeps (enough want) b result }
{
    if !has_least(b.may, want.ends, want.least) {
        return none();
    }
    raise(want.ends, want.least, b)
}

// What is wanted, and every rule in turn, as long as something is left.
fn tighten(net: &[u32], want: Wanted, b: Bounds) -> Bounds
    requires { limits.most_ends ≤ length net.now }
    ensures { Keeps (good net.now want) b result }
{
    let mut low = spread(net, b.must, ask(want, b));
    for i in 0..size(net) {
        if is_dead(low) {
            return low;
        }
        low = spread(net, low.must, draw(want, rule_at(net, i), low));
    }
    low
}

// A number that falls whenever bounds are drawn together.
fn slack(b: Bounds) -> u64
    ensures { result ≡ b.may + (4294967295 - b.must) }
{
    b.may as u64 + (u32::MAX - b.must) as u64
}

// Until nothing changes.
pub fn settle(net: &[u32], want: Wanted, b: Bounds) -> Bounds
    requires { limits.most_ends ≤ length net.now }
    ensures { Keeps (good net.now want) b result }
{
    let mut low = tighten(net, want, shun(net, b.must, b));
    let mut before = slack(b);
    let mut after = slack(low);
    while after < before {
        before = after;
        low = tighten(net, want, low);
        after = slack(low);
    }
    low
}

// Whether the set has a rival of end k.
fn is_rivalled(net: &[u32], c: u32, k: usize) -> bool
    requires { limits.most_ends ≤ length net.now }
    ensures { result ≡ ltb k limits.most_ends && meets 32 c (at net.now k) }
{
    if ENDS <= k {
        return false;
    }
    meets(c, net[k])
}

// Whether no two ends of the set are rivals.
fn is_apart(net: &[u32], c: u32) -> bool
    requires { limits.most_ends ≤ length net.now }
    ensures { result ≡ apart net.now c }
{
    let mut left = c;
    while left != 0 {
        let k = first_of(left);
        if is_rivalled(net, c, k) {
            return false;
        }
        left = without(left, words::end_of(k));
    }
    true
}

// The set c passes the net and holds what is wanted.
pub fn passes(net: &[u32], want: Wanted, c: u32) -> bool
    requires { limits.most_ends ≤ length net.now }
    ensures { result ≡ good net.now want c }
{
    if !has_least(c, want.ends, want.least) {
        return false;
    }
    if !is_apart(net, c) {
        return false;
    }
    for i in 0..size(net) {
        if !obeys(rule_at(net, i), c) {
            return false;
        }
    }
    true
}
