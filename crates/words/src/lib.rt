// Words that stand for sets of offers or of ends: a digit of a word, and whether two offers clash, as their nodes and words say.
// And marks, a byte a place, by which a pass hands on what it found. Assumes no more than its `requires`.
#![tactic(auto)]

ghost use Rattle.std.specs.Prelude.{◌≡◌, ◌<◌, ◌^◌};
ghost use Rattle.paper.specs.Lists.{has};
ghost use Rattle.paper.specs.Table.{is_object_node};
ghost use Rattle.words.specs.Clash.{one_round_in, hit};
ghost use Rattle.words.specs.Marks.{is_marked, marked};

// Kinds of nodes, as a table has them.
// kept: the table has these as usize, and this crate stands below it; cells of offers are u64.
pub const DECISION: u64 = 8;

pub const JOIN: u64 = 11;

// The word of the number k alone.
pub fn bit_of(k: usize) -> u64
    requires { k < 64 }
    ensures { result ≡ 2 ^ k }
{
    1u64 << k
}

// The set of end k alone: a choice is a word of 32 digits.
pub fn end_of(k: usize) -> u32
    requires { k < 32 }
    ensures { result ≡ 2 ^ k }
{
    1u32 << k
}

// Whether a word has the number i.
pub fn in_word(x: u64, i: usize) -> bool
    requires { i < 64 }
    ensures { result ≡ has x i }
{
    (x >> i) % 2 == 1
}

// A mark at i, if the test passes and there is such a place.
pub fn mark(marks: &mut [u8], on: bool, i: usize)
    ensures { marks.new ≡ marked marks.old on i }
{
    if on && i < marks.len() {
        marks[i] = 1;
    }
}

// Whether place i is marked; past the last one nothing is.
pub fn is_marked(marks: &[u8], i: usize) -> bool
    ensures { result ≡ is_marked marks.now i }
{
    i < marks.len() && marks[i] != 0
}

fn is_object_node(k: u64) -> bool
    ensures { result ≡ is_object_node k }
{
    matches!(k, 3..=7)
}

// Whether two offers of a join, made from the offers a and b, may come through together: these differ, and those of them on control edges, c, don't.
fn one_round(a: u64, b: u64, c: u64) -> bool
    ensures { result ≡ one_round_in a b c }
{
    a != b && a & c == b & c
}

// Whether an offer that leaves node n, of kind k, from the offers a, clashes with one that leaves m from b; c has the offers on control edges.
pub fn hits(n: u64, k: u64, a: u64, m: u64, b: u64, c: u64) -> bool
    ensures { result ≡ hit n k a m b c }
{
    n == m
        && (is_object_node(k) || a & b != 0 && (k == DECISION || k == JOIN && !one_round(a, b, c)))
}
