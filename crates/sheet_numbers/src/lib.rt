// Numbers in decimal, and lists of them, written into a lent slice. Each function answers the place behind what it wrote.
// Assumes no more than its `requires`: every function asks for the room that it needs.
#![tactic(auto)]

ghost use Rattle.std.specs.Prelude.{◌∷◌, ◌+◌, ◌*◌, ◌≤◌, ◌<◌, length, take, drop};
ghost use Rattle.paper.specs.Program.{digits, decimal, commas};
ghost use Rattle.sheet_numbers.specs.Written.{Written};

const DASH: u8 = 45;

const COMMA: u8 = 44;

// The bytes of a word as they stand.
pub fn put(word: &[u8], out: &mut [u8], to: usize) -> usize
    requires { to + length word.now ≤ length out.old }
    ensures { Written out.old to word.now out.new result }
{
    wire::copy(word, 0, word.len(), out, to);
    to + word.len()
}

// The last n digits of a number, fewer where it has fewer.
fn put_digits(n: usize, v: usize, out: &mut [u8], to: usize) -> usize
    requires { to + length (digits n v) ≤ length out.old }
    ensures { Written out.old to (digits n v) out.new result }
{
    if n == 0 {
        return to;
    }
    let last = (48 + v % 10) as u8;
    if v < 10 {
        out[to] = last;
        return to + 1;
    }
    let next = put_digits(n - 1, v / 10, out, to);
    out[next] = last;
    next + 1
}

pub fn put_decimal(v: usize, out: &mut [u8], to: usize) -> usize
    requires { to + length (decimal v) ≤ length out.old }
    ensures { Written out.old to (decimal v) out.new result }
{
    put_digits(10, v, out, to)
}

// A number behind a byte that parts it from what stands before.
pub fn put_parted(sign: u8, v: usize, out: &mut [u8], to: usize) -> usize
    requires { to + (1 + length (decimal v)) ≤ length out.old }
    ensures { Written out.old to (sign ∷ decimal v) out.new result }
{
    out[to] = sign;
    put_decimal(v, out, to + 1)
}

// The n bytes from a place on as numbers joined by commas, `-` where there is none.
pub fn put_commas(s: &[u8], from: usize, n: usize, out: &mut [u8], to: usize) -> usize
    requires { (from + n ≤ length s.now) × (to + (4 * n + 1) ≤ length out.old) }
    ensures { Written out.old to (commas (take n (drop from s.now))) out.new result × (result ≤ to + (4 * n + 1)) }
{
    if n == 0 {
        out[to] = DASH;
        return to + 1;
    }
    let mut next = put_decimal(wire::wide(s[from]), out, to);
    for k in 1..n {
        next = put_parted(COMMA, wire::wide(s[from + k]), out, next);
    }
    next
}
