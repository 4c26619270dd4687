// A choice is a set of ends, written as rising one-byte numbers; in code it is a mask.
// Assumes no more than its `requires`: at most 20 ends, and room for what is written.
#![tactic(auto)]

ghost use Rattle.std.specs.Prelude.{◌≡◌, ◌++◌, ◌≤◌, ◌<◌, length, drop};
ghost use Rattle.paper.specs.Lists.{has};
ghost use Rattle.paper.specs.Answers.{good};
ghost use Rattle.paper.specs.Operations.{in_room, Reply};
ghost use Rattle.choice.specs.Choice.{choice_read, numbers};
ghost use Rattle.wire.specs.Refusals.{said, word_of, BelowRefusals};
ghost use Rattle.paper.specs.Limits.{limits};

use wire::Refusal;

// Whether end k is in the set.
// kept: words::in_word is the same of a word twice as long; one function for both would need a trait of words or a conversion, and is no plainer
pub fn is_taken(c: u32, k: usize) -> bool
    requires { k < 32 }
    ensures { result ≡ has c k }
{
    (c >> (k as u32)) % 2 == 1
}

// The bytes as a choice among n ends (row 9).
pub fn read_choice(ks: &[u8], n: usize) -> Result<u32, Refusal>
    requires { n ≤ limits.most_ends }
    ensures { said result ≡ choice_read ks.now n }
{
    let mut c: u32 = 0;
    // one more than the number before
    let mut low: usize = 0;
    for k in ks {
        let k = wire::wide(*k);
        if k < low {
            return Err(Refusal::Choice);
        }
        if n <= k {
            return Err(Refusal::Choice);
        }
        c = c + words::end_of(k);
        low = k + 1;
    }
    Ok(c)
}

// How many of n ends are taken: the bytes that the choice takes.
fn choice_size(c: u32, n: usize) -> usize
    requires { n ≤ limits.most_ends }
    ensures { (result ≡ length (numbers c n)) × (result ≤ n) }
{
    let mut many: usize = 0;
    for k in 0..n {
        if is_taken(c, k) {
            many += 1;
        }
    }
    many
}

// The numbers of the taken ends, at the front of `out`. What stands behind them is left as it was.
fn write_choice(c: u32, n: usize, out: &mut [u8])
    requires { (n ≤ limits.most_ends) × (length (numbers c n) ≤ length out.old) }
    ensures { out.new ≡ numbers c n ++ drop (length (numbers c n)) out.old }
{
    let mut to: usize = 0;
    for k in 0..n {
        if is_taken(c, k) {
            out[to] = k as u8;
            to += 1;
        }
    }
}

// The choice c of n ends, if the room is enough (row 17).
pub fn tell(c: u32, n: usize, out: &mut [u8]) -> Result<usize, Refusal>
    requires { n ≤ limits.most_ends }
    ensures { Reply (in_room (length out.old) (good (numbers c n))) (word_of result) out.old out.new × BelowRefusals result }
{
    let len = choice_size(c, n);
    if out.len() < len {
        return Err(Refusal::Room);
    }
    write_choice(c, n, out);
    Ok(len)
}
