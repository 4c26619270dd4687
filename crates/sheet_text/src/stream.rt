// The stream splitter: the table's, the marking's and the guards' part of a stream, each a part of the caller's slice.
// Assumes nothing: a short stream hands on what there is.
ghost use Rattle.std.specs.Prelude.{◌≡◌, ◌≤◌, length, take, drop};
ghost use Rattle.paper.specs.Program.{part, behind, table_part, marking_part, guards_part};

// How many bytes the part in front has.
fn front_length(s: &[u8]) -> usize
    ensures { (result ≤ length s.now) × (take result s.now ≡ part s.now) × (drop result s.now ≡ behind s.now) }
{
    let all = s.len();
    if all < 2 {
        return all;
    }
    let n = 2 + wire::read16(s, 0);
    if all < n {
        return all;
    }
    n
}

// The part in front, and what is behind it.
fn split(s: &[u8]) -> (&[u8], &[u8])
    ensures { (result.0.now ≡ part s.now) × (result.1.now ≡ behind s.now) }
{
    let n = front_length(s);
    s.split_at(n)
}

pub fn table_part(s: &[u8]) -> &[u8]
    ensures { result.now ≡ table_part s.now }
{
    split(s).0
}

pub fn marking_part(s: &[u8]) -> &[u8]
    ensures { result.now ≡ marking_part s.now }
{
    split(split(s).1).0
}

pub fn guards_part(s: &[u8]) -> &[u8]
    ensures { result.now ≡ guards_part s.now }
{
    split(split(s).1).1
}
