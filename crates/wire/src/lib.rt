// Big-endian numbers in lent bytes; why an operation refuses, and the three numbers of its answer packed in one word.
// Assumes no more than its `requires`.
#![tactic(auto)]

ghost use Rattle.std.specs.Prelude.{◌≡◌, [], ◌∷◌, ◌++◌, ℕ, ◌+◌, ◌*◌, ◌-◌, ◌%◌, ◌^◌, ◌≤◌, ◌<◌, length, take, drop};
ghost use Rattle.std.proofs.lemmas.List.Edits.{sets};
ghost use Rattle.paper.specs.Lists.{at};
ghost use Rattle.paper.specs.Bytes.{two, four, word_at};
ghost use Rattle.paper.specs.Operations.{packed};
ghost use Rattle.wire.specs.Refusals.{number, place, word_of};

// Why an operation refuses: the rows of the paper's table by name, in its order, each with its place where the table names one.
#[derive(Clone, Copy, Debug, PartialEq, Eq)]
pub enum Refusal {
    Frame,
    Node(u8),
    Edge(u8),
    Shape(u8),
    Marking,
    Ended,
    Guards,
    Size,
    Choice,
    Rivals(u8),
    Fork(u8),
    Destination(u8),
    NoChoice(u8),
    Idle,
    Values,
    Stock,
    Room,
    Bounds,
}

impl Refusal {
    // Its number in the paper's table.
    pub fn number(self) -> u8
        ensures { result ≡ number self }
    {
        match self {
            Refusal::Frame => 1,
            Refusal::Node(_) => 2,
            Refusal::Edge(_) => 3,
            Refusal::Shape(_) => 4,
            Refusal::Marking => 5,
            Refusal::Ended => 6,
            Refusal::Guards => 7,
            Refusal::Size => 8,
            Refusal::Choice => 9,
            Refusal::Rivals(_) => 10,
            Refusal::Fork(_) => 11,
            Refusal::Destination(_) => 12,
            Refusal::NoChoice(_) => 13,
            Refusal::Idle => 14,
            Refusal::Values => 15,
            Refusal::Stock => 16,
            Refusal::Room => 17,
            Refusal::Bounds => 18,
        }
    }

    // Its place, 0 where the table names none.
    pub fn place(self) -> u8
        ensures { result ≡ place self }
    {
        match self {
            Refusal::Node(p)
            | Refusal::Edge(p)
            | Refusal::Shape(p)
            | Refusal::Rivals(p)
            | Refusal::Fork(p)
            | Refusal::Destination(p)
            | Refusal::NoChoice(p) => p,
            _ => 0,
        }
    }
}

// A byte as a number that can be an index.
pub fn wide(x: u8) -> usize
    ensures { (result ≡ x) × (result < 256) }
{
    usize::from(x)
}

// A place of two bytes as a number that can be an index.
pub fn wide16(x: u16) -> usize
    ensures { result ≡ x }
{
    usize::from(x)
}

// The big-endian number in two bytes from a place on.
pub fn read16(s: &[u8], from: usize) -> usize
    requires { from + 2 ≤ length s.now }
    ensures { (result ≡ at s.now from * 256 + at s.now (from + 1)) × (result < 65536) }
{
    wide16(u16::from_be_bytes([s[from], s[from + 1]]))
}

// The big-endian number in four bytes from a place on.
pub fn read32(s: &[u8], from: usize) -> u32
    requires { from + 4 ≤ length s.now }
    ensures { result ≡ word_at s.now from }
{
    u32::from_be_bytes([s[from], s[from + 1], s[from + 2], s[from + 3]])
}

// A number's low two bytes from a place on, big-endian.
pub fn write16(d: &mut [u8], at: usize, v: usize)
    requires { at + 2 ≤ length d.old }
    ensures { d.new ≡ sets d.old at (two v) }
{
    let low = (v % 65536) as u16;
    d[at..at + 2].copy_from_slice(&low.to_be_bytes());
}

// A value in four bytes from a place on, big-endian.
pub fn write32(d: &mut [u8], at: usize, v: u32)
    requires { at + 4 ≤ length d.old }
    ensures { d.new ≡ sets d.old at (four v) }
{
    d[at..at + 4].copy_from_slice(&v.to_be_bytes());
}

// The n bytes from a place on, copied to another place.
pub fn copy(src: &[u8], from: usize, n: usize, out: &mut [u8], to: usize)
    requires { (from + n ≤ length src.now) × (to + n ≤ length out.old) }
    ensures { out.new ≡ sets out.old to (take n (drop from src.now)) }
{
    // kept: a loop, since of the library's copy the compiler makes a call of memmove, which no app need bring
    for k in 0..n {
        out[to + k] = src[from + k];
    }
}

// The head of what is stored: the number of bytes after the length, version 1, and one byte more.
pub fn write_head(len: usize, state: u8, out: &mut [u8])
    requires { (4 ≤ len) × (4 ≤ length out.old) }
    ensures { out.new ≡ sets out.old 0 (two (len - 2) ++ (1 ∷ state ∷ [])) }
{
    write16(out, 0, len - 2);
    out[2] = 1;
    out[3] = state;
}

// The weight of a refusal's number in a packed answer, 2 ^ 48, and of its place, 2 ^ 32. The length stands below them.
const REFUSAL: u64 = 281474976710656;

const PLACE: u64 = 4294967296;

// A refusal's number, its place and a length in one word.
pub fn pack(refusal: u8, place: u8, len: usize) -> u64
    requires { len < 2 ^ 32 }
    ensures { result ≡ packed refusal place len }
{
    u64::from(refusal) * REFUSAL + u64::from(place) * PLACE + len as u64
}

// What an operation answers, in one word: the length written, or why it refuses.
pub fn word(answer: Result<usize, Refusal>) -> u64
    ensures { result ≡ word_of answer }
{
    match answer {
        Ok(len) => len as u64,
        Err(why) => pack(why.number(), why.place(), 0),
    }
}

// The refusal's number in a packed answer.
pub fn refusal_in(word: u64) -> usize
    ensures { (n p len : ℕ) → p < 65536 → len < 4294967296 → word ≡ packed n p len → result ≡ n }
{
    (word / REFUSAL) as usize
}

// Its place.
pub fn place_in(word: u64) -> usize
    ensures { (n p len : ℕ) → p < 65536 → len < 4294967296 → word ≡ packed n p len → result ≡ p }
{
    (word / PLACE % 65536) as usize
}

// The length in a packed answer.
pub fn length_in(word: u64) -> usize
    ensures { (result ≡ word % 4294967296) × ((n p len : ℕ) → len < 4294967296 → word ≡ packed n p len → result ≡ len) }
{
    (word % PLACE) as usize
}
