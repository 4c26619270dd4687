// Reads calls as bytes from standard input and writes each answer as a line, so that outside vectors can be held to the library.
//
// A call is its operation (0 check, 1 start, 2 sheet, 3 pick, 4 step, 5 finish, 6 visits, 7 why, 8 levels), the room to lend (2 bytes), a node or action (1 byte), then five
// slices, each a 2-byte length and its bytes: table, marking, guards or values, bounds, choice. What an operation doesn't take is empty. A line is the refusal, the place and the reply in hex, `-` where it is empty.
// visits takes what pick does, and its line is `visits` and how many states the search visits: a search that gets worse is seen here. levels does too, and its
// line is `levels` and how many states the search of why visits at each of the four levels before the last.
#![tactic(auto)]

ghost use Rattle.std.specs.Prelude.{◌≤◌, ◌<◌, length, IfOk};

use intake::read_full;
use std::io;
use std::io::{BufReader, LineWriter, Read, Write};

// How much is read ahead, and how much of a line is kept, before the system is asked.
const AHEAD: usize = 65536;

// A slice's length has two bytes.
const LONGEST: usize = 65536;

// How many calls are answered at most: a program ends.
const MOST_CALLS: usize = 1000000;

// What a call asks for.
#[derive(Clone, Copy)]
enum Operation {
    Check,
    Start,
    Sheet,
    Pick,
    Step,
    Finish,
    Visits,
    Why,
    Levels,
}

// By its number, check where there is no other.
impl From<u8> for Operation {
    fn from(number: u8) -> Operation {
        match number {
            1 => Operation::Start,
            2 => Operation::Sheet,
            3 => Operation::Pick,
            4 => Operation::Step,
            5 => Operation::Finish,
            6 => Operation::Visits,
            7 => Operation::Why,
            8 => Operation::Levels,
            _ => Operation::Check,
        }
    }
}

// What is asked: what an operation doesn't take is empty, and `values` has the guards where it takes these.
#[derive(Clone, Copy)]
struct Request<'a> {
    operation: Operation,
    node: u8,
    table: &'a [u8],
    marking: &'a [u8],
    values: &'a [u8],
    bounds: &'a [u8],
    choice: &'a [u8],
}

// The level at which why asks what pick does, past the first.
const LAST: usize = 4;

fn number(to: &mut impl Write, n: u64) -> io::Result<()> {
    write!(to, "{n} ")
}

// A hexadecimal digit.
fn digit(n: u8) -> u8
    requires { n < 16 }
{
    if n < 10 {
        return 48 + n;
    }
    87 + n
}

// The bytes in hex.
fn hex(to: &mut impl Write, bytes: &[u8]) -> io::Result<()> {
    for x in bytes {
        let pair = [digit(*x / 16), digit(*x % 16)];
        to.write_all(&pair)?;
    }
    Ok(())
}

// The answer word and its reply as a line.
fn line(to: &mut impl Write, word: u64, out: &[u8]) -> io::Result<()> {
    number(to, wire::refusal_in(word) as u64)?;
    number(to, wire::place_in(word) as u64)?;
    let n = wire::length_in(word);
    if n == 0 {
        return to.write_all(b"-\n");
    }
    if n <= out.len() {
        hex(to, &out[..n])?;
    }
    to.write_all(b"\n")
}

// The number of states as a line.
fn visited(to: &mut impl Write, states: u64) -> io::Result<()> {
    write!(to, "visits {states}\n")
}

// How many states the search of a call visits at a level, k levels past the first.
fn states(asked: Request, k: usize) -> u64 {
    keshmirun::visits(
        asked.table,
        asked.marking,
        asked.values,
        asked.bounds,
        asked.node,
        k,
    )
}

// The number of states at each level before the last as a line.
fn climbed(to: &mut impl Write, asked: Request) -> io::Result<()> {
    to.write_all(b"levels")?;
    for k in 0..LAST {
        let n = states(asked, k);
        write!(to, " {n}")?;
    }
    to.write_all(b"\n")
}

// Reads a slice into space and answers how many bytes there are.
fn slice(from: &mut impl Read, space: &mut [u8]) -> io::Result<usize>
    ensures { IfOk result (λ n. n ≤ length space.new) }
{
    let mut head = [0u8; 2];
    read_full(from, &mut head)?;
    let n = wire::wide(head[0]) * 256 + wire::wide(head[1]);
    if space.len() < n {
        return Ok(0);
    }
    read_full(from, &mut space[..n])
}

// Answers a call.
fn answer(to: &mut impl Write, asked: Request, out: &mut [u8]) -> io::Result<()> {
    let (t, m, v, x) = (asked.table, asked.marking, asked.values, asked.bounds);
    let word = match asked.operation {
        Operation::Check => keshmirun::check(t),
        Operation::Start => keshmirun::start(t, v, out),
        Operation::Sheet => keshmirun::sheet(t, m, v, x, out),
        Operation::Pick => keshmirun::pick(t, m, v, x, asked.node, out),
        Operation::Step => keshmirun::step(t, m, v, x, asked.choice, out),
        Operation::Finish => keshmirun::finish(t, m, asked.node, v, out),
        Operation::Why => keshmirun::why(t, m, v, x, asked.node, out),
        Operation::Visits => return visited(to, states(asked, LAST)),
        Operation::Levels => return climbed(to, asked),
    };
    line(to, word, out)
}

// Room for what a call lends.
#[derive(Drop)]
struct Rooms {
    table: [u8; LONGEST],
    marking: [u8; LONGEST],
    values: [u8; LONGEST],
    bounds: [u8; LONGEST],
    choice: [u8; LONGEST],
    out: [u8; LONGEST],
}

// Reads a call and answers it; false where there is none left.
fn call(from: &mut impl Read, to: &mut impl Write, rooms: &mut Rooms) -> io::Result<bool> {
    let mut head = [0u8; 4];
    if read_full(from, &mut head)? < 4 {
        return Ok(false);
    }
    let room = wire::wide(head[1]) * 256 + wire::wide(head[2]);
    let n = slice(from, &mut rooms.table)?;
    let m = slice(from, &mut rooms.marking)?;
    let v = slice(from, &mut rooms.values)?;
    let x = slice(from, &mut rooms.bounds)?;
    let k = slice(from, &mut rooms.choice)?;
    if LONGEST < room {
        return Ok(false);
    }
    let asked = Request {
        operation: Operation::from(head[0]),
        node: head[3],
        table: &rooms.table[..n],
        marking: &rooms.marking[..m],
        values: &rooms.values[..v],
        bounds: &rooms.bounds[..x],
        choice: &rooms.choice[..k],
    };
    let out = &mut rooms.out[..];
    answer(to, asked, &mut out[..room])?;
    Ok(true)
}

// Answers call after call.
fn run(from: &mut impl Read, to: &mut impl Write, rooms: &mut Rooms) -> io::Result<()> {
    for _ in 0..MOST_CALLS {
        if !call(from, to, rooms)? {
            break;
        }
    }
    Ok(())
}

// A line goes out as soon as it ends: who waits for an answer has it before the next call is read.
fn main(rt: HostRuntime) -> io::Result<()> {
    let mut from = BufReader::with_capacity(rt.alloc(), AHEAD, rt.stdin())?;
    let mut to = LineWriter::with_capacity(rt.alloc(), AHEAD, rt.stdout())?;
    let mut rooms = Rooms {
        table: [0u8; LONGEST],
        marking: [0u8; LONGEST],
        values: [0u8; LONGEST],
        bounds: [0u8; LONGEST],
        choice: [0u8; LONGEST],
        out: [0u8; LONGEST],
    };
    run(&mut from, &mut to, &mut rooms)
}
