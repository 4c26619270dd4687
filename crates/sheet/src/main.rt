// The program `sheet`: reads a table, a marking and guards, one after another, and prints the ends on offer and the pick, or the refusal.
// `describe` makes the text, and its promise is the paper's (`PrintsFor`): for an input however long, if what it is lent is what is read of it (`read_of`).
// That just this text is written, whatever stands behind what is read, `answer` promises of each reader and writer whose bytes are known. Of standard input and
// output no contract can say it.
#![tactic(auto)]

ghost use Rattle.std.specs.Prelude.{◌≡◌, List, ℕ, ◌≤◌, length, take, IfSome, OnOk};
ghost use Rattle.std.specs.Io.KnownBytes.{Appends};
ghost use Rattle.paper.specs.Offers.{terms, no_bounds};
ghost use Rattle.paper.specs.Program.{most_input, read_of, PrintsFor};
ghost use Rattle.sheet.specs.Shown.{Shown, PrintsPick, PrintsParts};

use intake::read_full;
use std::io;
use std::io::{Read, Write};

// So much is read at most (`most_input`); no good input is longer.
const MOST_INPUT: usize = 16384;

// A sheet is shorter, and so is a pick.
const MOST_SHEET: usize = 4096;

const MOST_PICK: usize = 20;

// Room for the text of any sheet and pick: four bytes for each of theirs.
const MOST_TEXT: usize = 16464;

// The node that pick is given where none is named.
const NONE_NAMED: u8 = 255;

// Makes the text for a board whose sheet is there.
fn describe_board(
    table: &[u8],
    marking: &[u8],
    guards: &[u8],
    sheet: &[u8],
    out: &mut [u8],
) -> usize
    requires { Shown table.now marking.now (terms guards.now no_bounds) sheet.now × (16464 ≤ length out.old) }
    ensures { (x : Shown table.now marking.now (terms guards.now no_bounds) sheet.now) → PrintsPick table.now marking.now (terms guards.now no_bounds) x.on out.old out.new result }
{
    let mut choice = [0u8; MOST_PICK];
    let picked = keshmirun::pick(
        table,
        marking,
        guards,
        &keshmirun::NO_BOUNDS,
        NONE_NAMED,
        &mut choice,
    );
    let n = wire::length_in(picked);
    sheet_text::board_text(table, sheet, &choice[..n], out)
}

// Makes the text for a table, a marking and guards.
fn describe_parts(table: &[u8], marking: &[u8], guards: &[u8], out: &mut [u8]) -> usize
    requires { 16464 ≤ length out.old }
    ensures { (result ≤ length out.new) × PrintsParts table.now marking.now (terms guards.now no_bounds) (take result out.new) }
{
    let mut sheet = [0u8; MOST_SHEET];
    let shown = keshmirun::sheet(table, marking, guards, &keshmirun::NO_BOUNDS, &mut sheet);
    let number = wire::refusal_in(shown);
    if number != 0 {
        return sheet_text::refusal_text(number, wire::place_in(shown), out);
    }
    let n = wire::length_in(shown);
    describe_board(table, marking, guards, &sheet[..n], out)
}

// Makes the text for an input of which this stream was read, and answers how long it is.
fn describe(stream: &[u8], out: &mut [u8]) -> usize
    requires { (length stream.now ≤ most_input) × (16464 ≤ length out.old) }
    ensures { (result ≤ length out.new) × ((input : List ℕ) → stream.now ≡ read_of input → PrintsFor input (take result out.new)) }
{
    let table = sheet_text::stream::table_part(stream);
    let marking = sheet_text::stream::marking_part(stream);
    let guards = sheet_text::stream::guards_part(stream);
    describe_parts(table, marking, guards, out)
}

// Reads an input and writes its text, and nothing beside it.
fn answer<R: Read, W: Write>(from: &mut R, to: &mut W) -> io::Result<()>
    ensures { OnOk result (IfSome (R.remaining from.old) (λ input. (written : List ℕ) × PrintsFor input written × Appends (W.contents to.old) (W.contents to.new) written)) }
{
    let mut stream = [0u8; MOST_INPUT];
    let n = read_full(from, &mut stream)?;
    let mut out = [0u8; MOST_TEXT];
    let k = describe(&stream[..n], &mut out);
    to.write_all(&out[..k])
}

fn main(rt: HostRuntime) -> io::Result<()> {
    answer(&mut rt.stdin(), &mut rt.stdout())
}
