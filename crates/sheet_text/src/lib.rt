// The text of the program `sheet`: a board's ends line by line, and the pick; or a refusal. Text goes into a lent slice, front to back.
// The sheet's bytes are read record by record: what is lent is the sheet of a board (`Sheet`), so every record lies inside.
#![tactic(auto)]

ghost use Rattle.std.specs.Prelude.{◌≡◌, ◌+◌, ◌*◌, ◌≤◌, ◌<◌, length};
ghost use Rattle.paper.specs.Lists.{at};
ghost use Rattle.paper.specs.Program.{board_text, refusal_text};
ghost use Rattle.table.specs.Reading.{Spans};
ghost use Rattle.sheet_numbers.specs.Written.{Written, Printed};
ghost use Rattle.sheet_text.specs.Sheets.{Sheet};
ghost use Rattle.sheet_text.specs.Printed.{path_over, paths_over, path_printed, paths_printed, value_printed, head_printed, end_over, end_printed, ends_over, ends_printed, EndsFit, count_printed, pick_printed};

use table::Table;

pub mod stream;

const SPACE: u8 = 32;

const LINE_END: u8 = 10;

// Where the number of ends and the ends stand in a sheet.
const COUNT: usize = 3;

const ENDS: usize = 4;

// Where the value, the number of paths and the paths stand in an end; its last edge is in front.
const VALUE: usize = 1;

const MANY: usize = 6;

const PATHS: usize = 7;

// The places behind what was read of a sheet and what was written of a text.
#[derive(Clone, Copy)]
struct Places {
    read: usize,
    written: usize,
}

// The path at a place of a sheet.
fn put_path(s: &[u8], p: usize, out: &mut [u8], to: usize) -> usize
    requires { (p < length s.now) × (path_over s.now p ≤ length s.now) × (to + 4 * (1 + at s.now p) ≤ length out.old) }
    ensures { Written out.old to (path_printed s.now p) out.new result × (result ≤ to + 4 * (1 + at s.now p)) }
{
    out[to] = SPACE;
    sheet_numbers::put_commas(s, p + 1, wire::wide(s[p]), out, to + 1)
}

// The m paths from a place of a sheet on.
fn put_paths(s: &[u8], start: usize, m: usize, out: &mut [u8], to: usize) -> Places
    requires { (paths_over s.now start m ≤ length s.now) × (to + 4 * paths_over s.now start m ≤ length out.old + 4 * start) }
    ensures { (result.read ≡ paths_over s.now start m) × Written out.old to (paths_printed s.now start m) out.new result.written × (result.written + 4 * start ≤ to + 4 * result.read) }
{
    let mut p = start;
    let mut next = to;
    for j in 0..m {
        next = put_path(s, p, out, next);
        p += 1 + wire::wide(s[p]);
    }
    Places {
        read: p,
        written: next,
    }
}

// The value whose flag is at a place of a sheet, `-` for none.
fn put_value(s: &[u8], p: usize, out: &mut [u8], to: usize) -> usize
    requires { (p + 5 ≤ length s.now) × (to + 11 ≤ length out.old) }
    ensures { Written out.old to (value_printed s.now p) out.new result × (result ≤ to + 11) }
{
    if s[p] == 0 {
        return sheet_numbers::put(b" -", out, to);
    }
    sheet_numbers::put_parted(SPACE, wire::read32(s, p + 1) as usize, out, to)
}

// The line of the end at a place of a sheet up to its paths: its number, last edge, target and value.
fn put_head(
    t: &[u8],
    table: Table,
    s: &[u8],
    p: usize,
    k: usize,
    out: &mut [u8],
    to: usize,
) -> usize
    requires { Spans t.now table × (at s.now p < table.edges) × (p + 7 ≤ length s.now) × (k < 256) × (to + 22 ≤ length out.old) }
    ensures { Written out.old to (head_printed t.now s.now p k) out.new result × (result ≤ to + 22) }
{
    let edge = wire::wide(s[p]);
    let a = sheet_numbers::put_decimal(k, out, to);
    let b = sheet_numbers::put_parted(SPACE, edge, out, a);
    let e = sheet_numbers::put_parted(SPACE, table.target(t, edge), out, b);
    put_value(s, p + VALUE, out, e)
}

// The line of end k, which is at a place of a sheet.
fn put_end(
    t: &[u8],
    table: Table,
    s: &[u8],
    p: usize,
    k: usize,
    out: &mut [u8],
    to: usize,
) -> Places
    requires { Spans t.now table × (at s.now p < table.edges) × (end_over s.now p ≤ length s.now) × (k < 256) × (to + 4 * end_over s.now p ≤ length out.old + 4 * p) }
    ensures { (result.read ≡ end_over s.now p) × Written out.old to (end_printed t.now s.now p k) out.new result.written × (result.written + 4 * p ≤ to + 4 * result.read) }
{
    let a = put_head(t, table, s, p, k, out, to);
    let m = wire::wide(s[p + MANY]);
    let b = put_paths(s, p + PATHS, m, out, a);
    let e = b.written;
    out[e] = LINE_END;
    Places {
        read: b.read,
        written: e + 1,
    }
}

// The lines of n ends, which stand behind the sheet's head.
fn put_ends(t: &[u8], table: Table, s: &[u8], n: usize, out: &mut [u8], to: usize) -> usize
    requires { Spans t.now table × EndsFit t.now s.now 4 n × (ends_over s.now 4 n ≤ length s.now) × (n < 256) × (to + 4 * ends_over s.now 4 n ≤ length out.old + 16) }
    ensures { Written out.old to (ends_printed t.now s.now 4 0 n) out.new result × (result + 16 ≤ to + 4 * ends_over s.now 4 n) }
{
    let mut p = ENDS;
    let mut next = to;
    for k in 0..n {
        let e = put_end(t, table, s, p, k, out, next);
        p = e.read;
        next = e.written;
    }
    next
}

// The first line, for n ends, at the front.
fn put_count(n: usize, out: &mut [u8]) -> usize
    requires { (n < 256) × (9 ≤ length out.old) }
    ensures { Written out.old 0 (count_printed n) out.new result × (result ≤ 9) }
{
    let a = sheet_numbers::put(b"ends", out, 0);
    let b = sheet_numbers::put_parted(SPACE, n, out, a);
    out[b] = LINE_END;
    b + 1
}

// The last line: the ends that are picked.
fn put_pick(choice: &[u8], out: &mut [u8], to: usize) -> usize
    requires { to + (4 * length choice.now + 7) ≤ length out.old }
    ensures { Written out.old to (pick_printed choice.now) out.new result × (result ≤ to + (4 * length choice.now + 7)) }
{
    let a = sheet_numbers::put(b"pick ", out, to);
    let b = sheet_numbers::put_commas(choice, 0, choice.len(), out, a);
    out[b] = LINE_END;
    b + 1
}

// The text of a board: of its table, its sheet and what is picked. Four bytes are room enough for what each byte of the sheet and of the pick says.
pub fn board_text(t: &[u8], s: &[u8], choice: &[u8], out: &mut [u8]) -> usize
    requires { Sheet t.now s.now × (4 * (length s.now + length choice.now) ≤ length out.old) }
    ensures { (x : Sheet t.now s.now) → Printed (board_text x.of choice.now) out.old out.new result }
{
    let n = wire::wide(s[COUNT]);
    let a = put_count(n, out);
    let b = put_ends(t, Table::counts(t), s, n, out, a);
    put_pick(choice, out, b)
}

// The text of a refusal.
pub fn refusal_text(number: usize, place: usize, out: &mut [u8]) -> usize
    requires { 30 ≤ length out.old }
    ensures { Printed (refusal_text number place) out.old out.new result }
{
    let a = sheet_numbers::put(b"refused", out, 0);
    let b = sheet_numbers::put_parted(SPACE, number, out, a);
    let e = sheet_numbers::put_parted(SPACE, place, out, b);
    out[e] = LINE_END;
    e + 1
}
