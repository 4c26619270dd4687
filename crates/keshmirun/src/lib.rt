// The operations that the tablet app calls, over numbers and byte slices: each returns early with the first refusal, and packs its answer in one word.
// Assumes nothing: what is lent is judged here.
#![tactic(auto)]

mod asking;

ghost use Rattle.std.specs.Prelude.{[]};
ghost use Rattle.paper.specs.Offers.{terms};
ghost use Rattle.paper.specs.Choices.{board};
ghost use Rattle.paper.specs.Operations.{
  Leaves,
  Only,
  check as checked,
  start as started,
  finish as finished,
  sheet as shown,
  step as stepped,
  Pick,
  Why,
};
ghost use Rattle.wire.specs.Refusals.{word_of, BelowRefusals};
ghost use Rattle.keshmirun.specs.Asking.{Counted};

use asking::{Query, Request, ask};
use wire::{Refusal, word};

// The bounds list with count 0, which bars nothing.
pub const NO_BOUNDS: [u8; 4] = [0, 2, 1, 0];

// Whether the bytes are a table. Writes nothing.
pub fn check(table: &[u8]) -> u64
    ensures { Leaves (Only (checked table.now)) result [] [] }
{
    word(try_check(table))
}

fn try_check(table: &[u8]) -> Result<usize, Refusal>
    ensures { Leaves (Only (checked table.now)) (word_of result) [] [] × BelowRefusals result }
{
    table_read::read(table)?;
    Ok(0)
}

// The marking with which an activity begins.
pub fn start(table: &[u8], values: &[u8], out: &mut [u8]) -> u64
    ensures { Leaves (Only (started table.now values.now)) result out.old out.new }
{
    word(try_start(table, values, out))
}

fn try_start(table: &[u8], values: &[u8], out: &mut [u8]) -> Result<usize, Refusal>
    ensures { Leaves (Only (started table.now values.now)) (word_of result) out.old out.new × BelowRefusals result }
{
    let x = table_read::read(table)?;
    start_finish::start(table, x, values, out)
}

// The ends that are offered, in order, with their values and paths.
pub fn sheet(table: &[u8], marking: &[u8], guards: &[u8], bounds: &[u8], out: &mut [u8]) -> u64
    ensures { Leaves (Only (shown table.now marking.now (terms guards.now bounds.now))) result out.old out.new }
{
    word(ask(table, marking, guards, bounds, Request::Sheet, b"", out))
}

// The first acceptable choice, or the first that has an end of the named node; 255 names none.
pub fn pick(
    table: &[u8],
    marking: &[u8],
    guards: &[u8],
    bounds: &[u8],
    node: u8,
    out: &mut [u8],
) -> u64
    ensures { Leaves (Pick table.now marking.now (terms guards.now bounds.now) node) result out.old out.new }
{
    word(ask(
        table,
        marking,
        guards,
        bounds,
        Request::Choice(Query::Pick(node)),
        b"",
        out,
    ))
}

// The reason for which a named node has no acceptable choice, the first level at which none is left: 1 no end belongs to it; 2 its own destination rule;
// 3 competing ends; 4 forks; 5 the other destinations; 0 it has one, or none is named (255).
pub fn why(
    table: &[u8],
    marking: &[u8],
    guards: &[u8],
    bounds: &[u8],
    node: u8,
    out: &mut [u8],
) -> u64
    ensures { Leaves (Why table.now marking.now (terms guards.now bounds.now) node) result out.old out.new }
{
    word(ask(
        table,
        marking,
        guards,
        bounds,
        Request::Choice(Query::Why(node)),
        b"",
        out,
    ))
}

// How many states the search of why visits at a level, k levels past the first (from 4 on it is pick's), or the word of a refusal of rows 1 to 8 or 18: a
// measure that tests hold down, and no part of what is exported.
pub fn visits(table: &[u8], marking: &[u8], guards: &[u8], bounds: &[u8], node: u8, k: usize) -> u64
    ensures { Counted (board table.now marking.now (terms guards.now bounds.now)) result }
{
    let mut nothing = [0u8; 0];
    word(ask(
        table,
        marking,
        guards,
        bounds,
        Request::Choice(Query::Count(node, k)),
        b"",
        &mut nothing,
    ))
}

// The marking after the ends of a choice are taken.
pub fn step(
    table: &[u8],
    marking: &[u8],
    guards: &[u8],
    bounds: &[u8],
    choice: &[u8],
    out: &mut [u8],
) -> u64
    ensures { Leaves (Only (stepped table.now marking.now (terms guards.now bounds.now) choice.now)) result out.old out.new }
{
    word(ask(
        table,
        marking,
        guards,
        bounds,
        Request::Choice(Query::Step),
        choice,
        out,
    ))
}

// The marking after an action ends, with the values of its output pins.
pub fn finish(table: &[u8], marking: &[u8], action: u8, values: &[u8], out: &mut [u8]) -> u64
    ensures { Leaves (Only (finished table.now marking.now action values.now)) result out.old out.new }
{
    word(try_finish(table, marking, action, values, out))
}

fn try_finish(
    table: &[u8],
    marking: &[u8],
    action: u8,
    values: &[u8],
    out: &mut [u8],
) -> Result<usize, Refusal>
    ensures { Leaves (Only (finished table.now marking.now action values.now)) (word_of result) out.old out.new × BelowRefusals result }
{
    let x = table_read::read(table)?;
    start_finish::finish(table, x, marking, action, values, out)
}
