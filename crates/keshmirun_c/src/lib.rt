// The archive: what it gives out are keshmirun's operations, each under its own name, for an app that is written in C or Rust.
// Assumes nothing: what is lent is judged in keshmirun.
#![tactic(auto)]

ghost use Rattle.std.specs.Prelude.{[]};
ghost use Rattle.paper.specs.Offers.{terms};
ghost use Rattle.paper.specs.Operations.{
  Leaves,
  Only,
  check as checked,
  start as started,
  finish as finished,
  sheet as shown,
  step as stepped,
  Pick,
  Why,
};

// Whether the bytes are a table. Writes nothing.
#[unsafe(no_mangle)]
pub extern "C" fn check(table: &[u8]) -> u64
    ensures { Leaves (Only (checked table.now)) result [] [] }
{
    keshmirun::check(table)
}

// The marking with which an activity begins.
#[unsafe(no_mangle)]
pub extern "C" fn start(table: &[u8], values: &[u8], out: &mut [u8]) -> u64
    ensures { Leaves (Only (started table.now values.now)) result out.old out.new }
{
    keshmirun::start(table, values, out)
}

// The ends that are offered, in order, with their values and paths.
#[unsafe(no_mangle)]
pub extern "C" fn sheet(
    table: &[u8],
    marking: &[u8],
    guards: &[u8],
    bounds: &[u8],
    out: &mut [u8],
) -> u64
    ensures { Leaves (Only (shown table.now marking.now (terms guards.now bounds.now))) result out.old out.new }
{
    keshmirun::sheet(table, marking, guards, bounds, out)
}

// The first acceptable choice, or the first that has an end of the named node; 255 names none.
#[unsafe(no_mangle)]
pub extern "C" fn pick(
    table: &[u8],
    marking: &[u8],
    guards: &[u8],
    bounds: &[u8],
    node: u8,
    out: &mut [u8],
) -> u64
    ensures { Leaves (Pick table.now marking.now (terms guards.now bounds.now) node) result out.old out.new }
{
    keshmirun::pick(table, marking, guards, bounds, node, out)
}

// The reason for which a named node has no acceptable choice, the first level at which none is left: 1 no end belongs to it; 2 its own destination rule;
// 3 competing ends; 4 forks; 5 the other destinations; 0 it has one, or none is named (255).
#[unsafe(no_mangle)]
pub extern "C" fn why(
    table: &[u8],
    marking: &[u8],
    guards: &[u8],
    bounds: &[u8],
    node: u8,
    out: &mut [u8],
) -> u64
    ensures { Leaves (Why table.now marking.now (terms guards.now bounds.now) node) result out.old out.new }
{
    keshmirun::why(table, marking, guards, bounds, node, out)
}

// The marking after the ends of a choice are taken.
#[unsafe(no_mangle)]
pub extern "C" fn step(
    table: &[u8],
    marking: &[u8],
    guards: &[u8],
    bounds: &[u8],
    choice: &[u8],
    out: &mut [u8],
) -> u64
    ensures { Leaves (Only (stepped table.now marking.now (terms guards.now bounds.now) choice.now)) result out.old out.new }
{
    keshmirun::step(table, marking, guards, bounds, choice, out)
}

// The marking after an action ends, with the values of its output pins.
#[unsafe(no_mangle)]
pub extern "C" fn finish(
    table: &[u8],
    marking: &[u8],
    action: u8,
    values: &[u8],
    out: &mut [u8],
) -> u64
    ensures { Leaves (Only (finished table.now marking.now action values.now)) result out.old out.new }
{
    keshmirun::finish(table, marking, action, values, out)
}
