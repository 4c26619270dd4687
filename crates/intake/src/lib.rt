// How the programs take in bytes. Assumes nothing.
#![tactic(auto)]

ghost use Rattle.std.specs.Prelude.{◌≡◌, ◌≤◌, length, take, IfOk, IfSome};
ghost use Rattle.std.specs.Io.KnownBytes.{Consumes};

use std::io;
use std::io::Read;

// Reads until the space is full or the input ends, and answers how many bytes there are. Where it is known what is left to read, they are the first of that,
// as many as there is room for, and no more is taken.
pub fn read_full<R: Read>(from: &mut R, space: &mut [u8]) -> io::Result<usize>
    ensures within { IfOk result (λ n. n ≤ length space.new) }
    ensures room { length space.new ≡ length space.old }
    ensures first { IfOk result (λ n. IfSome (R.remaining from.old) (λ left. take n space.new ≡ take (length space.old) left)) }
    ensures taken { IfOk result (λ n. Consumes (R.remaining from.old) (R.remaining from.new) (take n space.new)) }
{
    let mut done = 0;
    while done < space.len() {
        let n = from.read(&mut space[done..])?;
        if n == 0 {
            break;
        }
        done += n;
    }
    Ok(done)
}
