// The first offer on an edge that leaves no control node, from what was read of a marking: the stock of the edge's source, or the edge's count.
// Reads the marking's bytes at the place it is told and assumes nothing of them; that the offer is the paper's is a law over what a marking holds.
#![tactic(auto)]

ghost use Rattle.std.specs.Prelude.{◌≡◌, ◌+◌, ◌≤◌, length};
ghost use Rattle.paper.specs.Bytes.{word_at};
ghost use Rattle.offers_first.specs.Starts.{FirstOffer};

use offers_over::Start;
use table::is_object_node;

// The value in the four bytes from a place on; a place too near the end has none.
fn oldest(b: &[u8], place: usize) -> u32
    ensures { place + 4 ≤ length b.now → result ≡ word_at b.now place }
{
    let l = b.len();
    if l < 4 {
        return 0;
    }
    if l - 4 < place {
        return 0;
    }
    wire::read32(b, place)
}

// The first offer on an edge whose source has kind k and keeps `kept` values in the marking b, the oldest of them at place `from`; `tokens` is the
// edge's count.
pub fn first_offer(b: &[u8], k: usize, from: usize, kept: u8, tokens: u8) -> Start
    ensures { FirstOffer b.now k from kept tokens result }
{
    if is_object_node(k) {
        if kept == 0 {
            return Start::Nothing;
        }
        return Start::Value(oldest(b, from));
    }
    if tokens == 0 {
        return Start::Nothing;
    }
    Start::Token
}
