// A schedule as masks of slots, one of each node, and how many slots each node has: in bytes, and no value of the code.
#![tactic(auto)]

ghost use Rattle.std.specs.Prelude.{◌≡◌, ◌+◌, ◌-◌, ◌^◌, ◌≤◌, ◌<◌, length};
ghost use Rattle.masks.specs.Inner.{slots_given, index_of};

mod air;
mod bytes;
mod inplace;

pub use air::{hold, tell};
pub use bytes::{has_room, high_at, low_at, own, put_words};
pub use inplace::{clear, copy, fit, rows_used};

// One node's two words, and how many slots it has.
#[derive(Clone, Copy)]
pub struct NodeSlots {
    pub low: u64,
    pub high: u16,
    pub count: u8,
}

// Gives the number j to each slot of a word that has no owner yet; bit 0 of the word stands for the slot at `from`.
// Goes from one bit that is set to the next.
fn give(owners: &mut [u8], from: usize, w: u64, j: u8)
    requires { (from ≤ length owners.old) × (w < 2 ^ (length owners.old - from)) }
    ensures { owners.new ≡ slots_given owners.old from w j }
{
    let mut rest = w;
    let mut at = from;
    while rest != 0 {
        let zeros = u64::trailing_zeros(rest);
        at = at + zeros as usize;
        let old = owners[at];
        let new = if old == 0 { j } else { old };
        owners[at] = new;
        rest = (rest >> zeros) >> 1;
        at = at + 1;
    }
}

// Where the node of number j stands; from 32 up for a number that no node has.
// Kept: a number above 32 has an index without a row too, so that a caller tests the index whatever stands here for 0.
fn node_index(j: u8) -> usize
    ensures { result ≡ index_of j }
{
    if j == 0 { 32 } else { (j - 1) as usize }
}
