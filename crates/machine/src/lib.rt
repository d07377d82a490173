// A site in lent words and bytes: loaded, read and written by its nodes' numbers, and closed and ended as a whole.
#![tactic(auto)]

ghost use Rattle.std.specs.Prelude.{◌≡◌, min, ◌<◌, length};
ghost use Rattle.machine.specs.timed.Timed.{next_in_day};

mod acts;
mod answers;
pub mod combined;
mod epochs;
mod events;
mod layout;
mod load;
mod look;
mod phases;
mod read;
pub mod reports;
pub mod steps;
pub mod timed;
mod write;

pub use acts::{hear, hear_answer, packet, take, want};
pub use layout::{BYTES, SENT, WORDS};
pub use load::begin_site;
pub use look::{core, header, is_live, live, phase, set_free, slots_held, state, tell_owners, up};
use node::Ground;
pub use phases::{close, end};

// D epochs, and which of them it is: the first is 0.
#[derive(Clone, Copy)]
pub struct Day {
    pub length: u32,
    pub epoch: u32,
}

impl Day {
    // After D - 1 comes 0.
    fn next(self) -> Day
        ensures { result ≡ next_in_day self }
    {
        let is_last = self.length.saturating_sub(1) <= self.epoch;
        Day {
            length: self.length,
            epoch: if is_last { 0 } else { self.epoch + 1 },
        }
    }
}

// The ground of each of the nodes that report.
#[derive(Clone, Copy)]
pub struct Report {
    pub nodes: [Option<Ground>; 32],
}

// How many of N nodes have a place: at most 32.
pub fn places(n: u32) -> u32
    ensures { result ≡ min n 32 }
{
    n.min(32)
}
