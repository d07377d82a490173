// A node's two schedules as masks in bytes, moved where they stand: an area and a site's storage hold them alike.
ghost use Rattle.std.specs.Prelude.{◌≡◌, ◌+◌, ◌≤◌, length};
ghost use Rattle.masks.specs.Bytes.{masks_size};
ghost use Rattle.node.specs.InPlace.{both_size, dealt_in, moved_there, moved_in, keeps, dropped_in};

use crate::{Core, Move};

// The bytes of one schedule, and of both.
// Kept: no plainer: crate masks says the size of its masks within itself alone.
const ONE: usize = 352;

const BOTH: usize = 704;

impl Move {
    // Whether it leaves both schedules, as that of most steps does.
    pub fn keeps(self) -> bool
        ensures { result ≡ keeps self }
    {
        self == Move::Keep
    }

    // What it makes of both schedules, where it deals and raises none, as an end's does: no core is asked. Any other leaves them here.
    #[tactic(auto, unfolding(crate::specs::InPlace::dropped_in))]
    pub fn drop_at(self, s: &mut [u8], at: usize)
        ensures { s.new ≡ dropped_in self s.old at }
    {
        if s.len() < at {
            return;
        }
        let next = at + ONE;
        match self {
            Move::Keep | Move::Determine | Move::Raise | Move::DetermineAndRaise => {}
            Move::Drop => masks::clear(s, next),
            Move::Free => {
                masks::clear(s, at);
                masks::clear(s, next);
            }
        }
    }
}

impl Core {
    // Line 27: the schedule that a node determines from the one at a place, to a place, which may be the same.
    #[tactic(auto, unfolding(allotment::specs::InPlace::next_in))]
    fn deal_at(self, s: &mut [u8], at: usize, to: usize)
        requires { (at + masks_size ≤ length s.old) × (to + masks_size ≤ length s.old) }
        ensures { s.new ≡ dealt_in self s.old at to }
    {
        let f = self.setup.config;
        let r = self.round;
        allotment::next_at(s, at, to, r.merged, r.known, f.nodes, f.slots);
    }

    // A move of both.
    fn move_there(self, s: &mut [u8], at: usize, change: Move)
        requires { at + both_size ≤ length s.old }
        ensures { s.new ≡ moved_there change self s.old at }
    {
        let next = at + ONE;
        match change {
            Move::Keep => {}
            Move::Determine => self.deal_at(s, at, next),
            Move::Raise => {
                masks::copy(s, next, at);
                masks::clear(s, next);
            }
            Move::DetermineAndRaise => {
                self.deal_at(s, at, at);
                masks::clear(s, next);
            }
            Move::Drop | Move::Free => change.drop_at(s, at),
        }
    }

    // The schedules after a step, by the core before it. Without room for both nothing changes.
    #[tactic(auto, unfolding(crate::specs::InPlace::moved_in))]
    pub fn move_at(self, s: &mut [u8], at: usize, change: Move)
        ensures { s.new ≡ moved_in change self s.old at }
    {
        if s.len().saturating_sub(at) < BOTH {
            return;
        }
        self.move_there(s, at, change);
    }
}
