// Algorithm 1, lines 43 to 55: the end of a round.
ghost use Rattle.std.specs.Prelude.{◌≡◌, false, cond, ◌&&◌, ◌+◌};
ghost use Rattle.node.specs.Figures.{is_last};
ghost use Rattle.node.specs.End.{waits_on, expires};
ghost use Rattle.node.specs.Core.{bare, core_of, end_move_by, core_round_ended, core_waited, core_ended};
ghost use Rattle.node.specs.Inner.{flags_after};

use crate::negotiation::opening;
use crate::{Core, CoreStep, Move, Phase, is_waiting};

fn left(none: bool, w: u32) -> u32
    ensures { result ≡ cond none 0 w }
{
    if none { 0 } else { w }
}

// What an end makes of the schedules.
fn end_move(last: bool, expired: bool) -> Move
    ensures { result ≡ end_move_by last expired }
{
    match (last, expired) {
        (true, true) => Move::Free,
        (true, false) => Move::Drop,
        (false, _) => Move::Keep,
    }
}

impl Core {
    // A waiting node counts the rounds.
    #[tactic(auto, unfolding(crate::specs::End::waits_on))]
    fn waits_on(self) -> Core
        requires { is_last self.setup.config self.place ≡ false }
        ensures { result ≡ core_of (waits_on (bare self)) }
    {
        Core {
            phase: Phase::Waiting,
            place: self.place + 1,
            ..self
        }
    }

    // Line 47: the epoch ends, and too few were met for the schedule to last.
    fn is_expired(self, last: bool) -> bool
        ensures { result ≡ (last && expires (bare self)) }
    {
        let s = self.setup;
        last && s
            .config
            .is_too_few(membership::counters::with_self(self.interactions, s.node))
    }

    // Lines 51 to 54.
    fn flags_after(self, last: bool) -> u32
        ensures { result ≡ flags_after self last }
    {
        let s = self.setup;
        if last {
            membership::counters::members_of(self.counters, s.node, s.config.min_heard)
        } else {
            self.flags
        }
    }

    // Line 43, and line 55 in the epoch's last round.
    fn place_after(self, last: bool) -> u32
        requires { last ≡ is_last self.setup.config self.place }
        ensures { result ≡ cond last 0 (self.place + 1) }
    {
        if last { 0 } else { self.place + 1 }
    }

    // Lines 43 to 55 of a node that doesn't wait: the next round, and in the epoch's last one the next epoch.
    fn round_ended(self) -> CoreStep
        ensures { result ≡ core_round_ended self }
    {
        let setup = self.setup;
        let last = setup.config.is_last(self.place);
        let expired = self.is_expired(last);
        let flags = self.flags_after(last);
        let version = left(expired, self.version);
        let request = self.request_at(version);
        CoreStep {
            core: Core {
                version,
                request,
                phase: Phase::Negotiation,
                flags,
                round: opening(setup.node, version, flags, request),
                counters: membership::counters::kept(self.counters, last),
                interactions: left(last, self.interactions),
                place: self.place_after(last),
                updated: self.updated & !last,
                ..self
            },
            change: end_move(last, expired),
        }
    }

    // The same of a node that restarted and waits.
    #[tactic(auto, unfolding(crate::specs::Core::core_waited, crate::specs::Begin::begun))]
    fn waited(self) -> CoreStep
        ensures { result ≡ core_waited self }
    {
        let setup = self.setup;
        if setup.config.is_last(self.place) {
            CoreStep {
                core: Core::begin(setup, 0, self.demand, self.demand, self.flags),
                change: Move::Free,
            }
        } else {
            CoreStep {
                core: self.waits_on(),
                change: Move::Keep,
            }
        }
    }

    // Lines 43 to 55, where the end was not refused.
    pub fn end(self) -> CoreStep
        ensures { result ≡ core_ended self }
    {
        if is_waiting(self.phase) {
            self.waited()
        } else {
            self.round_ended()
        }
    }
}
