// Algorithm 1, lines 24 to 37: the close of a round.
ghost use Rattle.std.specs.Prelude.{◌≡◌, cond, ◌&&◌, ◌||◌};
ghost use Rattle.node.specs.Figures.{successor, is_last};
ghost use Rattle.node.specs.Close.{lapsed};
ghost use Rattle.node.specs.Core.{bare, close_move_by, core_closed};
ghost use Rattle.node.specs.Inner.{verdict_of, versions_rule, counted_rule};

use crate::{Core, CoreStep, Move, Phase, Round, Rule, Verdict};

// What a round is once it has lapsed.
pub(crate) fn no_round() -> Round
    ensures { result ≡ lapsed }
{
    Round {
        merged: 0,
        known: membership::requests::no_requests(),
        lowest: 0,
        highest: 0,
        heard: 0,
    }
}

// The version after v; the top version is the last.
fn successor(v: u32) -> u32
    ensures { result ≡ successor v }
{
    v.saturating_add(1).min(Core::TOP_VERSION)
}

// The version after a close.
fn version_after(due: bool, v: u32) -> u32
    ensures { result ≡ cond due (successor v) v }
{
    if due { successor(v) } else { v }
}

// What the first rule that applies makes of a close: lines 24 to 29.
pub(crate) fn verdict_of(first: Rule) -> Verdict
    ensures { result ≡ verdict_of first }
{
    match first {
        Rule::NotDue => Verdict::Determines,
        Rule::Repeating => Verdict::Repeats,
        Rule::RequestMissing | Rule::NoMajority | Rule::OwnLower | Rule::AtTop | Rule::NewSent =>
            Verdict::Silent,
    }
}

// Lines 25 to 29, of a node whose M' is enough and has all its requests: by its version, and the lowest and highest that it knows of.
pub(crate) fn versions_rule(version: u32, lowest: u32, highest: u32) -> Rule
    ensures { result ≡ versions_rule version lowest highest }
{
    if lowest == highest {
        if version < Core::TOP_VERSION {
            Rule::NotDue
        } else {
            Rule::AtTop
        }
    } else if version == highest {
        Rule::Repeating
    } else {
        Rule::OwnLower
    }
}

fn close_move(due: bool, determines: bool) -> Move
    ensures { result ≡ close_move_by due determines }
{
    match (due, determines) {
        (true, true) => Move::DetermineAndRaise,
        (true, false) => Move::Raise,
        (false, true) => Move::Determine,
        (false, false) => Move::Keep,
    }
}

impl Core {
    // Lines 24 to 29: the first rule that applies, where the count of M' is tried before the requests.
    // The close alone calls it, and so it is inlined there.
    #[tactic(auto, unfolding(crate::specs::Inner::counted_rule, crate::specs::Close::level))]
    fn first_rule(self) -> Rule
        ensures { result ≡ counted_rule (bare self) }
    {
        let r = self.round;
        if !self.setup.config.is_enough(r.merged) {
            return Rule::NoMajority;
        }
        if !words::inside(r.merged, membership::requests::requesters(r.known)) {
            return Rule::RequestMissing;
        }
        versions_rule(self.version, r.lowest, r.highest)
    }

    // Line 34: it is the epoch's last round, and the mark is set by now.
    pub(crate) fn is_due(self, determines: bool) -> bool
        ensures { result ≡ (is_last self.setup.config self.place && (determines || self.updated)) }
    {
        self.setup.config.is_last(self.place) & (determines | self.updated)
    }

    // Lines 24 to 37, where the close was not refused.
    pub fn close(self) -> CoreStep
        ensures { result ≡ core_closed self }
    {
        let v = verdict_of(self.first_rule());
        let determines = v == Verdict::Determines;
        let updated = determines | self.updated;
        let due = self.is_due(determines);
        let version = version_after(due, self.version);
        let sends = due | (v == Verdict::Repeats);
        CoreStep {
            core: Core {
                version,
                request: self.request_at(version),
                phase: Phase::Distribution { sends },
                round: no_round(),
                counters: membership::counters::count_heard(self.counters, self.round.heard),
                updated: updated & !due,
                ..self
            },
            change: close_move(due, determines),
        }
    }
}
