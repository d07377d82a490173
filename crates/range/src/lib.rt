// Whether a node is within the ranges (specification, 2 What a node holds).
#![tactic(auto)]

ghost use Rattle.std.specs.Prelude.{◌≡◌, cond, ◌<◌};
ghost use Rattle.node.specs.Core.{bare};
ghost use Rattle.range.specs.Range.{round_ok, round_lapsed, closes_seen, epoch_ok, waiting_ok, phase_ok, in_range};

use node::{Core, Phase, Round, Setup};

// How many slots may have an owner: all of them, or none in a schedule that is not used.
pub fn used_slots(used: bool, slots: u32) -> u32
    ensures { result ≡ cond used slots 0 }
{
    if used { slots } else { 0 }
}

#[tactic(auto, unfolding(crate::specs::Range::round_ok))]
fn round_ok(c: Core) -> bool
    ensures { result ≡ round_ok (bare c) }
{
    let s = c.setup;
    let r = c.round;
    let versions = (r.lowest <= c.version)
        & ((c.version <= r.highest) & (r.highest <= Core::TOP_VERSION));
    let flags = words::below(r.merged, s.config.nodes) & words::inside(c.flags, r.merged);
    let asked = membership::requests::requests_within(r.known, r.merged)
        & (membership::requests::entry_of(r.known, s.node) == c.request);
    let heard = words::below(r.heard, s.config.nodes);
    versions & (flags & (asked & heard))
}

#[tactic(auto, unfolding(crate::specs::Range::round_lapsed))]
fn round_lapsed(r: Round) -> bool
    ensures { result ≡ round_lapsed r }
{
    let none = membership::requests::no_requests();
    let words = (r.merged == 0) & (r.heard == 0);
    let versions = (r.lowest == 0) & (r.highest == 0);
    words & (versions & lists::equal(&r.known, &none))
}

// The closes of this epoch that a node has seen.
fn closes_of(phase: Phase, place: u32) -> u32
    requires { place < 4294967295 }
    ensures { result ≡ closes_seen phase place }
{
    match phase {
        Phase::Waiting => 0,
        Phase::Negotiation => place,
        Phase::Distribution { .. } => place + 1,
    }
}

fn epoch_ok(c: Core) -> bool
    ensures { result ≡ epoch_ok (bare c) }
{
    let s = c.setup;
    if s.config.rounds <= c.place {
        return false;
    }
    let counted = lists::all_fit(&c.counters, s.config.nodes, closes_of(c.phase, c.place));
    let interactions = words::below(c.interactions, s.config.nodes);
    let may = c.version < Core::TOP_VERSION;
    (counted & interactions) & (!c.updated | may)
}

#[tactic(auto, unfolding(crate::specs::Range::waiting_ok))]
fn waiting_ok(c: Core) -> bool
    ensures { result ≡ waiting_ok (bare c) }
{
    let numbers = (c.version == 0) & (c.request == 0);
    let marks = (c.interactions == 0) & !c.updated;
    numbers & (marks & round_lapsed(c.round))
}

fn phase_ok(c: Core) -> bool
    ensures { result ≡ phase_ok c.phase (bare c) }
{
    match c.phase {
        Phase::Waiting => waiting_ok(c),
        Phase::Negotiation => round_ok(c),
        Phase::Distribution { .. } => round_lapsed(c.round),
    }
}

// A node but for its schedules within the ranges; those are tested where their masks stand.
pub fn in_range(c: Core) -> bool
    ensures { result ≡ in_range (bare c) }
{
    let s = c.setup;
    let setup = s.config.config_ok() & s.is_node();
    let version = c.version <= Core::TOP_VERSION;
    let asks = (c.demand <= allotment::TOP_REQUEST) & (c.request <= allotment::TOP_REQUEST);
    let flags = words::below(c.flags, s.config.nodes) & words::member(c.flags, s.node);
    let rest = phase_ok(c) & epoch_ok(c);
    setup & (version & (asks & (flags & rest)))
}
