// Layer 2: a node by value. Algorithm 1 of the Hydra paper, with the specification's own rules.
#![tactic(auto)]

mod begin;
mod close;
mod distribution;
mod end;
mod figures;
mod grounds;
mod inplace;
mod negotiation;
mod parts;
mod refusals;

ghost use Rattle.std.specs.Prelude.{◌≡◌};
ghost use Rattle.node.specs.Answers.{refusal_number, number};
ghost use Rattle.node.specs.Figures.{is_waiting, negotiates, distributes, sending};

pub use refusals::{end_answer, negotiation_answer, take_answer, want_answer};

// The figures of a site (specification, 1 Figures): N nodes, K slots, F rounds in an epoch.
// `min_heard`, the format's `heard`, is S-9's threshold: rounds of an epoch in which a node must be heard to enter the flags.
// `split` is 1 where the site may split.
#[derive(Clone, Copy)]
pub struct Config {
    pub nodes: u32,
    pub slots: u32,
    pub rounds: u32,
    pub min_heard: u32,
    pub split: u32,
}

// A node's number, and the figures of its site.
#[derive(Clone, Copy)]
pub struct Setup {
    pub node: u32,
    pub config: Config,
}

// For the round: M', R', lowest and highest version, C_r.
#[derive(Clone, Copy)]
pub struct Round {
    pub merged: u32,
    pub known: [u8; 32],
    pub lowest: u32,
    pub highest: u32,
    pub heard: u32,
}

// A restarted node waits until the epoch is over; in distribution a node sends or doesn't.
#[derive(Clone, Copy, PartialEq, Eq)]
pub enum Phase {
    Waiting,
    Negotiation,
    Distribution { sends: bool },
}

// A node but for its two schedules: all that the rules look at. In this order it has 128 bytes; the compiler copies a larger struct by a
// call of `memcpy`.
#[derive(Clone, Copy)]
pub struct Core {
    pub setup: Setup,
    pub version: u32,
    pub demand: u8,
    pub request: u8,
    pub phase: Phase,
    pub flags: u32,
    pub round: Round,
    pub counters: [u8; 32],
    pub interactions: u32,
    pub place: u32,
    pub updated: bool,
}

// What a step makes of them. `Determine`: a schedule is determined. `Raise`: the determined one is held, and none is
// determined. `Drop`: none is determined. `Free`: and all slots are free.
#[derive(Clone, Copy, PartialEq, Eq)]
pub enum Move {
    Keep,
    Determine,
    Raise,
    DetermineAndRaise,
    Drop,
    Free,
}

// The next core, and what becomes of the schedules.
#[derive(Clone, Copy)]
pub struct CoreStep {
    pub core: Core,
    pub change: Move,
}

// What a node sends in negotiation.
#[derive(Clone, Copy)]
pub struct Packet {
    pub sender: u32,
    pub lowest: u32,
    pub highest: u32,
    pub flags: u32,
    pub requests: [u8; 32],
}

// What a call is refused for, in the order of the numbers (specification, 9 Refusals).
#[derive(Clone, Copy, PartialEq, Eq)]
pub enum Refusal {
    BadNames,
    OutOfRange,
    NoSuchNode,
    WrongPhase,
    NotLive,
    NotDown,
    TooManyPackets,
    NoSuchPacket,
    OwnPacket,
    WrongSender,
    WrongLength,
    BadContents,
    TwoRequests,
    NotANode,
    NoRoom,
    BadWindows,
    Crowded,
    NotGiven,
}

// A call is done, or refused.
pub type Answer = Result<(), Refusal>;

// What a close makes of a node: lines 24 to 29.
#[derive(Clone, Copy, PartialEq, Eq)]
pub enum Verdict {
    Determines,
    Repeats,
    Silent,
}

// Why a node sends what it sends, or nothing, at a close: the rules in the order in which they are tried.
#[derive(Clone, Copy)]
pub enum Rule {
    RequestMissing,
    NoMajority,
    OwnLower,
    Repeating,
    AtTop,
    NotDue,
    NewSent,
}

// The rule of a close, and the lowest node of M' without a request, 0 for none.
#[derive(Clone, Copy)]
pub struct Ground {
    pub rule: Rule,
    pub missing: u8,
}

// A packet, and the node after it was sent: as it was.
#[derive(Clone, Copy)]
pub struct Sent {
    pub packet: Packet,
    pub core: Core,
}

impl Core {
    // The limits of a site, and the highest version.
    pub const NODES: u32 = 32;

    pub const SLOTS: u32 = allotment::SLOTS;

    pub const ROUNDS: u32 = 32;

    pub const TOP_VERSION: u32 = 1000000;
}

impl From<Refusal> for u32 {
    ghost from_gives = { λ r n. n ≡ refusal_number r };

    fn from(r: Refusal) -> u32 {
        r as u32 + 1
    }
}

// The number of an answer (specification, 9 Refusals), 0 for one that is no refusal.
pub fn code(a: Answer) -> u32
    ensures { result ≡ number a }
{
    match a {
        Ok(()) => 0,
        Err(r) => u32::from(r),
    }
}

// Kept: no plainer: as methods of Phase the four tests would read alike, and the crates above call them by these names.
pub fn is_waiting(phase: Phase) -> bool
    ensures { result ≡ is_waiting phase }
{
    phase == Phase::Waiting
}

pub fn is_negotiation(phase: Phase) -> bool
    ensures { result ≡ negotiates phase }
{
    phase == Phase::Negotiation
}

pub fn is_distribution(phase: Phase) -> bool
    ensures { result ≡ distributes phase }
{
    matches!(phase, Phase::Distribution { .. })
}

// Whether a node sends its version and schedule.
pub fn is_sending(phase: Phase) -> bool
    ensures { result ≡ sending phase }
{
    matches!(phase, Phase::Distribution { sends: true })
}
