// The node area: the bytes of a node, read and written (docs/node-area.md). Where each number stands is said here alone.
#![tactic(auto)]

ghost use Rattle.std.specs.Prelude.{◌≡◌, eqb, length, ◌+◌, ◌≤◌};
ghost use Rattle.lists.specs.Bytes.{flat, window, written};
ghost use Rattle.allotment.specs.Allotment.{free};
ghost use Rattle.masks.specs.Bytes.{own_read};
ghost use Rattle.node.specs.Core.{core_of, bare};
ghost use Rattle.wire.specs.Layout.{schedule_written};
ghost use Rattle.area.specs.Area.{node_size, at_schedule, small_of, front_of, decoded_with};
ghost use Rattle.area.specs.Steps.{area_fits, area_read, area_stepped, area_holding};

use masks::NodeSlots;
use node::{Config, Core, Move, Round, Setup};

// The bytes of a node's area.
pub const AREA: usize = 828;

// Where each part of the area starts: the words,
const NODE: u32 = 0;

const NODES: u32 = 4;

const SLOTS: u32 = 8;

const ROUNDS: u32 = 12;

const MIN_HEARD: u32 = 16;

const SPLIT: u32 = 20;

const VERSION: u32 = 24;

const FLAGS: u32 = 28;

const MERGED: u32 = 32;

const LOWEST: u32 = 36;

const HIGHEST: u32 = 40;

const HEARD: u32 = 44;

const INTERACTIONS: u32 = 48;

const PLACE: u32 = 52;

// the single bytes,
const DEMAND: usize = 56;

const REQUEST: usize = 57;

const PHASE: usize = 58;

const UPDATED: usize = 59;

// and the lists.
const KNOWN: u32 = 60;

const COUNTERS: u32 = 92;

const SCHEDULE: u32 = 124;

const DETERMINED: u32 = 476;

// The 32 bytes from a place on. All are there, so no byte is tested.
fn list_at(s: &[u8; AREA], at: u32) -> [u8; 32]
    requires { at + 32 ≤ node_size }
    ensures { result ≡ window 32 s.now at }
{
    *s[at as usize..].first_chunk().unwrap()
}

// The node that the bytes of an area stand for, whatever they are.
fn decode(s: &[u8; AREA]) -> Core
    ensures { result ≡ core_of (decoded_with s.now free free) }
{
    Core {
        setup: Setup {
            node: lists::word(s, NODE),
            config: Config {
                nodes: lists::word(s, NODES),
                slots: lists::word(s, SLOTS),
                rounds: lists::word(s, ROUNDS),
                min_heard: lists::word(s, MIN_HEARD),
                split: lists::word(s, SPLIT),
            },
        },
        version: lists::word(s, VERSION),
        demand: lists::byte(s, DEMAND),
        request: lists::byte(s, REQUEST),
        phase: wire::phase_of(lists::byte(s, PHASE)),
        flags: lists::word(s, FLAGS),
        round: Round {
            merged: lists::word(s, MERGED),
            known: list_at(s, KNOWN),
            lowest: lists::word(s, LOWEST),
            highest: lists::word(s, HIGHEST),
            heard: lists::word(s, HEARD),
        },
        counters: list_at(s, COUNTERS),
        interactions: lists::word(s, INTERACTIONS),
        place: lists::word(s, PLACE),
        updated: lists::byte(s, UPDATED) == 1,
    }
}

// Fourteen numbers at the start of an area.
fn put_words(area: &mut [u8; AREA], w: [u32; 14])
    ensures { area.new ≡ written area.old 0 (flat w) }
{
    for (i, x) in w.iter().enumerate() {
        lists::put_bytes(area, 4 * i, &lists::word_bytes(*x));
    }
}

// Demand, request, phase and mark, a byte each.
pub fn small_bytes(c: Core) -> [u8; 4]
    ensures { result ≡ small_of (bare c) }
{
    [
        c.demand,
        c.request,
        wire::phase_byte(c.phase),
        u8::from(c.updated),
    ]
}

// A node's bytes before the schedules into its area.
fn put_front(area: &mut [u8; AREA], c: Core)
    ensures { area.new ≡ written area.old 0 (front_of (bare c)) }
{
    let s = c.setup;
    let r = c.round;
    let words = [
        s.node,
        s.config.nodes,
        s.config.slots,
        s.config.rounds,
        s.config.min_heard,
        s.config.split,
        c.version,
        c.flags,
        r.merged,
        r.lowest,
        r.highest,
        r.heard,
        c.interactions,
        c.place,
    ];
    put_words(area, words);
    lists::put_bytes(area, DEMAND, &small_bytes(c));
    lists::put_bytes(area, KNOWN as usize, &r.known);
    lists::put_bytes(area, COUNTERS as usize, &c.counters);
}

// Whether an area is within the ranges, by its node but for the schedules. Their masks are tested where they stand; the first test that
// fails ends it.
fn fits(s: &[u8], c: Core) -> bool
    ensures { result ≡ area_fits s.now c }
{
    let f = c.setup.config;
    if !range::in_range(c) {
        return false;
    }
    let held = range::used_slots(0 < c.version, f.slots);
    if !masks::fit(s, SCHEDULE, held, f.nodes) {
        return false;
    }
    let next = range::used_slots(c.updated, f.slots);
    masks::fit(s, DETERMINED, next, f.nodes)
}

// The node in an area but for its schedules, where these are its bytes and it is within the ranges. Only the phase byte, the `updated` byte and the masks can encode nothing, so only they are tested beside the ranges.
pub fn read(s: &[u8]) -> Option<Core>
    ensures { result ≡ area_read s.now }
{
    let area = s.as_array::<AREA>()?;
    let plain = (area[PHASE] <= 3) & (area[UPDATED] <= 1);
    let core = decode(area);
    // Kept: an early return. By `then_some` the node would be copied twice more.
    if !(plain & fits(s, core)) {
        return None;
    }
    Some(core)
}

// The version of a node and the schedule that its area holds, for n nodes, as on the air, at the start of an output that has room for them.
pub fn tell(s: &[u8], version: u32, n: u32, out: &mut [u8])
    ensures { out.new ≡ schedule_written version s.now at_schedule n out.old }
{
    wire::write_schedule(out, version, s, SCHEDULE as usize, n);
}

// What the schedule that an area holds gives to the node of a number.
pub fn own(s: &[u8], node: u32) -> NodeSlots
    ensures { result ≡ own_read s.now at_schedule node }
{
    masks::own(s, SCHEDULE, node)
}

// A step: the next node's bytes, with the schedules moved where they stand. An area of another length stays as it was.
pub fn step(area: &mut [u8], next: Core, change: Move, before: Core) -> bool
    ensures value { result ≡ eqb (length area.old) node_size }
    ensures area_after { area.new ≡ area_stepped next change before area.old }
{
    let Some(whole) = area.as_mut_array::<AREA>() else {
        return false;
    };
    before.move_at(whole, SCHEDULE as usize, change);
    put_front(whole, next);
    true
}

// A schedule off the air is held, by its owners. An area of another length stays as it was.
pub fn hold(area: &mut [u8], owners: &[u8])
    ensures { area.new ≡ area_holding owners.now area.old }
{
    if area.len() != AREA {
        return;
    }
    masks::hold(area, SCHEDULE as usize, owners);
}
