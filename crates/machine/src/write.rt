// Numbers written to the storage of a site.
ghost use Rattle.std.specs.Prelude.{◌≡◌, true, ◌+◌, ◌≤◌, ◌<◌, length, set};
ghost use mir.Val.{bool_byte};
ghost use Rattle.lists.specs.Bytes.{written};
ghost use Rattle.membership.specs.requests.Requests.{only};
ghost use Rattle.node.specs.Core.{bare};
ghost use Rattle.node.specs.InPlace.{moved_in};
ghost use Rattle.machine.specs.Layout.{store, node_words_at, node_bytes_at, schedules_at, node_words, stored_front, words_size, bytes_size};
ghost use Rattle.machine.specs.Inner.{member_of};
ghost use Rattle.machine.specs.Written.{written_front, written_free, phased};

use crate::layout::{COUNTERS, KNOWN, NODE_BYTES, NODE_WORDS, PHASE, SCHEDULE, SENT};
use node::{Core, Move};

// A core's words; its setup has none.
// Kept: lengths in `requires`. A struct of both lists was tried: a clause for each reference's name, and for the list not written.
pub(crate) fn put_row(words: &mut [u32], i: usize, c: Core)
    requires { (i < 32) × (words_size ≤ length words.old) }
    ensures { words.new ≡ written words.old (node_words_at i) (node_words (bare c)) }
{
    let r = c.round;
    let row = NODE_WORDS * i;
    words[row..row + 8].copy_from_slice(&[
        c.version,
        c.flags,
        r.merged,
        r.lowest,
        r.highest,
        r.heard,
        c.interactions,
        c.place,
    ]);
}

// A core's bytes, and whether its node is up.
pub(crate) fn put_front(bytes: &mut [u8], i: usize, up: bool, c: Core)
    requires { (i < 32) × (bytes_size ≤ length bytes.old) }
    ensures { bytes.new ≡ written bytes.old (node_bytes_at i) (stored_front (member_of up (bare c))) }
{
    let r = c.round;
    let known = r.known;
    let counters = c.counters;
    let phase = c.phase;
    let small = [
        up as u8,
        c.demand,
        c.request,
        wire::phase_byte(phase),
        c.updated as u8,
    ];
    let room = NODE_BYTES * i;
    bytes[room..room + 5].copy_from_slice(&small);
    bytes[room + KNOWN..room + KNOWN + 32].copy_from_slice(&known);
    bytes[room + COUNTERS..room + COUNTERS + 32].copy_from_slice(&counters);
}

// Another demand of the node at an index: one byte.
pub(crate) fn put_demand(bytes: &mut [u8], i: usize, d: u8)
    requires { (i < 32) × (bytes_size ≤ length bytes.old) }
    ensures { bytes.new ≡ set bytes.old (node_bytes_at i + 1) d }
{
    bytes[NODE_BYTES * i + 1] = d;
}

// A core's numbers at an index, where its node is up.
pub(crate) fn put_core(words: &mut [u32], bytes: &mut [u8], i: usize, c: Core)
    requires { (i < 32) × (words_size ≤ length words.old) × (bytes_size ≤ length bytes.old) }
    ensures words_after { words.new
        ≡ (written_front (store words.old bytes.old) i (member_of true (bare c))).words }
    ensures bytes_after { bytes.new
        ≡ (written_front (store words.old bytes.old) i (member_of true (bare c))).bytes }
{
    put_row(words, i, c);
    put_front(bytes, i, true, c);
}

// The requests of a round that has just opened at a place: the node at an index alone has one. By a store of its own: in a list by value
// that two branches make, the compiler would handle the 32 entries one by one.
fn put_own(out: &mut [u8], at: usize, i: usize, request: u8)
    requires { (i < 32) × (at + 32 ≤ length out.old) }
    ensures { out.new ≡ written out.old at (only (i + 1) request) }
{
    out[at..at + 32].copy_from_slice(&membership::requests::no_requests());
    out[at + i] = request;
}

// As `put_front`, of a core whose round has just opened, where its node is up.
// Kept: the two differ in how the requests are written, and one function for both would take that part as a closure.
fn put_opened_front(bytes: &mut [u8], i: usize, c: Core)
    requires { (i < 32) × (bytes_size ≤ length bytes.old) × (c.round.known ≡ only (i + 1) c.request) }
    ensures { bytes.new ≡ written bytes.old (node_bytes_at i) (stored_front (member_of true (bare c))) }
{
    let counters = c.counters;
    let phase = c.phase;
    let small = [
        1,
        c.demand,
        c.request,
        wire::phase_byte(phase),
        c.updated as u8,
    ];
    let room = NODE_BYTES * i;
    bytes[room..room + 5].copy_from_slice(&small);
    put_own(bytes, room + KNOWN, i, c.request);
    bytes[room + COUNTERS..room + COUNTERS + 32].copy_from_slice(&counters);
}

// As `put_core`, of such a core.
pub(crate) fn put_opened(words: &mut [u32], bytes: &mut [u8], i: usize, c: Core)
    requires { (i < 32) × (words_size ≤ length words.old) × (bytes_size ≤ length bytes.old)
        × (c.round.known ≡ only (i + 1) c.request) }
    ensures words_after { words.new
        ≡ (written_front (store words.old bytes.old) i (member_of true (bare c))).words }
    ensures bytes_after { bytes.new
        ≡ (written_front (store words.old bytes.old) i (member_of true (bare c))).bytes }
{
    put_row(words, i, c);
    put_opened_front(bytes, i, c);
}

// What a step makes of the schedules at an index, by the core before it.
pub(crate) fn move_schedules(bytes: &mut [u8], i: usize, change: Move, before: Core)
    requires { (i < 32) × (bytes_size ≤ length bytes.old) }
    ensures { bytes.new ≡ moved_in change before bytes.old (schedules_at i) }
{
    if change.keeps() {
        return;
    }
    before.move_at(bytes, NODE_BYTES * i + SCHEDULE, change);
}

// A core's numbers at an index, with all slots free.
pub(crate) fn put_free(words: &mut [u32], bytes: &mut [u8], i: usize, up: bool, c: Core)
    requires { (i < 32) × (words_size ≤ length words.old) × (bytes_size ≤ length bytes.old) }
    ensures words_after { words.new ≡ (written_free (store words.old bytes.old) i (member_of up (bare c))).words }
    ensures bytes_after { bytes.new ≡ (written_free (store words.old bytes.old) i (member_of up (bare c))).bytes }
{
    put_row(words, i, c);
    put_front(bytes, i, up, c);
    c.move_at(bytes, NODE_BYTES * i + SCHEDULE, Move::Free);
}

// Another phase: no packets, and 1 in negotiation.
pub(crate) fn put_phase(bytes: &mut [u8], negotiates: bool)
    requires { bytes_size ≤ length bytes.old }
    ensures { bytes.new ≡ phased bytes.old (bool_byte negotiates) }
{
    bytes[SENT..SENT + 32].copy_from_slice(&[0; 32]);
    bytes[PHASE] = negotiates as u8;
}
