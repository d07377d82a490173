// Packets and schedules as bytes: one layout, written and read (specification, 5 Bytes on the air); and the byte of a phase.
#![tactic(auto)]

ghost use Rattle.std.specs.Prelude.{◌≡◌, cond, ◌*◌, eqb, leb, length};
ghost use Rattle.lists.specs.Bytes.{bytes32, Tried};
ghost use Rattle.wire.specs.Layout.{packet_size, schedule_size, packet_bytes, packet_in, schedule_in, schedule_written};
ghost use Rattle.wire.specs.Reads.{packet_ok, packet_read, versioned_ok, schedule_answer, part_of, placed, has_part};
ghost use Rattle.wire.specs.Phases.{phase_byte, phase_of};

use node::{Answer, Packet, Phase, Refusal, Setup};

// The bytes of a packet.
pub const PACKET: usize = 45;

// The bytes of a version and its schedule, and where the owners start in them.
pub const SCHEDULE: usize = 84;

pub const OWNERS: usize = 4;

// A number's four bytes at a place, if there is room for them: the next place.
fn put_word(out: &mut [u8], at: usize, x: u32) -> usize
    ensures { Tried out.old at (bytes32 x) result out.new }
{
    let b = lists::word_bytes(x);
    lists::put_bytes(out, at, &b)
}

// A packet as its 45 bytes.
fn bytes_of(p: Packet) -> [u8; PACKET]
    ensures { result ≡ packet_bytes p }
{
    let requests = p.requests;
    let mut b = [0u8; PACKET];
    b[0] = (p.sender % 256) as u8;
    b[1..5].copy_from_slice(&lists::word_bytes(p.lowest));
    b[5..9].copy_from_slice(&lists::word_bytes(p.highest));
    b[9..13].copy_from_slice(&lists::word_bytes(p.flags));
    b[13..].copy_from_slice(&requests);
    b
}

// A packet into its part of 45 bytes; a part of another length stays as it was.
pub fn write_packet(part: &mut [u8], p: Packet) -> bool
    ensures value { result ≡ eqb (length part.old) packet_size }
    ensures part_after { part.new ≡ cond (eqb (length part.old) packet_size) (packet_bytes p) part.old }
{
    if part.len() != PACKET {
        return false;
    }
    part[..PACKET].copy_from_slice(&bytes_of(p));
    true
}

// Where the part of an index starts in an area.
fn part_start(index: u32) -> usize
    ensures { result ≡ packet_size * index }
{
    PACKET * index as usize
}

// The packet of an index into its own part of an area; an area without that part stays as it was.
pub fn put_packet(area: &mut [u8], index: u32, p: Packet) -> bool
    ensures value { result ≡ has_part area.old index }
    ensures area_after { area.new ≡ cond (has_part area.old index) (placed area.old index p)
        area.old }
{
    let a = part_start(index);
    let e = a + PACKET;
    if area.len() < e {
        return false;
    }
    write_packet(&mut area[a..e], p)
}

// The packet in any bytes: what is not there is 0.
#[tactic(auto, unfolding(crate::specs::Layout::packet_in))]
fn packet_in(s: &[u8]) -> Packet
    ensures { result ≡ packet_in s.now }
{
    let requests = lists::short(s, 13);
    Packet {
        sender: u32::from(lists::byte(s, 0)),
        lowest: lists::word(s, 1),
        highest: lists::word(s, 5),
        flags: lists::word(s, 9),
        requests,
    }
}

// The packet in all of its 45 bytes: no test of the length at each byte.
fn whole_packet(s: &[u8; PACKET]) -> Packet
    ensures { result ≡ packet_in s.now }
{
    let mut requests = [0u8; 32];
    requests.copy_from_slice(&s[13..]);
    Packet {
        sender: u32::from(s[0]),
        lowest: u32::from_be_bytes([s[1], s[2], s[3], s[4]]),
        highest: u32::from_be_bytes([s[5], s[6], s[7], s[8]]),
        flags: u32::from_be_bytes([s[9], s[10], s[11], s[12]]),
        requests,
    }
}

// Whether a packet keeps the layout, among n nodes.
#[tactic(auto, unfolding(crate::specs::Reads::packet_ok))]
pub fn packet_ok(n: u32, p: Packet) -> bool
    ensures { result ≡ packet_ok n p }
{
    let versions = (p.lowest <= p.highest) & (p.highest <= node::Core::TOP_VERSION);
    let flags = words::below(p.flags, n) & words::member(p.flags, p.sender);
    let asked = membership::requests::requests_within(p.requests, p.flags);
    let own = membership::requests::entry_of(p.requests, p.sender) != membership::requests::NONE;
    (p.sender <= n) & (versions & (flags & (asked & own)))
}

// The packet in bytes off the air, among n nodes: their length is tested, then their contents.
pub fn read_packet(s: &[u8], n: u32) -> Result<Packet, Refusal>
    ensures { result ≡ packet_read n s.now }
{
    let Some(bytes) = s.as_array::<PACKET>() else {
        return Err(Refusal::WrongLength);
    };
    let packet = whole_packet(bytes);
    if !packet_ok(n, packet) {
        return Err(Refusal::BadContents);
    }
    Ok(packet)
}

// What an area has of the part of an index: all of it, or less at the area's end.
fn part_at(area: &[u8], index: u32) -> &[u8]
    ensures { result.now ≡ part_of area.now index }
{
    let a = area.len().min(part_start(index));
    let e = area.len().min(part_start(index) + PACKET);
    &area[a..e]
}

// The packet in the part of an index; an area without that part has no bytes for it.
pub fn packet_at(area: &[u8], index: u32, n: u32) -> Result<Packet, Refusal>
    ensures { result ≡ packet_read n (part_of area.now index) }
{
    read_packet(part_at(area, index), n)
}

// The same without an answer: a packet that was accepted is read again.
pub fn packet_of(area: &[u8], index: u32) -> Packet
    ensures { result ≡ packet_in (part_of area.now index) }
{
    let part = part_at(area, index);
    match part.as_array::<PACKET>() {
        Some(bytes) => whole_packet(bytes),
        None => packet_in(part),
    }
}

// A version, and the owners of the masks of n nodes that stand at a place of some bytes, at the start of an output. Without room for the 84
// bytes or for masks the output stays as it was.
pub fn write_schedule(out: &mut [u8], version: u32, s: &[u8], at: usize, n: u32)
    ensures { out.new ≡ schedule_written version s.now at n out.old }
{
    if !masks::has_room(s, at) {
        return;
    }
    if out.len() < SCHEDULE {
        return;
    }
    put_word(out, 0, version);
    masks::tell(s, at, n, out, OWNERS);
}

// Whether the version and owners in 84 bytes keep the layout.
fn schedule_ok(bytes: &[u8; SCHEDULE], s: Setup) -> bool
    ensures { result ≡ versioned_ok s (schedule_in bytes.now) }
{
    let version = lists::word(bytes, 0);
    let slots = range::used_slots(0 < version, s.config.slots);
    let owners = lists::all_fit(&bytes[OWNERS..], slots, s.config.nodes);
    (version <= node::Core::TOP_VERSION) & owners
}

// The answer to bytes off the air that should be a version and its schedule. They are tested where they lie.
pub fn schedule_answer(bytes: &[u8], s: Setup) -> Answer
    ensures { result ≡ schedule_answer s bytes.now }
{
    let Some(bytes) = bytes.as_array::<SCHEDULE>() else {
        return Err(Refusal::WrongLength);
    };
    if !schedule_ok(bytes, s) {
        return Err(Refusal::BadContents);
    }
    Ok(())
}

// A phase's byte.
// Kept: no plainer: `From` would have to stand in crate node, and the layout is said here alone.
pub fn phase_byte(phase: Phase) -> u8
    ensures { result ≡ phase_byte phase }
{
    match phase {
        Phase::Negotiation => 0,
        Phase::Distribution { sends: false } => 1,
        Phase::Distribution { sends: true } => 2,
        Phase::Waiting => 3,
    }
}

// The phase that a byte stands for.
pub fn phase_of(b: u8) -> Phase
    ensures { result ≡ phase_of b }
{
    match b {
        0 => Phase::Negotiation,
        1 => Phase::Distribution { sends: false },
        2 => Phase::Distribution { sends: true },
        _ => Phase::Waiting,
    }
}
