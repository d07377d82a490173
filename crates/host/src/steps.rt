// A node's steps on lent bytes: what comes off the air, and what goes to an output.
ghost use Rattle.std.specs.Prelude.{◌≡◌, [], ◌∷◌, ◌≤◌, length};
ghost use Rattle.lists.specs.Bytes.{span};
ghost use Rattle.allotment.specs.Allotment.{free, schedule_of};
ghost use Rattle.masks.specs.Bytes.{masks_in};
ghost use Rattle.masks.specs.Air.{owners_to};
ghost use Rattle.node.specs.Negotiation.{packet_of};
ghost use Rattle.node.specs.Answers.{answered};
ghost use Rattle.node.specs.Core.{bare, node_of, pair};
ghost use Rattle.wire.specs.Layout.{schedule_size, packet_bytes, packet_in};
ghost use Rattle.area.specs.Area.{node_size, at_schedule};
ghost use Rattle.area.specs.Steps.{area_holding};
ghost use Rattle.host.specs.Report.{report_size, report};
ghost use Rattle.host.specs.Calls.{is_sized, unless_refused, room_answer, output, sent_answer, heard_answer, close_room, ground_size};
ghost use Rattle.host.specs.Calls.{ground_bytes, close_bytes, taken_answer, slots_size};

use crate::{REPORT, SLOTS};
use masks::NodeSlots;
use node::{Answer, Core, Ground, Move, Packet, Refusal};

// A node that begins, into an area of its length: all slots are free.
pub(crate) fn begin_area(area: &mut [u8], c: Core) -> Answer
    ensures value { result ≡ is_sized area.old }
    ensures area_after { area.new ≡ unless_refused (is_sized area.old) (bare c) area.old }
{
    if !area::step(area, c, Move::Free, c) {
        return Err(Refusal::NotANode);
    }
    Ok(())
}

// The packet that bytes stand for, where a node accepts it.
pub(crate) fn hear_bytes(c: Core, bytes: &[u8]) -> Result<Packet, Refusal>
    ensures { result ≡ answered (heard_answer (bare c) bytes.now) (packet_in bytes.now) }
{
    node::negotiation_answer(c.phase)?;
    let packet = wire::read_packet(bytes, c.setup.config.nodes)?;
    c.hear_answer(packet)?;
    Ok(packet)
}

// A node's answer to the bytes of a version and its schedule.
pub(crate) fn take_bytes(c: Core, bytes: &[u8]) -> Answer
    ensures { result ≡ taken_answer (bare c) bytes.now }
{
    node::take_answer(c.phase)?;
    wire::schedule_answer(bytes, c.setup)
}

// The owners of the first slots in these bytes are held. They are all that there are in bytes that were accepted.
pub(crate) fn hold_owners(area: &mut [u8], bytes: &[u8], slots: u32)
    requires { (length bytes.now ≡ schedule_size) × (slots ≤ 80) }
    ensures { area.new ≡ area_holding (span bytes.now 4 slots) area.old }
{
    area::hold(area, &bytes[wire::OWNERS..wire::OWNERS + slots as usize]);
}

// 15 where an output has no room for what a closed node sends. A node that doesn't send needs none.
pub(crate) fn close_room(next: Core, out: &[u8]) -> Answer
    ensures { result ≡ close_room (bare next) out.now }
{
    if node::is_sending(next.phase) && out.len() < wire::SCHEDULE {
        return Err(Refusal::NoRoom);
    }
    Ok(())
}

// What a closed node sends, at the start of an output that has room for it: its version, and the schedule that its area holds.
pub(crate) fn put_sent(area: &[u8], next: Core, out: &mut [u8])
    requires { length area.now ≡ node_size }
    ensures { out.new ≡ output (close_room (bare next) out.old)
        (close_bytes (node_of next (pair (schedule_of (owners_to (masks_in area.now at_schedule) next.setup.config.nodes)) free)))
        out.old }
{
    if node::is_sending(next.phase) {
        area::tell(area, next.version, next.setup.config.nodes, out);
    }
}

// The ground of a close at the start of an output that has room for it.
pub(crate) fn put_ground(g: Ground, out: &mut [u8])
    ensures { out.new ≡ output (room_answer ground_size out.old) (ground_bytes g) out.old }
{
    lists::put_bytes(out, 0, &[u8::from(g.rule), g.missing]);
}

// The packet of a node that negotiates, at the start of an output that has room for it.
pub(crate) fn send_into(c: Core, out: &mut [u8]) -> Answer
    ensures value { result ≡ sent_answer (bare c) out.old }
    ensures out_after { out.new ≡ output (sent_answer (bare c) out.old) (packet_bytes (packet_of (bare c)))
        out.old }
{
    node::negotiation_answer(c.phase)?;
    if !wire::put_packet(out, 0, c.send().packet) {
        return Err(Refusal::NoRoom);
    }
    Ok(())
}

// What a box acts on, at the start of an output that has room for it.
pub(crate) fn report_into(c: Core, area: &[u8], out: &mut [u8]) -> Answer
    requires { length area.now ≡ node_size }
    ensures value { result ≡ room_answer report_size out.old }
    ensures out_after { out.new ≡ output (room_answer report_size out.old)
        (report (node_of c (pair (schedule_of (owners_to (masks_in area.now at_schedule) c.setup.config.nodes)) free)))
        out.old }
{
    if out.len() < REPORT {
        return Err(Refusal::NoRoom);
    }
    area::tell(area, c.version, c.setup.config.nodes, out);
    lists::put_bytes(out, wire::SCHEDULE, &lists::word_bytes(c.flags));
    lists::put_bytes(out, 88, &lists::word_bytes(c.place));
    lists::put_bytes(out, 92, &area::small_bytes(c));
    Ok(())
}

// A node's two words and their number, at the start of an output that has room for them.
pub(crate) fn own_into(own: NodeSlots, out: &mut [u64]) -> Answer
    ensures value { result ≡ room_answer slots_size out.old }
    ensures out_after { out.new ≡ output (room_answer slots_size out.old) (own.low ∷ own.high ∷ own.count ∷ [])
        out.old }
{
    if out.len() < SLOTS {
        return Err(Refusal::NoRoom);
    }
    out[..SLOTS].copy_from_slice(&[own.low, u64::from(own.high), u64::from(own.count)]);
    Ok(())
}
