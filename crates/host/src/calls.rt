// The calls of the C service (include/hydra.h): the area is read, its node makes a step, and where that was not refused the area and an
// output are written.
ghost use Rattle.std.specs.Prelude.{◌≡◌};
ghost use Rattle.host.specs.Calls.{setup_from, beginning, after_begin, restarting, after_restart, sending_of, out_send, hearing_of};
ghost use Rattle.host.specs.Calls.{after_hear, closing_of, after_close, out_close, ground_close, taking_of, after_take, ending_of, after_end};
ghost use Rattle.host.specs.Calls.{wanting_of, after_want, reading_of, out_read, slots_answer, out_slots};

use crate::GROUND;
use crate::steps::{
    begin_area, close_room, hear_bytes, hold_owners, own_into, put_ground, put_sent, report_into,
    send_into, take_bytes,
};
use node::{Answer, Config, Core, Move, Refusal, Setup};

// What C tells of a node's place among others, as its plain numbers.
fn setup_from(node: u32, nodes: u32, slots: u32, rounds: u32, heard: u32, split: u32) -> Setup
    ensures { result ≡ setup_from node nodes slots rounds heard split }
{
    Setup {
        node,
        config: Config {
            nodes,
            slots,
            rounds,
            min_heard: heard,
            split,
        },
    }
}

// A starting node.
pub fn hydra_begin(
    area: &mut [u8],
    node: u32,
    nodes: u32,
    slots: u32,
    rounds: u32,
    heard: u32,
    split: u32,
    version: u32,
    flags: u32,
    demand: u32,
) -> Answer
    ensures value { result ≡ beginning area.old (setup_from node nodes slots rounds heard split) version flags demand }
    ensures area_after { area.new ≡ after_begin area.old
        (setup_from node nodes slots rounds heard split) version flags demand }
{
    let setup = setup_from(node, nodes, slots, rounds, heard, split);
    setup.start_answer(version, flags, demand)?;
    begin_area(area, Core::start(setup, version, flags, demand as u8))
}

// A restarted node, which waits for the epoch's end.
pub fn hydra_restart(
    area: &mut [u8],
    node: u32,
    nodes: u32,
    slots: u32,
    rounds: u32,
    heard: u32,
    split: u32,
    flags: u32,
    place: u32,
) -> Answer
    ensures value { result ≡ restarting area.old (setup_from node nodes slots rounds heard split) flags place }
    ensures area_after { area.new ≡ after_restart area.old (setup_from node nodes slots rounds heard split) flags place }
{
    let setup = setup_from(node, nodes, slots, rounds, heard, split);
    setup.restart_answer(flags, place)?;
    begin_area(area, Core::restart(setup, flags, place))
}

// The packet of this moment to the start of an output.
pub fn hydra_send(area: &[u8], out: &mut [u8]) -> Answer
    ensures value { result ≡ sending_of area.now out.old }
    ensures out_after { out.new ≡ out_send area.now out.old }
{
    let c = area::read(area).ok_or(Refusal::NotANode)?;
    send_into(c, out)
}

// A packet off the air.
pub fn hydra_hear(area: &mut [u8], packet: &[u8]) -> Answer
    ensures value { result ≡ hearing_of area.old packet.now }
    ensures area_after { area.new ≡ after_hear area.old packet.now }
{
    let c = area::read(area).ok_or(Refusal::NotANode)?;
    let heard = hear_bytes(c, packet)?;
    area::step(area, c.hear(heard), Move::Keep, c);
    Ok(())
}

// The close of negotiation; a node that sends then writes version and schedule to the start of an output. Its ground goes to the start of
// another.
pub fn hydra_close(area: &mut [u8], out: &mut [u8], ground: &mut [u8]) -> Answer
    ensures value { result ≡ closing_of area.old out.old ground.old }
    ensures area_after { area.new ≡ after_close area.old out.old ground.old }
    ensures out_after { out.new ≡ out_close area.old out.old ground.old }
    ensures ground_after { ground.new ≡ ground_close area.old out.old ground.old }
{
    let c = area::read(area).ok_or(Refusal::NotANode)?;
    node::negotiation_answer(c.phase)?;
    if ground.len() < GROUND {
        return Err(Refusal::NoRoom);
    }
    let closed = c.close();
    close_room(closed.core, out)?;
    area::step(area, closed.core, closed.change, c);
    put_sent(area, closed.core, out);
    put_ground(c.ground(), ground);
    Ok(())
}

// A sender's version and schedule off the air.
pub fn hydra_take(area: &mut [u8], schedule: &[u8]) -> Answer
    ensures value { result ≡ taking_of area.old schedule.now }
    ensures area_after { area.new ≡ after_take area.old schedule.now }
{
    let c = area::read(area).ok_or(Refusal::NotANode)?;
    take_bytes(c, schedule)?;
    let taken = c.take(lists::word(schedule, 0));
    hold_owners(area, schedule, c.setup.config.slots);
    area::step(area, taken.core, taken.change, c);
    Ok(())
}

// The end of the round.
pub fn hydra_end(area: &mut [u8]) -> Answer
    ensures value { result ≡ ending_of area.old }
    ensures area_after { area.new ≡ after_end area.old }
{
    let c = area::read(area).ok_or(Refusal::NotANode)?;
    node::end_answer(c.phase)?;
    let ended = c.end();
    area::step(area, ended.core, ended.change, c);
    Ok(())
}

// Another demand.
pub fn hydra_want(area: &mut [u8], demand: u32) -> Answer
    ensures value { result ≡ wanting_of area.old demand }
    ensures area_after { area.new ≡ after_want area.old demand }
{
    node::want_answer(demand)?;
    let c = area::read(area).ok_or(Refusal::NotANode)?;
    area::step(area, c.want(demand as u8), Move::Keep, c);
    Ok(())
}

// What a box acts on, to the start of an output.
pub fn hydra_read(area: &[u8], out: &mut [u8]) -> Answer
    ensures value { result ≡ reading_of area.now out.old }
    ensures out_after { out.new ≡ out_read area.now out.old }
{
    let c = area::read(area).ok_or(Refusal::NotANode)?;
    report_into(c, area, out)
}

// The slots of the node's own, as its two words and their number, to the start of an output: in negotiation alone, where no other node owns
// one of them.
pub fn hydra_slots(area: &[u8], out: &mut [u64]) -> Answer
    ensures value { result ≡ slots_answer area.now out.old }
    ensures out_after { out.new ≡ out_slots area.now out.old }
{
    let c = area::read(area).ok_or(Refusal::NotANode)?;
    node::negotiation_answer(c.phase)?;
    own_into(area::own(area, c.setup.node), out)
}
