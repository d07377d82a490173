// The calls on a lent node area (include/hydra.h).
ghost use Rattle.std.specs.Prelude.{◌≡◌};
ghost use Rattle.node.specs.Answers.{number};
ghost use Rattle.host.specs.Calls.{setup_from, beginning, after_begin, restarting, after_restart, sending_of, out_send, hearing_of};
ghost use Rattle.host.specs.Calls.{after_hear, closing_of, after_close, out_close, ground_close, taking_of, after_take, ending_of, after_end};
ghost use Rattle.host.specs.Calls.{wanting_of, after_want, reading_of, out_read, slots_answer, out_slots};

// A starting node.
#[unsafe(no_mangle)]
pub extern "C" fn hydra_begin(
    area: &mut [u8],
    node: u32,
    nodes: u32,
    slots: u32,
    rounds: u32,
    heard: u32,
    split: u32,
    version: u32,
    flags: u32,
    demand: u32,
) -> u32
    ensures value { result ≡ number (beginning area.old (setup_from node nodes slots rounds heard split) version flags demand) }
    ensures area_after { area.new ≡ after_begin area.old
        (setup_from node nodes slots rounds heard split) version flags demand }
{
    node::code(host::calls::hydra_begin(
        area, node, nodes, slots, rounds, heard, split, version, flags, demand,
    ))
}

// A restarted node, which waits for the epoch's end.
#[unsafe(no_mangle)]
pub extern "C" fn hydra_restart(
    area: &mut [u8],
    node: u32,
    nodes: u32,
    slots: u32,
    rounds: u32,
    heard: u32,
    split: u32,
    flags: u32,
    place: u32,
) -> u32
    ensures value { result ≡ number (restarting area.old (setup_from node nodes slots rounds heard split) flags place) }
    ensures area_after { area.new ≡ after_restart area.old (setup_from node nodes slots rounds heard split) flags place }
{
    node::code(host::calls::hydra_restart(
        area, node, nodes, slots, rounds, heard, split, flags, place,
    ))
}

// The packet of this moment to the start of an output.
#[unsafe(no_mangle)]
pub extern "C" fn hydra_send(area: &[u8], out: &mut [u8]) -> u32
    ensures value { result ≡ number (sending_of area.now out.old) }
    ensures out_after { out.new ≡ out_send area.now out.old }
{
    node::code(host::calls::hydra_send(area, out))
}

// A packet off the air.
#[unsafe(no_mangle)]
pub extern "C" fn hydra_hear(area: &mut [u8], packet: &[u8]) -> u32
    ensures value { result ≡ number (hearing_of area.old packet.now) }
    ensures area_after { area.new ≡ after_hear area.old packet.now }
{
    node::code(host::calls::hydra_hear(area, packet))
}

// The close of negotiation; a node that sends then writes version and schedule to the start of an output. Its ground goes to the start of
// another.
#[unsafe(no_mangle)]
pub extern "C" fn hydra_close(area: &mut [u8], out: &mut [u8], ground: &mut [u8]) -> u32
    ensures value { result ≡ number (closing_of area.old out.old ground.old) }
    ensures area_after { area.new ≡ after_close area.old out.old ground.old }
    ensures out_after { out.new ≡ out_close area.old out.old ground.old }
    ensures ground_after { ground.new ≡ ground_close area.old out.old ground.old }
{
    node::code(host::calls::hydra_close(area, out, ground))
}

// A sender's version and schedule off the air.
#[unsafe(no_mangle)]
pub extern "C" fn hydra_take(area: &mut [u8], schedule: &[u8]) -> u32
    ensures value { result ≡ number (taking_of area.old schedule.now) }
    ensures area_after { area.new ≡ after_take area.old schedule.now }
{
    node::code(host::calls::hydra_take(area, schedule))
}

// The end of the round.
#[unsafe(no_mangle)]
pub extern "C" fn hydra_end(area: &mut [u8]) -> u32
    ensures value { result ≡ number (ending_of area.old) }
    ensures area_after { area.new ≡ after_end area.old }
{
    node::code(host::calls::hydra_end(area))
}

// Another demand.
#[unsafe(no_mangle)]
pub extern "C" fn hydra_want(area: &mut [u8], demand: u32) -> u32
    ensures value { result ≡ number (wanting_of area.old demand) }
    ensures area_after { area.new ≡ after_want area.old demand }
{
    node::code(host::calls::hydra_want(area, demand))
}

// What a box acts on, to the start of an output.
#[unsafe(no_mangle)]
pub extern "C" fn hydra_read(area: &[u8], out: &mut [u8]) -> u32
    ensures value { result ≡ number (reading_of area.now out.old) }
    ensures out_after { out.new ≡ out_read area.now out.old }
{
    node::code(host::calls::hydra_read(area, out))
}

// The slots of the node's own, as its two words and their number, to the start of an output: in negotiation alone, where no other node owns
// one of them.
#[unsafe(no_mangle)]
pub extern "C" fn hydra_slots(area: &[u8], out: &mut [u64]) -> u32
    ensures value { result ≡ number (slots_answer area.now out.old) }
    ensures out_after { out.new ≡ out_slots area.now out.old }
{
    node::code(host::calls::hydra_slots(area, out))
}
