// The answers to events, from the few numbers that each looks at.
ghost use Rattle.std.specs.Prelude.{◌≡◌, cond, ◌-◌};
ghost use Rattle.node.specs.Answers.{Done, WrongPhase};
ghost use Rattle.site.specs.Answers.{site_send, site_hear, site_close, site_take, site_end};
ghost use Rattle.site.specs.Answers.{site_want, site_crash, site_restart, event_answer};
ghost use Rattle.machine.specs.steps.Inner.{answer_ready};
ghost use Rattle.machine.specs.steps.After.{site_heard};
ghost use Rattle.site.specs.Members.{header_of, member_at};
ghost use Rattle.wire.specs.Reads.{part_of};
ghost use Rattle.machine.specs.Layout.{store, site_in};

use crate::layout::Lent;
use node::{Answer, Refusal, Setup};
use site::Event;

// 0 in the right phase, 4 in the other.
fn in_phase(right: bool) -> Answer
    ensures { result ≡ cond right Done WrongPhase }
{
    if right {
        Ok(())
    } else {
        Err(Refusal::WrongPhase)
    }
}

// What is tested before a send or a hear of node j.
fn ready(m: Lent, j: u32) -> Answer
    ensures { result ≡ answer_ready (header_of (site_in (store m.entry.words.now m.entry.bytes.now)))
        (member_at (site_in (store m.entry.words.now m.entry.bytes.now)) j) j }
{
    let k = m.header();
    if k.outside(j) {
        return Err(Refusal::NoSuchNode);
    }
    if !k.negotiates {
        return Err(Refusal::WrongPhase);
    }
    if !crate::look::live(m.bytes, j) {
        return Err(Refusal::NotLive);
    }
    Ok(())
}

fn send_answer(m: Lent, j: u32) -> Answer
    ensures { result ≡ site_send (site_in (store m.entry.words.now m.entry.bytes.now)) j }
{
    ready(m, j)?;
    let k = m.header();
    if k.is_full(j) {
        return Err(Refusal::TooManyPackets);
    }
    let phase = crate::look::phase(m.bytes, j);
    node::negotiation_answer(phase)
}

// The index of the part that packet p has to itself in an area of the site's own.
fn part_of(p: u32) -> u32
    ensures { result ≡ p - 1 }
{
    p.saturating_sub(1)
}

// A hear of packet p, which lies in the part of an index.
pub(crate) fn heard_answer(m: Lent, area: &[u8], at: u32, j: u32, p: u32) -> Answer
    ensures { result ≡ site_heard (site_in (store m.entry.words.now m.entry.bytes.now)) (part_of area.now at) j p }
{
    ready(m, j)?;
    let k = m.header();
    if !k.is_packet(p) {
        return Err(Refusal::NoSuchPacket);
    }
    let f = k.config;
    let packet = wire::packet_at(area, at, f.nodes)?;
    crate::acts::hear_answer(m.words, m.bytes, j, packet)
}

fn hear_answer(m: Lent, area: &[u8], j: u32, p: u32) -> Answer
    ensures { result ≡ site_hear (site_in (store m.entry.words.now m.entry.bytes.now)) area.now j p }
{
    heard_answer(m, area, part_of(p), j, p)
}

fn take_answer(m: Lent, j: u32, g: u32) -> Answer
    ensures { result ≡ site_take (site_in (store m.entry.words.now m.entry.bytes.now)) j g }
{
    let k = m.header();
    if k.outside(j) | k.outside(g) {
        return Err(Refusal::NoSuchNode);
    }
    if k.negotiates {
        return Err(Refusal::WrongPhase);
    }
    if !crate::look::live(m.bytes, j) | !crate::look::live(m.bytes, g) {
        return Err(Refusal::NotLive);
    }
    let phase = crate::look::phase(m.bytes, j);
    let other = crate::look::phase(m.bytes, g);
    if !node::is_sending(other) {
        return Err(Refusal::WrongSender);
    }
    node::take_answer(phase)
}

fn want_answer(m: Lent, j: u32, d: u32) -> Answer
    ensures { result ≡ site_want (site_in (store m.entry.words.now m.entry.bytes.now)) j d }
{
    node::want_answer(d)?;
    crash_answer(m, j)
}

fn crash_answer(m: Lent, j: u32) -> Answer
    ensures { result ≡ site_crash (site_in (store m.entry.words.now m.entry.bytes.now)) j }
{
    let k = m.header();
    if k.outside(j) {
        return Err(Refusal::NoSuchNode);
    }
    if crate::look::up(m.bytes, j) {
        return Ok(());
    }
    Err(Refusal::NotLive)
}

fn restart_answer(m: Lent, j: u32, flags: u32) -> Answer
    ensures { result ≡ site_restart (site_in (store m.entry.words.now m.entry.bytes.now)) j flags }
{
    let k = m.header();
    let f = k.config;
    let s = Setup { node: j, config: f };
    if !s.flags_ok(flags) {
        return Err(Refusal::OutOfRange);
    }
    if k.outside(j) {
        return Err(Refusal::NoSuchNode);
    }
    if crate::look::up(m.bytes, j) {
        return Err(Refusal::NotDown);
    }
    Ok(())
}

// Kept: beside `end_answer`: what both do is `in_phase`, and they differ in one `!`.
fn close_answer(m: Lent) -> Answer
    ensures { result ≡ site_close (site_in (store m.entry.words.now m.entry.bytes.now)) }
{
    let k = m.header();
    in_phase(k.negotiates)
}

fn end_answer(m: Lent) -> Answer
    ensures { result ≡ site_end (site_in (store m.entry.words.now m.entry.bytes.now)) }
{
    let k = m.header();
    in_phase(!k.negotiates)
}

// The answer to an event, with an area that is long enough.
pub(crate) fn answer(m: Lent, area: &[u8], e: Event) -> Answer
    ensures { result ≡ event_answer (site_in (store m.entry.words.now m.entry.bytes.now)) area.now e }
{
    match e {
        Event::Send(j) => send_answer(m, j),
        Event::Hear(j, p) => hear_answer(m, area, j, p),
        Event::Close => close_answer(m),
        Event::Take(j, g) => take_answer(m, j, g),
        Event::End => end_answer(m),
        Event::Want(j, d) => want_answer(m, j, d),
        Event::Crash(j) => crash_answer(m, j),
        Event::Restart(j, flags) => restart_answer(m, j, flags),
    }
}
