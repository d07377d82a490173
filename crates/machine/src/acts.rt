// What a node does at its place: it sends, hears, takes and wants. A hear and a take write its numbers whole, a want one byte of them.
ghost use Rattle.std.specs.Prelude.{◌≡◌, ◌≤◌, ◌<◌, length};
ghost use Rattle.machine.specs.Inner.{next_put};
ghost use Rattle.machine.specs.Layout.{store, words_size, bytes_size};
ghost use Rattle.machine.specs.Written.{demanded, taken_at};
ghost use Rattle.machine.specs.Acts.{no_node_at, no_packet, packet_sent, hear_read, heard_put, wanted_put, taken_put};

use crate::layout::{Lent, NODE_BYTES, SCHEDULE};
use crate::read::{is_short, is_up};
use crate::write::{move_schedules, put_demand, put_front, put_row};
use node::{Answer, Core, Packet, Refusal};

// Whether the storage is too short, or the number is none of the N nodes'.
pub(crate) fn no_node(words: &[u32], bytes: &[u8], j: u32) -> bool
    ensures { result ≡ no_node_at (store words.now bytes.now) j }
{
    if is_short(words, bytes) {
        return true;
    }
    let k = Lent { words, bytes }.header();
    k.outside(j)
}

fn no_packet() -> Packet
    ensures { result ≡ no_packet }
{
    Packet {
        sender: 0,
        lowest: 0,
        highest: 0,
        flags: 0,
        requests: [0u8; 32],
    }
}

// The packet that node j sends.
pub fn packet(words: &[u32], bytes: &[u8], j: u32) -> Packet
    ensures { result ≡ packet_sent (store words.now bytes.now) j }
{
    if no_node(words, bytes, j) {
        return no_packet();
    }
    let c = Lent { words, bytes }.core(site::node_index(j));
    let s = c.send();
    s.packet
}

// Its answer to a packet.
pub fn hear_answer(words: &[u32], bytes: &[u8], j: u32, q: Packet) -> Answer
    ensures { result ≡ hear_read (store words.now bytes.now) j q }
{
    if no_node(words, bytes, j) {
        return Err(Refusal::NoSuchNode);
    }
    let c = Lent { words, bytes }.core(site::node_index(j));
    c.hear_answer(q)
}

// The next core of the node at an index in place of the one that stands there. Whether the node is up, and its schedules, stay.
// Kept: lengths in `requires`. In a struct of two `&mut`, two more clauses would say that each field is the reference it was.
fn put_next(words: &mut [u32], bytes: &mut [u8], i: usize, next: Core)
    requires { (i < 32) × (words_size ≤ length words.old) × (bytes_size ≤ length bytes.old) }
    ensures words_after { words.new ≡ (next_put (store words.old bytes.old) i next).words }
    ensures bytes_after { bytes.new ≡ (next_put (store words.old bytes.old) i next).bytes }
{
    let up = is_up(bytes, i);
    put_row(words, i, next);
    put_front(bytes, i, up, next);
}

// It hears a packet.
pub fn hear(words: &mut [u32], bytes: &mut [u8], j: u32, q: Packet)
    ensures words_after { words.new ≡ (heard_put (store words.old bytes.old) j q).words }
    ensures bytes_after { bytes.new ≡ (heard_put (store words.old bytes.old) j q).bytes }
{
    if no_node(words, bytes, j) {
        return;
    }
    let i = site::node_index(j);
    let c = Lent { words, bytes }.core(i);
    put_next(words, bytes, i, c.hear(q));
}

// The node at an index has another demand: of the node after a want only that byte is another.
pub(crate) fn want_at(words: &[u32], bytes: &mut [u8], i: usize, d: u8)
    requires { (i < 32) × (words_size ≤ length words.now) × (bytes_size ≤ length bytes.old) }
    ensures { bytes.new ≡ (demanded (store words.now bytes.old) i d).bytes }
{
    let c = Lent { words, bytes }.core(i);
    let next = c.want(d);
    put_demand(bytes, i, next.demand);
}

// It has another demand.
pub fn want(words: &[u32], bytes: &mut [u8], j: u32, d: u8)
    ensures { bytes.new ≡ (wanted_put (store words.now bytes.old) j d).bytes }
{
    if no_node(words, bytes, j) {
        return;
    }
    want_at(words, bytes, site::node_index(j), d);
}

// The node at an index takes the version and schedule of the node at another.
fn take_from(words: &mut [u32], bytes: &mut [u8], i: usize, h: usize)
    requires { (i < 32) × (h < 32) × (words_size ≤ length words.old) × (bytes_size ≤ length bytes.old) }
    ensures words_after { words.new ≡ (taken_at (store words.old bytes.old) i h).words }
    ensures bytes_after { bytes.new ≡ (taken_at (store words.old bytes.old) i h).bytes }
{
    let up = is_up(bytes, i);
    let m = Lent { words, bytes };
    let c = m.core(i);
    let o = c.take(m.version(h));
    let next = o.core;
    let change = o.change;
    masks::copy(bytes, NODE_BYTES * h + SCHEDULE, NODE_BYTES * i + SCHEDULE);
    put_row(words, i, next);
    put_front(bytes, i, up, next);
    move_schedules(bytes, i, change, c);
}

// It takes the version and schedule of node g.
pub fn take(words: &mut [u32], bytes: &mut [u8], j: u32, g: u32)
    ensures words_after { words.new ≡ (taken_put (store words.old bytes.old) j g).words }
    ensures bytes_after { bytes.new ≡ (taken_put (store words.old bytes.old) j g).bytes }
{
    if no_node(words, bytes, j) | no_node(words, bytes, g) {
        return;
    }
    take_from(words, bytes, site::node_index(j), site::node_index(g));
}
