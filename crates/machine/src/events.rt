// What accepted events write.
ghost use Rattle.std.specs.Prelude.{◌≡◌, ◌<◌, false};
ghost use Rattle.node.specs.Answers.{Done};
ghost use Rattle.site.specs.declared.Event.TheVariants.{Send, Hear};
ghost use Rattle.node.specs.Negotiation.{packet_of};
ghost use Rattle.wire.specs.Reads.{part_of};
ghost use Rattle.site.specs.Members.{member_at};
ghost use Rattle.site.specs.Steps.{stored, sent_area, next_area};
ghost use Rattle.machine.specs.Layout.{store, site_in};
ghost use Rattle.machine.specs.steps.After.{sent_store, heard_part, heard_store, taken_store, wanted_store, crashed_store, restarted_store};
ghost use Rattle.machine.specs.steps.After.{next_store, storage_answer, part_answer};
ghost use Rattle.machine.specs.Acts.{no_node_at};

use crate::SENT;
use crate::layout::Lent;
use node::{Core, Setup};
use site::Event;

// Node j sends: its packet goes into the part of an index, and it has sent one more.
pub(crate) fn send_into(words: &[u32], bytes: &mut [u8], area: &mut [u8], at: u32, j: u32)
    requires { storage_answer (store words.now bytes.old) area.old (Send j) ≡ Done }
    ensures bytes_after { bytes.new ≡ (sent_store (store words.now bytes.old) j).bytes }
    ensures area_after { area.new
        ≡ stored area.old at (packet_of (member_at (site_in (store words.now bytes.old)) j).node) }
{
    wire::put_packet(area, at, crate::acts::packet(words, bytes, j));
    let i = site::node_index(j);
    let before = bytes[SENT + i];
    bytes[SENT + i] = before + 1;
}

// Its packet stands behind those sent before.
fn send(words: &[u32], bytes: &mut [u8], area: &mut [u8], j: u32)
    requires { storage_answer (store words.now bytes.old) area.old (Send j) ≡ Done }
    ensures bytes_after { bytes.new ≡ (sent_store (store words.now bytes.old) j).bytes }
    ensures area_after { area.new ≡ sent_area (site_in (store words.now bytes.old)) area.old j }
{
    let k = Lent { words, bytes }.header();
    send_into(words, bytes, area, k.packets(), j);
}

// Node j hears packet p, which lies in the part of an index.
pub(crate) fn hear_from(words: &mut [u32], bytes: &mut [u8], area: &[u8], at: u32, j: u32, p: u32)
    requires { part_answer (store words.old bytes.old) (part_of area.now at) j p ≡ Done }
    ensures words_after { words.new
        ≡ (heard_part (store words.old bytes.old) (part_of area.now at) j).words }
    ensures bytes_after { bytes.new
        ≡ (heard_part (store words.old bytes.old) (part_of area.now at) j).bytes }
{
    let packet = wire::packet_of(area, at);
    crate::acts::hear(words, bytes, j, packet);
}

// Node j hears packet p of the area.
fn hear(words: &mut [u32], bytes: &mut [u8], area: &[u8], j: u32, p: u32)
    requires { storage_answer (store words.old bytes.old) area.now (Hear j p) ≡ Done }
    ensures words_after { words.new ≡ (heard_store (store words.old bytes.old) area.now j p).words }
    ensures bytes_after { bytes.new ≡ (heard_store (store words.old bytes.old) area.now j p).bytes }
{
    hear_from(words, bytes, area, p - 1, j, p);
}

// Node j takes the version and schedule of node g.
fn take(words: &mut [u32], bytes: &mut [u8], j: u32, g: u32)
    requires { (no_node_at (store words.old bytes.old) j ≡ false) × (no_node_at (store words.old bytes.old) g ≡ false) }
    ensures words_after { words.new ≡ (taken_store (store words.old bytes.old) j g).words }
    ensures bytes_after { bytes.new ≡ (taken_store (store words.old bytes.old) j g).bytes }
{
    crate::acts::take(words, bytes, j, g);
}

// Node j has another demand.
fn want(words: &[u32], bytes: &mut [u8], j: u32, d: u32)
    requires { (no_node_at (store words.now bytes.old) j ≡ false) × (d < 256) }
    ensures { bytes.new ≡ (wanted_store (store words.now bytes.old) j d).bytes }
{
    crate::acts::want(words, bytes, j, d as u8);
}

// Node j has lost all.
fn crash(words: &mut [u32], bytes: &mut [u8], j: u32)
    requires { no_node_at (store words.old bytes.old) j ≡ false }
    ensures words_after { words.new ≡ (crashed_store (store words.old bytes.old) j).words }
    ensures bytes_after { bytes.new ≡ (crashed_store (store words.old bytes.old) j).bytes }
{
    let k = Lent { words, bytes }.header();
    let f = k.config;
    let setup = Setup { node: j, config: f };
    let c = Core::restart(setup, 0, 0);
    crate::look::set_free(words, bytes, j, false, c);
}

// Node j waits for the epoch's end, with the flags that its restart gave.
fn restart(words: &mut [u32], bytes: &mut [u8], j: u32, flags: u32)
    requires { no_node_at (store words.old bytes.old) j ≡ false }
    ensures words_after { words.new ≡ (restarted_store (store words.old bytes.old) j flags).words }
    ensures bytes_after { bytes.new ≡ (restarted_store (store words.old bytes.old) j flags).bytes }
{
    let k = Lent { words, bytes }.header();
    let f = k.config;
    let setup = Setup { node: j, config: f };
    let c = Core::restart(setup, flags, k.place);
    crate::look::set_free(words, bytes, j, true, c);
}

// What an accepted event writes.
pub(crate) fn apply(words: &mut [u32], bytes: &mut [u8], area: &mut [u8], e: Event)
    requires { storage_answer (store words.old bytes.old) area.old e ≡ Done }
    ensures words_after { words.new ≡ (next_store (store words.old bytes.old) area.old e).words }
    ensures bytes_after { bytes.new ≡ (next_store (store words.old bytes.old) area.old e).bytes }
    ensures area_after { area.new ≡ next_area (site_in (store words.old bytes.old)) area.old e }
{
    match e {
        Event::Send(j) => send(words, bytes, area, j),
        Event::Hear(j, p) => hear(words, bytes, area, j, p),
        Event::Close => crate::phases::close(words, bytes),
        Event::Take(j, g) => take(words, bytes, j, g),
        Event::End => crate::phases::end(words, bytes),
        Event::Want(j, d) => want(words, bytes, j, d),
        Event::Crash(j) => crash(words, bytes, j),
        Event::Restart(j, flags) => restart(words, bytes, j, flags),
    }
}
