// A site in lent memory for desk tools in C (include/hydra-desk.h), with windows, a tally of the slots held and the reports of closes: its
// load, its events, and what a listing shows of a node.
ghost use Rattle.std.specs.Prelude.{◌≡◌, false, ◌∷◌, min, ◌+◌, ◌≤◌, ◌<◌, length, get_or, replicate};
ghost use mir.Val.{bool_byte};
ghost use Rattle.lists.specs.Bytes.{Put};
ghost use Rattle.allotment.specs.Allotment.{top_request};
ghost use Rattle.machine.specs.Layout.{store};
ghost use Rattle.machine.specs.Acts.{no_node_at};
ghost use Rattle.machine.specs.Loading.{member_read};
ghost use Rattle.script.specs.events.Events.{event_at};
ghost use Rattle.sites.specs.one.Memory.{timed_of, kept_of};
ghost use Rattle.sites.specs.one.Calls.{config_from, row_from, table_from, loading_of, after_load, timed_after_load, tally_after_load};
ghost use Rattle.sites.specs.one.Calls.{site_event_answer, after_event, kept_after_event, report_after_event};
ghost use Rattle.sites.specs.one.Calls.{live_bytes, node_bytes, showing, out_node, showing_of, out_node_of};

use crate::memory;
use machine::{BYTES, WORDS};
use node::{Answer, Config, Refusal};
use site::{Row, Table};
use tally::Tally;
use windows::Window;

// The bytes that show a node.
pub const SHOWN: usize = 90;

// A word at a place, 0 behind the end.
pub fn word_of(s: &[u32], i: usize) -> u32
    ensures { result ≡ get_or s.now i 0 }
{
    s.get(i).copied().unwrap_or(0)
}

// A want as a byte: for any above the top request stands the number after it.
fn small_want(w: u32) -> u8
    ensures { result ≡ min w (top_request + 1) }
{
    w.min(u32::from(allotment::TOP_REQUEST) + 1) as u8
}

// The row at an index of lent rows.
fn row_at(rows: &[u32], i: usize) -> Row
    requires { i < 32 }
    ensures { result ≡ row_from rows.now i }
{
    Row {
        version: word_of(rows, 3 * i),
        flags: word_of(rows, 3 * i + 1),
        want: small_want(word_of(rows, 3 * i + 2)),
    }
}

// The table of lent rows.
pub fn table_of(lent: &[u32]) -> Table
    ensures { result ≡ table_from lent.now }
{
    Table {
        rows: std::array::from_fn(|i| row_at(lent, i)),
    }
}

// A site loaded into memory: three words of `rows` for each node, and a day of so many epochs with its windows. The tally is set anew.
pub fn hydra_site_load(
    words: &mut [u32],
    bytes: &mut [u8],
    nodes: u32,
    slots: u32,
    rounds: u32,
    heard: u32,
    split: u32,
    rows: &[u32],
    day: u32,
    windows: &[Window],
    tally: &mut Tally,
) -> Answer
    ensures value { result ≡ loading_of (store words.old bytes.old) (config_from nodes slots rounds heard split)
        rows.now day windows.now }
    ensures words_after { words.new ≡ (after_load (store words.old bytes.old) (config_from nodes slots rounds heard split)
        rows.now day windows.now).words }
    ensures bytes_after { bytes.new ≡ (after_load (store words.old bytes.old) (config_from nodes slots rounds heard split)
        rows.now day windows.now).bytes }
    ensures timed_after { timed_of (store words.new bytes.new)
        ≡ timed_after_load (store words.old bytes.old) (config_from nodes slots rounds heard split) rows.now
        day windows.now }
    ensures tally_after { tally.new ≡ tally_after_load (store words.old bytes.old) (config_from nodes slots rounds heard split)
        rows.now day windows.now tally.old }
{
    let f = Config {
        nodes,
        slots,
        rounds,
        min_heard: heard,
        split,
    };
    memory::load(words, bytes, f, rows, day, windows)?;
    *tally = Tally::first();
    Ok(())
}

// One event: its number, its node, and what stands behind the node in a script. The report of an accepted close goes to the start of
// `reports`.
pub fn hydra_site_event(
    words: &mut [u32],
    bytes: &mut [u8],
    area: &mut [u8],
    event: u32,
    node: u32,
    with: u32,
    windows: &[Window],
    tally: &mut Tally,
    reports: &mut [u8],
) -> Answer
    ensures value { result ≡ site_event_answer (store words.old bytes.old) area.old windows.now
        tally.old reports.old (event_at event node with) }
    ensures words_after { words.new ≡ (after_event (store words.old bytes.old) area.old windows.now
        tally.old reports.old (event_at event node with)).words }
    ensures bytes_after { bytes.new ≡ (after_event (store words.old bytes.old) area.old windows.now
        tally.old reports.old (event_at event node with)).bytes }
    ensures reports_after { reports.new ≡ report_after_event (store words.old bytes.old) area.old
        windows.now tally.old reports.old (event_at event node with) }
    ensures kept_after { kept_of (store words.new bytes.new) area.new tally.new
        ≡ kept_after_event (store words.old bytes.old) area.old windows.now tally.old
        reports.old (event_at event node with) }
{
    if memory::lacks(words, bytes) {
        return Err(Refusal::NoRoom);
    }
    match script::events::event_at(event, node, with) {
        None => memory::no_event(words, bytes, area, reports),
        Some(e) => memory::step(words, bytes, area, reports, e, windows, tally),
    }
}

// A live node's bytes to the start of an output.
fn put_live(words: &[u32], bytes: &[u8], j: u32, out: &mut [u8]) -> usize
    requires { (90 ≤ length out.old) × (no_node_at (store words.now bytes.now) j ≡ false) }
    ensures { Put out.old 0 (live_bytes (member_read (store words.now bytes.now) j).node)
        result out.new }
{
    let c = machine::core(words, bytes, j);
    let mut owners = [0u8; 80];
    machine::tell_owners(words, bytes, j, &mut owners, 0);
    let version = lists::word_bytes(c.version);
    let flags = lists::word_bytes(c.flags);
    let a = text::put_byte(out, 0, 2);
    let b = lists::put_bytes(out, a, &version);
    let d = lists::put_bytes(out, b, &flags);
    let e = text::put_byte(out, d, c.request);
    lists::put_bytes(out, e, &owners)
}

// Those of a node that is waiting or down.
fn put_rest(out: &mut [u8], up: bool) -> usize
    requires { 90 ≤ length out.old }
    ensures { Put out.old 0 (bool_byte up ∷ replicate 89 0) result out.new }
{
    let zeros = [0u8; 89];
    let a = text::put_byte(out, 0, up as u8);
    lists::put_bytes(out, a, &zeros)
}

// The bytes of one of the N nodes to the start of an output.
fn put_node(words: &[u32], bytes: &[u8], j: u32, out: &mut [u8]) -> usize
    requires { (90 ≤ length out.old) × (no_node_at (store words.now bytes.now) j ≡ false) }
    ensures { Put out.old 0 (node_bytes (member_read (store words.now bytes.now) j))
        result out.new }
{
    if machine::live(bytes, j) {
        return put_live(words, bytes, j, out);
    }
    put_rest(out, machine::up(bytes, j))
}

// What a listing shows of node j of a site in storage, in 90 bytes at the start of an output.
pub fn show(words: &[u32], bytes: &[u8], j: u32, out: &mut [u8]) -> Answer
    ensures value { result ≡ showing (store words.now bytes.now) j out.old }
    ensures out_after { out.new ≡ out_node (store words.now bytes.now) j out.old }
{
    let short = (words.len() < WORDS) | (bytes.len() < BYTES);
    if short | (out.len() < SHOWN) {
        return Err(Refusal::NoRoom);
    }
    let k = machine::header(words, bytes);
    if k.outside(j) {
        return Err(Refusal::NoSuchNode);
    }
    put_node(words, bytes, j, out);
    Ok(())
}

// The same of a site in memory.
pub fn hydra_site_node(words: &[u32], bytes: &[u8], j: u32, out: &mut [u8]) -> Answer
    ensures value { result ≡ showing_of (store words.now bytes.now) j out.old }
    ensures out_after { out.new ≡ out_node_of (store words.now bytes.now) j out.old }
{
    if memory::lacks(words, bytes) {
        return Err(Refusal::NoRoom);
    }
    show(words, bytes, j, out)
}
