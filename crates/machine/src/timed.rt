// Demands by the hour: a site in lent words and bytes (specs/Layout.antt) with its day. The list of windows is lent to the load and to each
// end.
ghost use Rattle.std.specs.Prelude.{◌≡◌, true, ◌≤◌, ◌<◌, length};
ghost use Rattle.windows.specs.Windows.{list_ok};
ghost use Rattle.site.specs.Members.{header_of};
ghost use Rattle.node.specs.Figures.{is_last};
ghost use Rattle.site.specs.declared.Event.TheVariants.{End};
ghost use Rattle.machine.specs.Layout.{store, site_in, words_size, bytes_size};
ghost use Rattle.machine.specs.steps.After.{area_with};
ghost use Rattle.machine.specs.timed.Timed.{given_table};
ghost use Rattle.machine.specs.timed.Stored.{stored_load, timed_loaded_store, timed_loaded_site, given_store, stored_answer, stored_day};
ghost use Rattle.machine.specs.timed.Stored.{begun_store};
ghost use Rattle.machine.specs.timed.Stored.{timed_store, timed_site, answered_by, day_by, store_by};
ghost use Rattle.machine.specs.timed.Inner.{row_given, demand_given, day_begun, list_verdict};

use crate::Day;
use crate::acts::want_at;
use crate::read::{is_short, is_up};
use node::{Answer, Config, Refusal};
use site::{Event, Row, SiteHeader, Table};
use windows::Window;

// What stands for the demand of a node without windows. No demand is as large, so such a node keeps its own.
// Kept: `windows::due_all` gives a number for each node, and its clause says so.
const NO_DEMAND: u32 = 16;

// A row with a demand, or with its own where that is none.
fn given_row(row: Row, d: u32) -> Row
    ensures { result ≡ row_given row d }
{
    if (allotment::TOP_REQUEST as u32) < d {
        return row;
    }
    Row {
        version: row.version,
        flags: row.flags,
        want: d as u8,
    }
}

// A table with the demands of the first epoch.
fn given_table(w: &[Window], nodes: u32, day: u32, t: Table) -> Table
    requires { list_ok nodes day w.now ≡ true }
    ensures { result ≡ given_table w.now t }
{
    let demands = windows::due_all(w, 0, NO_DEMAND);
    Table {
        rows: std::array::from_fn(|i| given_row(t.rows[i], demands[i])),
    }
}

// A site from its settings and table, with a day of `length` epochs. Refused as 15 where words or bytes are too few. A refusal writes
// nothing.
pub fn load(
    words: &mut [u32],
    bytes: &mut [u8],
    f: Config,
    t: Table,
    length: u32,
    w: &[Window],
) -> Result<Day, Refusal>
    ensures value { result ≡ stored_load (store words.old bytes.old) f t length w.now }
    ensures words_after { words.new
        ≡ (timed_loaded_store (store words.old bytes.old) f t length w.now).words }
    ensures bytes_after { bytes.new
        ≡ (timed_loaded_store (store words.old bytes.old) f t length w.now).bytes }
    ensures bytes_after_2 { site_in (store words.new bytes.new)
        ≡ timed_loaded_site (store words.old bytes.old) f t length w.now }
{
    if is_short(words, bytes) {
        return Err(Refusal::NoRoom);
    }
    site::load_answer(f, t)?;
    if !windows::list_ok(w, f.nodes, length) {
        return Err(Refusal::BadWindows);
    }
    crate::load::begin_site(words, bytes, f, given_table(w, f.nodes, length, t))?;
    Ok(Day { length, epoch: 0 })
}

// A demand for the node at an index, if the node is up. A number that is no demand is given to none.
// Kept: lengths in `requires`: of the two lists one alone is lent to be written, which is a third struct beside `Lent`.
fn give_one(words: &[u32], bytes: &mut [u8], i: usize, d: u32)
    requires { (i < 32) × (words_size ≤ length words.now) × (bytes_size ≤ length bytes.old) }
    ensures { bytes.new ≡ demand_given bytes.old i d }
{
    let up = is_up(bytes, i);
    if !((d <= allotment::TOP_REQUEST as u32) & up) {
        return;
    }
    want_at(words, bytes, i, d as u8);
}

// The demands of an epoch, given to the N nodes; an empty list gives none. The list is gone over once, and of a node that is up and has
// windows one byte is written. A node without windows keeps its demand, which needs no reading: it is given what is no demand.
fn give(words: &[u32], bytes: &mut [u8], area: &[u8], w: &[Window], epoch: u32, nodes: u32)
    requires { nodes ≡ (site_in (store words.now bytes.old)).config.nodes }
    ensures words_value { words.now
        ≡ (given_store w.now epoch area.now (store words.now bytes.old)).words }
    ensures bytes_after { bytes.new
        ≡ (given_store w.now epoch area.now (store words.now bytes.old)).bytes }
{
    if w.is_empty() {
        return;
    }
    if is_short(words, bytes) {
        return;
    }
    if area.len() < SiteHeader::AREA {
        return;
    }
    let demands = windows::due_all(w, epoch, NO_DEMAND);
    let n = crate::places(nodes) as usize;
    for (i, d) in demands[..n].iter().enumerate() {
        give_one(words, bytes, i, *d);
    }
}

// The round is the epoch's last.
fn in_last_round(k: SiteHeader) -> bool
    ensures { result ≡ is_last k.config k.place }
{
    let f = k.config;
    f.is_last(k.place)
}

// Where the next epoch begins with an end, its demands are given, and its day begins.
fn begin(words: &[u32], bytes: &mut [u8], area: &[u8], k: SiteHeader, day: Day, w: &[Window]) -> Day
    requires { k ≡ header_of (site_in (store words.now bytes.old)) }
    ensures value { result ≡ day_begun (site_in (store words.now bytes.old)) day }
    ensures words_value { words.now
        ≡ (begun_store (store words.now bytes.old) day area.now w.now End).words }
    ensures bytes_after { bytes.new
        ≡ (begun_store (store words.now bytes.old) day area.now w.now End).bytes }
{
    if !in_last_round(k) {
        return day;
    }
    let f = k.config;
    let next = day.next();
    give(words, bytes, area, w, next.epoch, f.nodes);
    next
}

// An end; `ok` is what its list was found to be.
fn end(
    words: &mut [u32],
    bytes: &mut [u8],
    area: &mut [u8],
    day: &mut Day,
    w: &[Window],
    ok: bool,
) -> Answer
    ensures value { result ≡ answered_by ok (store words.old bytes.old) area.old End }
    ensures day_after { day.new ≡ day_by ok (store words.old bytes.old) day.old area.old End }
    ensures words_after { words.new
        ≡ (store_by ok (store words.old bytes.old) day.old area.old w.now End).words }
    ensures bytes_after { bytes.new
        ≡ (store_by ok (store words.old bytes.old) day.old area.old w.now End).bytes }
    ensures area_after { area.new ≡ area_with (store words.old bytes.old) area.old End }
{
    crate::steps::answer_to(words, bytes, area, Event::End)?;
    if !ok {
        return Err(Refusal::BadWindows);
    }
    let k = crate::look::header(words, bytes);
    *day = begin(words, bytes, area, k, *day, w);
    // The demands change nothing of what the end was answered.
    let _ = crate::steps::step(words, bytes, area, Event::End);
    Ok(())
}

// One event whose list was tested before: `ok` is what it was found to be. Only an end looks at it.
pub fn step_tested(
    words: &mut [u32],
    bytes: &mut [u8],
    area: &mut [u8],
    day: &mut Day,
    e: Event,
    w: &[Window],
    ok: bool,
) -> Answer
    ensures value { result ≡ answered_by ok (store words.old bytes.old) area.old e }
    ensures day_after { day.new ≡ day_by ok (store words.old bytes.old) day.old area.old e }
    ensures words_after { words.new
        ≡ (store_by ok (store words.old bytes.old) day.old area.old w.now e).words }
    ensures bytes_after { bytes.new
        ≡ (store_by ok (store words.old bytes.old) day.old area.old w.now e).bytes }
    ensures area_after { area.new ≡ area_with (store words.old bytes.old) area.old e }
{
    if site::is_end(e) {
        return end(words, bytes, area, day, w, ok);
    }
    crate::steps::step(words, bytes, area, e)
}

// What an event's list is found to be.
fn tested(words: &[u32], bytes: &[u8], day: Day, e: Event, w: &[Window]) -> bool
    ensures { result ≡ list_verdict (store words.now bytes.now) day w.now e }
{
    if !site::is_end(e) {
        return true;
    }
    let k = crate::look::header(words, bytes);
    let f = k.config;
    windows::list_ok(w, f.nodes, day.length)
}

// One event, and the day after it. Refused as 15 where words, bytes or area are too few. A refusal changes nothing.
// Only an end looks at the list.
pub fn step(
    words: &mut [u32],
    bytes: &mut [u8],
    area: &mut [u8],
    day: &mut Day,
    e: Event,
    w: &[Window],
) -> Answer
    ensures value { result ≡ stored_answer (store words.old bytes.old) day.old area.old w.now e }
    ensures day_after { day.new ≡ stored_day (store words.old bytes.old) day.old area.old w.now e }
    ensures words_after { words.new
        ≡ (timed_store (store words.old bytes.old) day.old area.old w.now e).words }
    ensures bytes_after { bytes.new
        ≡ (timed_store (store words.old bytes.old) day.old area.old w.now e).bytes }
    ensures bytes_after_2 { site_in (store words.new bytes.new)
        ≡ timed_site (store words.old bytes.old) day.old area.old w.now e }
    ensures area_after { area.new ≡ area_with (store words.old bytes.old) area.old e }
{
    let ok = tested(words, bytes, *day, e, w);
    step_tested(words, bytes, area, day, e, w, ok)
}
