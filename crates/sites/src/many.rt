// A group of sites in lent memory with one packet area, for desk tools in C (include/hydra-desk.h), each with windows, a tally of the slots
// held and the reports of closes.
ghost use Rattle.std.specs.Prelude.{◌≡◌, List, ℕ, cond, ◌||◌, ltb, length};
ghost use Rattle.node.specs.Answers.{OutOfRange, NoRoom};
ghost use Rattle.site.specs.Answers.{area_size};
ghost use Rattle.machine.specs.combined.Kept.{first_refusal};
ghost use Rattle.machine.specs.combined.Stored.{report_too_short};
ghost use Rattle.script.specs.events.Events.{event_at};
ghost use Rattle.sites.specs.one.Calls.{config_from};
ghost use Rattle.group.specs.Group.{vacant};
ghost use Rattle.sites.specs.many.Memory.{memory, lent, loaded_answer, group_in};
ghost use Rattle.sites.specs.many.Calls.{begin_answer, begun_table, group_load_answer, after_load, group_loaded, group_event_answer};
ghost use Rattle.sites.specs.many.Calls.{after_event, group_tally_after};
ghost use Rattle.sites.specs.many.Calls.{group_area_after, report_after, group_after, rows_answer, after_rows, group_rows, tally_loaded};
ghost use Rattle.sites.specs.many.Calls.{group_line_answer, after_line, area_after_line, tally_after_line};
ghost use Rattle.sites.specs.many.Calls.{report_after_line};
ghost use Rattle.sites.specs.many.Calls.{group_after_line, group_node_answer, node_out};

use crate::{calls, one, site_slots};
use node::{Answer, Config, Refusal};
use site::{Event, SiteHeader, Table};
use site_slots::TABLE;
use tally::Tally;
use windows::Window;

// Nothing is loaded and every place is free. Refused as 15 where the memory is too short.
pub fn hydra_group_begin(words: &[u32], bytes: &[u8], table: &mut [u32]) -> Answer
    ensures value { result ≡ begin_answer (memory words.now bytes.now table.old) }
    ensures table_after { table.new ≡ begun_table (memory words.now bytes.now table.old) }
    ensures by_index { (area : List ℕ) → group_in (memory words.now bytes.now table.new)
        area ≡ vacant area }
{
    if site_slots::too_few(words, bytes, table) {
        return Err(Refusal::NoRoom);
    }
    table[..TABLE].fill(0);
    Ok(())
}

// A load of a number, with a day of so many epochs and its windows.
pub fn load(
    words: &mut [u32],
    bytes: &mut [u8],
    table: &mut [u32],
    a: u32,
    f: Config,
    t: Table,
    epochs: u32,
    w: &[Window],
) -> Answer
    ensures value { result ≡ group_load_answer (memory words.old bytes.old table.old) a f t epochs
        w.now }
    ensures words_after { words.new
        ≡ (after_load (memory words.old bytes.old table.old) a f t epochs w.now).words }
    ensures bytes_after { bytes.new
        ≡ (after_load (memory words.old bytes.old table.old) a f t epochs w.now).bytes }
    ensures table_after { table.new
        ≡ (after_load (memory words.old bytes.old table.old) a f t epochs w.now).table }
    ensures by_index { (area : List ℕ) → group_in (memory words.new bytes.new table.new) area
        ≡ group_loaded (memory words.old bytes.old table.old) area a f t epochs
        w.now }
{
    if !site_slots::is_number(a) {
        return Err(Refusal::NoSuchNode);
    }
    if site_slots::too_few(words, bytes, table) {
        return Err(Refusal::NoRoom);
    }
    calls::load_at(words, bytes, table, a as usize - 1, a, f, t, epochs, w)
}

// An event of a number, with its windows and its tally.
pub fn step(
    words: &mut [u32],
    bytes: &mut [u8],
    table: &mut [u32],
    area: &mut [u8],
    out: &mut [u8],
    a: u32,
    e: Event,
    w: &[Window],
    t: &mut Tally,
) -> Answer
    ensures value { result ≡ group_event_answer (memory words.old bytes.old table.old) area.old a
        (lent w.now t.old out.old) e }
    ensures tally_after { t.new ≡ group_tally_after (memory words.old bytes.old table.old) area.old a
        (lent w.now t.old out.old) e }
    ensures words_after { words.new
        ≡ (after_event (memory words.old bytes.old table.old) area.old a
        (lent w.now t.old out.old) e).words }
    ensures bytes_after { bytes.new
        ≡ (after_event (memory words.old bytes.old table.old) area.old a
        (lent w.now t.old out.old) e).bytes }
    ensures table_after { table.new
        ≡ (after_event (memory words.old bytes.old table.old) area.old a
        (lent w.now t.old out.old) e).table }
    ensures area_after { area.new
        ≡ group_area_after (memory words.old bytes.old table.old) area.old a
        (lent w.now t.old out.old) e }
    ensures out_after { out.new
        ≡ report_after (memory words.old bytes.old table.old) area.old a
        (lent w.now t.old out.old) e }
    ensures group_after { group_in (memory words.new bytes.new table.new) area.new
        ≡ group_after (memory words.old bytes.old table.old) area.old a
        (lent w.now t.old out.old) e }
{
    site_slots::loaded_answer(words, bytes, table, a)?;
    calls::event_at(words, bytes, table, area, out, a as usize - 1, a, e, w, t)
}

// A load whose rows are lent: refused as 2 where they are not three words for each node.
fn load_rows(
    words: &mut [u32],
    bytes: &mut [u8],
    table: &mut [u32],
    a: u32,
    f: Config,
    rows: &[u32],
    epochs: u32,
    w: &[Window],
) -> Answer
    ensures value { result ≡ rows_answer (memory words.old bytes.old table.old) a f rows.now
        epochs w.now }
    ensures words_after { words.new
        ≡ (after_rows (memory words.old bytes.old table.old) a f rows.now epochs
        w.now).words }
    ensures bytes_after { bytes.new
        ≡ (after_rows (memory words.old bytes.old table.old) a f rows.now epochs
        w.now).bytes }
    ensures table_after { table.new
        ≡ (after_rows (memory words.old bytes.old table.old) a f rows.now epochs
        w.now).table }
    ensures by_index { (area : List ℕ) → group_in (memory words.new bytes.new table.new) area
        ≡ group_rows (memory words.old bytes.old table.old) area a f rows.now epochs
        w.now }
{
    if rows.len() == 3 * (f.nodes as usize) {
        return load(words, bytes, table, a, f, one::table_of(rows), epochs, w);
    }
    if !site_slots::is_number(a) {
        return Err(Refusal::NoSuchNode);
    }
    if site_slots::too_few(words, bytes, table) {
        return Err(Refusal::NoRoom);
    }
    Err(Refusal::OutOfRange)
}

// A load of a number: three words of `rows` for each node, and a day of so many epochs with its windows. The number's tally is set anew.
pub fn hydra_group_load(
    words: &mut [u32],
    bytes: &mut [u8],
    table: &mut [u32],
    a: u32,
    nodes: u32,
    slots: u32,
    rounds: u32,
    heard: u32,
    split: u32,
    rows: &[u32],
    day: u32,
    windows: &[Window],
    tally: &mut Tally,
) -> Answer
    ensures value { result ≡ rows_answer (memory words.old bytes.old table.old) a
        (config_from nodes slots rounds heard split) rows.now day windows.now }
    ensures words_after { words.new ≡ (after_rows (memory words.old bytes.old table.old) a
        (config_from nodes slots rounds heard split) rows.now day windows.now).words }
    ensures bytes_after { bytes.new ≡ (after_rows (memory words.old bytes.old table.old) a
        (config_from nodes slots rounds heard split) rows.now day windows.now).bytes }
    ensures table_after { table.new ≡ (after_rows (memory words.old bytes.old table.old) a
        (config_from nodes slots rounds heard split) rows.now day windows.now).table }
    ensures by_index { (area : List ℕ) → group_in (memory words.new bytes.new table.new) area
        ≡ group_rows (memory words.old bytes.old table.old) area a
        (config_from nodes slots rounds heard split) rows.now day windows.now }
    ensures tally_after { tally.new ≡ tally_loaded (memory words.old bytes.old table.old) a
        (config_from nodes slots rounds heard split) rows.now day windows.now tally.old }
{
    let f = Config {
        nodes,
        slots,
        rounds,
        min_heard: heard,
        split,
    };
    load_rows(words, bytes, table, a, f, rows, day, windows)?;
    *tally = Tally::first();
    Ok(())
}

// What three numbers are answered that make no event.
fn no_event(words: &[u32], bytes: &[u8], table: &[u32], area: &[u8], out: &[u8], a: u32) -> Answer
    ensures { result ≡ first_refusal (loaded_answer (memory words.now bytes.now table.now) a)
        (cond (ltb (length area.now) area_size || report_too_short out.now) NoRoom OutOfRange) }
{
    site_slots::loaded_answer(words, bytes, table, a)?;
    if (area.len() < SiteHeader::AREA) | machine::combined::report_too_short(out) {
        return Err(Refusal::NoRoom);
    }
    Err(Refusal::OutOfRange)
}

// An event of a number: its own number, its node, and what stands behind the node in a script. The number's tally is lent. The report of an
// accepted close goes to the start of `reports`.
pub fn hydra_group_event(
    words: &mut [u32],
    bytes: &mut [u8],
    table: &mut [u32],
    area: &mut [u8],
    a: u32,
    event: u32,
    node: u32,
    with: u32,
    windows: &[Window],
    tally: &mut Tally,
    reports: &mut [u8],
) -> Answer
    ensures value { result ≡ group_line_answer (memory words.old bytes.old table.old) area.old a
        (lent windows.now tally.old reports.old) (event_at event node with) }
    ensures words_after { words.new ≡ (after_line (memory words.old bytes.old table.old) area.old a
        (lent windows.now tally.old reports.old) (event_at event node with)).words }
    ensures bytes_after { bytes.new ≡ (after_line (memory words.old bytes.old table.old) area.old a
        (lent windows.now tally.old reports.old) (event_at event node with)).bytes }
    ensures table_after { table.new ≡ (after_line (memory words.old bytes.old table.old) area.old a
        (lent windows.now tally.old reports.old) (event_at event node with)).table }
    ensures area_after { area.new ≡ area_after_line (memory words.old bytes.old table.old) area.old a
        (lent windows.now tally.old reports.old) (event_at event node with) }
    ensures reports_after { reports.new ≡ report_after_line (memory words.old bytes.old table.old) area.old
        a (lent windows.now tally.old reports.old) (event_at event node with) }
    ensures group_after { group_in (memory words.new bytes.new table.new) area.new
        ≡ group_after_line (memory words.old bytes.old table.old) area.old a
        (lent windows.now tally.old reports.old) (event_at event node with) }
    ensures tally_after { tally.new ≡ tally_after_line (memory words.old bytes.old table.old) area.old a
        (lent windows.now tally.old reports.old) (event_at event node with) }
{
    match script::events::event_at(event, node, with) {
        None => no_event(words, bytes, table, area, reports, a),
        Some(e) => step(words, bytes, table, area, reports, a, e, windows, tally),
    }
}

// What a listing shows of node j of a number, in 90 bytes at the start of an output.
pub fn hydra_group_node(
    words: &[u32],
    bytes: &[u8],
    table: &[u32],
    a: u32,
    j: u32,
    out: &mut [u8],
) -> Answer
    ensures value { result
        ≡ group_node_answer (memory words.now bytes.now table.now) a j out.old }
    ensures out_after { out.new
        ≡ node_out (memory words.now bytes.now table.now) a j out.old }
{
    site_slots::loaded_answer(words, bytes, table, a)?;
    calls::node_at(words, bytes, a as usize - 1, j, out)
}
