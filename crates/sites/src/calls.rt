// The calls on memory that is long enough, each on the part of one site.
ghost use Rattle.std.specs.Prelude.{◌≡◌, [], ◌*◌, ◌≤◌, ◌<◌, length};
ghost use Rattle.machine.specs.Layout.{words_size, bytes_size, site_in};
ghost use Rattle.machine.specs.timed.Stored.{stored_load_answer, timed_loaded_store, timed_loaded_site};
ghost use Rattle.group.specs.Places.{top_places};
ghost use Rattle.sites.specs.one.Calls.{showing, out_node};
ghost use Rattle.sites.specs.many.Memory.{memory, lent, table_size, store_at};
ghost use Rattle.sites.specs.many.Inner.{Sized, common_full, lone_in, answer_by, tally_by, lent_store_by, site_by, places_by, area_by};
ghost use Rattle.sites.specs.many.Inner.{report_by, memory_by, loaded_by};

use crate::{places, site_slots, turns};
use machine::{BYTES, WORDS};
use node::{Answer, Config};
use site::{Event, Table};
use tally::Tally;
use windows::Window;

// A load of number a, whose site is at an index.
pub(crate) fn load_at(
    words: &mut [u32],
    bytes: &mut [u8],
    table: &mut [u32],
    i: usize,
    a: u32,
    f: Config,
    t: Table,
    epochs: u32,
    w: &[Window],
) -> Answer
    requires { (8 * words_size ≤ length words.old) × (8 * bytes_size ≤ length bytes.old)
        × (table_size ≤ length table.old) × (i < 8) }
    ensures value { result ≡ stored_load_answer (store_at (memory words.old bytes.old table.old) i) f t
        epochs w.now }
    ensures words_after { words.new
        ≡ (loaded_by (memory words.old bytes.old table.old) i a f t epochs w.now
        ).words }
    ensures bytes_after { bytes.new
        ≡ (loaded_by (memory words.old bytes.old table.old) i a f t epochs w.now
        ).bytes }
    ensures table_after { table.new
        ≡ (loaded_by (memory words.old bytes.old table.old) i a f t epochs w.now
        ).table }
    ensures sized { Sized (timed_loaded_store (store_at (memory words.old bytes.old table.old) i) f t
        epochs w.now)
        × (site_in (timed_loaded_store (store_at (memory words.old bytes.old table.old) i) f t epochs
        w.now) ≡ timed_loaded_site
        (store_at (memory words.old bytes.old table.old) i) f t epochs w.now) }
{
    let day = machine::timed::load(
        &mut words[WORDS * i..WORDS * i + WORDS],
        &mut bytes[BYTES * i..BYTES * i + BYTES],
        f,
        t,
        epochs,
        w,
    )?;
    places::free(&mut table[..256], a);
    site_slots::set_site_slot(table, i, day);
    Ok(())
}

// An event of number a, whose site is loaded at an index.
pub(crate) fn event_at(
    words: &mut [u32],
    bytes: &mut [u8],
    table: &mut [u32],
    area: &mut [u8],
    out: &mut [u8],
    i: usize,
    a: u32,
    e: Event,
    w: &[Window],
    t: &mut Tally,
) -> Answer
    requires { (8 * words_size ≤ length words.old) × (8 * bytes_size ≤ length bytes.old) × (table_size ≤ length table.old) × (i < 8)
        × (a ≤ 8) }
    ensures value { result
        ≡ answer_by (lone_in (memory words.old bytes.old table.old) area.old i a)
        (common_full (memory words.old bytes.old table.old) e)
        (lent w.now t.old out.old) e }
    ensures tally_after { t.new
        ≡ tally_by (lone_in (memory words.old bytes.old table.old) area.old i a)
        (common_full (memory words.old bytes.old table.old) e)
        (lent w.now t.old out.old) e }
    ensures words_after { words.new
        ≡ (memory_by (memory words.old bytes.old table.old) area.old i a
        (lent w.now t.old out.old) e).words }
    ensures bytes_after { bytes.new
        ≡ (memory_by (memory words.old bytes.old table.old) area.old i a
        (lent w.now t.old out.old) e).bytes }
    ensures table_after { table.new
        ≡ (memory_by (memory words.old bytes.old table.old) area.old i a
        (lent w.now t.old out.old) e).table }
    ensures area_after { area.new
        ≡ area_by (lone_in (memory words.old bytes.old table.old) area.old i a)
        (common_full (memory words.old bytes.old table.old) e)
        (lent w.now t.old out.old) e }
    ensures out_after { out.new
        ≡ report_by (lone_in (memory words.old bytes.old table.old) area.old i a)
        (common_full (memory words.old bytes.old table.old) e)
        (lent w.now t.old out.old) e }
    ensures sized { Sized (lent_store_by
        (lone_in (memory words.old bytes.old table.old) area.old i a)
        (common_full (memory words.old bytes.old table.old) e)
        (lent w.now t.old out.old) e)
        × (length (places_by (lone_in (memory words.old bytes.old table.old) area.old i a)
        (common_full (memory words.old bytes.old table.old) e)
        (lent w.now t.old out.old) e) ≡ top_places)
        × (site_in (lent_store_by (lone_in (memory words.old bytes.old table.old) area.old i a)
        (common_full (memory words.old bytes.old table.old) e)
        (lent w.now t.old out.old) e)
        ≡ site_by (lone_in (memory words.old bytes.old table.old) area.old i a)
        (common_full (memory words.old bytes.old table.old) e)
        (lent w.now t.old out.old) e) }
{
    let full = site_slots::is_full(words, bytes, table, e);
    let mut day = site_slots::day_at(table, i);
    let answer = turns::turn(
        &mut words[WORDS * i..WORDS * i + WORDS],
        &mut bytes[BYTES * i..BYTES * i + BYTES],
        &mut table[..256],
        area,
        out,
        &mut day,
        a,
        full,
        e,
        w,
        t,
    );
    site_slots::set_site_slot(table, i, day);
    answer
}

// What a listing shows of node j of the site at an index.
pub(crate) fn node_at(words: &[u32], bytes: &[u8], i: usize, j: u32, out: &mut [u8]) -> Answer
    requires { (8 * words_size ≤ length words.now) × (8 * bytes_size ≤ length bytes.now) × (i < 8) }
    ensures value { result ≡ showing (store_at (memory words.now bytes.now []) i) j out.old }
    ensures out_after { out.new ≡ out_node (store_at (memory words.now bytes.now []) i) j out.old }
{
    crate::one::show(
        &words[WORDS * i..WORDS * i + WORDS],
        &bytes[BYTES * i..BYTES * i + BYTES],
        j,
        out,
    )
}
