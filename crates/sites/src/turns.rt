// One event of a site whose packets lie by the table of places: the site's own storage, the 256 places and the area.
ghost use Rattle.std.specs.Prelude.{◌≡◌, false, ◌≤◌, length};
ghost use Rattle.site.specs.Counts.{packets};
ghost use Rattle.site.specs.Answers.{area_size};
ghost use Rattle.machine.specs.Layout.{store, site_in, words_size, bytes_size};
ghost use Rattle.machine.specs.combined.Stored.{lent_too_short};
ghost use Rattle.group.specs.Places.{top_places};
ghost use Rattle.group.specs.Calls.{is_send};
ghost use Rattle.sites.specs.many.Memory.{lent};
ghost use Rattle.sites.specs.many.Inner.{is_hear, one_site, own_by, answer_by, day_by, tally_by, lent_store_by, site_by, places_by, area_by, report_by};
ghost use Rattle.sites.specs.many.Inner.{list_answer};
ghost use Rattle.sites.specs.many.Inner.{send_answer, send_store, send_places, send_area, group_hear_answer, hear_store, heard_bytes};

use crate::places;
use machine::Day;
use node::{Answer, Refusal};
use site::Event;
use tally::Tally;
use windows::Window;

// The packets of a site in this phase.
pub(crate) fn packets(words: &[u32], bytes: &[u8]) -> u32
    requires { (words_size ≤ length words.now) × (bytes_size ≤ length bytes.now) }
    ensures value { result ≡ packets (site_in (store words.now bytes.now)).sent }
    ensures within { result ≤ 8160 }
{
    let k = machine::header(words, bytes);
    k.packets()
}

// What is said of a list of windows, by the site's nodes and its day.
fn listed(words: &[u32], bytes: &[u8], day: Day, w: &[Window]) -> Answer
    requires { (words_size ≤ length words.now) × (bytes_size ≤ length bytes.now) }
    ensures { result ≡ list_answer (store words.now bytes.now) day w.now }
{
    let k = machine::header(words, bytes);
    let f = k.config;
    if windows::list_ok(w, f.nodes, day.length) {
        return Ok(());
    }
    Err(Refusal::BadWindows)
}

// A send of number a, with an area that is long enough; o is what is said of its windows. The packet goes into the lowest free place. It is
// refused as 17 where the site has 16 packets and the common places are taken.
fn send(
    words: &[u32],
    bytes: &mut [u8],
    list: &mut [u32],
    area: &mut [u8],
    a: u32,
    o: Answer,
    full: bool,
    j: u32,
) -> Answer
    requires { (words_size ≤ length words.now) × (bytes_size ≤ length bytes.old) × (length list.old ≡ top_places)
        × (area_size ≤ length area.old) × (a ≤ 8) }
    ensures value { result ≡ send_answer (store words.now bytes.old) o full j }
    ensures bytes_after { bytes.new ≡ (send_store (store words.now bytes.old) o full j).bytes }
    ensures list_after { list.new ≡ send_places (store words.now bytes.old) o full j a list.old }
    ensures area_after { area.new
        ≡ send_area (store words.now bytes.old) o full j list.old area.old }
{
    machine::steps::answer_to(words, bytes, area, Event::Send(j))?;
    o?;
    let n = packets(words, bytes);
    if (16 <= n) & full {
        return Err(Refusal::Crowded);
    }
    let at = places::place_of(list, 0);
    places::put_entry(list, at, 256 * a + (n + 1));
    machine::steps::send_into(words, bytes, area, at as u32, j)
}

// The bytes of packet p of number a; for a number of no packet zeros, which nothing looks at.
fn heard_bytes(words: &[u32], bytes: &[u8], list: &[u32], area: &[u8], a: u32, p: u32) -> [u8; 45]
    requires { (words_size ≤ length words.now) × (bytes_size ≤ length bytes.now) × (length list.now ≡ top_places) × (a ≤ 8) }
    ensures { result ≡ heard_bytes (site_in (store words.now bytes.now)).sent list.now area.now
        a p }
{
    let n = packets(words, bytes);
    if (p < 1) | (n < p) {
        return [0u8; 45];
    }
    places::part_at(area, places::place_of(list, 256 * a + p))
}

// A hear of number a, with an area that is long enough; o is what is said of its windows.
fn hear(
    words: &mut [u32],
    bytes: &mut [u8],
    list: &[u32],
    area: &[u8],
    a: u32,
    o: Answer,
    j: u32,
    p: u32,
) -> Answer
    requires { (words_size ≤ length words.old) × (bytes_size ≤ length bytes.old) × (length list.now ≡ top_places) × (a ≤ 8) }
    ensures value { result ≡ group_hear_answer (store words.old bytes.old)
        (own_by list.now area.now a (store words.old bytes.old)) o j p }
    ensures words_after { words.new
        ≡ (hear_store (store words.old bytes.old)
        (own_by list.now area.now a (store words.old bytes.old)) o j p).words }
    ensures bytes_after { bytes.new
        ≡ (hear_store (store words.old bytes.old)
        (own_by list.now area.now a (store words.old bytes.old)) o j p).bytes }
{
    let part = heard_bytes(words, bytes, list, area, a, p);
    if o.is_err() {
        return machine::combined::first_of(
            machine::steps::answer_from(words, bytes, &part, 0, j, p),
            o,
        );
    }
    machine::steps::hear_from(words, bytes, &part, 0, j, p)
}

// Any other event, with an area that is long enough: the machine looks only at its length. A close frees the places.
fn other(
    words: &mut [u32],
    bytes: &mut [u8],
    list: &mut [u32],
    area: &mut [u8],
    out: &mut [u8],
    day: &mut Day,
    a: u32,
    e: Event,
    w: &[Window],
    t: &mut Tally,
) -> Answer
    requires { (lent_too_short (store words.old bytes.old) area.old out.old ≡ false) × (is_send e ≡ false) × (is_hear e ≡ false) }
    ensures value { result
        ≡ answer_by (one_site (store words.old bytes.old) day.old a list.old area.old) false
        (lent w.now t.old out.old) e }
    ensures day_after { day.new
        ≡ day_by (one_site (store words.old bytes.old) day.old a list.old area.old) false
        (lent w.now t.old out.old) e }
    ensures tally_after { t.new
        ≡ tally_by (one_site (store words.old bytes.old) day.old a list.old area.old) false
        (lent w.now t.old out.old) e }
    ensures words_after { words.new
        ≡ (lent_store_by (one_site (store words.old bytes.old) day.old a list.old area.old) false
        (lent w.now t.old out.old) e).words }
    ensures bytes_after { bytes.new
        ≡ (lent_store_by (one_site (store words.old bytes.old) day.old a list.old area.old) false
        (lent w.now t.old out.old) e).bytes }
    ensures list_after { list.new
        ≡ places_by (one_site (store words.old bytes.old) day.old a list.old area.old) false
        (lent w.now t.old out.old) e }
    ensures area_after { area.new
        ≡ area_by (one_site (store words.old bytes.old) day.old a list.old area.old) false
        (lent w.now t.old out.old) e }
    ensures out_after { out.new
        ≡ report_by (one_site (store words.old bytes.old) day.old a list.old area.old) false
        (lent w.now t.old out.old) e }
    ensures site_after { site_in (store words.new bytes.new)
        ≡ site_by (one_site (store words.old bytes.old) day.old a list.old area.old) false
        (lent w.now t.old out.old) e }
{
    let answer = machine::combined::step(words, bytes, area, day, e, w, t, out);
    if site::is_close(e) & answer.is_ok() {
        places::free(list, a);
    }
    answer
}

// One event.
pub(crate) fn turn(
    words: &mut [u32],
    bytes: &mut [u8],
    list: &mut [u32],
    area: &mut [u8],
    out: &mut [u8],
    day: &mut Day,
    a: u32,
    full: bool,
    e: Event,
    w: &[Window],
    t: &mut Tally,
) -> Answer
    requires { (words_size ≤ length words.old) × (bytes_size ≤ length bytes.old) × (length list.old ≡ top_places) × (a ≤ 8) }
    ensures value { result
        ≡ answer_by (one_site (store words.old bytes.old) day.old a list.old area.old) full
        (lent w.now t.old out.old) e }
    ensures day_after { day.new
        ≡ day_by (one_site (store words.old bytes.old) day.old a list.old area.old) full
        (lent w.now t.old out.old) e }
    ensures tally_after { t.new
        ≡ tally_by (one_site (store words.old bytes.old) day.old a list.old area.old) full
        (lent w.now t.old out.old) e }
    ensures words_after { words.new
        ≡ (lent_store_by (one_site (store words.old bytes.old) day.old a list.old area.old) full
        (lent w.now t.old out.old) e).words }
    ensures bytes_after { bytes.new
        ≡ (lent_store_by (one_site (store words.old bytes.old) day.old a list.old area.old) full
        (lent w.now t.old out.old) e).bytes }
    ensures list_after { list.new
        ≡ places_by (one_site (store words.old bytes.old) day.old a list.old area.old) full
        (lent w.now t.old out.old) e }
    ensures area_after { area.new
        ≡ area_by (one_site (store words.old bytes.old) day.old a list.old area.old) full
        (lent w.now t.old out.old) e }
    ensures out_after { out.new
        ≡ report_by (one_site (store words.old bytes.old) day.old a list.old area.old) full
        (lent w.now t.old out.old) e }
    ensures site_after { site_in (store words.new bytes.new)
        ≡ site_by (one_site (store words.old bytes.old) day.old a list.old area.old) full
        (lent w.now t.old out.old) e }
{
    if machine::combined::too_few(words, bytes, area, out) {
        return Err(Refusal::NoRoom);
    }
    match e {
        Event::Send(j) => {
            let o = listed(words, bytes, *day, w);
            send(words, bytes, list, area, a, o, full, j)
        }
        Event::Hear(j, p) => {
            let o = listed(words, bytes, *day, w);
            hear(words, bytes, list, area, a, o, j, p)
        }
        _ => other(words, bytes, list, area, out, day, a, e, w, t),
    }
}
