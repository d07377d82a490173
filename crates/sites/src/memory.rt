// The memory of one site: its storage, with its day in the two words behind those of the storage.
ghost use Rattle.std.specs.Prelude.{◌≡◌, false, ◌≤◌, length, cond, Some};
ghost use Rattle.node.specs.Answers.{OutOfRange, NoRoom};
ghost use Rattle.machine.specs.combined.Stored.{lent_too_short};
ghost use Rattle.machine.specs.Layout.{store};
ghost use Rattle.sites.specs.one.Memory.{memory_size, memory_too_short, day_in, day_put, timed_of, kept_of};
ghost use Rattle.sites.specs.one.Calls.{loading_of, after_load, timed_after_load};
ghost use Rattle.sites.specs.one.Calls.{site_event_answer, after_event, kept_after_event, report_after_event};

use crate::one::table_of;
use machine::{BYTES, Day};
use node::{Answer, Config, Refusal};
use site::Event;
use tally::Tally;
use windows::Window;

// Where the epochs of the day stand, and which of them it is; how many words that makes.
const DAY: usize = 262;

const EPOCH: usize = 263;

const WORDS: usize = 264;

// Whether words or bytes are too few for a site with its day.
pub(crate) fn lacks(words: &[u32], bytes: &[u8]) -> bool
    ensures { result ≡ memory_too_short (store words.now bytes.now) }
{
    (words.len() < WORDS) | (bytes.len() < BYTES)
}

// The day.
fn day_at(words: &[u32]) -> Day
    requires { memory_size ≤ length words.now }
    ensures { result ≡ day_in words.now }
{
    Day {
        length: words[DAY],
        epoch: words[EPOCH],
    }
}

// Another day.
fn put_day(words: &mut [u32], d: Day)
    requires { memory_size ≤ length words.old }
    ensures { words.new ≡ day_put words.old d }
{
    words[DAY] = d.length;
    words[EPOCH] = d.epoch;
}

// A site loaded into memory, with a day of `length` epochs.
pub(crate) fn load(
    words: &mut [u32],
    bytes: &mut [u8],
    f: Config,
    rows: &[u32],
    length: u32,
    w: &[Window],
) -> Answer
    ensures value { result ≡ loading_of (store words.old bytes.old) f rows.now length
        w.now }
    ensures words_after { words.new
        ≡ (after_load (store words.old bytes.old) f rows.now length w.now).words }
    ensures bytes_after { bytes.new
        ≡ (after_load (store words.old bytes.old) f rows.now length w.now).bytes }
    ensures timed_after { timed_of (store words.new bytes.new)
        ≡ timed_after_load (store words.old bytes.old) f rows.now length w.now }
{
    if lacks(words, bytes) {
        return Err(Refusal::NoRoom);
    }
    if rows.len() != 3 * (f.nodes as usize) {
        return Err(Refusal::OutOfRange);
    }
    let day = machine::timed::load(words, bytes, f, table_of(rows), length, w)?;
    put_day(words, day);
    Ok(())
}

// Three numbers that make no event, in memory that is long enough.
pub(crate) fn no_event(words: &[u32], bytes: &[u8], area: &[u8], out: &[u8]) -> Answer
    ensures { result ≡ cond (lent_too_short (store words.now bytes.now) area.now out.now) NoRoom OutOfRange }
{
    if machine::combined::too_few(words, bytes, area, out) {
        return Err(Refusal::NoRoom);
    }
    Err(Refusal::OutOfRange)
}

// One event of the site in memory that is long enough.
pub(crate) fn step(
    words: &mut [u32],
    bytes: &mut [u8],
    area: &mut [u8],
    out: &mut [u8],
    e: Event,
    w: &[Window],
    t: &mut Tally,
) -> Answer
    requires { memory_too_short (store words.old bytes.old) ≡ false }
    ensures value { result ≡ site_event_answer (store words.old bytes.old) area.old w.now t.old
        out.old (Some e) }
    ensures words_after { words.new
        ≡ (after_event (store words.old bytes.old) area.old w.now t.old out.old
        (Some e)).words }
    ensures bytes_after { bytes.new
        ≡ (after_event (store words.old bytes.old) area.old w.now t.old out.old
        (Some e)).bytes }
    ensures out_after { out.new
        ≡ report_after_event (store words.old bytes.old) area.old w.now t.old
        out.old (Some e) }
    ensures kept_after { kept_of (store words.new bytes.new) area.new t.new
        ≡ kept_after_event (store words.old bytes.old) area.old w.now t.old
        out.old (Some e) }
{
    let mut day = day_at(words);
    let answer = machine::combined::step(words, bytes, area, &mut day, e, w, t, out);
    put_day(words, day);
    answer
}
