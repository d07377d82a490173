// The lent memory of a group: its lengths, the numbers at which a site is loaded, and the common places that are taken.
ghost use Rattle.std.specs.Prelude.{◌≡◌, ◌*◌, ◌≤◌, ◌<◌, length};
ghost use Rattle.machine.specs.Layout.{words_size, bytes_size};
ghost use Rattle.group.specs.Group.{is_number, beyond};
ghost use Rattle.sites.specs.many.Memory.{memory, table_size, group_too_short, day_at, site_slot_in, loaded_answer, site_slot_taken};
ghost use Rattle.sites.specs.many.Inner.{common_in, common_full};

use crate::turns;
use machine::{BYTES, Day, WORDS};
use node::{Answer, Refusal};
use site::Event;

// How many words the table has: 256 places, and three for each number.
pub(crate) const TABLE: usize = 280;

// Where the words of the first number start.
const SITE_SLOTS: usize = 256;

pub(crate) fn too_few(words: &[u32], bytes: &[u8], table: &[u32]) -> bool
    ensures { result ≡ group_too_short (memory words.now bytes.now table.now) }
{
    (words.len() < 8 * WORDS) | ((bytes.len() < 8 * BYTES) | (table.len() < TABLE))
}

pub(crate) fn is_number(a: u32) -> bool
    ensures { result ≡ is_number a }
{
    (1 <= a) & (a <= 8)
}

// What is said of a number.
pub(crate) fn loaded_answer(words: &[u32], bytes: &[u8], table: &[u32], a: u32) -> Answer
    ensures { result ≡ loaded_answer (memory words.now bytes.now table.now) a }
{
    if !is_number(a) {
        return Err(Refusal::NoSuchNode);
    }
    if too_few(words, bytes, table) {
        return Err(Refusal::NoRoom);
    }
    if table[SITE_SLOTS + 3 * (a as usize - 1)] != 1 {
        return Err(Refusal::NoSuchNode);
    }
    Ok(())
}

// The day of the site at an index.
pub(crate) fn day_at(table: &[u32], i: usize) -> Day
    requires { (table_size ≤ length table.now) × (i < 8) }
    ensures { result ≡ day_at table.now i }
{
    Day {
        length: table[SITE_SLOTS + 3 * i + 1],
        epoch: table[SITE_SLOTS + 3 * i + 2],
    }
}

// The site at an index is loaded and has this day.
pub(crate) fn set_site_slot(table: &mut [u32], i: usize, day: Day)
    requires { (table_size ≤ length table.old) × (i < 8) }
    ensures { table.new ≡ site_slot_taken table.old i day }
{
    table[SITE_SLOTS + 3 * i] = 1;
    table[SITE_SLOTS + 3 * i + 1] = day.length;
    table[SITE_SLOTS + 3 * i + 2] = day.epoch;
}

// What the site at an index has beyond its own 16 packets.
fn beyond_at(words: &[u32], bytes: &[u8], table: &[u32], i: usize) -> u32
    requires { (8 * words_size ≤ length words.now) × (8 * bytes_size ≤ length bytes.now)
        × (table_size ≤ length table.now) × (i < 8) }
    ensures value { result ≡ beyond (site_slot_in (memory words.now bytes.now table.now) i) }
    ensures within { result ≤ 8160 }
{
    if table[SITE_SLOTS + 3 * i] != 1 {
        return 0;
    }
    let n = turns::packets(
        &words[WORDS * i..WORDS * i + WORDS],
        &bytes[BYTES * i..BYTES * i + BYTES],
    );
    n.saturating_sub(16)
}

// The common places that are taken.
fn common(words: &[u32], bytes: &[u8], table: &[u32]) -> u32
    requires { (8 * words_size ≤ length words.now) × (8 * bytes_size ≤ length bytes.now) × (table_size ≤ length table.now) }
    ensures { result ≡ common_in (memory words.now bytes.now table.now) }
{
    let mut n = 0;
    // Kept: the index is where the site's words, bytes and slot lie; a sum over a map of the range would say the same in a closure.
    for i in 0..8usize {
        n += beyond_at(words, bytes, table, i);
    }
    n
}

// Whether an event is a send and all common places are taken.
pub(crate) fn is_full(words: &[u32], bytes: &[u8], table: &[u32], e: Event) -> bool
    requires { (8 * words_size ≤ length words.now) × (8 * bytes_size ≤ length bytes.now) × (table_size ≤ length table.now) }
    ensures { result ≡ common_full (memory words.now bytes.now table.now) e }
{
    matches!(e, Event::Send(_)) && 128 <= common(words, bytes, table)
}
