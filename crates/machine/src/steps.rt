// The events of a site in lent words and bytes: no event copies a site, and a refused one writes nothing.
ghost use Rattle.std.specs.Prelude.{◌≡◌};
ghost use Rattle.machine.specs.Layout.{store, site_in};
ghost use Rattle.wire.specs.Reads.{part_of};
ghost use Rattle.site.specs.declared.Event.TheVariants.{Send};
ghost use Rattle.machine.specs.steps.After.{storage_answer, store_after, site_with, area_with, part_answer, part_store, area_into};

use crate::layout::Lent;
use crate::read::is_short;
use node::{Answer, Refusal};
use site::{Event, SiteHeader};

// The answer that a step would give; nothing is written. Refused as 15 where words, bytes or area are too few.
pub fn answer_to(words: &[u32], bytes: &[u8], area: &[u8], e: Event) -> Answer
    ensures { result ≡ storage_answer (store words.now bytes.now) area.now e }
{
    if is_short(words, bytes) {
        return Err(Refusal::NoRoom);
    }
    if area.len() < SiteHeader::AREA {
        return Err(Refusal::NoRoom);
    }
    crate::answers::answer(Lent { words, bytes }, area, e)
}

// One event: the answer.
pub fn step(words: &mut [u32], bytes: &mut [u8], area: &mut [u8], e: Event) -> Answer
    ensures value { result ≡ storage_answer (store words.old bytes.old) area.old e }
    ensures words_after { words.new ≡ (store_after (store words.old bytes.old) area.old e).words }
    ensures bytes_after { bytes.new ≡ (store_after (store words.old bytes.old) area.old e).bytes }
    ensures bytes_after_2 { site_in (store words.new bytes.new)
        ≡ site_with (store words.old bytes.old) area.old e }
    ensures area_after { area.new ≡ area_with (store words.old bytes.old) area.old e }
{
    answer_to(words, bytes, area, e)?;
    crate::events::apply(words, bytes, area, e);
    Ok(())
}

// A send of node j whose packet goes into the part of an index: the answer.
pub fn send_into(words: &[u32], bytes: &mut [u8], area: &mut [u8], at: u32, j: u32) -> Answer
    ensures value { result ≡ storage_answer (store words.now bytes.old) area.old (Send j) }
    ensures bytes_after { bytes.new
        ≡ (store_after (store words.now bytes.old) area.old (Send j)).bytes }
    ensures area_after { area.new ≡ area_into (store words.now bytes.old) area.old at j }
{
    answer_to(words, bytes, area, Event::Send(j))?;
    crate::events::send_into(words, bytes, area, at, j);
    Ok(())
}

// The answer that a hear of node j of packet p would get, which lies in the part of an index; nothing is written.
pub fn answer_from(words: &[u32], bytes: &[u8], area: &[u8], at: u32, j: u32, p: u32) -> Answer
    ensures { result ≡ part_answer (store words.now bytes.now) (part_of area.now at) j p }
{
    if is_short(words, bytes) {
        return Err(Refusal::NoRoom);
    }
    crate::answers::heard_answer(Lent { words, bytes }, area, at, j, p)
}

// Such a hear: the answer.
pub fn hear_from(
    words: &mut [u32],
    bytes: &mut [u8],
    area: &[u8],
    at: u32,
    j: u32,
    p: u32,
) -> Answer
    ensures value { result ≡ part_answer (store words.old bytes.old) (part_of area.now at) j p }
    ensures words_after { words.new
        ≡ (part_store (store words.old bytes.old) (part_of area.now at) j p).words }
    ensures bytes_after { bytes.new
        ≡ (part_store (store words.old bytes.old) (part_of area.now at) j p).bytes }
{
    answer_from(words, bytes, area, at, j, p)?;
    crate::events::hear_from(words, bytes, area, at, j, p);
    Ok(())
}
