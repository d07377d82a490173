// One event of a site in lent words and bytes, for every call: with windows, a tally and the report of a close.
ghost use Rattle.std.specs.Prelude.{◌≡◌, []};
ghost use Rattle.machine.specs.Layout.{store, site_in};
ghost use Rattle.machine.specs.combined.Kept.{first_refusal};
ghost use Rattle.machine.specs.combined.Stored.{kept_in, report_too_short, lent_too_short, step_answer, step_store, step_report, step_kept};
ghost use Rattle.machine.specs.combined.Inner.{objection};

use crate::Day;
use crate::layout::Lent;
use crate::read::is_short;
use node::{Answer, Refusal};
use site::{Event, SiteHeader};
use tally::Tally;
use windows::Window;

// Whether an output has bytes, and too few for a report.
pub fn report_too_short(out: &[u8]) -> bool
    ensures { result ≡ report_too_short out.now }
{
    (out.len() != 0) & (out.len() < crate::reports::SIZE)
}

// Whether anything that is lent is too short.
pub fn too_few(words: &[u32], bytes: &[u8], area: &[u8], out: &[u8]) -> bool
    ensures { result ≡ lent_too_short (store words.now bytes.now) area.now out.now }
{
    is_short(words, bytes) | ((area.len() < SiteHeader::AREA) | report_too_short(out))
}

// The first of two answers that refuses.
pub fn first_of(a: Answer, b: Answer) -> Answer
    ensures { result ≡ first_refusal a b }
{
    a?;
    b
}

// What an end has against its tally, and any other event against its list; `timed` tests the list of an end.
fn objection(m: Lent, day: Day, e: Event, w: &[Window], t: Tally) -> Answer
    ensures { result ≡ objection (kept_in (store m.entry.words.now m.entry.bytes.now) day [] t) w.now e }
{
    if site::is_end(e) {
        if t.is_valid() {
            return Ok(());
        }
        return Err(Refusal::NotANode);
    }
    let k = m.header();
    let f = k.config;
    if windows::list_ok(w, f.nodes, day.length) {
        return Ok(());
    }
    Err(Refusal::BadWindows)
}

// One event. The report of an accepted close goes to the start of `out`, and an accepted end counts the site.
pub fn step(
    words: &mut [u32],
    bytes: &mut [u8],
    area: &mut [u8],
    day: &mut Day,
    e: Event,
    w: &[Window],
    t: &mut Tally,
    out: &mut [u8],
) -> Answer
    ensures value { result ≡ step_answer (store words.old bytes.old) day.old area.old w.now t.old out.old e }
    ensures words_after { words.new
        ≡ (step_store (store words.old bytes.old) day.old area.old w.now t.old out.old e).words }
    ensures bytes_after { bytes.new
        ≡ (step_store (store words.old bytes.old) day.old area.old w.now t.old out.old e).bytes }
    ensures out_after { out.new
        ≡ step_report (store words.old bytes.old) day.old area.old w.now t.old out.old e }
    ensures kept_after { kept_in (store words.new bytes.new) day.new area.new t.new
        ≡ step_kept (store words.old bytes.old) day.old area.old w.now t.old out.old e }
{
    if too_few(words, bytes, area, out) {
        return Err(Refusal::NoRoom);
    }
    let o = objection(Lent { words, bytes }, *day, e, w, *t);
    if o.is_err() {
        return first_of(crate::steps::answer_to(words, bytes, area, e), o);
    }
    crate::reports::put(words, bytes, area, e, out);
    crate::timed::step(words, bytes, area, day, e, w)?;
    if site::is_end(e) {
        *t = crate::epochs::tally_at(Lent { words, bytes }, *t);
    }
    Ok(())
}
