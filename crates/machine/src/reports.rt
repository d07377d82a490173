// The report of a close of a site in storage: the ground of each live node, read before the close. Nothing but an output is written.
ghost use Rattle.std.specs.Prelude.{◌≡◌, true, false};
ghost use Rattle.machine.specs.Layout.{store, too_short, site_in};
ghost use Rattle.machine.specs.Loading.{member_read};
ghost use Rattle.machine.specs.reports.Reports.{member_report, report_of, reported_in, node_report_in, report_byte};
ghost use Rattle.machine.specs.reports.Reports.{report_bytes};
ghost use Rattle.machine.specs.reports.Reports.{put_report};

use crate::Report;
use node::Ground;
use site::Event;

// The bytes of a report: two for each of 32 nodes.
pub const SIZE: usize = 64;

// What node j reports of an accepted close: a live node its ground, any other nothing.
fn tell(words: &[u32], bytes: &[u8], j: u32) -> Option<Ground>
    ensures { result ≡ member_report true (member_read (store words.now bytes.now) j) }
{
    if crate::look::is_live(words, bytes, j) {
        let c = crate::look::core(words, bytes, j);
        return Some(c.ground());
    }
    None
}

// Whether an event, were it the next one, would be an accepted close.
fn reports(words: &[u32], bytes: &[u8], area: &[u8], e: Event) -> bool
    ensures { result ≡ reported_in (store words.now bytes.now) area.now e }
{
    if !site::is_close(e) {
        return false;
    }
    crate::steps::answer_to(words, bytes, area, e).is_ok()
}

// What node j reports of an event, were it the next one; nothing is written.
pub fn node_report(words: &[u32], bytes: &[u8], area: &[u8], e: Event, j: u32) -> Option<Ground>
    ensures { result ≡ node_report_in (store words.now bytes.now) area.now e j }
{
    if !reports(words, bytes, area, e) {
        return None;
    }
    tell(words, bytes, j)
}

// What all members report of an accepted close.
fn tell_all(words: &[u32], bytes: &[u8]) -> Report
    requires { too_short (store words.now bytes.now) ≡ false }
    ensures { result ≡ report_of true (site_in (store words.now bytes.now)).members }
{
    Report {
        nodes: std::array::from_fn(|i| tell(words, bytes, i as u32 + 1)),
    }
}

// Of the two bytes of a node the one at k: the rule's number, or the lowest missing node.
fn report_byte(t: Option<Ground>, k: usize) -> u8
    ensures { result ≡ report_byte t k }
{
    let Some(g) = t else {
        return 0;
    };
    if k == 0 { u8::from(g.rule) } else { g.missing }
}

// A report in bytes.
fn report_bytes(r: Report) -> [u8; 64]
    ensures { result ≡ report_bytes r }
{
    std::array::from_fn(|k| report_byte(r.nodes[k / 2], k % 2))
}

// The report of an event, were it the next one, to the start of an output that has room for it. An event that is no accepted close writes
// nothing.
pub fn put(words: &[u32], bytes: &[u8], area: &[u8], e: Event, out: &mut [u8])
    ensures { out.new
        ≡ put_report (store words.now bytes.now) area.now e out.old }
{
    if out.len() < SIZE {
        return;
    }
    if !reports(words, bytes, area, e) {
        return;
    }
    let l = report_bytes(tell_all(words, bytes));
    lists::put_bytes(out, 0, &l);
}
