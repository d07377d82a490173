// The run of a whole script, for the desk's programs and its other tools.
ghost use Rattle.std.specs.Prelude.{◌≡◌, true, Err, ◌+◌, ◌≤◌, ◌<◌, length, drop, IfOk};
ghost use Rattle.lists.specs.Bytes.{Put, Tried};
ghost use Rattle.text.specs.Read.{split};
ghost use Rattle.windows.specs.Windows.{list_ok};
ghost use Rattle.machine.specs.Layout.{store, site_in, words_size, bytes_size};
ghost use Rattle.desk.specs.listings.Output.{line_answer, line_after, left_area, final_area};
ghost use Rattle.desk.specs.declared.View.TheVariants.{Refusals, Reasons};
ghost use Rattle.desk.specs.listings.Calls.{text_of, room_of, run_answer, run_result_of, out_after, area_after_run, length_after};
ghost use Rattle.desk.specs.listings.Inner.{run_state_in, has_head, event_node_report, line_node_report, line_text, lines_text, Runs, opening_of};
ghost use Rattle.desk.specs.listings.Inner.{lines_of};
ghost use Rattle.desk.specs.listings.Inner.{refusal_text, head_text, rest_text, open_text, Fits};

use crate::View;
use machine::Day;
use node::{Answer, Ground, Refusal};
use script::{Line, Opened};
use site::{Event, SiteHeader};
use windows::Window;

// The greatest script.
pub const TOP_SCRIPT: usize = 40000;

// What is told of an event, were it the next one.
fn event_report(words: &[u32], bytes: &[u8], area: &[u8], e: Event, v: View) -> Option<Ground>
    ensures { result ≡ event_node_report v (store words.now bytes.now) area.now e }
{
    match v {
        View::Refusals => None,
        View::Reasons(j) => machine::reports::node_report(words, bytes, area, e, j),
    }
}

// The answer to a line, and what is told of it: its event is taken, or the line is refused. The load tested the list.
fn take_line(
    words: &mut [u32],
    bytes: &mut [u8],
    area: &mut [u8],
    day: &mut Day,
    p: Option<Event>,
    w: &[Window],
    v: View,
) -> (Answer, Option<Ground>)
    requires { (words_size ≤ length words.old) × (bytes_size ≤ length bytes.old)
        × (list_ok (site_in (store words.old bytes.old)).config.nodes day.old.length w.now ≡ true) }
    ensures answer { result.0 ≡ line_answer w.now (run_state_in (store words.old bytes.old) day.old area.old) p }
    ensures report { result.1 ≡ line_node_report v (store words.old bytes.old) area.old p }
    ensures day_after { day.new ≡ (line_after w.now (run_state_in (store words.old bytes.old) day.old area.old) p).timed.day }
    ensures bytes_after { site_in (store words.new bytes.new)
        ≡ (line_after w.now (run_state_in (store words.old bytes.old) day.old area.old) p).timed.site }
    ensures area_after { area.new ≡ (line_after w.now (run_state_in (store words.old bytes.old) day.old area.old) p).area }
{
    let Some(e) = p else {
        return (Err(Refusal::OutOfRange), None);
    };
    let report = event_report(words, bytes, area, e, v);
    let answer = machine::timed::step_tested(words, bytes, area, day, e, w, true);
    (answer, report)
}

// What is printed of a line.
fn put_line(out: &mut [u8], at: usize, v: View, n: u32, a: Answer, t: Option<Ground>) -> usize
    ensures { Tried out.old at (line_text v n a t) result out.new }
{
    match v {
        View::Refusals => crate::listing::put_report(out, at, n, a),
        View::Reasons(j) => crate::reasons::put_reason(out, at, n, j, t),
    }
}

// The event lines from a place of the script on, each with what is printed of it. Returns the next place of the output.
fn run(
    script: &[u8],
    from: usize,
    first: u32,
    words: &mut [u32],
    bytes: &mut [u8],
    area: &mut [u8],
    start: Day,
    out: &mut [u8],
    to: usize,
    w: &[Window],
    v: View,
) -> usize
    requires { (from ≤ length script.now) × (first + length script.now < 4294967296) × (words_size ≤ length words.old)
        × (bytes_size ≤ length bytes.old)
        × (to + length (lines_text v w.now (run_state_in (store words.old bytes.old) start area.old) first
        (split 10 (drop from script.now))) ≤ length out.old)
        × (list_ok (site_in (store words.old bytes.old)).config.nodes start.length w.now ≡ true) }
    ensures { Runs v w.now (run_state_in (store words.old bytes.old) start
        area.old) first (split 10 (drop from script.now)) out.old to
        result (store words.new bytes.new) out.new area.new }
{
    let mut day = start;
    let mut n = first;
    let mut at = from;
    let mut pos = to;
    loop {
        let e = match script::lines::next_line(script, at) {
            Line::Nothing => return pos,
            Line::Open => return put_line(out, pos, v, n, Err(Refusal::OutOfRange), None),
            Line::Ended(e) => e,
        };
        let event = script::events::event_line(&script[at..e]);
        let (answer, report) = take_line(words, bytes, area, &mut day, event, w, v);
        pos = put_line(out, pos, v, n, answer, report);
        at = e + 1;
        n += 1;
    }
}

// Whether a view has a head: the reasons of a node are a part behind it.
fn has_head(v: View) -> bool
    ensures { result ≡ has_head v }
{
    matches!(v, View::Refusals | View::Reasons(0))
}

// A refusal before the events: the first head and one line.
fn put_refused(out: &mut [u8], v: View, split: u32, line: u32, refusal: Refusal) -> usize
    requires { 50 ≤ length out.old }
    ensures { Put out.old 0 (refusal_text v split line (Err refusal)) result out.new }
{
    if !has_head(v) {
        return 0;
    }
    let at = crate::listing::put_head(out, 0, split);
    crate::listing::put_report(out, at, line, Err(refusal))
}

// The head of a script that is run.
fn put_head(out: &mut [u8], v: View, split: u32) -> usize
    ensures { Tried out.old 0 (head_text v split) result out.new }
{
    match v {
        View::Refusals => crate::listing::put_head(out, 0, split),
        View::Reasons(0) => lists::put_bytes(out, 0, b"line node rule missing\n"),
        View::Reasons(_) => 0,
    }
}

// What is printed behind the event lines: the second head and the rows, or nothing.
fn put_rest(
    out: &mut [u8],
    to: usize,
    v: View,
    nodes: u32,
    slots: u32,
    words: &[u32],
    bytes: &[u8],
) -> usize
    requires { (nodes ≤ 32) × (slots ≤ 80) × (words_size ≤ length words.now) × (bytes_size ≤ length bytes.now)
        × (to + length (rest_text v nodes slots (site_in (store words.now bytes.now)).members) ≤ length out.old) }
    ensures { Put out.old to (rest_text v nodes slots
        (site_in (store words.now bytes.now)).members) result out.new }
{
    match v {
        View::Refusals => {
            let at = lists::put_bytes(out, to, b"node state version flags request slots\n");
            crate::listing::put_rows(out, at, nodes, words, bytes, slots)
        }
        View::Reasons(_) => to,
    }
}

// A script that opens, run; or a refusal of the windows, with line 0.
fn print_run(
    script: &[u8],
    o: Opened,
    area: &mut [u8],
    out: &mut [u8],
    day: u32,
    w: &[Window],
    v: View,
) -> usize
    requires { Fits v day w.now script.now o area.old out.old }
    ensures put { Put out.old 0 (open_text v day w.now (opening_of o) area.old
        (lines_of script.now o)) result out.new }
    ensures area_after { area.new ≡ left_area day w.now (opening_of o) area.old
        (lines_of script.now o) }
{
    let nodes = o.config.nodes;
    // The site's storage: machine::WORDS and machine::BYTES.
    let mut words = [0u32; 262];
    let mut bytes = [0u8; 24769];
    let start = match machine::timed::load(&mut words, &mut bytes, o.config, o.table, day, w) {
        Ok(start) => start,
        Err(refusal) => return put_refused(out, v, o.config.split, 0, refusal),
    };
    let to = put_head(out, v, o.config.split);
    let end = run(
        script,
        o.at,
        5 + nodes,
        &mut words,
        &mut bytes,
        area,
        start,
        out,
        to,
        w,
        v,
    );
    put_rest(out, end, v, nodes, o.config.slots, &words, &bytes)
}

// All that is printed, where there is room for it.
fn print(script: &[u8], area: &mut [u8], out: &mut [u8], day: u32, w: &[Window], v: View) -> usize
    requires { room_of v (length script.now) ≤ length out.old }
    ensures put { Put out.old 0 (text_of v day w.now script.now area.old) result
        out.new }
    ensures area_after { area.new ≡ final_area day w.now script.now area.old }
    ensures within { result ≤ room_of v (length script.now) }
{
    if area.len() < SiteHeader::AREA || TOP_SCRIPT < script.len() {
        return put_refused(out, v, 0, 0, Refusal::NoRoom);
    }
    match script::load::open(script) {
        Ok(o) => print_run(script, o, area, out, day, w, v),
        Err(e) => put_refused(out, v, e.config.split, e.line, e.refusal),
    }
}

// Room that is enough for what is printed of a script of n bytes.
fn room_of(v: View, n: usize) -> usize
    ensures { result ≡ room_of v n }
{
    let m = n.min(TOP_SCRIPT);
    match v {
        View::Refusals => 9 * m + 30000,
        View::Reasons(_) => 4 * m + 100,
    }
}

// Runs a script with a packet area, a day and windows, and prints a view of the run into lent output: how many bytes. Refused as 15 where
// the output has not the room that a script of this length may need: then nothing is changed.
pub fn show(
    script: &[u8],
    area: &mut [u8],
    out: &mut [u8],
    day: u32,
    w: &[Window],
    v: View,
) -> Result<usize, Refusal>
    ensures value { result ≡ run_result_of v day w.now script.now area.old out.old }
    ensures out_after { out.new ≡ out_after v day w.now script.now area.old
        out.old }
    ensures area_after { area.new ≡ area_after_run v day w.now script.now area.old
        out.old }
    ensures within { IfOk result (λ n. (n ≤ length out.new) × (n ≤ room_of v (length script.now))) }
{
    if out.len() < room_of(v, script.len()) {
        return Err(Refusal::NoRoom);
    }
    Ok(print(script, area, out, day, w, v))
}

// The same with the length written to a lent number, which stays as it was after a refusal.
fn show_for_c(
    script: &[u8],
    area: &mut [u8],
    out: &mut [u8],
    length: &mut u32,
    day: u32,
    w: &[Window],
    v: View,
) -> Answer
    ensures { (result ≡ run_answer v script.now out.old)
        × (area.new ≡ area_after_run v day w.now script.now area.old out.old)
        × (out.new ≡ out_after v day w.now script.now area.old out.old)
        × (length.new ≡ length_after v day w.now script.now area.old out.old length.old) }
{
    *length = show(script, area, out, day, w, v)? as u32;
    Ok(())
}

// Runs a script for C, with the windows lent: the answer. The length of what is printed is written to `length`, which stays as it was
// after a refusal.
pub fn hydra_replay(
    script: &[u8],
    area: &mut [u8],
    out: &mut [u8],
    length: &mut u32,
    day: u32,
    windows: &[Window],
) -> Answer
    ensures { (result ≡ run_answer Refusals script.now out.old)
        × (area.new ≡ area_after_run Refusals day windows.now script.now area.old out.old)
        × (out.new ≡ out_after Refusals day windows.now script.now area.old out.old)
        × (length.new ≡ length_after Refusals day windows.now script.now area.old out.old
        length.old) }
{
    show_for_c(script, area, out, length, day, windows, View::Refusals)
}

// The same for part j of the reasons: part 0 is their head, part j has those of node j.
pub fn hydra_why(
    script: &[u8],
    j: u32,
    area: &mut [u8],
    out: &mut [u8],
    length: &mut u32,
    day: u32,
    windows: &[Window],
) -> Answer
    ensures { (result ≡ run_answer (Reasons j) script.now out.old)
        × (area.new ≡ area_after_run (Reasons j) day windows.now script.now
        area.old out.old)
        × (out.new ≡ out_after (Reasons j) day windows.now script.now area.old out.old)
        × (length.new ≡ length_after (Reasons j) day windows.now script.now area.old
        out.old length.old) }
{
    show_for_c(script, area, out, length, day, windows, View::Reasons(j))
}
