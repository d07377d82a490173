// A script with no idle event: of a script that gives a refusal number, the event lines that are needed for it.
#![tactic(auto)]

ghost use Rattle.std.specs.Prelude.{◌≡◌, true, cond, ◌&&◌, [], ◌+◌, ◌-◌, ◌≤◌, ◌<◌, length, drop, take, MatchOption};
ghost use Rattle.lists.specs.Bytes.{Put, Tried};
ghost use Rattle.text.specs.Read.{split};
ghost use Rattle.node.specs.Answers.{Done};
ghost use Rattle.site.specs.Load.{load_answer};
ghost use Rattle.desk.specs.listings.Output.{top_script, line_answer, line_after};
ghost use Rattle.reduce.specs.Reduced.{lines_in, joined_lines, is_refusal};
ghost use Rattle.reduce.specs.Calls.{start_state, Answers, Returns};
ghost use Rattle.reduce.specs.Inner.{placed_lines, NextLine, says_of, line_text, kept, kept_but, kept_from, blank, state_of};
ghost use Rattle.reduce.specs.Inner.{line_gives, line_run};
ghost use Rattle.reduce.specs.Inner.{gives_but, gives_from, given, cleared, Passed, Spared, Scanned, Settled, opening_of, Ready, Stopped};

use desk::listings::TOP_SCRIPT;
use machine::{BYTES, Day, WORDS};
use node::{Answer, Refusal};
use script::{Line, Opened, RefusedHead};
use site::{Event, SiteHeader};
use std::ops::Range;

// A mark for each byte of a script: a line is kept if the byte is marked where it starts.
type Marks = [bool; TOP_SCRIPT];

// A run of the kept lines: where the next line starts, and the site as the lines before it left it.
#[derive(Clone, Copy)]
struct Run {
    at: usize,
    words: [u32; WORDS],
    bytes: [u8; BYTES],
    area: [u8; SiteHeader::AREA],
    day: Day,
}

// What is asked for: a script that opens, and the number that its kept lines must give.
#[derive(Drop)]
struct Search<'a> {
    script: &'a [u8],
    opened: Opened,
    number: u32,
    ghost short: { length script.now ≤ top_script },
    ghost within: { opened.at ≤ length script.now },
    ghost loads: { load_answer opened.config opened.table ≡ Done },
}

// An answer is the refusal of that number; 0 is none.
fn is_refusal(number: u32, a: Answer) -> bool
    ensures { result ≡ is_refusal number a }
{
    (0 < number) & (node::code(a) == number)
}

// Where the line behind the one at a place starts; none where nothing is left.
fn next_start(script: &[u8], at: usize) -> Option<usize>
    ensures { MatchOption result (placed_lines at (split 10 (drop at script.now)) ≡ []) (λ n. NextLine script.now at n) }
{
    match script::lines::next_line(script, at) {
        Line::Nothing => None,
        Line::Open => Some(script.len()),
        Line::Ended(e) => Some(e + 1),
    }
}

// What a line says as an event, if byte 10 ends it.
fn event_in(line: &[u8]) -> Option<Event>
    ensures { result ≡ says_of line.now }
{
    let (end, text) = line.split_last()?;
    if *end != 10 {
        return None;
    }
    script::events::event_line(text)
}

// The place behind the first n lines; the script's end where there are fewer.
fn lines_end(script: &[u8], n: u32) -> usize
    ensures { result ≡ length (joined_lines (take n (lines_in (split 10 script.now)))) }
{
    let mut at = 0;
    for i in 0..n {
        match next_start(script, at) {
            None => return at,
            Some(next) => at = next,
        }
    }
    at
}

// A line, if it is kept. Returns the next place of the output.
fn put_line(line: &[u8], is_kept: bool, out: &mut [u8], to: usize) -> usize
    ensures { Tried out.old to (cond is_kept line.now []) result out.new }
{
    if !is_kept {
        return to;
    }
    lists::put_bytes(out, to, line)
}

// A place is kept if it is marked, and not in a range that is left out.
fn is_kept(marks: &Marks, without: &Range<usize>, at: usize) -> bool
    requires { at < length marks.now }
    ensures { result ≡ kept_but marks.now without.now.start without.now.end at }
{
    if (without.start <= at) & (at < without.end) {
        return false;
    }
    marks[at]
}

// No mark in a range.
fn clear(marks: &mut Marks, range: Range<usize>)
    requires { (range.start ≤ range.end) × (range.end ≤ length marks.old) }
    ensures { marks.new ≡ cleared marks.old range.start range.end }
{
    marks[range].fill(false);
}

// The place behind the last mark of n places.
fn last_kept(marks: &Marks, n: usize) -> usize
    requires { n ≤ length marks.now }
    ensures { result ≤ n }
{
    match marks[..n].iter().rposition(|&m| m) {
        None => 0,
        Some(i) => i + 1,
    }
}

impl Run {
    // A run with nothing in it: zeros, and the place where its first line starts.
    #[inline(always)]
    fn blank(at: usize) -> Run
        ensures { result ≡ blank at }
    {
        Run {
            at,
            words: [0; WORDS],
            bytes: [0; BYTES],
            area: [0; SiteHeader::AREA],
            day: Day {
                length: 1,
                epoch: 0,
            },
        }
    }

    // A blank run before the first event line of a script that opens. Settings and table that were read load. In place: by value it is copied.
    #[inline(never)]
    fn load(&mut self, o: Opened)
        requires { (load_answer o.config o.table ≡ Done) × (self.old ≡ blank o.at) }
        ensures at { self.new.at ≡ o.at }
        ensures state { state_of self.new ≡ start_state (opening_of o) }
    {
        self.day = machine::timed::load(
            &mut self.words,
            &mut self.bytes,
            o.config,
            o.table,
            1,
            &[],
        ).unwrap();
    }

    // A line's event, or a refusal of the line. Tells whether the answer is the refusal of the number.
    fn take(&mut self, says: Option<Event>, number: u32) -> bool
        ensures value { result ≡ is_refusal number (line_answer [] (state_of self.old) says) }
        ensures after { state_of self.new ≡ line_after [] (state_of self.old) says }
        ensures at { self.new.at ≡ self.old.at }
    {
        match says {
            None => is_refusal(number, Err(Refusal::OutOfRange)),
            Some(e) => {
                let answer = machine::timed::step(
                    &mut self.words,
                    &mut self.bytes,
                    &mut self.area,
                    &mut self.day,
                    e,
                    &[],
                );
                is_refusal(number, answer)
            }
        }
    }
}

impl Search<'_> {
    // Runs the next line, if it is kept, and tells whether it gives the number. The line behind it starts at `next`.
    fn take(&self, run: &mut Run, next: usize, is_kept: bool) -> bool
        requires { NextLine self.now.script.now run.old.at next }
        ensures value { result ≡ line_gives is_kept self.now.number (state_of run.old)
            (says_of (line_text self.now.script.now run.old.at next)) }
        ensures after { state_of run.new ≡ line_run is_kept (state_of run.old)
            (says_of (line_text self.now.script.now run.old.at next)) }
        ensures at { run.new.at ≡ next }
    {
        let at = run.at;
        run.at = next;
        if !is_kept {
            return false;
        }
        run.take(event_in(&self.script[at..next]), self.number)
    }

    // Whether the kept lines from the run's place on give the number, without those of a range.
    fn gives(&self, run: &mut Run, marks: &Marks, without: &Range<usize>) -> bool
        requires { run.old.at ≤ length self.now.script.now }
        ensures { result ≡ gives_but self.now.number self.now.script.now marks.now without.now.start without.now.end
            run.old.at (state_of run.old) }
    {
        while let Some(next) = next_start(self.script, run.at) {
            let kept = is_kept(marks, without, run.at);
            if self.take(run, next, kept) {
                return true;
            }
        }
        false
    }

    // Whether all kept lines give the number.
    #[inline(never)]
    fn given(&self, marks: &Marks) -> bool
        ensures { result ≡ given self.now.number self.now.script.now marks.now self.now.opened }
    {
        let mut run = Run::blank(self.opened.at);
        run.load(self.opened);
        self.gives(&mut run, marks, &(0..0))
    }

    // Runs the kept lines that start before a place, up to one that gives the number, and tells whether one did.
    fn run_to(&self, run: &mut Run, stop: usize, marks: &Marks) -> bool
        requires { run.old.at ≤ length self.now.script.now }
        ensures { Passed self.now.number self.now.script.now marks.now run.old.at (state_of run.old) result run.new.at
            (state_of run.new) }
    {
        while run.at < stop {
            let Some(next) = next_start(self.script, run.at) else {
                return false;
            };
            if self.take(run, next, marks[run.at]) {
                return true;
            }
        }
        false
    }

    // Clears the marks of a range, if the lines from the run's place on give the number without them. Tells whether it did.
    fn attempt(&self, run: &mut Run, marks: &mut Marks, range: Range<usize>) -> bool
        requires { (run.old.at ≤ length self.now.script.now) × (range.start ≤ range.end)
            × (range.end ≤ length self.now.script.now) }
        ensures value { result ≡ gives_from self.now.number self.now.script.now (cleared marks.old range.start range.end)
            run.old.at (state_of run.old) }
        ensures marks_after { marks.new ≡ cond result (cleared marks.old range.start range.end) marks.old }
    {
        if !self.gives(run, marks, &range) {
            return false;
        }
        clear(marks, range);
        true
    }

    // The mark of a single place that has one. Apart, as are those below that hold a run: a function pays at its entry for what it holds, and
    // inlined into one another they would take the stack of all.
    #[inline(never)]
    fn attempt_marked(&self, marks: &mut Marks, at: usize) -> bool
        requires { at < length self.now.script.now }
        ensures value { result ≡ given self.now.number self.now.script.now (cleared marks.old at (at + 1)) self.now.opened }
        ensures marks_after { marks.new ≡ cond result (cleared marks.old at (at + 1)) marks.old }
    {
        let mut run = Run::blank(self.opened.at);
        run.load(self.opened);
        self.attempt(&mut run, marks, at..at + 1)
    }

    // The mark of a single place, if it has one.
    fn attempt_line(&self, marks: &mut Marks, at: usize) -> bool
        requires { at < length self.now.script.now }
        ensures value { result ≡ (kept marks.old at
            && given self.now.number self.now.script.now (cleared marks.old at (at + 1)) self.now.opened) }
        ensures marks_after { marks.new ≡ cond result (cleared marks.old at (at + 1)) marks.old }
    {
        if !marks[at] {
            return false;
        }
        self.attempt_marked(marks, at)
    }

    // The marks from the run's place on and below hi. A copy of the run goes on. Apart, for the same reason.
    #[inline(never)]
    fn attempt_range(&self, run: &Run, marks: &mut Marks, hi: usize)
        requires { (run.now.at ≤ hi) × (hi ≤ length self.now.script.now) }
        ensures { Spared self.now.number self.now.script.now marks.old run.now.at (state_of run.now) marks.new }
    {
        let mut own = *run;
        self.attempt(&mut own, marks, run.at..hi);
    }

    // The same, if there are any.
    fn attempt_from(&self, run: &Run, marks: &mut Marks, hi: usize)
        requires { (run.now.at ≤ length self.now.script.now) × (hi ≤ length self.now.script.now) }
        ensures { Spared self.now.number self.now.script.now marks.old run.now.at (state_of run.now) marks.new }
    {
        let at = run.at;
        if hi <= at {
            return;
        }
        if !marks[at..hi].contains(&true) {
            return;
        }
        self.attempt_range(run, marks, hi);
    }

    // The marks of the event lines before a place.
    #[inline(never)]
    fn attempt_front(&self, marks: &mut Marks, hi: usize)
        requires { (hi ≤ length self.now.script.now) × (given self.now.number self.now.script.now marks.old self.now.opened ≡ true) }
        ensures { given self.now.number self.now.script.now marks.new self.now.opened ≡ true }
    {
        let mut run = Run::blank(self.opened.at);
        run.load(self.opened);
        self.attempt_from(&run, marks, hi);
    }

    // Tries to do without each single line, and tells whether one was cleared.
    fn scan(&self, marks: &mut Marks) -> bool
        requires { given self.now.number self.now.script.now marks.old self.now.opened ≡ true }
        ensures { Scanned self.now.number self.now.script.now self.now.opened marks.old marks.new result }
    {
        let mut cut = false;
        for at in self.opened.at..self.script.len() {
            cut |= self.attempt_line(marks, at);
        }
        cut
    }

    // Scans again until no single line can be left out. What is cleared may make a line idle that a scan has passed.
    fn settle(&self, marks: &mut Marks)
        requires { given self.now.number self.now.script.now marks.old self.now.opened ≡ true }
        ensures { Settled self.now.number self.now.script.now self.now.opened marks.new }
    {
        while self.scan(marks) {}
    }

    // Tries to do without the lines of c bytes at a time, from a place on. A run goes up to each range, so that no line before a range is
    // run again. What is behind a line that gives the number can go.
    #[inline(never)]
    fn scan_ranges(&self, marks: &mut Marks, from: usize, c: usize)
        requires { (from ≤ length self.now.script.now) × (0 < c)
            × (given self.now.number self.now.script.now marks.old self.now.opened ≡ true) }
        ensures { given self.now.number self.now.script.now marks.new self.now.opened ≡ true }
    {
        let n = self.script.len();
        let mut run = Run::blank(self.opened.at);
        run.load(self.opened);
        let mut lo = from;
        while lo < n {
            if self.run_to(&mut run, lo, marks) {
                clear(marks, run.at..n);
                return;
            }
            let hi = lo + c.min(n - lo);
            self.attempt_from(&run, marks, hi);
            lo = hi;
        }
    }

    // Ranges of the last t bytes with kept lines, from large to small; then all that stands before these bytes, at once.
    fn thin(&self, marks: &mut Marks, t: usize)
        requires { given self.now.number self.now.script.now marks.old self.now.opened ≡ true }
        ensures { given self.now.number self.now.script.now marks.new self.now.opened ≡ true }
    {
        let end = last_kept(marks, self.script.len());
        let from = self.opened.at.max(end.saturating_sub(t));
        let mut c = t / 2;
        while 8 <= c {
            self.scan_ranges(marks, from, c);
            c /= 4;
        }
        self.attempt_front(marks, from);
    }

    // The first scan runs all lines, and so clears what is behind the first line that gives the number.
    // Then tails from short to long: lines near the refused one go first, with all that stands before them as it is.
    // Once those are gone that would need it, what stands before them can often go at once.
    fn shorten(&self, marks: &mut Marks)
        requires { given self.now.number self.now.script.now marks.old self.now.opened ≡ true }
        ensures { given self.now.number self.now.script.now marks.new self.now.opened ≡ true }
    {
        let last = self.opened.at.max(self.script.len().saturating_sub(1));
        self.scan_ranges(marks, last, 1);
        for t in [16, 128, 1024, 8192, 65536] {
            self.thin(marks, t);
        }
    }

    // Marks every event line.
    fn mark_lines(&self, marks: &mut Marks)
        ensures { kept_from self.now.script.now marks.new self.now.opened.at
            ≡ lines_in (split 10 (drop self.now.opened.at self.now.script.now)) }
    {
        let mut at = self.opened.at;
        while let Some(next) = next_start(self.script, at) {
            marks[at] = true;
            at = next;
        }
    }

    // The kept lines. Returns the next place of the output.
    fn put_kept(&self, marks: &Marks, out: &mut [u8], to: usize) -> usize
        requires { to + length (joined_lines (kept_from self.now.script.now marks.now self.now.opened.at)) ≤ length out.old }
        ensures { Put out.old to (joined_lines (kept_from self.now.script.now marks.now self.now.opened.at)) result out.new }
    {
        let mut at = self.opened.at;
        let mut pos = to;
        while let Some(next) = next_start(self.script, at) {
            pos = put_line(&self.script[at..next], marks[at], out, pos);
            at = next;
        }
        pos
    }
}

// What is kept of a script that opens.
fn reduce_events(script: &[u8], o: Opened, out: &mut [u8], number: u32) -> Result<usize, Refusal>
    requires { Ready script.now o out.old }
    ensures { Answers number script.now out.old result out.new }
{
    let search = Search {
        script,
        opened: o,
        number,
    };
    let mut marks = [false; TOP_SCRIPT];
    search.mark_lines(&mut marks);
    if !search.given(&marks) {
        return Err(Refusal::NotGiven);
    }
    search.shorten(&mut marks);
    search.settle(&mut marks);
    let head = lists::put_bytes(out, 0, &script[..o.at]);
    Ok(search.put_kept(&marks, out, head))
}

// What is kept of a script of which a line before the events is refused.
fn reduce_head(script: &[u8], e: RefusedHead, out: &mut [u8], number: u32) -> Result<usize, Refusal>
    requires { Stopped script.now e out.old }
    ensures { Answers number script.now out.old result out.new }
{
    if !is_refusal(number, Err(e.refusal)) {
        return Err(Refusal::NotGiven);
    }
    let at = lines_end(script, e.line);
    Ok(lists::put_bytes(out, 0, &script[..at]))
}

// Writes a script's settings and table with those of its event lines that are needed for a refusal number into lent
// output, and returns how many bytes were written. Refused as 15 where the script is too long or the output shorter than the script, and as
// 18 where the whole script does not give the number: then nothing is changed.
pub fn reduce(script: &[u8], out: &mut [u8], number: u32) -> Result<usize, Refusal>
    ensures { Answers number script.now out.old result out.new }
{
    if (TOP_SCRIPT < script.len()) | (out.len() < script.len()) {
        return Err(Refusal::NoRoom);
    }
    match script::load::open(script) {
        Ok(o) => reduce_events(script, o, out, number),
        Err(e) => reduce_head(script, e, out, number),
    }
}

// The same for C: the length of what is written is written to `length`, which stays as it was after a refusal.
pub fn hydra_reduce(script: &[u8], out: &mut [u8], length: &mut u32, number: u32) -> Answer
    ensures { Returns number script.now out.old length.old result out.new length.new }
{
    *length = reduce(script, out, number)? as u32;
    Ok(())
}
