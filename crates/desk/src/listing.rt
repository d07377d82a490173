// The listing's lines, written into lent output: all of a line, or nothing where there is no room for it.
ghost use Rattle.std.specs.Prelude.{◌≡◌, min, ◌+◌, ◌≤◌, leb, length, replicate};
ghost use Rattle.lists.specs.Bytes.{Put, Tried};
ghost use Rattle.machine.specs.Layout.{store};
ghost use Rattle.machine.specs.Loading.{member_read};
ghost use Rattle.desk.specs.listing.Rows.{first_head, refusal_line, owners_text, row_text, report_line, page, with_rows};
ghost use Rattle.desk.specs.listing.Inner.{shown_row, shown_of, owners_live, field, state_field};

use crate::Shown;
use node::Answer;
use site::State;

// Whether n bytes have room at a place of a list of this size.
fn has_room(size: usize, at: usize, n: usize) -> bool
    ensures { result ≡ leb (at + n) size }
{
    at <= size && n <= size - at
}

// The head over the refused lines, by whether the site may split.
pub fn put_head(out: &mut [u8], at: usize, split: u32) -> usize
    ensures { Tried out.old at (first_head split) result out.new }
{
    if split == 1 {
        return lists::put_bytes(out, at, b"line refusal split\n");
    }
    lists::put_bytes(out, at, b"line refusal\n")
}

// A number and the space behind it.
fn put_field(out: &mut [u8], at: usize, x: u32) -> usize
    ensures { Tried out.old at (field x) result out.new }
{
    if !has_room(out.len(), at, text::width(x) + 1) {
        return at;
    }
    let a = text::put_number(out, at, x);
    text::put_byte(out, a, 32)
}

// A line and a refusal.
fn report(out: &mut [u8], at: usize, line: u32, code: u32) -> usize
    requires { at + length (report_line line code) ≤ length out.old }
    ensures { Put out.old at (report_line line code) result out.new }
{
    let a = put_field(out, at, line);
    let b = text::put_number(out, a, code);
    text::put_byte(out, b, 10)
}

// A refused line with its number; nothing for an accepted one.
pub fn put_report(out: &mut [u8], at: usize, line: u32, a: Answer) -> usize
    ensures { Tried out.old at (refusal_line line a) result out.new }
{
    let Err(refusal) = a else {
        return at;
    };
    let code = u32::from(refusal);
    if !has_room(out.len(), at, text::width(line) + text::width(code) + 2) {
        return at;
    }
    report(out, at, line, code)
}

// A state and the space behind it.
fn put_state(out: &mut [u8], at: usize, s: State) -> usize
    ensures { Tried out.old at (state_field s) result out.new }
{
    match s {
        State::Live => lists::put_bytes(out, at, b"live "),
        State::Waiting => lists::put_bytes(out, at, b"waiting "),
        State::Down => lists::put_bytes(out, at, b"down "),
    }
}

// Owners with commas between.
fn put_owners(out: &mut [u8], at: usize, owners: &[u8]) -> usize
    requires { at + length (owners_text owners.now) ≤ length out.old }
    ensures { Put out.old at (owners_text owners.now) result out.new }
{
    let Some((first, more)) = owners.split_first() else {
        return at;
    };
    let mut pos = text::put_number(out, at, u32::from(*first));
    for owner in more {
        pos = text::put_byte(out, pos, 44);
        pos = text::put_number(out, pos, u32::from(*owner));
    }
    pos
}

// What the listing shows of node j: of one that isn't live only the state.
fn shown_of(words: &[u32], bytes: &[u8], j: u32) -> Shown
    ensures { result ≡ shown_of (member_read (store words.now bytes.now) j) }
{
    let state = machine::state(words, bytes, j);
    if machine::is_live(words, bytes, j) {
        let c = machine::core(words, bytes, j);
        return Shown {
            state,
            version: c.version,
            flags: c.flags,
            request: u32::from(c.request),
        };
    }
    Shown {
        state,
        version: 0,
        flags: 0,
        request: 0,
    }
}

// The owners that the listing shows of node j, over zeros: these stay for one that isn't live.
fn show_owners(words: &[u32], bytes: &[u8], j: u32, owners: &mut [u8])
    requires { owners.old ≡ replicate 80 0 }
    ensures { owners.new ≡ owners_live (member_read (store words.now bytes.now) j) }
{
    if !machine::is_live(words, bytes, j) {
        return;
    }
    machine::tell_owners(words, bytes, j, owners, 0);
}

// A row from what it shows.
fn row(out: &mut [u8], number: u32, s: Shown, owners: &[u8]) -> usize
    requires { (length owners.now ≤ 80) × (1000 ≤ length out.old) }
    ensures { Put out.old 0 (shown_row number s owners.now) result out.new }
{
    let a = put_field(out, 0, number);
    let b = put_state(out, a, s.state);
    let c = put_field(out, b, s.version);
    let d = put_field(out, c, s.flags);
    let e = put_field(out, d, s.request);
    let f = put_owners(out, e, owners);
    text::put_byte(out, f, 10)
}

// The row of node j of a site in storage, of k slots, at most 80.
fn put_row(out: &mut [u8], at: usize, words: &[u32], bytes: &[u8], j: u32, k: u32) -> usize
    ensures { Tried out.old at (row_text j (member_read (store words.now bytes.now) j) (min k 80))
        result out.new }
{
    let mut owners = [0u8; 80];
    show_owners(words, bytes, j, &mut owners);
    let s = shown_of(words, bytes, j);
    let top = allotment::slots(k) as usize;
    let mut b = [0u8; 1000];
    let n = row(&mut b, j, s, &owners[..top]);
    lists::put_bytes(out, at, &b[..n])
}

// The rows of the first n nodes of a site in storage.
pub fn put_rows(out: &mut [u8], to: usize, n: u32, words: &[u32], bytes: &[u8], k: u32) -> usize
    ensures { page out.new result
        ≡ with_rows n 0 (store words.now bytes.now) k (page out.old to) }
{
    let mut at = to;
    for i in 0..n {
        at = put_row(out, at, words, bytes, i + 1, k);
    }
    at
}
