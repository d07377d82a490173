// Masks as bytes: their words and their counts.
ghost use Rattle.std.specs.Prelude.{◌≡◌, ◌+◌, ◌≤◌, length, get_or, replicate};
ghost use Rattle.std.specs.Int.Count;
ghost use Rattle.lists.specs.All.{bounded};
ghost use Rattle.lists.specs.Bytes.{span, window, written, Tried};
ghost use Rattle.masks.specs.Slots.{from_words};
ghost use Rattle.masks.specs.Bytes.{word64, bytes64, word16, bytes16, rows, masks_bytes, has_room, no_own, own_read};
ghost use Rattle.masks.specs.Bytes.{low_at, high_at, first_words};

use crate::NodeSlots;

// The bytes of masks.
pub const MASKS: usize = 352;

// N bytes at a place.
pub(crate) fn part<const N: usize>(s: &[u8], at: usize) -> [u8; N]
    requires { at + N ≤ length s.now }
    ensures { result ≡ window N s.now at }
{
    // Kept: byte by byte, which is one move: `first_chunk` tests the length where it runs, and `fit` took 105 ns with it and 67 without.
    let mut l = [0u8; N];
    for (i, x) in l.iter_mut().enumerate() {
        *x = s[at + i];
    }
    l
}

// The number in the eight bytes at a place.
pub(crate) fn long_word(s: &[u8], i: usize) -> u64
    requires { i + 8 ≤ length s.now }
    ensures { result ≡ word64 s.now i }
{
    u64::from_be_bytes(part(s, i))
}

// The number in the two bytes at a place.
pub(crate) fn short_word(s: &[u8], i: usize) -> u16
    requires { i + 2 ≤ length s.now }
    ensures { result ≡ word16 s.now i }
{
    u16::from_be_bytes(part(s, i))
}

// How many slots two words have.
pub(crate) fn ones(low: u64, high: u16) -> u32
    ensures { result ≡ Count.ones low + Count.ones high }
{
    u64::count_ones(low) + u16::count_ones(high)
}

// Whether n bytes at a place are all 0, as those of a determined schedule mostly are.
pub(crate) fn is_blank(s: &[u8], from: usize, n: usize) -> bool
    requires { from + n ≤ length s.now }
    ensures { result ≡ bounded (span s.now from n) 0 0 }
{
    let to = from + n;
    lists::all_fit(&s[from..to], 0, 0)
}

// Whether there is room for the bytes of masks at a place.
pub fn has_room(s: &[u8], at: usize) -> bool
    ensures { result ≡ has_room s.now at }
{
    if s.len() < MASKS {
        return false;
    }
    if s.len() - MASKS < at {
        return false;
    }
    true
}

// The first word of the node at an index in the masks at a place; 0 behind the last node, and without room for masks.
pub fn low_at(s: &[u8], at: usize, i: usize) -> u64
    ensures { result ≡ low_at s.now at i }
{
    if !has_room(s, at) {
        return 0;
    }
    if i < 32 {
        return long_word(s, at + 8 * i);
    }
    0
}

// Its second word.
// Kept: beside `low_at`: word, place and type of the result differ, and what is the same is two tests.
pub fn high_at(s: &[u8], at: usize, i: usize) -> u16
    ensures { result ≡ high_at s.now at i }
{
    if !has_room(s, at) {
        return 0;
    }
    if i < 32 {
        return short_word(s, at + 256 + 2 * i);
    }
    0
}

// No slot.
fn nobody() -> NodeSlots
    ensures { result ≡ no_own }
{
    NodeSlots {
        low: 0,
        high: 0,
        count: 0,
    }
}

// What the masks in the bytes at a place hold of node j, as they stand there: no list of owners is made.
pub fn own(s: &[u8], at: u32, j: u32) -> NodeSlots
    ensures { result ≡ own_read s.now at j }
{
    let from = at as usize;
    if s.len() < from + MASKS {
        return nobody();
    }
    if j < 1 {
        return nobody();
    }
    if 32 < j {
        return nobody();
    }
    let i = (j - 1) as usize;
    NodeSlots {
        low: long_word(s, from + 8 * i),
        high: short_word(s, from + 256 + 2 * i),
        count: s[from + 320 + i],
    }
}

// How many nodes have masks.
pub(crate) const NODES: usize = 32;

// A number's eight bytes.
pub(crate) fn long_bytes(x: u64) -> [u8; 8]
    ensures { result ≡ bytes64 x }
{
    x.to_be_bytes()
}

// A number's two bytes.
pub(crate) fn short_bytes(x: u16) -> [u8; 2]
    ensures { result ≡ bytes16 x }
{
    x.to_be_bytes()
}

// Zeros over n bytes at a place. For a small n that the caller knows these are a few stores; for any other, a call of the C library.
pub(crate) fn zeros(s: &mut [u8], from: usize, n: usize)
    requires { from + n ≤ length s.old }
    ensures { s.new ≡ written s.old from (replicate n 0) }
{
    s[from..from + n].fill(0);
}

// The first words of the first n nodes at a place, and 0 for the others.
fn put_first(out: &mut [u8], at: usize, n: usize, low: &[u64; 32])
    requires { (n ≤ 32) × (at + 256 ≤ length out.old) }
    ensures { out.new
        ≡ written out.old at (rows 32 (λ i. bytes64 (get_or (first_words n low.now) i 0))) }
{
    zeros(out, at, 256);
    let first = &low[..n];
    for (i, &x) in first.iter().enumerate() {
        let b = long_bytes(x);
        lists::put_bytes(out, at + 8 * i, &b);
    }
}

// Their second words.
// Kept: beside `put_first`, of which it differs in the width: one for both would take a row's bytes from a closure or a trait, with a
// contract longer than this body.
fn put_second(out: &mut [u8], at: usize, n: usize, high: &[u16; 32])
    requires { (n ≤ 32) × (at + 64 ≤ length out.old) }
    ensures { out.new
        ≡ written out.old at (rows 32 (λ i. bytes16 (get_or (first_words n high.now) i 0))) }
{
    zeros(out, at, 64);
    let first = &high[..n];
    for (i, &x) in first.iter().enumerate() {
        let b = short_bytes(x);
        lists::put_bytes(out, at + 2 * i, &b);
    }
}

// The masks of the first n of these words, and of these counts, at a place, if there is room for their bytes: the next place.
// Without room nothing changes, and the place stays.
pub fn put_words(
    out: &mut [u8],
    at: usize,
    n: usize,
    low: &[u64; 32],
    high: &[u16; 32],
    counts: [u8; 32],
) -> usize
    ensures { Tried out.old at
        (masks_bytes (from_words (first_words n low.now) (first_words n high.now) counts)) result out.new }
{
    if !has_room(out, at) {
        return at;
    }
    let top = n.min(NODES);
    put_first(out, at, top, low);
    put_second(out, at + 256, top, high);
    lists::put_bytes(out, at + 320, &counts)
}
