// Masks where they stand: tested, cleared and copied, with no owners made of them.
ghost use Rattle.std.specs.Prelude.{◌≡◌, ◌+◌, ◌≤◌, length, replicate, ◌&&◌, eqb};
ghost use Rattle.lists.specs.All.{bounded};
ghost use Rattle.lists.specs.Bytes.{span, written};
ghost use Rattle.masks.specs.Inner.{ends_by, rows_fit};
ghost use Rattle.masks.specs.Bytes.{masks_size, masks_in, rest_blank, rows_used, fit_read, cleared, copied};

use crate::bytes::{MASKS, NODES, has_room, is_blank, long_word, ones, part, short_word, zeros};

// Half of them: longer runs of zeros would be stored by a call of the C library.
const HALF: usize = 176;

// Whether two words have no slot from k up.
fn ends_by(low: u64, high: u16, k: u32) -> bool
    ensures { result ≡ ends_by low high k }
{
    if k < 64 {
        return (low >> k == 0) & (high == 0);
    }
    if k < 80 {
        return high >> (k - 64) == 0;
    }
    true
}

// Whether the first nodes share no slot, have their counts, and have no slot from k up. The first that is wrong ends it.
fn rows_fit(s: &[u8], from: usize, top: usize, k: u32) -> bool
    requires { (from + masks_size ≤ length s.now) × (top ≤ 32) }
    ensures { result ≡ rows_fit (masks_in s.now from) top k }
{
    let mut taken_low: u64 = 0;
    let mut taken_high: u16 = 0;
    // Kept: a node has its words and its count at three places of the bytes, which follow from its number: no list is walked.
    for i in 0..top {
        let a = long_word(s, from + 8 * i);
        let b = short_word(s, from + 256 + 2 * i);
        let n = ones(a, b);
        let held = u32::from(s[from + 320 + i]);
        let apart = (taken_low & a == 0) & (taken_high & b == 0);
        let counted = held == n;
        if !(apart & counted) {
            return false;
        }
        taken_low = taken_low | a;
        taken_high = taken_high | b;
    }
    ends_by(taken_low, taken_high, k)
}

// Whether n bytes at a place, at most 2 m, are all 0: by the first m and the last m of them where there are so many. For an m that the
// caller knows these are a few vectors.
fn is_run_blank(s: &[u8], from: usize, n: usize, m: usize) -> bool
    requires { (from + n ≤ length s.now) × (n ≤ m + m) }
    ensures { result ≡ bounded (span s.now from n) 0 0 }
{
    if n < m {
        return is_blank(s, from, n);
    }
    is_blank(s, from, m) & is_blank(s, from + (n - m), m)
}

// Whether the other nodes have neither slots nor counts.
fn rest_blank(s: &[u8], from: usize, top: usize) -> bool
    requires { (from + masks_size ≤ length s.now) × (top ≤ 32) }
    ensures { result ≡ rest_blank (masks_in s.now from) top }
{
    if !is_run_blank(s, from + 8 * top, 256 - 8 * top, 128) {
        return false;
    }
    if !is_run_blank(s, from + 256 + 2 * top, 64 - 2 * top, 32) {
        return false;
    }
    is_run_blank(s, from + 320 + top, 32 - top, 16)
}

// How many rows of the masks at a place are to be looked at: the first n, where the others have neither slots nor counts; else all.
pub fn rows_used(s: &[u8], at: usize, n: usize) -> usize
    ensures { result ≡ rows_used s.now at n }
{
    if 32 <= n {
        return 32;
    }
    if !has_room(s, at) {
        return 32;
    }
    if rest_blank(s, at, n) {
        return n;
    }
    32
}

// Whether the masks at a place are all 0, as they are where no slot may have an owner: of others it isn't asked.
fn is_unused(s: &[u8], from: usize, k: u32) -> bool
    requires { from + masks_size ≤ length s.now }
    ensures { result ≡ (eqb k 0 && bounded (span s.now from masks_size) 0 0) }
{
    if k == 0 {
        return is_blank(s, from, MASKS);
    }
    false
}

// Whether the masks in the bytes at a place are well formed, with slots among the first k alone, and of the first n nodes alone.
pub fn fit(s: &[u8], at: u32, k: u32, n: u32) -> bool
    ensures { result ≡ fit_read s.now at k n }
{
    let from = at as usize;
    if !has_room(s, from) {
        return false;
    }
    if is_unused(s, from, k) {
        return true;
    }
    let top = (n as usize).min(NODES);
    if !rows_fit(s, from, top, k) {
        return false;
    }
    rest_blank(s, from, top)
}

// Zeros over half of the masks at a place, where they are not 0 already. The test parts this half from the one before it.
fn wipe(s: &mut [u8], from: usize)
    requires { from + 176 ≤ length s.old }
    ensures { s.new ≡ written s.old from (replicate 176 0) }
{
    if is_blank(s, from, HALF) {
        return;
    }
    zeros(s, from, HALF);
}

// All slots free at a place, if there is room for masks there.
pub fn clear(s: &mut [u8], at: usize)
    ensures { s.new ≡ cleared s.old at }
{
    if !has_room(s, at) {
        return;
    }
    zeros(s, at, HALF);
    wipe(s, at + HALF);
}

// The masks at a place copied to another, if there is room at both and the second doesn't start within the first.
// In parts of 32 bytes: one loop over all would be a call of the C library.
pub fn copy(s: &mut [u8], from: usize, to: usize)
    ensures { s.new ≡ copied s.old from to }
{
    if !(has_room(s, from) & has_room(s, to)) {
        return;
    }
    if (from < to) & (to < from + MASKS) {
        return;
    }
    // Kept: the part is read from the slice that the loop writes, so that no iterator may hold it.
    for i in 0..11usize {
        let l = part::<32>(s, from + 32 * i);
        lists::put_bytes(s, to + 32 * i, &l);
    }
}
