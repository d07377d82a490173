// Bytes as text: a separator found, numbers read and written in decimal.
#![tactic(auto)]

ghost use Rattle.std.specs.Prelude.{◌≡◌, ◌==◌, [], ◌∷◌, ◌≤◌, ◌+◌, length, position, not, eqb, get_or, drop};
ghost use Rattle.lists.specs.All.{all_below};
ghost use Rattle.lists.specs.Bytes.{written, Tried};
ghost use Rattle.text.specs.Read.{before, number_of};
ghost use Rattle.text.specs.Write.{decimal};

// So far a byte is looked for one by one; event lines are shorter.
const NEAR: usize = 32;

// Where the first c stands.
fn place(s: &[u8], c: u8) -> Option<usize>
    ensures { result ≡ position (λ b. b == c) s.now }
{
    s.iter().position(|b| *b == c)
}

// Whether none of 16 bytes is c. No early return, so that all are compared at once.
fn lacks(block: &[u8; 16], c: u8) -> bool
    ensures { result ≡ all_below 16 (λ i. not (eqb (get_or block.now i 0) c)) }
{
    let mut ok = true;
    for b in block {
        ok &= *b != c;
    }
    ok
}

// How many bytes at the front are passed over: blocks of 16 without a c.
fn passed(s: &[u8], c: u8) -> usize
    ensures value { before c s.now ≡ result + before c (drop result s.now) }
    ensures within { result ≤ length s.now }
{
    let (blocks, _) = s.as_chunks::<16>();
    let mut n = 0;
    for block in blocks {
        if !lacks(block, c) {
            return n;
        }
        n += 16;
    }
    n
}

// How many bytes stand before the first c, where that may be many: blocks are passed over. Apart, so that `find` stays small where it is called.
#[inline(never)]
fn far(s: &[u8], c: u8) -> usize
    ensures value { result ≡ before c s.now }
    ensures within { result ≤ length s.now }
{
    let n = passed(s, c);
    n + place(&s[n..], c).unwrap_or(s.len() - n)
}

// How many bytes stand before the first c: all of them where there is none. It is looked for near the front first, where lines have it.
pub fn find(s: &[u8], c: u8) -> usize
    ensures value { result ≡ before c s.now }
    ensures within { result ≤ length s.now }
{
    let (front, rest) = s.split_at(s.len().min(NEAR));
    let n = place(front, c).unwrap_or(front.len());
    if n < front.len() {
        return n;
    }
    n + far(rest, c)
}

// A decimal number without leading zeros, at most 4,294,967,295; nothing for anything else.
pub fn number(s: &[u8]) -> Option<u32>
    ensures { result ≡ number_of s.now }
{
    if s.len() == 0 {
        return None;
    }
    if s[0] == 48 {
        if s.len() == 1 {
            return Some(0);
        }
        return None;
    }
    let mut v: u32 = 0;
    for &b in s {
        let d = b.checked_sub(48)?;
        if 9 < d {
            return None;
        }
        v = v.checked_mul(10)?.checked_add(u32::from(d))?;
    }
    Some(v)
}

// A byte at a place, if there is room for it: the next place. Without room nothing changes, and the place stays.
pub fn put_byte(out: &mut [u8], at: usize, b: u8) -> usize
    ensures { Tried out.old at (b ∷ []) result out.new }
{
    lists::put_bytes(out, at, &[b])
}

// How many digits a number has.
pub fn width(x: u32) -> usize
    ensures { result ≡ length (decimal x) }
{
    match x.checked_ilog10() {
        Some(k) => k as usize + 1,
        None => 1,
    }
}

// The n digits of x at a place, the last one first.
fn put_digits(out: &mut [u8], at: usize, x: u32, n: usize)
    requires { (n ≡ length (decimal x)) × (at + n ≤ length out.old) }
    ensures { out.new ≡ written out.old at (decimal x) }
{
    let mut v = x;
    for i in (at..at + n).rev() {
        out[i] = 48 + (v % 10) as u8;
        v = v / 10;
    }
}

// A number in decimal at a place, if there is room for it: the next place. Without room nothing changes, and the place stays.
pub fn put_number(out: &mut [u8], at: usize, x: u32) -> usize
    ensures { Tried out.old at (decimal x) result out.new }
{
    let n = width(x);
    if out.len() < at {
        return at;
    }
    if out.len() - at < n {
        return at;
    }
    put_digits(out, at, x, n);
    at + n
}
