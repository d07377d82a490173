// Lists of bytes: read, compared, tested and written.
#![tactic(auto)]

ghost use Rattle.std.specs.Prelude.{◌≡◌, ◌+◌, ◌*◌, get_or, drop};
ghost use Rattle.lists.specs.All.{same, at_most, bounded};
ghost use Rattle.lists.specs.Bytes.{word32, bytes32, window, Tried};

// The byte at a place, 0 behind the end.
pub fn byte(s: &[u8], i: usize) -> u8
    ensures { result ≡ get_or s.now i 0 }
{
    s.get(i).copied().unwrap_or(0)
}

// The number of four bytes, highest first.
pub fn join(a: u8, b: u8, c: u8, d: u8) -> u32
    ensures { result ≡ a * 16777216 + b * 65536 + c * 256 + d }
{
    u32::from_be_bytes([a, b, c, d])
}

// The number in the four bytes at a place.
pub fn word(s: &[u8], at: u32) -> u32
    ensures { result ≡ word32 s.now at }
{
    let l = window::<4>(s, at as usize);
    u32::from_be_bytes(l)
}

// A number's four bytes, highest first.
pub fn word_bytes(x: u32) -> [u8; 4]
    ensures { result ≡ bytes32 x }
{
    x.to_be_bytes()
}

// What stands from a place on.
fn behind(s: &[u8], at: usize) -> &[u8]
    ensures { result.now ≡ drop at s.now }
{
    s.get(at..).unwrap_or(&[])
}

// The N bytes from a place on where some are missing: apart, so that `window` stays small where it is called.
#[inline(never)]
fn padded<const N: usize>(s: &[u8], at: usize) -> [u8; N]
    ensures { result ≡ window N s.now at }
{
    let rest = behind(s, at);
    let mut l = [0u8; N];
    for (i, x) in l.iter_mut().enumerate() {
        *x = byte(rest, i);
    }
    l
}

// The N bytes from a place on, 0 behind the end. Where all are there they are read without a test at each.
#[inline(always)]
pub fn window<const N: usize>(s: &[u8], at: usize) -> [u8; N]
    ensures { result ≡ window N s.now at }
{
    let rest = behind(s, at);
    match rest.first_chunk::<N>() {
        Some(l) => *l,
        None => padded(s, at),
    }
}

// The 32 bytes from a place on, 0 behind the end.
pub fn short(s: &[u8], at: u32) -> [u8; 32]
    ensures { result ≡ window 32 s.now at }
{
    window(s, at as usize)
}

// Whether two slices have the same bytes.
pub fn equal(s: &[u8], t: &[u8]) -> bool
    ensures { result ≡ same s.now t.now }
{
    if s.len() != t.len() {
        return false;
    }
    let mut ok = true;
    // Kept: no early return, so that many bytes are compared at once; `==` is a call, which compares one group of bytes after the other.
    for (i, x) in s.iter().enumerate() {
        ok &= *x == t[i];
    }
    ok
}

// Whether each byte is at most the top. No early return, so that the loop tests many bytes at once.
fn all_at_most(s: &[u8], top: u32) -> bool
    ensures { result ≡ at_most s.now top }
{
    let mut ok = true;
    for &b in s {
        ok = ok & (u32::from(b) <= top);
    }
    ok
}

// Whether the first m bytes are at most the top, and the others 0.
pub fn all_fit(s: &[u8], m: u32, top: u32) -> bool
    ensures { result ≡ bounded s.now m top }
{
    let (front, rest) = s.split_at(s.len().min(m as usize));
    all_at_most(front, top) & all_at_most(rest, 0)
}

// Bytes at a place, if there is room for them: the next place. Without room nothing changes, and the place stays.
pub fn put_bytes(out: &mut [u8], at: usize, s: &[u8]) -> usize
    ensures { Tried out.old at s.now result out.new }
{
    if out.len() < at {
        return at;
    }
    if out.len() - at < s.len() {
        return at;
    }
    // Kept: byte by byte. `copy_from_slice` is a call of memmove where the length isn't known before the run; else it tests for overlap.
    for (i, b) in s.iter().enumerate() {
        out[at + i] = *b;
    }
    at + s.len()
}
