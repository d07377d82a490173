// Requests by node: 32 entries, the request or 255 for none.
ghost use Rattle.std.specs.Prelude.{◌≡◌, true, cond, ◌-◌, ltb};
ghost use Rattle.membership.specs.requests.Requests.{none, requesters, no_requests, only, entry_of, first_known, union, agree_at, agree};
ghost use Rattle.membership.specs.requests.Requests.{request_within, requests_within, lowest_missing};

// The entry of a node without a request.
// Kept: a number and no Option, since `Layout.packet_bytes` and the node area have these lists byte for byte.
pub const NONE: u8 = 255;

// The nodes that have a request.
pub fn requesters(l: [u8; 32]) -> u32
    ensures { result ≡ requesters l }
{
    let mut w = 0;
    for (i, x) in l.iter().enumerate() {
        if *x != NONE {
            w = words::with(w, i as u32);
        }
    }
    w
}

// Nobody has a request.
pub fn no_requests() -> [u8; 32]
    ensures { result ≡ no_requests }
{
    [NONE; 32]
}

// Where node j stands in a list.
pub fn index_of(j: u32) -> usize
    ensures { result ≡ j - 1 }
{
    j.saturating_sub(1) as usize
}

// An index as a byte; NONE for one of no node.
fn byte_of(i: usize) -> u8
    ensures { result ≡ cond (ltb i 32) i none }
{
    if i < 32 { i as u8 } else { NONE }
}

// Node j alone has a request. Entry by entry and not by one store: so the list is made in vector registers.
pub fn only(j: u32, request: u8) -> [u8; 32]
    ensures { result ≡ only j request }
{
    let at = byte_of(index_of(j));
    let mut l = [NONE; 32];
    for (k, x) in l.iter_mut().enumerate() {
        *x = if k as u8 == at { request } else { NONE };
    }
    l
}

// The entry of node j.
pub fn entry_of(l: [u8; 32], j: u32) -> u8
    ensures { result ≡ entry_of l j }
{
    l.get(index_of(j)).copied().unwrap_or(0)
}

fn first_known(x: u8, y: u8) -> u8
    ensures { result ≡ first_known x y }
{
    if x == NONE { y } else { x }
}

// The requests of both lists, the first one's where both have one.
pub fn union(a: [u8; 32], b: [u8; 32]) -> [u8; 32]
    ensures { result ≡ union a b }
{
    let mut m = a;
    for (i, x) in m.iter_mut().enumerate() {
        *x = first_known(*x, b[i]);
    }
    m
}

fn agree_at(x: u8, y: u8) -> bool
    ensures { result ≡ agree_at x y }
{
    x == NONE || y == NONE || x == y
}

// Whether no node has two different requests in the two lists. Apart: inlined into a site's hear, the loop would be 32 tests, one by one.
#[inline(never)]
pub fn agree(a: [u8; 32], b: [u8; 32]) -> bool
    ensures { result ≡ agree a b }
{
    let mut ok = true;
    for (i, x) in a.iter().enumerate() {
        ok &= agree_at(*x, b[i]);
    }
    ok
}

// No request, or one within the range of requests.
fn in_range(x: u8) -> bool
    ensures { result ≡ request_within x true }
{
    x == NONE || x <= allotment::TOP_REQUEST
}

// Whether requests stand only for the nodes of a set. By the set of those who have one: a test of each entry with its node's flag takes
// four times the instructions.
pub fn requests_within(l: [u8; 32], flags: u32) -> bool
    ensures { result ≡ requests_within l flags }
{
    let mut ok = words::inside(requesters(l), flags);
    for x in &l {
        ok &= in_range(*x);
    }
    ok
}

// The lowest node of a set that has no request; 0 for none.
// Kept: 0 is in the definition `lowest_missing`, and C is told so in the bytes of a node report.
pub fn lowest_missing(w: u32, l: [u8; 32]) -> u8
    ensures { result ≡ lowest_missing w l }
{
    for (i, x) in l.iter().enumerate() {
        if words::contains(w, i as u32) && *x == NONE {
            return (i + 1) as u8;
        }
    }
    0
}
