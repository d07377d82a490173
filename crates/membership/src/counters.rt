// How often each node was heard in an epoch, and whom its end counts: lines 31, 47 and 51 to 54 of Algorithm 1.
ghost use Rattle.std.specs.Prelude.{◌≡◌, cond, leb, get_or, replicate};
ghost use Rattle.words.specs.Bits.{word_of};
ghost use Rattle.membership.specs.counters.Counters.{plus, counted, with_self, members_of};

// A counter, one more where its node was heard; it stops at 255.
// Kept: a test and a sum, since a round's count takes 5 ns so and 11 ns by `saturating_add(u8::from(heard))`.
fn plus(x: u8, heard: bool) -> u8
    ensures { result ≡ plus x heard }
{
    if heard && x < u8::MAX { x + 1 } else { x }
}

// C_e grows by C_r: line 31.
pub fn count_heard(counters: [u8; 32], heard: u32) -> [u8; 32]
    ensures { result ≡ counted counters heard }
{
    if heard == 0 {
        return counters;
    }
    let mut l = counters;
    for (i, x) in l.iter_mut().enumerate() {
        *x = plus(*x, words::contains(heard, i as u32));
    }
    l
}

// A set and the node of number j: what the expiry counts.
pub fn with_self(w: u32, j: u32) -> u32
    ensures { result ≡ with_self w j }
{
    if 0 < j { words::with(w, j - 1) } else { w }
}

// Whether a counter is at least `heard`. Compared as bytes: so the 32 counters are two vectors, and not eight.
fn is_often(x: u8, heard: u32) -> bool
    ensures { result ≡ leb heard x }
{
    u8::try_from(heard).is_ok_and(|least| least <= x)
}

// The nodes with C_e of at least `heard`.
fn heard_often(counters: [u8; 32], heard: u32) -> u32
    ensures { result ≡ word_of 32 (λ i. leb heard (get_or counters i 0)) }
{
    let mut w = 0;
    for (i, x) in counters.iter().enumerate() {
        if is_often(*x, heard) {
            w = words::with(w, i as u32);
        }
    }
    w
}

// These, and the node itself: lines 51 to 54.
pub fn members_of(counters: [u8; 32], node: u32, heard: u32) -> u32
    ensures { result ≡ members_of counters node heard }
{
    with_self(heard_often(counters, heard), node)
}

// The counters as the next round begins: none is left where the epoch ends.
pub fn kept(counters: [u8; 32], none: bool) -> [u8; 32]
    ensures { result ≡ cond none (replicate 32 0) counters }
{
    if none { [0; 32] } else { counters }
}
