// Sets of nodes as 32-bit words: bit j - 1 stands for node j, so bit i for node i + 1.
#![tactic(auto)]

ghost use Rattle.std.specs.Prelude.{◌≡◌, ◌^◌, ltb};
ghost use Rattle.words.specs.Bits.{has_bit, with_bit, size, is_in, is_inside, all_of};

// Whether bit i of w is set.
pub fn contains(w: u32, i: u32) -> bool
    ensures { result ≡ has_bit w i }
{
    if i < 32 { (w >> i) % 2 == 1 } else { false }
}

// Whether node j is in w.
pub fn member(w: u32, j: u32) -> bool
    ensures { result ≡ is_in w j }
{
    if 0 < j { contains(w, j - 1) } else { false }
}

// w with bit i set; a bit from 32 up is none of a word's.
pub fn with(w: u32, i: u32) -> u32
    ensures { result ≡ with_bit w i }
{
    if i < 32 { w | (1 << i) } else { w }
}

// How many nodes are in w.
pub fn count(w: u32) -> u32
    ensures { result ≡ size w }
{
    u32::count_ones(w)
}

// Whether w has no bit from n up.
pub fn below(w: u32, n: u32) -> bool
    ensures { result ≡ ltb w (2 ^ n) }
{
    if n < 32 { w >> n == 0 } else { true }
}

// Whether each node of a is in b.
pub fn inside(a: u32, b: u32) -> bool
    ensures { result ≡ is_inside a b }
{
    (a | b) == b
}

// All of n nodes, at most 32.
pub fn all(n: u32) -> u32
    ensures { result ≡ all_of n }
{
    if n < 32 { (1 << n) - 1 } else { u32::MAX }
}
