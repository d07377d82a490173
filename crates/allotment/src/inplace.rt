// The allotment on masks where they stand, in words of slots: no list of owners is made.
ghost use Rattle.std.specs.Prelude.{◌≡◌, ℕ, ◌-◌, ◌+◌, ◌≤◌, ◌<◌, length, get_or};
ghost use Rattle.words.specs.Bits.{has_bit, how_many};
ghost use Rattle.lists.specs.Bytes.{written};
ghost use Rattle.masks.specs.Slots.{has_slot, owners_in, masks_of};
ghost use Rattle.masks.specs.Bytes.{masks_size, masks_bytes, masks_in};
ghost use Rattle.allotment.specs.Allotment.{allotted};
ghost use Rattle.allotment.specs.InPlace.{next_in};
ghost use Rattle.allotment.specs.Inner.{lowest_of, node_kept, own_low, own_high, low_bit, high_bit, FirstFrom};

use crate::{Few, Share, node_index, nodes, targets, turn};

// The lowest ones of a word, at most so many. Goes from one bit that is set to the next.
fn lowest(w: u64, most: u8) -> Few
    ensures { result ≡ record { kept = lowest_of 64 w most; left = most - how_many 64 (has_bit w) } }
{
    let mut rest = w;
    let mut kept = 0;
    let mut left = most;
    let mut at = 0;
    while rest != 0 {
        if left == 0 {
            return Few { kept, left };
        }
        let zeros = rest.trailing_zeros();
        at += zeros as usize;
        kept |= 1 << at;
        left -= 1;
        rest = (rest >> zeros) >> 1;
        at += 1;
    }
    Few { kept, left }
}

// The lowest slots of two words, at most so many.
fn keep_node(low: u64, high: u16, most: u8) -> Share
    ensures { result ≡ node_kept low high most }
{
    let a = lowest(low, most);
    let b = lowest(high as u64, a.left);
    Share {
        low: a.kept,
        high: b.kept as u16,
        held: most - b.left,
    }
}

// The bits of a first word that another has not, below k.
fn own_low(w: u64, taken: u64, k: u32) -> u64
    ensures { result ≡ own_low w taken k }
{
    let own = w ^ (w & taken);
    if k < 64 { own & ((1 << k) - 1) } else { own }
}

// The same of a second word, whose bit 0 is that of the slot at index 64.
fn own_high(w: u16, taken: u16, k: u32) -> u16
    ensures { result ≡ own_high w taken k }
{
    if k < 64 {
        return 0;
    }
    let own = w ^ (w & taken);
    if k < 80 {
        own & ((1 << (k - 64)) - 1)
    } else {
        own
    }
}

// The bit of a slot in a first word.
fn low_bit(slot: usize) -> u64
    ensures { result ≡ low_bit slot }
{
    if slot < 64 { 1 << slot } else { 0 }
}

// And in a second one.
fn high_bit(slot: usize) -> u16
    ensures { result ≡ high_bit slot }
{
    if slot < 64 {
        return 0;
    }
    if slot < 80 { 1 << (slot - 64) } else { 0 }
}

// The first bit of a word from a place on; 64 where it has none.
fn next_bit(w: u64, from: usize) -> usize
    requires { from < 64 }
    ensures { (result ≤ 64) × FirstFrom (has_bit w) 64 from result }
{
    let rest = w >> from;
    if rest == 0 {
        return 64;
    }
    from + rest.trailing_zeros() as usize
}

// The first slot from a place on that two words have; 80 or more where they have none.
fn next_slot(low: u64, high: u16, from: usize) -> usize
    requires { from ≤ 80 }
    ensures { FirstFrom (has_slot low high) 80 from result }
{
    if from < 64 {
        let b = next_bit(low, from);
        if b < 64 {
            return b;
        }
        return 64 + next_bit(high as u64, 0);
    }
    64 + next_bit(high as u64, from - 64)
}

// The next schedule by the targets, as masks: of each node the lowest of its slots, as many as its target; then the slots that were free,
// going up, each to the node whose turn it is, until no node is below its target. Of a slot that several nodes hold the lowest is the
// owner.
// Behind the first n no node has a target, and mostly none has a slot: then only n rows are gone over.
fn allot(s: &mut [u8], at: usize, to: usize, target: [u8; 32], n: usize, k: u32)
    requires { (at + masks_size ≤ length s.old) × (to + masks_size ≤ length s.old) × (n ≤ 32)
        × ((i : ℕ) → n ≤ i → get_or target i 0 ≡ 0) }
    ensures { s.new ≡ written s.old to
        (masks_bytes (masks_of (allotted target (owners_in (masks_in s.old at)) k))) }
{
    let rows = masks::rows_used(s, at, n);
    let mut low = [0; 32];
    let mut high = [0; 32];
    let mut held = [0; 32];
    let mut taken_low = 0;
    let mut taken_high = 0;
    for (i, most) in target[..rows].iter().enumerate() {
        let a = masks::low_at(s, at, i);
        let b = masks::high_at(s, at, i);
        let first = own_low(a, taken_low, k);
        let second = own_high(b, taken_high, k);
        let share = keep_node(first, second, *most);
        low[i] = share.low;
        high[i] = share.high;
        held[i] = share.held;
        taken_low |= a;
        taken_high |= b;
    }
    let free_low = own_low(u64::MAX, taken_low, k);
    let free_high = own_high(u16::MAX, taken_high, k);
    let mut slot = next_slot(free_low, free_high, 0);
    let mut j = turn(slot, &target, &held, n, 0, 0);
    while (slot < 80) & (j != 0) {
        let i = node_index(j);
        let has = held[i];
        low[i] |= low_bit(slot);
        high[i] |= high_bit(slot);
        held[i] = has + 1;
        slot = next_slot(free_low, free_high, slot + 1);
        j = turn(slot, &target, &held, n, has, i + 1);
    }
    masks::put_words(s, to, rows, &low, &high, held);
}

// The next schedule, from the members' requests among n nodes and k slots: of the masks at one place, as masks at another, which may be the
// same.
// Without room for masks at both nothing changes.
pub fn next_at(s: &mut [u8], at: usize, to: usize, members: u32, requests: [u8; 32], n: u32, k: u32)
    ensures { s.new ≡ next_in s.old at to members requests n k }
{
    if !masks::has_room(s, at) {
        return;
    }
    if !masks::has_room(s, to) {
        return;
    }
    allot(s, at, to, targets(members, requests, n, k), nodes(n), k);
}
