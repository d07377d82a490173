// Owners that lie in bytes: written there from masks, and read from there into masks. No list of owners is a value.
ghost use Rattle.std.specs.Prelude.{◌≡◌, ◌+◌, ◌≤◌, ◌<◌, length, get_or, replicate};
ghost use Rattle.masks.specs.Air.{owners_to, owners_written, with_owners};
ghost use Rattle.masks.specs.Bytes.{masks_size, masks_in, at_held};
ghost use Rattle.masks.specs.Inner.{index_of, marked, granted};

use crate::bytes::{NODES, has_room, long_bytes, long_word, short_bytes, short_word};
use crate::inplace::clear;
use crate::{give, node_index};

// How many slots have an owner on the air.
const OWNERS: usize = 80;

// No owner for any slot.
fn wipe_owners(owners: &mut [u8])
    requires { length owners.old ≡ 80 }
    ensures { owners.new ≡ replicate 80 0 }
{
    owners.fill(0);
}

// The owners by the masks of the first nodes.
fn tell_rows(s: &[u8], at: usize, top: usize, owners: &mut [u8])
    requires { (at + masks_size ≤ length s.now) × (top ≤ 32) × (length owners.old ≡ 80) }
    ensures { owners.new ≡ owners_to (masks_in s.now at) top }
{
    wipe_owners(owners);
    // Kept: a node has its words at two places of the bytes, which follow from its number: no list is walked.
    for i in 0..top {
        let a = long_word(s, at + 8 * i);
        let b = short_word(s, at + 256 + 2 * i);
        give(owners, 0, a, (i + 1) as u8);
        give(owners, 64, b as u64, (i + 1) as u8);
    }
}

// The owners of the masks of n nodes, at a place of some bytes, to a place of others. Without room for masks or owners nothing changes.
pub fn tell(s: &[u8], at: usize, n: u32, out: &mut [u8], to: usize)
    ensures { out.new ≡ owners_written s.now at n out.old to }
{
    if !has_room(s, at) {
        return;
    }
    if out.len() < OWNERS {
        return;
    }
    if out.len() - OWNERS < to {
        return;
    }
    let e = to + OWNERS;
    tell_rows(s, at, (n as usize).min(NODES), &mut out[to..e]);
}

// The bit of slot k in the words of node i.
fn mark(out: &mut [u8], at: usize, i: usize, k: usize)
    requires { (at + masks_size ≤ length out.old) × (i < 32) × (k < 80) }
    ensures { out.new ≡ marked out.old at i k }
{
    if k < 64 {
        let p = at + 8 * i;
        let a = long_bytes(long_word(out, p) | (1u64 << k));
        lists::put_bytes(out, p, &a);
        return;
    }
    let q = at + 256 + 2 * i;
    let b = short_bytes(short_word(out, q) | (1u16 << (k - 64)));
    lists::put_bytes(out, q, &b);
}

// Slot k is given to the node of number j: its bit, and one more in its count. A number that no node has gets none.
fn grant(out: &mut [u8], at: usize, j: u8, k: usize)
    requires { (at + masks_size ≤ length out.old) × (k < 80) × (index_of j < 32 → get_or out.old (at + at_held + index_of j) 0 ≤ k) }
    ensures { out.new ≡ granted out.old at j k }
{
    let i = node_index(j);
    if 32 <= i {
        return;
    }
    let c = at + 320 + i;
    let held = out[c];
    mark(out, at, i, k);
    out[c] = held + 1;
}

// The masks of owners at a place, if there is room for them there: the owners' slots one by one, over masks that are all free.
pub fn hold(out: &mut [u8], at: usize, owners: &[u8])
    ensures { out.new ≡ with_owners out.old at owners.now }
{
    if !has_room(out, at) {
        return;
    }
    clear(out, at);
    let first = &owners[..owners.len().min(OWNERS)];
    for (k, &j) in first.iter().enumerate() {
        grant(out, at, j, k);
    }
}
