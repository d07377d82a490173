// Layer 1: the allotment of slots (specification, 4 Allotment; the paper's section 4.3).
#![tactic(auto)]

ghost use Rattle.std.specs.Prelude.{◌≡◌, cond, ℕ, min, ◌≤◌, ◌<◌, ◌+◌, ◌-◌, ltb, get_or};
ghost use Rattle.lists.specs.All.{iter};
ghost use Rattle.allotment.specs.Allotment.{top_slots, ask, asks, deal_round, dealt, targets};
ghost use Rattle.allotment.specs.Allotment.{better, chosen, holding, total};

mod inplace;

pub use inplace::next_at;

// The most slots that a site has.
pub const SLOTS: u32 = 80;

// The greatest demand and the greatest request.
pub const TOP_REQUEST: u8 = 15;

// Slots dealt so far, by node, and how many are left.
#[derive(Clone, Copy)]
pub struct Deal {
    pub targets: [u8; 32],
    pub left: u32,
}

// The lowest ones of a word, and how many more there might have been.
#[derive(Clone, Copy)]
pub struct Few {
    pub kept: u64,
    pub left: u8,
}

// What a node keeps: two words, and how many slots they have.
#[derive(Clone, Copy)]
pub struct Share {
    pub low: u64,
    pub high: u16,
    pub held: u8,
}

// What the node at index i asks for.
fn ask(members: u32, requests: &[u8; 32], n: u32, i: usize) -> u8
    requires { i < 32 }
    ensures { result ≡ ask n members requests.now i }
{
    let x = requests[i];
    let is_node = (i as u32) < n;
    let is_member = words::contains(members, i as u32);
    let has_one = x <= TOP_REQUEST;
    if is_node & is_member & has_one { x } else { 0 }
}

// What each node asks for.
fn asks(members: u32, requests: [u8; 32], n: u32) -> [u8; 32]
    ensures { result ≡ asks n members requests }
{
    let mut l = [0; 32];
    for (i, x) in l.iter_mut().enumerate() {
        *x = ask(members, &requests, n, i);
    }
    l
}

// Once over the nodes: a slot to each, unless it has its request or none is left. Behind the first n no node wants one.
fn deal_round(d: Deal, wanted: [u8; 32], n: usize) -> Deal
    requires { (n ≤ 32) × ((i : ℕ) → n ≤ i → get_or wanted i 0 ≡ 0) }
    ensures { result ≡ deal_round wanted d }
{
    let mut targets = d.targets;
    let mut left = d.left;
    for (i, top) in wanted[..n].iter().enumerate() {
        let gets = (0 < left) & (targets[i] < *top);
        targets[i] += u8::from(gets);
        left -= u32::from(gets);
    }
    Deal { targets, left }
}

// The slots of an epoch, at most 80.
pub fn slots(k: u32) -> u32
    ensures { result ≡ min k top_slots }
{
    k.min(SLOTS)
}

// The nodes of a site, at most 32.
fn nodes(n: u32) -> usize
    ensures { result ≡ min n 32 }
{
    n.min(32) as usize
}

// The dealing: rounds until none is left or one dealt nothing, at most as many as the greatest request has.
fn deal_all(wanted: [u8; 32], k: u32, n: usize) -> Deal
    requires { (n ≤ 32) × ((i : ℕ) → n ≤ i → get_or wanted i 0 ≡ 0) }
    ensures { result ≡ dealt wanted k }
{
    let mut s = Deal {
        targets: [0u8; 32],
        left: slots(k),
    };
    for _ in 0..TOP_REQUEST {
        let left = s.left;
        s = deal_round(s, wanted, n);
        if s.left == left {
            return s;
        }
    }
    s
}

// What all ask for together.
fn total(wanted: [u8; 32]) -> u32
    ensures { result ≡ total wanted }
{
    let mut sum = 0;
    for x in &wanted {
        sum += u32::from(*x);
    }
    sum
}

// The targets of the members among n nodes and k slots: what each asks for, where there are slots for all of it.
pub fn targets(members: u32, requests: [u8; 32], n: u32, k: u32) -> [u8; 32]
    ensures { result ≡ targets n k members requests }
{
    let wanted = asks(members, requests, n);
    if total(wanted) <= slots(k) {
        return wanted;
    }
    deal_all(wanted, k, nodes(n)).targets
}

// Where the node of number j stands; 0 for a number that no node has.
// Kept: nobody is number 0, here, in `choose` and in `turn`, as the definition `chosen` of the theorems has it.
fn node_index(j: u8) -> usize
    ensures { (result < 32) × (j ≤ 32 → result ≡ j - 1) }
{
    if j <= 32 {
        usize::from(j.saturating_sub(1))
    } else {
        0
    }
}

// Of the first n nodes the one below its target with the fewest slots, the lowest number on a tie; 0 where there is none.
fn choose(target: &[u8; 32], held: &[u8; 32], n: usize) -> u8
    requires { n ≤ 32 }
    ensures { result ≡ iter n (better target.now (holding held.now)) 0 }
{
    let mut best = 0;
    let mut least = 0;
    for (i, has) in held[..n].iter().enumerate() {
        let wins = (*has < target[i]) & ((best == 0) | (*has < least));
        if wins {
            best = (i + 1) as u8;
            least = *has;
        }
    }
    best
}

// Who gets a slot; nobody behind the last. As `choose`, where of the nodes below their targets none has fewer than `level` slots, and those
// before `from` have more: the next one with just as many, or else the walk over all.
fn turn(slot: usize, target: &[u8; 32], held: &[u8; 32], n: usize, level: u8, from: usize) -> u8
    requires { (n ≤ 32) × ((i : ℕ) → n ≤ i → get_or target.now i 0 ≡ 0) ×
        ((i : ℕ) → get_or held.now i 0 < get_or target.now i 0 → (level ≤ get_or held.now i 0)
        × (i < from → level < get_or held.now i 0)) }
    ensures { result ≡ cond (ltb slot top_slots) (chosen target.now (holding held.now)) 0 }
{
    if 80 <= slot {
        return 0;
    }
    // Kept: `from` may lie behind n, where a slice of either list from there on is none.
    for i in from..n {
        let has = held[i];
        if (has == level) & (has < target[i]) {
            return (i + 1) as u8;
        }
    }
    choose(target, held, n)
}
