// Numbers read from the storage of a site.
ghost use Rattle.std.specs.Prelude.{◌≡◌, not, ◌&&◌, ◌+◌, ◌≤◌, ◌<◌, length, get_or};
ghost use Rattle.words.specs.Bits.{how_many};
ghost use Rattle.lists.specs.Bytes.{window};
ghost use Rattle.masks.specs.Slots.{owns, owners_in};
ghost use Rattle.masks.specs.Bytes.{masks_size, masks_in};
ghost use Rattle.allotment.specs.Allotment.{top_slots};
ghost use Rattle.node.specs.Figures.{is_waiting};
ghost use Rattle.site.specs.Members.{header_of};
ghost use Rattle.machine.specs.Inner.{core_in};
ghost use Rattle.machine.specs.Layout.{store, too_short, config_at, node_words_at, up_in, phase_in, site_in};

use crate::layout::{
    BYTES, COUNTERS, KNOWN, Lent, MIN_HEARD, NODE_BYTES, NODE_WORDS, NODES, PHASE, PLACE, ROUNDS,
    SENT, SLOTS, SPLIT, WORDS,
};
use node::{Config, Core, Phase, Round, Setup};
use site::SiteHeader;

// Whether the storage is too short for a site.
pub(crate) fn is_short(words: &[u32], bytes: &[u8]) -> bool
    ensures { result ≡ too_short (store words.now bytes.now) }
{
    (words.len() < WORDS) | (bytes.len() < BYTES)
}

// 32 bytes at a place.
pub(crate) fn short_at(s: &[u8], at: usize) -> [u8; 32]
    requires { at + 32 ≤ length s.now }
    ensures { result ≡ window 32 s.now at }
{
    let mut l = [0u8; 32];
    l.copy_from_slice(&s[at..at + 32]);
    l
}

impl Lent<'_> {
    // The figures of the site.
    pub(crate) fn config(self) -> Config
        ensures { result ≡ config_at self.entry.words.now }
    {
        Config {
            nodes: self.words[NODES],
            slots: self.words[SLOTS],
            rounds: self.words[ROUNDS],
            min_heard: self.words[MIN_HEARD],
            split: self.words[SPLIT],
        }
    }

    // The version of the node at an index.
    pub(crate) fn version(self, i: usize) -> u32
        requires { i < 32 }
        ensures { result ≡ get_or self.entry.words.now (node_words_at i) 0 }
    {
        self.words[NODE_WORDS * i]
    }

    // The core of the node whose numbers stand at an index, of a site whose figures were read before: a close or an end reads them once.
    pub(crate) fn core_with(self, i: usize, config: Config) -> Core
        requires { (i < 32) × (config ≡ config_at self.words.now) }
        ensures { result ≡ core_in (store self.entry.words.now self.entry.bytes.now) i }
    {
        let row = NODE_WORDS * i;
        let room = NODE_BYTES * i;
        let known = short_at(self.bytes, room + KNOWN);
        let counters = short_at(self.bytes, room + COUNTERS);
        Core {
            setup: Setup {
                node: i as u32 + 1,
                config,
            },
            version: self.words[row],
            demand: self.bytes[room + 1],
            request: self.bytes[room + 2],
            flags: self.words[row + 1],
            round: Round {
                merged: self.words[row + 2],
                known,
                lowest: self.words[row + 3],
                highest: self.words[row + 4],
                heard: self.words[row + 5],
            },
            counters,
            interactions: self.words[row + 6],
            place: self.words[row + 7],
            updated: self.bytes[room + 4] == 1,
            phase: wire::phase_of(self.bytes[room + 3]),
        }
    }

    // The same, where they were not.
    pub(crate) fn core(self, i: usize) -> Core
        requires { i < 32 }
        ensures { result ≡ core_in (store self.entry.words.now self.entry.bytes.now) i }
    {
        self.core_with(i, self.config())
    }

    // What a site holds beside its members.
    pub(crate) fn header(self) -> SiteHeader
        ensures { result ≡ header_of (site_in (store self.entry.words.now self.entry.bytes.now)) }
    {
        let sent = short_at(self.bytes, SENT);
        let config = self.config();
        SiteHeader {
            config,
            negotiates: self.bytes[PHASE] == 1,
            place: self.words[PLACE],
            sent,
        }
    }
}

// How many slots the node at an index owns by the masks at a place: those that it holds, and that no node before it holds.
pub(crate) fn own_slots(bytes: &[u8], at: usize, i: usize) -> u8
    requires { (i < 32) × (at + masks_size ≤ length bytes.now) }
    ensures { result ≡ how_many top_slots (owns (owners_in (masks_in bytes.now at)) i) }
{
    let low = masks::low_at(bytes, at, i);
    let high = masks::high_at(bytes, at, i);
    let mut taken_low: u64 = 0;
    let mut taken_high: u16 = 0;
    for j in 0..i {
        taken_low = taken_low | masks::low_at(bytes, at, j);
        taken_high = taken_high | masks::high_at(bytes, at, j);
    }
    let first = u64::count_ones(low ^ (low & taken_low));
    let second = u16::count_ones(high ^ (high & taken_high));
    (first + second) as u8
}

// Whether the node at an index is up.
pub(crate) fn is_up(bytes: &[u8], i: usize) -> bool
    requires { i < 32 }
    ensures { result ≡ up_in bytes.now i }
{
    lists::byte(bytes, NODE_BYTES * i) == 1
}

// Its phase.
pub(crate) fn phase_at(bytes: &[u8], i: usize) -> Phase
    requires { i < 32 }
    ensures { result ≡ phase_in bytes.now i }
{
    wire::phase_of(lists::byte(bytes, NODE_BYTES * i + 3))
}

// Whether it is up and doesn't wait.
pub(crate) fn is_live(bytes: &[u8], i: usize) -> bool
    requires { i < 32 }
    ensures { result ≡ (up_in bytes.now i && not (is_waiting (phase_in bytes.now i))) }
{
    let phase = phase_at(bytes, i);
    is_up(bytes, i) & !node::is_waiting(phase)
}
