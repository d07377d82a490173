// Where each number of a site stands in its words and bytes (specs/Layout). No other file has these offsets as numbers.
ghost use Rattle.std.specs.Prelude.{◌≤◌, length};
ghost use Rattle.machine.specs.Layout.{words_size, bytes_size};

// The words and the bytes of a node.
pub(crate) const NODE_WORDS: usize = 8;

pub(crate) const NODE_BYTES: usize = 773;

// Where the lists of a node start among its bytes: R', C_e, and its two schedules, each as masks.
pub(crate) const KNOWN: usize = 5;

pub(crate) const COUNTERS: usize = 37;

pub(crate) const SCHEDULE: usize = 69;

// Behind the nodes: figures and place among the words, counts of packets and phase among the bytes.
pub(crate) const NODES: usize = 256;

pub(crate) const SLOTS: usize = 257;

pub(crate) const ROUNDS: usize = 258;

pub(crate) const MIN_HEARD: usize = 259;

pub(crate) const SPLIT: usize = 260;

pub(crate) const PLACE: usize = 261;

pub const SENT: usize = 24736;

pub(crate) const PHASE: usize = 24768;

// How many words and bytes a site takes.
pub const WORDS: usize = 262;

pub const BYTES: usize = 24769;

// Lent words and bytes that are long enough for a site.
#[derive(Clone, Copy)]
pub(crate) struct Lent<'a> {
    pub(crate) words: &'a [u32],
    pub(crate) bytes: &'a [u8],
    ghost long: { (words_size ≤ length words.now) × (bytes_size ≤ length bytes.now) },
}
