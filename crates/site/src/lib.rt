// Layer 3: what a site is, its eight events and their answers by the node's promises alone.
#![tactic(auto)]

ghost use Rattle.std.specs.Prelude.{◌≡◌};
ghost use Rattle.site.specs.Load.{row_ok, table_ok, load_answer};

mod events;
mod looks;

pub use events::{is_close, is_end, node_index};
use node::{Answer, Config, Refusal, Setup};

// A row of the table.
#[derive(Clone, Copy)]
pub struct Row {
    pub version: u32,
    pub flags: u32,
    pub want: u8,
}

#[derive(Clone, Copy)]
pub struct Table {
    pub rows: [Row; 32],
}

// What the listing says of a node.
#[derive(Clone, Copy, PartialEq, Eq)]
pub enum State {
    Live,
    Waiting,
    Down,
}

// What a site holds beside its members. The phase and the place in the epoch move on with or without live nodes.
#[derive(Clone, Copy)]
pub struct SiteHeader {
    pub config: Config,
    pub negotiates: bool,
    pub place: u32,
    pub sent: [u8; 32],
}

// The eight events with their values, in or out of range.
#[derive(Clone, Copy, PartialEq, Eq)]
pub enum Event {
    Send(u32),
    Hear(u32, u32),
    Close,
    Take(u32, u32),
    End,
    Want(u32, u32),
    Crash(u32),
    Restart(u32, u32),
}

// Whether a row is good for the node at an index.
#[tactic(auto, unfolding(crate::specs::Load::row_ok))]
pub fn row_ok(f: Config, i: u32, row: Row) -> bool
    ensures { result ≡ row_ok f i row }
{
    if f.nodes <= i {
        return false;
    }
    let s = Setup {
        node: i + 1,
        config: f,
    };
    s.start_answer(row.version, row.flags, u32::from(row.want))
        .is_ok()
}

// Whether each of the N rows is good.
pub fn table_ok(f: Config, t: Table) -> bool
    ensures { result ≡ table_ok f t }
{
    let rows = t.rows;
    let mut ok = true;
    for (i, row) in rows.iter().enumerate() {
        ok &= (f.nodes <= i as u32) | row_ok(f, i as u32, *row);
    }
    ok
}

// The answer to the loading of a site from its figures and table.
#[tactic(auto, unfolding(crate::specs::Load::load_answer))]
pub fn load_answer(f: Config, t: Table) -> Answer
    ensures { result ≡ load_answer f t }
{
    if f.config_ok() & table_ok(f, t) {
        Ok(())
    } else {
        Err(Refusal::OutOfRange)
    }
}

impl SiteHeader {
    // The packets of one node in a phase, and the bytes of the area that those of 32 nodes lie in.
    pub const SENT: u8 = 8;

    pub const AREA: usize = 11520;
}
