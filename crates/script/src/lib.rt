// The lines of a script: settings and table, then events.
#![tactic(auto)]

pub mod events;
pub mod lines;
pub mod load;

use node::{Config, Refusal};
use site::Table;

// What stands at a place: nothing, a line without byte 10, or a line and the place of its byte 10.
#[derive(Clone, Copy)]
pub enum Line {
    Nothing,
    Open,
    Ended(usize),
}

// Settings and table, and where the event lines start.
#[derive(Clone, Copy)]
pub struct Opened {
    pub at: usize,
    pub config: Config,
    pub table: Table,
}

// A refusal with the number of its line, and the settings where they were accepted before it.
#[derive(Clone, Copy)]
pub struct RefusedHead {
    pub refusal: Refusal,
    pub line: u32,
    pub config: Config,
}
