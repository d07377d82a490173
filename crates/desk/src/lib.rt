// The run of a whole script: what it prints, for both programs and for C.
#![tactic(auto)]

ghost use Rattle.std.specs.Prelude.{length};
ghost use Rattle.desk.specs.declared.View.TheVariants.{Refusals, Reasons};

pub mod listing;
pub mod listings;
pub mod reasons;

use site::State;

// What the listing shows of a node before its slots.
#[derive(Clone, Copy)]
struct Shown {
    state: State,
    version: u32,
    flags: u32,
    request: u32,
}

// What is printed of a run: the refusals of its lines and the rows behind them, or the reasons of a node.
#[derive(Clone, Copy)]
pub enum View {
    Refusals,
    Reasons(u32),
}
