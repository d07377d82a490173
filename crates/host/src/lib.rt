// What the C service in the box calls: the node behind a lent area of bytes (calls), the demand of an epoch (lookup), and the release
// (version).
#![tactic(auto)]

pub mod calls;
pub mod lookup;
mod steps;
pub mod version;

// The bytes of what a box acts on.
pub const REPORT: usize = 96;

// The numbers that tell a node's own slots.
pub const SLOTS: usize = 3;

// The bytes of the ground of a close.
pub const GROUND: usize = 2;
