// Boxes that close and end each at its own moment: a theorem about every interleaving of their calls. The statement is
// in specs/, its proof in proofs/; there is no code here but the number of the demand, so that the crate is a library.
#![tactic(auto)]

// The demand that the theorem states.
pub const DEMAND: u32 = 3;
