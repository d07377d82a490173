// Demand 3: a theorem about every list of events. The statement is in specs/, its proof in proofs/; there is no code here
// but the number of the demand, so that the crate is a library.
#![tactic(auto)]

// The demand that the theorem states.
pub const DEMAND: u32 = 3;
