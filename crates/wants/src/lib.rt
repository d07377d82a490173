// The reports of a close and demands: the statement is in specs/, its proof in proofs/. There is no code here but the number of the
// runs that are compared, so that the crate is a library.
#![tactic(auto)]

// Of how many runs at a time it speaks.
pub const RUNS: u32 = 2;
