// The paper's Theorem 1 over demand 3's lists. The statement is in specs/, its proof in proofs/. There is no code here.
#![tactic(auto)]

// Of how many nodes at one moment it speaks.
pub const NODES: u32 = 2;
