// How soon after calm: a theorem over demand 3's lists. The statement is in specs/, its proof in proofs/. There is no code here.
#![tactic(auto)]

// How many calm epochs it takes until each member holds exactly its target.
pub const EPOCHS: u32 = 2;
