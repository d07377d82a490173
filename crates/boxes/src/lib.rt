// Theorems on boxes: demand 3 on their bytes, the demands of their windows, and from a script's output to demand 3.
// The statements are in specs/, their proofs in proofs/; there is no code here.
#![tactic(auto)]
