// Theorems on lists of C calls: what is proved over lists of events, said of lists with windows and of sites in a group, and then of lent
// memory, of one site and of a group. The statements are in specs/, their proofs in proofs/; there is no code here.
#![tactic(auto)]
