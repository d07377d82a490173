// Several sites in one packet area: definitions in specs/, what is proved of them in proofs/. There is no code here but the number of
// sites, so that the crate is a library.
#![tactic(auto)]

// The sites of a group.
pub const SITES: u32 = 8;
