// What every site keeps through every list of events, with a majority or without one: the past of a list, the packets
// in the area, what each node has gathered. The statements are in specs/, their proofs in proofs/. There is no code
// here.
#![tactic(auto)]

// How many kinds of events a list may have.
pub const EVENTS: u32 = 8;
