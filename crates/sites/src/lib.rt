// Sites in lent memory for desk tools in C: one site, and a group of eight with one packet area.
#![tactic(auto)]

mod calls;
pub mod many;
mod memory;
pub mod one;
mod places;
mod site_slots;
mod turns;
