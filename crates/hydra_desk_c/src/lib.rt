// What the archive of desk tools, libhydra-desk.a, exports to C: each call is that of the crate desk, reduce or sites, under its clauses.
#![tactic(auto)]

mod listings;
mod many;
mod one;
mod reduction;
