// What the archive of a box, libhydra.a, exports to C: each call is that of the crate host, under its clauses.
#![tactic(auto)]

mod calls;
mod lookup;
mod version;
