// Who is counted in: more than half of the nodes, the requests of nodes, and how often each was heard.
#![tactic(auto)]

pub mod counters;
pub mod majority;
pub mod requests;
