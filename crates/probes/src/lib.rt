// What the Rust tests call, by the C functions of `probes_c`: each reader, its answer as plain numbers, each function of conditions, and
// the index. A file a subject; each function is thin over the one that it is named after. Arrays are lent one by one: the C interface.
#![tactic(auto)]

pub mod answers;
pub mod closures;
pub mod conditions;
pub mod events;
pub mod indexing;
mod lent;
pub mod numbers;
pub mod openings;
pub mod tags;
