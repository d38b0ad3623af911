// What the Rust tests link: each export calls the function of its name in `probes`, and states its clauses. Arrays are lent one by one: the
// C interface.
#![tactic(auto)]

mod closures;
mod conditions;
mod events;
mod indexing;
mod numbers;
mod openings;
mod tags;
