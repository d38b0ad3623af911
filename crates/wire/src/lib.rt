// Records (document 01, "Bytes"): an opening, the head of an event, and the numbers of a Wait, read field by field into lent slots.
#![tactic(auto)]

pub mod given;
pub mod head;
mod numbers;
pub mod opening;
pub mod wait;
