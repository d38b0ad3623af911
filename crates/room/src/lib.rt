// The room: what it is and keeps (specs/), Arrive and Set, and the call of the next job, which the events that search share (document 01,
// "Standings and events"). Admit, Leave and Wait have crates of their own.
#![tactic(auto)]

pub mod arrive;
pub mod assign;
pub mod call;
pub mod occupied;
pub mod report;
pub mod room;
pub mod standing;
