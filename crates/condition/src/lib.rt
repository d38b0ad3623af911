// Conditions over the arrays of a room (document 01, "Conditions"): a measure's value, the truth of an atom, an alternative and a
// condition, and tags.
#![tactic(auto, using(crate::proofs::Laws::laws))]

pub mod compare;
pub mod measure;
pub mod slots;
pub mod tag;
pub mod truth;
