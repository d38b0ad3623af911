// Numbers and the fields of a record (document 01, "Bytes"): each reader takes the bytes and a place in them, and answers what it read and
// the next place, or the refusal. The two are not one struct: each reader promises for any place of any bytes, and keeps neither.
#![tactic(auto)]

pub mod field;
pub mod number;
pub mod refusal;
