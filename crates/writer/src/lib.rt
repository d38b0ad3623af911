// Records written (document 02, §1): the other half of `wire`. `records` is what others call; the rest makes a record, field by field.
#![tactic(auto)]

mod conditions;
mod events;
mod field;
mod number;
mod numbers;
mod openings;
pub mod records;
mod whole;
