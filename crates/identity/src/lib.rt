// "Two conditions are identical if, after closure, they have the same alternatives in the same order, with the same atoms in the same
// order: measure, operator and key."
#![tactic(auto, using(crate::proofs::Laws::laws))]

ghost use Rattle.std.specs.Prelude.{◌≡◌, ◌<◌};
ghost use Rattle.rules.specs.Base.{each};
ghost use Rattle.rules.specs.Limits.{key_most};
ghost use Rattle.rules.specs.Condition.{same_atom, identical};
ghost use Rattle.condition.specs.Measures.{AllIn};
ghost use Rattle.condition.specs.Slots.{atom_of, alternative_of, condition_of};

use condition::slots::Conditions;
use condition::truth::count_of;

// Two atoms, by their slots. No comparison of two structs or tuples: a key is read only where measure and operator are the same.
fn same_atom(conditions: &Conditions, one: usize, other: usize) -> bool
    requires fact_1 { one < 512 }
    requires fact_2 { other < 512 }
    requires fact_3 { AllIn key_most conditions.now.key }
    ensures { result ≡ same_atom (atom_of conditions.now one) (atom_of conditions.now other) }
{
    conditions.measure[one] == conditions.measure[other]
        && conditions.operator[one] == conditions.operator[other]
        && conditions.key[one] == conditions.key[other]
}

// Two alternatives, by their nodes. One function for this and the next, over a closure, is no plainer: the counts stand in different
// arrays.
fn same_alternative(conditions: &Conditions, one: usize, other: usize) -> bool
    requires fact_1 { one < 128 }
    requires fact_2 { other < 128 }
    requires fact_3 { AllIn key_most conditions.now.key }
    ensures { result ≡ each same_atom (alternative_of conditions.now one) (alternative_of conditions.now other) }
{
    let count = count_of(conditions.atoms[one]);
    if count != count_of(conditions.atoms[other]) {
        return false;
    }
    let first = one * 4;
    let second = other * 4;
    for i in 0..count {
        if !same_atom(conditions, first + i, second + i) {
            return false;
        }
    }
    true
}

// The conditions of two jobs.
pub fn same_condition(conditions: &Conditions, one: usize, other: usize) -> bool
    requires fact_1 { one < 32 }
    requires fact_2 { other < 32 }
    requires fact_3 { AllIn key_most conditions.now.key }
    ensures { result ≡ identical (condition_of conditions.now one) (condition_of conditions.now other) }
{
    let count = count_of(conditions.alternatives[one]);
    if count != count_of(conditions.alternatives[other]) {
        return false;
    }
    let first = one * 4;
    let second = other * 4;
    for i in 0..count {
        if !same_alternative(conditions, first + i, second + i) {
            return false;
        }
    }
    true
}
