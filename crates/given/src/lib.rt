// Whether a Wait's condition is true, before anything of it is stored: each atom is closed where it stands in the Wait's slots.
#![tactic(auto, using(crate::proofs::Laws::laws))]

ghost use Rattle.std.specs.Prelude.{◌≡◌, ◌<◌};
ghost use Rattle.rules.specs.Condition.{atom_true, condition_true, closure};
ghost use Rattle.condition.specs.Closes.{given_condition};
ghost use Rattle.condition.specs.Slots.{now_of};
ghost use Rattle.closing.specs.Slots.{given_of};
ghost use Rattle.given.specs.Givens.{GivenRanges, closed_at};

use closing::key_of;
use condition::compare::compare;
use condition::slots::Shared;
use condition::truth::count_of;
use wire::given::Given;

// Whether the atom in a Wait's slot is true.
fn given_atom_true(shared: &Shared, given: &Given, slot: usize) -> bool
    requires fact_1 { slot < 16 }
    requires fact_2 { GivenRanges shared.now.coefficients shared.now.values given.now.coefficients given.now.constant given.now.locals }
    ensures { result ≡ atom_true (now_of shared.now) (closed_at (given_of 0 given.now) slot) }
{
    let value = shared.measure_of(usize::from(given.measure[slot]));
    compare(given.operator[slot], value, key_of(given, slot))
}

// Whether the condition, closed with the local values, is true: left at the first false atom for the next alternative, and at the first
// true alternative for good. Nested labelled loops, the form that document 01 names for it.
pub fn given_true(shared: &Shared, given: &Given, count: u8) -> bool
    requires { GivenRanges shared.now.coefficients shared.now.values given.now.coefficients given.now.constant given.now.locals }
    ensures { result ≡ condition_true (now_of shared.now) (closure given.now.locals (given_condition (given_of count given.now))) }
{
    let alternatives = count_of(count);
    let mut found = false;
    'condition: for i in 0..alternatives {
        let atoms = count_of(given.counts[i]);
        let first_slot = i * 4;
        'alternative: for j in 0..atoms {
            if given_atom_true(shared, given, first_slot + j) {
                continue 'alternative;
            }
            continue 'condition;
        }
        found = true;
        break 'condition;
    }
    found
}
