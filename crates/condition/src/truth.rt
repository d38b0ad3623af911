// "An alternative is true if all its atoms are; a condition is true if one alternative is." Over the slots of specs/Closed.antt.
ghost use Rattle.std.specs.Prelude.{◌≡◌, ◌<◌, min};
ghost use Rattle.rules.specs.Condition.{atom_true, alternative_true, condition_true};
ghost use Rattle.condition.specs.Slots.{now_of, Fits, atom_of, alternative_of, condition_of};

use crate::compare::compare;
use crate::slots::{Conditions, Shared};

// A count, which is at most four.
pub fn count_of(n: u8) -> usize
    ensures { result ≡ min n 4 }
{
    usize::from(n).min(4)
}

impl Conditions {
    // Whether the atom in a slot is true.
    pub fn atom_true(&self, shared: &Shared, slot: usize) -> bool
        requires fact_1 { slot < 512 }
        requires fact_2 { Fits shared.now self.now }
        ensures { result ≡ atom_true (now_of shared.now) (atom_of self.now slot) }
    {
        let value = shared.measure_of(usize::from(self.measure[slot]));
        compare(self.operator[slot], value, self.key[slot])
    }

    // Whether the alternative of a node is true.
    pub fn alternative_true(&self, shared: &Shared, node: usize) -> bool
        requires fact_1 { node < 128 }
        requires fact_2 { Fits shared.now self.now }
        ensures { result ≡ alternative_true (now_of shared.now) (alternative_of self.now node) }
    {
        let count = count_of(self.atoms[node]);
        let first = node * 4;
        for i in 0..count {
            if !self.atom_true(shared, first + i) {
                return false;
            }
        }
        true
    }

    // Whether the condition of a job is true: left at the first false atom for the next alternative, and at the first true alternative for
    // good. Nested labelled loops, the form that document 01 names for it.
    pub fn condition_true(&self, shared: &Shared, job: usize) -> bool
        requires fact_1 { job < 32 }
        requires fact_2 { Fits shared.now self.now }
        ensures { result ≡ condition_true (now_of shared.now) (condition_of self.now job) }
    {
        let count = count_of(self.alternatives[job]);
        let first = job * 4;
        let mut found = false;
        'condition: for i in 0..count {
            let node = first + i;
            let atom_count = count_of(self.atoms[node]);
            let first_slot = node * 4;
            'alternative: for j in 0..atom_count {
                if self.atom_true(shared, first_slot + j) {
                    continue 'alternative;
                }
                continue 'condition;
            }
            found = true;
            break 'condition;
        }
        found
    }
}
