// The tag of an alternative (figure 3 of the paper): its first atom with =; if none, its first atom with <, ≤, > or ≥; if none, no tag.
ghost use Rattle.std.specs.Prelude.{◌≡◌, ◌+◌, ◌≤◌, ◌<◌};
ghost use Rattle.rules.specs.Tag.{holds};
ghost use Rattle.condition.specs.Slots.{now_of, Fits};
ghost use Rattle.condition.specs.Tags.{first_at, between, tag_at, tag_means};

use crate::slots::{Conditions, Shared};
use crate::truth::count_of;

// The first of so many slots whose operator is from low to high. Operators are numbers here (compare.rt). A `for` and no `find`, here and
// where atoms and alternatives are gone through: with a closure each proof has one law more and no line less.
fn first_between(
    operator: &[u8; 512],
    first: usize,
    count: usize,
    low: u8,
    high: u8,
) -> Option<usize>
    requires { first + count ≤ 512 }
    ensures { result ≡ first_at (between operator.now low high) count first }
{
    for slot in first..first + count {
        let at = operator[slot];
        if low <= at && at <= high {
            return Some(slot);
        }
    }
    None
}

impl Conditions {
    // The slot of the atom that is the tag.
    pub fn tag_of(&self, node: usize) -> Option<usize>
        requires { node < 128 }
        ensures { result ≡ tag_at self.now.atoms self.now.operator node }
    {
        let count = count_of(self.atoms[node]);
        let first = node * 4;
        let equality = first_between(&self.operator, first, count, 1, 1);
        equality.or_else(|| first_between(&self.operator, first, count, 3, 255))
    }

    // Whether the tag of a node's alternative holds: one without a tag counts as one whose tag holds.
    pub fn tag_holds(&self, shared: &Shared, node: usize) -> bool
        requires fact_1 { node < 128 }
        requires fact_2 { Fits shared.now self.now }
        ensures { result ≡ holds (now_of shared.now)
            (tag_means self.now.measure self.now.operator self.now.key (tag_at self.now.atoms self.now.operator node)) }
    {
        let Some(slot) = self.tag_of(node) else {
            return true;
        };
        self.atom_true(shared, slot)
    }
}
