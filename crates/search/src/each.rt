// The parts of a stretch of the search, one after the other, up to the first in which a job is found: the measures of the equality tags,
// and the heaps of the thresholds.
ghost use Rattle.std.specs.Prelude.{◌≡◌, ℕ, Bool, List, ◌<◌, ◌≤◌};
ghost use Rattle.walk.specs.Walks.{walked};
ghost use Rattle.search.specs.Stretches.{lists};
ghost use Rattle.search.specs.Each.{Tells, Few};

use crate::counted::counted;
use walk::Walk;

// So many parts; each is walked when its turn comes.
pub fn each<F: Fn(usize) -> Walk>(n: usize, part: F) -> Walk
    requires n_in_bounds { n ≤ 32 }
    requires calls { (i : ℕ) → i < n → F.pre part i }
    requires few { Few (F.post part) n }
    ensures { (test : ℕ → Bool) (parts : ℕ → List ℕ) → Tells (F.post part) test parts n → result ≡ walked test (lists parts n 0) }
{
    let mut evaluated = 0;
    for i in 0..n {
        let walk = counted(evaluated, part(i));
        let Walk::Nobody(count) = walk else {
            return walk;
        };
        evaluated = count;
    }
    Walk::Nobody(evaluated)
}
