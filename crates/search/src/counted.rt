// A stretch of the search adds to what was evaluated before it.
ghost use Rattle.std.specs.Prelude.{◌≡◌, ◌≤◌};
ghost use Rattle.search.specs.Stretches.{counted_from, count_of};

use walk::Walk;

// A walk with so many evaluated before it.
pub fn counted(before: usize, walk: Walk) -> Walk
    requires fact_1 { before ≤ 8192 }
    requires fact_2 { count_of walk ≤ 8192 }
    ensures { result ≡ counted_from before walk }
{
    match walk {
        Walk::Found(node, count) => Walk::Found(node, before + count),
        Walk::Nobody(count) => Walk::Nobody(before + count),
    }
}
