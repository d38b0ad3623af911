// Equality tags: looked up in their row by each measure's value.
ghost use Rattle.std.specs.Prelude.{◌≡◌, ◌<◌, ◌≤◌, length};
ghost use Rattle.condition.specs.Slots.{now_of, Fits};
ghost use Rattle.nodes.specs.Order.{Ordered};
ghost use Rattle.nodes.specs.Holes.{rank_at};
ghost use Rattle.rows.specs.Places.{previous};
ghost use Rattle.rows.specs.Halves.{word_of};
ghost use Rattle.walk.specs.Walks.{walked};
ghost use Rattle.walk.specs.Slots.{truth_of};
ghost use Rattle.search.specs.Stretches.{lists};
ghost use Rattle.search.specs.Lookups.{equalities};

use crate::each::each;
use condition::slots::{Conditions, Shared};
use filing::equality_word;
use nodes::Ranks;
use rows::first_at_least;
use walk::{Walk, evaluate};

// The alternatives whose equality tag is of one measure and holds: those of the row with the word of the measure's value.
#[tactic(auto, using(crate::proofs::Laws::lookup_laws))]
fn search_measure(
    row: &[u8],
    ranks: &Ranks,
    n: usize,
    of: usize,
    shared: &Shared,
    conditions: &Conditions,
) -> Walk
    requires n_in_bounds_1 { n ≤ length row.now }
    requires n_in_bounds_2 { n ≤ 128 }
    requires n_in_bounds_3 { of < 16 }
    requires n_in_bounds_4 { Fits shared.now conditions.now }
    requires ordered { Ordered previous (rank_at (word_of ranks.now.high) row.now) n }
    ensures { result ≡ walked (truth_of shared.now conditions.now) (equalities (now_of shared.now) ranks.now.high row.now n of) }
{
    if n == 0 {
        return Walk::Nobody(0);
    }
    let value = shared.measure_of(of);
    let word = equality_word(of, value);
    let first = first_at_least(row, ranks, n, word);
    let end = first_at_least(row, ranks, n, word + 1);
    evaluate(&row[first..end], shared, conditions)
}

// Equality tags: the measures in their order.
pub fn search_equalities(
    row: &[u8],
    ranks: &Ranks,
    n: usize,
    measures: usize,
    shared: &Shared,
    conditions: &Conditions,
) -> Walk
    requires n_in_bounds_1 { n ≤ length row.now }
    requires n_in_bounds_2 { n ≤ 128 }
    requires n_in_bounds_3 { measures ≤ 16 }
    requires n_in_bounds_4 { Fits shared.now conditions.now }
    requires ordered { Ordered previous (rank_at (word_of ranks.now.high) row.now) n }
    ensures { result ≡ walked (truth_of shared.now conditions.now)
        (lists (equalities (now_of shared.now) ranks.now.high row.now n) measures 0) }
{
    each(
        measures,
        |of| search_measure(row, ranks, n, of, shared, conditions),
    )
}
