// Threshold tags: each heap is walked in the order of ranks while tags hold.
ghost use Rattle.std.specs.Prelude.{◌≡◌, ℕ, ◌*◌, ◌<◌, ◌≤◌};
ghost use Rattle.condition.specs.Slots.{Fits};
ghost use Rattle.nodes.specs.Structs.{rank_in};
ghost use Rattle.walk.specs.Walks.{walked};
ghost use Rattle.walk.specs.Slots.{truth_of};
ghost use Rattle.drain.specs.Slots.{holds_of};
ghost use Rattle.search.specs.Stretches.{lists};
ghost use Rattle.search.specs.Heaps.{thresholds, Ready};

use crate::each::each;
use condition::slots::{Conditions, Shared};
use drain::evaluate_heap;
use homes::Homes;
use nodes::Ranks;
use walk::Walk;

// The alternatives of one heap whose tag holds.
fn search_heap(
    homes: &Homes,
    ranks: &Ranks,
    heap: usize,
    shared: &Shared,
    conditions: &Conditions,
) -> Walk
    requires fact_1 { heap < 32 }
    requires fact_2 { Fits shared.now conditions.now }
    requires ready { Ready (rank_in ranks.now) homes.now.places homes.now.lengths heap }
    ensures { result ≡ walked (truth_of shared.now conditions.now)
        (thresholds (holds_of shared.now conditions.now) (rank_in ranks.now) homes.now.places homes.now.lengths heap) }
{
    let start = heap * 128;
    let end = start + 128;
    let n = homes.lengths[heap] as usize;
    evaluate_heap(&homes.places[start..end], ranks, n, shared, conditions)
}

// Threshold tags: the measures in their order, > and ≥ before < and ≤.
pub fn search_thresholds(
    homes: &Homes,
    ranks: &Ranks,
    measures: usize,
    shared: &Shared,
    conditions: &Conditions,
) -> Walk
    requires fact_1 { measures ≤ 16 }
    requires fact_2 { Fits shared.now conditions.now }
    requires by_index { (g : ℕ) → g < 32 → Ready (rank_in ranks.now) homes.now.places homes.now.lengths g }
    ensures { result ≡ walked (truth_of shared.now conditions.now)
        (lists (thresholds (holds_of shared.now conditions.now) (rank_in ranks.now) homes.now.places homes.now.lengths) (measures * 2) 0) }
{
    each(
        measures * 2,
        |heap| search_heap(homes, ranks, heap, shared, conditions),
    )
}
