// "Which job a search calls": the alternatives of the index whose tag holds, in the order of their ranks, one after the other up to the
// first true one. Equality tags are looked up by each measure's value; of the thresholds each heap is walked while tags hold; then come
// those without a tag. The search only reads the room. It tells who is called, and how many alternatives it evaluated.
#![tactic(auto)]

ghost use Rattle.std.specs.Prelude.{◌≡◌, ◌++◌, ◌*◌, ◌≤◌, get_or};
ghost use Rattle.condition.specs.Slots.{now_of, Fits};
ghost use Rattle.condition.specs.Closing.{closed_slots};
ghost use Rattle.nodes.specs.Structs.{rank_in};
ghost use Rattle.homes.specs.Regions.{region};
ghost use Rattle.walk.specs.Walks.{walked};
ghost use Rattle.walk.specs.Slots.{truth_of};
ghost use Rattle.drain.specs.Slots.{holds_of};
ghost use Rattle.search.specs.Stretches.{lists};
ghost use Rattle.search.specs.Lookups.{equalities};
ghost use Rattle.search.specs.Heaps.{thresholds};
ghost use Rattle.search.specs.Runs.{nodes_of};
ghost use Rattle.search.specs.Prepared.{Prepared};
ghost use Rattle.search.specs.Pairs.{waiters_in};
ghost use Rattle.search.specs.Structs.{IsIndexed};
ghost use Rattle.search.specs.Answers.{search_answer, as_answer};

use crate::counted::counted;
use crate::equalities::search_equalities;
use crate::thresholds::search_thresholds;
use condition::slots::{Conditions, Shared};
use homes::Homes;
use index::Index;
use nodes::Ranks;
use walk::{Walk, evaluate};

mod counted;
mod each;
mod equalities;
mod thresholds;

// The two homes that are rows. A home has 128 places (crate homes).
const EQUALITIES: usize = 32;

const UNTAGGED: usize = 33;

// The job that is called, and the number of alternatives evaluated; or that number alone. Both cases carry it, so this is neither an Option
// nor a Result.
#[derive(Drop)]
pub enum Answer {
    Calls(usize, usize),
    Nobody(usize),
}

impl From<Walk> for Answer {
    ghost from_gives = { λ walk answer. answer ≡ as_answer walk };

    fn from(walk: Walk) -> Answer {
        match walk {
            Walk::Found(node, count) => Answer::Calls((node / 4) as usize, count),
            Walk::Nobody(count) => Answer::Nobody(count),
        }
    }
}

// Threshold tags, then no tag.
fn search_rest(
    homes: &Homes,
    ranks: &Ranks,
    measures: usize,
    shared: &Shared,
    conditions: &Conditions,
) -> Walk
    requires fact_1 { measures ≤ 16 }
    requires fact_2 { Fits shared.now conditions.now }
    requires fact_3 { Prepared (rank_in ranks.now) ranks.now.high homes.now.places homes.now.lengths }
    ensures { result ≡ walked (truth_of shared.now conditions.now)
        (lists (thresholds (holds_of shared.now conditions.now) (rank_in ranks.now) homes.now.places homes.now.lengths) (measures * 2) 0
        ++ nodes_of (region homes.now.places 33) (get_or homes.now.lengths 33 0)) }
{
    let walk = search_thresholds(homes, ranks, measures, shared, conditions);
    let Walk::Nobody(count) = walk else {
        return walk;
    };
    let untagged = &homes.places[UNTAGGED * 128..UNTAGGED * 128 + 128];
    let n = homes.lengths[UNTAGGED] as usize;
    let last = evaluate(&untagged[..n], shared, conditions);
    counted(count, last)
}

// Equality tags, and then the rest.
fn search_nodes(
    homes: &Homes,
    ranks: &Ranks,
    measures: usize,
    shared: &Shared,
    conditions: &Conditions,
) -> Walk
    requires fact_1 { measures ≤ 16 }
    requires fact_2 { Fits shared.now conditions.now }
    requires fact_3 { Prepared (rank_in ranks.now) ranks.now.high homes.now.places homes.now.lengths }
    ensures { result ≡ walked (truth_of shared.now conditions.now)
        (lists (equalities (now_of shared.now) ranks.now.high (region homes.now.places 32) (get_or homes.now.lengths 32 0)) measures 0
        ++ (lists (thresholds (holds_of shared.now conditions.now) (rank_in ranks.now) homes.now.places homes.now.lengths) (measures * 2) 0
        ++ nodes_of (region homes.now.places 33) (get_or homes.now.lengths 33 0))) }
{
    let row = &homes.places[EQUALITIES * 128..EQUALITIES * 128 + 128];
    let n = homes.lengths[EQUALITIES] as usize;
    let walk = search_equalities(row, ranks, n, measures, shared, conditions);
    let Walk::Nobody(count) = walk else {
        return walk;
    };
    let rest = search_rest(homes, ranks, measures, shared, conditions);
    counted(count, rest)
}

// Who is called, of the jobs whose index this is, and how many alternatives were evaluated: the rules' search.
pub fn search(index: &Index, measures: usize, shared: &Shared, conditions: &Conditions) -> Answer
    requires fact_1 { Fits shared.now conditions.now }
    requires fact_2 { IsIndexed measures conditions.now index.now }
    ensures { (i : IsIndexed measures conditions.now index.now) → result ≡ search_answer (now_of shared.now)
        (waiters_in (closed_slots i.alternatives conditions.now.atoms conditions.now.measure conditions.now.operator conditions.now.key)
        i.ticket i.entry) }
{
    Answer::from(search_nodes(&index.homes, &index.ranks, measures, shared, conditions))
}
