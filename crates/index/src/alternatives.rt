// The nodes of a job's alternatives, each in the home of its tag.
ghost use Rattle.std.specs.Prelude.{◌≡◌, true, ℕ, ◌<◌, ◌≤◌, get_or};
ghost use Rattle.nodes.specs.Structs.{rank_in};
ghost use Rattle.homes.specs.Moves.{times_in_home};
ghost use Rattle.index.specs.Mine.{mine};
ghost use Rattle.index.specs.Nodes.{NodesPut, NodesCut};
ghost use Rattle.index.specs.Structs.{home_by, count_in};

use condition::slots::Conditions;
use condition::truth::count_of;
use filing::home_of;
use homes::Homes;
use nodes::Ranks;

// A job's nodes into their homes. This and the next are not one function over a closure: what they ask and promise differs, and each is
// four lines.
pub fn put_nodes(homes: &mut Homes, ranks: &Ranks, conditions: &Conditions, job: usize)
    requires job_bound_1 { job < 32 }
    requires job_bound_2 { ((k : ℕ) → get_or conditions.now.measure k 0 < 16) }
    requires by_index { (h : ℕ) → h < 34 → get_or homes.old.lengths h 0 ≤ 124 }
    ensures { NodesPut (rank_in ranks.now) (home_by conditions.now) job (count_in conditions.now job)
        homes.old.places homes.old.lengths homes.new.places homes.new.lengths }
{
    // Lent whole, so that a proof knows of 34 homes; so below.
    let _all = &homes.lengths;
    let first = job * 4;
    for i in 0..count_of(conditions.alternatives[job]) {
        let node = first + i;
        homes.put(ranks, home_of(conditions, node), node as u8);
    }
}

// A job's nodes out of their homes, which hold them.
pub fn cut_nodes(homes: &mut Homes, ranks: &Ranks, conditions: &Conditions, job: usize)
    requires job_bound_1 { job < 32 }
    requires job_bound_2 { ((k : ℕ) → get_or conditions.now.measure k 0 < 16) }
    requires by_index { (h : ℕ) → h < 34 → get_or homes.old.lengths h 0 ≤ 128 }
    requires by_index_2 { (x : ℕ) → mine job (count_in conditions.now job) x ≡ true →
        0 < times_in_home homes.old.places homes.old.lengths (home_by conditions.now x) x }
    ensures { NodesCut (rank_in ranks.now) (home_by conditions.now) job (count_in conditions.now job)
        homes.old.places homes.old.lengths homes.new.places homes.new.lengths }
{
    let _all = &homes.lengths;
    let first = job * 4;
    for i in 0..count_of(conditions.alternatives[job]) {
        let node = first + i;
        homes.cut(ranks, home_of(conditions, node), node as u8);
    }
}
