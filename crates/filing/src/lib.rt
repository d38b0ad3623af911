// Where an alternative is filed in the index, by its tag, and the rank words of a job's alternatives. A node is job * 4 + alternative,
// below 128. The index has 34 homes: heaps 0 to 31, measure * 2 for > and ≥ and one more for < and ≤; 32, the row of equality tags; and
// 33, the row of alternatives without a tag.
#![tactic(auto)]

ghost use Rattle.std.specs.Prelude.{◌≡◌, ℕ, ◌+◌, ◌*◌, ◌<◌, get_or};
ghost use Rattle.std.proofs.lemmas.List.Edits.{sets};
ghost use Rattle.rules.specs.Limits.{key_most};
ghost use Rattle.rules.specs.Laws.Bounds.{Within};
ghost use Rattle.condition.specs.Measures.{AllIn};
ghost use Rattle.condition.specs.From.{from};
ghost use Rattle.condition.specs.Tags.{tag_at, tag_means};
ghost use Rattle.ranks.specs.Words.{key_room, high_word, low_word};
ghost use Rattle.filing.specs.Homes.{home_at};
ghost use Rattle.filing.specs.Words.{equality_word, high_at};

use condition::slots::Conditions;
use nodes::Ranks;
use ranks::{high_word, low_word, no_tag_word};

// The home of a node's alternative. Operators and homes are numbers: slots hold any operator, and all homes stand in one array.
#[tactic(auto, using(crate::proofs::Laws::home_laws))]
pub fn home_of(conditions: &Conditions, node: usize) -> usize
    requires fact_1 { node < 128 }
    requires fact_2 { ((k : ℕ) → get_or conditions.now.measure k 0 < 16) }
    ensures { result ≡ home_at conditions.now.measure conditions.now.operator (tag_at conditions.now.atoms conditions.now.operator node) }
{
    match conditions.tag_of(node) {
        Some(slot) => {
            let of = usize::from(conditions.measure[slot]);
            match conditions.operator[slot] {
                1 => 32,
                5.. => of * 2,
                _ => of * 2 + 1,
            }
        }
        None => 33,
    }
}

// The high word of a node's alternative.
#[tactic(auto, using(crate::proofs::Laws::word_laws))]
fn word_of(conditions: &Conditions, node: usize) -> u64
    requires fact_1 { node < 128 }
    requires fact_2 { ((k : ℕ) → get_or conditions.now.measure k 0 < 16) }
    requires fact_3 { AllIn key_most conditions.now.key }
    ensures { result ≡ high_at conditions.now.atoms conditions.now.measure conditions.now.operator conditions.now.key node }
{
    match conditions.tag_of(node) {
        Some(slot) => high_word(
            conditions.measure[slot],
            conditions.operator[slot],
            conditions.key[slot],
        ),
        None => no_tag_word(),
    }
}

// The rank words of a job's four nodes, those past its alternatives too: an alternative of no atoms has no tag.
pub fn write_words(ranks: &mut Ranks, conditions: &Conditions, ticket: u32, job: usize)
    requires fact_1 { job < 32 }
    requires fact_2 { ((k : ℕ) → get_or conditions.now.measure k 0 < 16) }
    requires fact_3 { AllIn key_most conditions.now.key }
    ensures { (ranks.new.high ≡ sets ranks.old.high (job * 4)
        (from (λ i. high_word (tag_means conditions.now.measure conditions.now.operator conditions.now.key
        (tag_at conditions.now.atoms conditions.now.operator (job * 4 + i)))) 4 0))
        × (ranks.new.low ≡ sets ranks.old.low (job * 4) (from (λ i. low_word ticket i) 4 0)) }
{
    let first = job * 4;
    for i in 0..4 {
        let node = first + i;
        ranks.high[node] = word_of(conditions, node);
        ranks.low[node] = low_word(ticket, i);
    }
}

// The high word of the equality tags of a measure that hold at this value of it.
#[tactic(auto, unfolding(ranks::specs::Words::high_word))]
pub fn equality_word(measure: usize, value: i64) -> u64
    requires { (measure < 16) × Within key_room value }
    ensures { result ≡ equality_word measure value }
{
    high_word(measure as u8, 1, value)
}
