// The index over lent arrays: a job's rank words, joining, parting, and the search. Each requires what the function under it does, and the
// caller answers for it.
ghost use Rattle.std.specs.Prelude.{◌≡◌, ℕ, ◌+◌, ◌*◌, ◌<◌, get_or};
ghost use Rattle.std.proofs.lemmas.List.Edits.{sets};
ghost use Rattle.rules.specs.Limits.{key_most};
ghost use Rattle.condition.specs.Measures.{AllIn, Ranges, now_at};
ghost use Rattle.condition.specs.From.{from};
ghost use Rattle.condition.specs.Closing.{closed_slots};
ghost use Rattle.condition.specs.Tags.{tag_at, tag_means};
ghost use Rattle.ranks.specs.Words.{high_word, low_word};
ghost use Rattle.entries.specs.Entries.{Waits};
ghost use Rattle.index.specs.Index.{Index};
ghost use Rattle.index.specs.Changes.{WordsOf, JoinedIndex, PartedIndex};
ghost use Rattle.search.specs.Pairs.{waiters_in};
ghost use Rattle.search.specs.Indexed.{Indexed};
ghost use Rattle.search.specs.Answers.{search_answer};
ghost use Rattle.probes.specs.Searches.{plain_search};

use crate::lent::{conditions_of, index_of, ranks_of, shared_of};
use filing::write_words;
use search::{Answer, search};

// 1 and the job that is called, or 0 and job 0, and in either case the number of alternatives evaluated. Numbers are the C interface.
#[repr(C)]
#[derive(Drop)]
pub struct Searched {
    pub calls: u8,
    pub job: usize,
    pub evaluated: usize,
}

impl From<Answer> for Searched {
    ghost from_gives = { λ answer searched. searched ≡ plain_search answer };

    fn from(answer: Answer) -> Searched {
        match answer {
            Answer::Calls(job, count) => Searched {
                calls: 1,
                job,
                evaluated: count,
            },
            Answer::Nobody(count) => Searched {
                calls: 0,
                job: 0,
                evaluated: count,
            },
        }
    }
}

pub fn probe_words(
    high: &mut [u64; 128],
    low: &mut [u64; 128],
    atoms: &[u8; 128],
    measure: &[u8; 512],
    operator: &[u8; 512],
    key: &[i64; 512],
    ticket: u32,
    job: usize,
)
    requires { (job < 32) × ((((k : ℕ) → get_or measure.now k 0 < 16)) × (AllIn key_most key.now)) }
    ensures { (high.new ≡ sets high.old (job * 4)
        (from (λ i. high_word (tag_means measure.now operator.now key.now (tag_at atoms.now operator.now (job * 4 + i)))) 4 0))
        × (low.new ≡ sets low.old (job * 4) (from (λ i. low_word ticket i) 4 0)) }
{
    let mut ranks = ranks_of(high, low);
    let conditions = conditions_of(&[0; 32], atoms, measure, operator, key);
    write_words(&mut ranks, &conditions, ticket, job);
    *high = ranks.high;
    *low = ranks.low;
}

pub fn probe_join(
    places: &mut [u8],
    lengths: &mut [u8],
    entry: &mut [u8; 32],
    high: &[u64; 128],
    low: &[u64; 128],
    alternatives: &[u8; 32],
    atoms: &[u8; 128],
    measure: &[u8; 512],
    operator: &[u8; 512],
    key: &[i64; 512],
    ticket: &[u32; 32],
    job: usize,
)
    requires job_bound { (job < 32)
        × ((((k : ℕ) → get_or measure.now k 0 < 16)) × ((AllIn key_most key.now) × (get_or entry.old job 0 ≡ 0))) }
    requires by_index { (k : ℕ) → Waits entry.old k → get_or ticket.now k 0 ≡ get_or ticket.now job 0 → ⊥ }
    requires words_of { WordsOf (closed_slots alternatives.now atoms.now measure.now operator.now key.now) ticket.now high.now low.now job }
    requires index { Index (closed_slots alternatives.now atoms.now measure.now operator.now key.now)
        ticket.now entry.old high.now low.now places.old lengths.old }
    ensures { JoinedIndex (closed_slots alternatives.now atoms.now measure.now operator.now key.now)
        ticket.now high.now low.now job entry.old entry.new places.new lengths.new }
{
    let mut index = index_of(entry, high, low, places, lengths);
    let conditions = conditions_of(alternatives, atoms, measure, operator, key);
    index.join(&conditions, ticket, job);
    *entry = index.entry;
    places.copy_from_slice(&index.homes.places);
    lengths.copy_from_slice(&index.homes.lengths);
}

pub fn probe_part(
    places: &mut [u8],
    lengths: &mut [u8],
    entry: &mut [u8; 32],
    high: &[u64; 128],
    low: &[u64; 128],
    alternatives: &[u8; 32],
    atoms: &[u8; 128],
    measure: &[u8; 512],
    operator: &[u8; 512],
    key: &[i64; 512],
    ticket: &[u32; 32],
    job: usize,
)
    requires job_bound { (job < 32) × (((k : ℕ) → get_or measure.now k 0 < 16)) }
    requires index { Index (closed_slots alternatives.now atoms.now measure.now operator.now key.now)
        ticket.now entry.old high.now low.now places.old lengths.old }
    ensures { PartedIndex (closed_slots alternatives.now atoms.now measure.now operator.now key.now)
        ticket.now high.now low.now job entry.old entry.new places.new lengths.new }
{
    let mut index = index_of(entry, high, low, places, lengths);
    let conditions = conditions_of(alternatives, atoms, measure, operator, key);
    index.part(&conditions, ticket, job);
    *entry = index.entry;
    places.copy_from_slice(&index.homes.places);
    lengths.copy_from_slice(&index.homes.lengths);
}

pub fn probe_search(
    places: &[u8],
    lengths: &[u8],
    high: &[u64; 128],
    low: &[u64; 128],
    measures: usize,
    coefficients: &[i64; 128],
    values: &[i64; 8],
    atoms: &[u8; 128],
    measure: &[u8; 512],
    operator: &[u8; 512],
    key: &[i64; 512],
) -> Searched
    requires fact_1 { Ranges coefficients.now values.now key.now }
    requires fact_2 { Indexed measures atoms.now measure.now operator.now key.now high.now low.now places.now lengths.now }
    ensures { (i : Indexed measures atoms.now measure.now operator.now key.now high.now low.now places.now lengths.now) →
        result ≡ plain_search (search_answer (now_at coefficients.now values.now)
        (waiters_in (closed_slots i.alternatives atoms.now measure.now operator.now key.now) i.ticket i.entry)) }
{
    let index = index_of(&[0; 32], high, low, places, lengths);
    let shared = shared_of(coefficients, values);
    let conditions = conditions_of(&[0; 32], atoms, measure, operator, key);
    search(&index, measures, &shared, &conditions).into()
}
