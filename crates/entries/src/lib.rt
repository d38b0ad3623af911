// Waiting jobs with identical conditions share an entry, and its lead is the oldest of them. `entry` has a number for each job: 0 if the
// job does not wait, otherwise its lead's number and one (one byte of the host's room each, so a number and no Option).
#![tactic(auto)]

ghost use Rattle.std.specs.Prelude.{◌≡◌, Some, ℕ, ◌+◌, ◌<◌, get_or};
ghost use Rattle.rules.specs.Limits.{key_most};
ghost use Rattle.rules.specs.Condition.{Condition};
ghost use Rattle.condition.specs.Measures.{AllIn};
ghost use Rattle.condition.specs.Slots.{condition_of};
ghost use Rattle.entries.specs.Entries.{Waits, Entries, Distinct};
ghost use Rattle.entries.specs.Alike.{lead_like};
ghost use Rattle.entries.specs.Firsts.{FirstIn};
ghost use Rattle.entries.specs.Renames.{Renamed};
ghost use Rattle.entries.specs.Oldest.{chosen, oldest_of};
ghost use Rattle.entries.specs.Joins.{JoinedTo};
ghost use Rattle.entries.specs.Parts.{PartedFrom};

use condition::slots::Conditions;
use identity::same_condition;

// What joining did: three cases, so neither an Option nor a Result; so below.
#[derive(Drop)]
pub enum Joined {
    Alone,
    Follows,
    Leads(usize),
}

#[derive(Drop)]
pub enum Parted {
    Follower,
    Ends,
    Next(usize),
}

// What the entry of a job says whose lead this is.
fn number_of(lead: usize) -> u8
    requires { lead < 32 }
    ensures { result ≡ lead + 1 }
{
    (lead + 1) as u8
}

// Whether job k leads an entry, and its condition is the job's.
fn leads_like(entry: &[u8; 32], conditions: &Conditions, job: usize, k: usize) -> bool
    requires fact_1 { job < 32 }
    requires fact_2 { k < 32 }
    requires fact_3 { AllIn key_most conditions.now.key }
    ensures { result ≡ lead_like (condition_of conditions.now) entry.now job k }
{
    entry[k] == number_of(k) && same_condition(conditions, k, job)
}

// The first lead whose condition is the job's. No `find`, for the reason at `oldest_of`.
#[tactic(auto, using(crate::proofs::Laws::firsts))]
fn lead_like(entry: &[u8; 32], conditions: &Conditions, job: usize) -> Option<usize>
    requires fact_1 { job < 32 }
    requires fact_2 { AllIn key_most conditions.now.key }
    ensures { FirstIn (lead_like (condition_of conditions.now) entry.now job) 32 result }
{
    for k in 0..32 {
        if leads_like(entry, conditions, job, k) {
            return Some(k);
        }
    }
    None
}

// Every entry that says `old` says `new`.
fn rename(entry: &mut [u8; 32], old: u8, new: u8)
    ensures { Renamed entry.old entry.new old new 32 }
{
    for said in entry.iter_mut() {
        if *said == old {
            *said = new;
        }
    }
}

// Job k if its entry says `of` and its ticket is less than that of the best so far, otherwise that one.
fn choose(
    entry: &[u8; 32],
    ticket: &[u32; 32],
    of: u8,
    best: Option<usize>,
    k: usize,
) -> Option<usize>
    requires fact_1 { k < 32 }
    requires fact_2 { (b : ℕ) → best ≡ Some b → b < 32 }
    ensures { result ≡ chosen entry.now ticket.now of best k }
{
    if entry[k] != of {
        return best;
    }
    match best {
        Some(oldest) if ticket[oldest] <= ticket[k] => best,
        _ => Some(k),
    }
}

// The oldest of the jobs whose entry says `of`. No `filter` and `min_by_key`: a closure must be safe at any number that it is called
// with, and these read arrays at it.
fn oldest_of(entry: &[u8; 32], ticket: &[u32; 32], of: u8) -> Option<usize>
    ensures { result ≡ oldest_of entry.now ticket.now of 32 }
{
    let mut best = None;
    for k in 0..32 {
        best = choose(entry, ticket, of, best, k);
    }
    best
}

// The job waits from now on: behind the lead with its condition, or, being older, before it, or alone.
pub fn join_entry(
    entry: &mut [u8; 32],
    conditions: &Conditions,
    ticket: &[u32; 32],
    job: usize,
) -> Joined
    requires job_bound_1 { job < 32 }
    requires job_bound_2 { AllIn key_most conditions.now.key }
    requires job_bound_3 { get_or entry.old job 0 ≡ 0 }
    requires entries_1 { Entries (condition_of conditions.now) ticket.now entry.old }
    requires entries_2 { Distinct ticket.now entry.old }
    requires by_index { (k : ℕ) → Waits entry.old k → get_or ticket.now k 0 ≡ get_or ticket.now job 0 → ⊥ }
    ensures { JoinedTo (condition_of conditions.now) ticket.now entry.old entry.new job result }
{
    let number = number_of(job);
    let Some(lead) = lead_like(entry, conditions, job) else {
        entry[job] = number;
        return Joined::Alone;
    };
    let old = number_of(lead);
    if ticket[lead] < ticket[job] {
        entry[job] = old;
        return Joined::Follows;
    }
    rename(entry, old, number);
    entry[job] = number;
    Joined::Leads(lead)
}

// The job, which waits, no longer does: if it led, the oldest of those it leaves behind leads them.
pub fn part_entry(entry: &mut [u8; 32], ticket: &[u32; 32], job: usize) -> Parted
    requires fact_1 { job < 32 }
    requires fact_2 { Distinct ticket.now entry.old }
    ensures { (condition : ℕ → Condition) → Entries condition ticket.now entry.old →
        PartedFrom condition ticket.now entry.old entry.new job result }
{
    let number = number_of(job);
    let led = entry[job] == number;
    entry[job] = 0;
    if !led {
        return Parted::Follower;
    }
    let Some(next) = oldest_of(entry, ticket, number) else {
        return Parted::Ends;
    };
    let new = number_of(next);
    rename(entry, number, new);
    Parted::Next(next)
}
