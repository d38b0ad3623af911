// The index: a job joins it when it waits, and parts from it when it is called. Only the leads of entries have nodes in the homes.
#![tactic(auto)]

ghost use Rattle.std.specs.Prelude.{◌≡◌, ℕ, ◌<◌, get_or};
ghost use Rattle.rules.specs.Limits.{key_most};
ghost use Rattle.condition.specs.Measures.{AllIn};
ghost use Rattle.condition.specs.Slots.{closed_of};
ghost use Rattle.entries.specs.Entries.{Waits};
ghost use Rattle.index.specs.Changes.{WordsOf, JoinedIndex, PartedIndex};
ghost use Rattle.index.specs.Structs.{IsIndex};

use crate::alternatives::{cut_nodes, put_nodes};
use condition::slots::Conditions;
use entries::{Joined, Parted, join_entry, part_entry};
use homes::Homes;
use nodes::Ranks;

pub mod alternatives;

// The entries, the rank words of all nodes, and the homes of those of the leads.
#[repr(C)]
#[derive(Drop)]
pub struct Index {
    pub entry: [u8; 32],
    pub ranks: Ranks,
    pub homes: Homes,
}

impl Index {
    // The job joins the index. An older job than the lead of its entry takes that one's place.
    pub fn join(&mut self, conditions: &Conditions, ticket: &[u32; 32], job: usize)
        requires job_bound_1 { job < 32 }
        requires job_bound_2 { ((k : ℕ) → get_or conditions.now.measure k 0 < 16) }
        requires job_bound_3 { AllIn key_most conditions.now.key }
        requires job_bound_4 { get_or self.old.entry job 0 ≡ 0 }
        requires by_index { (k : ℕ) → Waits self.old.entry k → get_or ticket.now k 0 ≡ get_or ticket.now job 0 → ⊥ }
        requires words_of { WordsOf (closed_of conditions.now) ticket.now self.old.ranks.high self.old.ranks.low job }
        requires index { IsIndex (closed_of conditions.now) ticket.now self.old }
        ensures joined { JoinedIndex (closed_of conditions.now) ticket.now self.old.ranks.high self.old.ranks.low job
            self.old.entry self.new.entry self.new.homes.places self.new.homes.lengths }
        ensures ranks { self.new.ranks ≡ self.old.ranks }
    {
        match join_entry(&mut self.entry, conditions, ticket, job) {
            Joined::Alone => put_nodes(&mut self.homes, &self.ranks, conditions, job),
            Joined::Follows => {}
            Joined::Leads(old) => {
                cut_nodes(&mut self.homes, &self.ranks, conditions, old);
                put_nodes(&mut self.homes, &self.ranks, conditions, job);
            }
        }
    }

    // The job parts from the index, if it is in it. The next oldest of an entry takes a lead's place.
    pub fn part(&mut self, conditions: &Conditions, ticket: &[u32; 32], job: usize)
        requires job_bound_1 { job < 32 }
        requires job_bound_2 { ((k : ℕ) → get_or conditions.now.measure k 0 < 16) }
        requires index { IsIndex (closed_of conditions.now) ticket.now self.old }
        ensures parted { PartedIndex (closed_of conditions.now) ticket.now self.old.ranks.high self.old.ranks.low job
            self.old.entry self.new.entry self.new.homes.places self.new.homes.lengths }
        ensures ranks { self.new.ranks ≡ self.old.ranks }
    {
        match part_entry(&mut self.entry, ticket, job) {
            Parted::Follower => {}
            Parted::Ends => cut_nodes(&mut self.homes, &self.ranks, conditions, job),
            Parted::Next(next) => {
                cut_nodes(&mut self.homes, &self.ranks, conditions, job);
                put_nodes(&mut self.homes, &self.ranks, conditions, next);
            }
        }
    }
}
