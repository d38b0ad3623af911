// Wait (4): the job inside gives a condition. True: it stays inside, no ticket, no search. False: it takes the next ticket, a search is
// made, and it waits. Nothing is stored before the last test.
#![tactic(auto)]

ghost use Rattle.std.specs.Prelude.{◌≡◌, false, ℕ, ◌<◌, ◌≤◌, get_or};
ghost use Rattle.rules.specs.Limits.{tickets};
ghost use Rattle.rules.specs.Condition.{condition_true, closure};
ghost use Rattle.condition.specs.Slots.{now_of};
ghost use Rattle.condition.specs.Closes.{given_condition};
ghost use Rattle.closing.specs.Slots.{given_of};
ghost use Rattle.room.specs.Rooms.{arrays_of};
ghost use Rattle.room.specs.Kept.{Sound};
ghost use Rattle.wait.specs.Waits.{GivenFit, Waited};

use closing::close;
use fields::refusal::Refusal;
use filing::write_words;
use given::given_true;
use room::call::call_next;
use room::report::{Outcome, Report, searched, unsearched};
use room::room::Room;
use room::standing::{INSIDE, WAITING};
use wire::given::Given;

// How many tickets there are in all.
const TICKETS: u32 = 1_000_000;

// A false condition, and a ticket left: the search is over those that wait before the job joins them.
fn begin_to_wait(room: &mut Room, given: &Given, count: u8, job: usize) -> Report
    requires job_bound_1 { job < 32 }
    requires job_bound_2 { ((j : ℕ) → 3 ≤ get_or room.old.standing j 0 → get_or room.old.ticket j 0 < room.old.next_ticket) }
    requires given_fit { GivenFit room.old.measures (given_of count given.now) }
    requires sound { Sound (arrays_of room.old) }
    requires job_value_1 { get_or room.old.standing job 0 ≡ 2 }
    requires job_value_2 { room.old.next_ticket < tickets }
    requires locals_value { condition_true (now_of room.old.shared)
        (closure given.now.locals (given_condition (given_of count given.now))) ≡ false }
    ensures waited { Waited (arrays_of room.old) (arrays_of room.new) job (given_of count given.now) result }
    ensures fixed { (room.new.shared ≡ room.old.shared) × (room.new.measures ≡ room.old.measures) }
{
    let ticket = room.next_ticket;
    let answer = call_next(
        &mut room.standing,
        &mut room.index,
        &room.shared,
        &room.ticket,
        &room.conditions,
        room.measures,
    );
    close(&mut room.conditions, given, count, job);
    room.ticket[job] = ticket;
    write_words(&mut room.index.ranks, &room.conditions, ticket, job);
    room.index.join(&room.conditions, &room.ticket, job);
    room.standing[job] = WAITING;
    room.next_ticket = ticket + 1;
    searched(Outcome::Waits, answer)
}

pub fn wait(room: &mut Room, given: &Given, count: u8, job: usize) -> Report
    requires job_bound_1 { job < 32 }
    requires job_bound_2 { ((j : ℕ) → 3 ≤ get_or room.old.standing j 0 → get_or room.old.ticket j 0 < room.old.next_ticket) }
    requires given_fit { GivenFit room.old.measures (given_of count given.now) }
    requires sound { Sound (arrays_of room.old) }
    ensures waited { Waited (arrays_of room.old) (arrays_of room.new) job (given_of count given.now) result }
    ensures fixed { (room.new.shared ≡ room.old.shared) × (room.new.measures ≡ room.old.measures) }
{
    if room.standing[job] != INSIDE {
        return Err(Refusal::WrongStanding);
    }
    if given_true(&room.shared, given, count) {
        return unsearched(Outcome::On);
    }
    if TICKETS <= room.next_ticket {
        return Err(Refusal::NoTicket);
    }
    begin_to_wait(room, given, count, job)
}
