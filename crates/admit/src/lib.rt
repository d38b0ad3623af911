// Admit (2): needs door or called, and nobody inside. From the door the job goes inside. A called job's condition is evaluated: true, it
// goes inside; false, a search is made and it is sent back to waiting with its old ticket. Whatever the next ticket is: it has no part in
// this.
#![tactic(auto)]

ghost use Rattle.std.specs.Prelude.{◌≡◌, ℕ, ◌<◌, get_or};
ghost use Rattle.rules.specs.Step as rules;
ghost use Rattle.room.specs.Rooms.{arrays_of, Fixed};
ghost use Rattle.room.specs.Kept.{Sound};
ghost use Rattle.room.specs.Steps.{Stepped};
ghost use Rattle.room.specs.Tickets.{with_next};

use fields::refusal::Refusal;
use room::call::call_next;
use room::occupied::occupied;
use room::report::{Outcome, Report, searched, unsearched};
use room::room::Room;
use room::standing::{CALLED, DOOR, INSIDE, WAITING};

fn admit_called(room: &mut Room, job: usize) -> Report
    requires job_bound_1 { job < 32 }
    requires job_bound_2 { get_or room.old.standing job 0 ≡ 4 }
    requires sound { Sound (arrays_of room.old) }
    ensures steps { (next : ℕ) →
        Stepped (with_next (arrays_of room.old) next) (with_next (arrays_of room.new) next) (rules.admit job) result }
    ensures fixed { Fixed room.old room.new }
{
    if occupied(&room.standing) {
        return Err(Refusal::Occupied);
    }
    if room.conditions.condition_true(&room.shared, job) {
        room.standing[job] = INSIDE;
        return unsearched(Outcome::In);
    }
    let answer = call_next(
        &mut room.standing,
        &mut room.index,
        &room.shared,
        &room.ticket,
        &room.conditions,
        room.measures,
    );
    room.index.join(&room.conditions, &room.ticket, job);
    room.standing[job] = WAITING;
    searched(Outcome::Back, answer)
}

pub fn admit(room: &mut Room, job: usize) -> Report
    requires job_bound { job < 32 }
    requires sound { Sound (arrays_of room.old) }
    ensures steps { (next : ℕ) →
        Stepped (with_next (arrays_of room.old) next) (with_next (arrays_of room.new) next) (rules.admit job) result }
    ensures fixed { Fixed room.old room.new }
{
    match room.standing[job] {
        DOOR => {
            if occupied(&room.standing) {
                return Err(Refusal::Occupied);
            }
            room.standing[job] = INSIDE;
            unsearched(Outcome::In)
        }
        CALLED => admit_called(room, job),
        _ => Err(Refusal::WrongStanding),
    }
}
