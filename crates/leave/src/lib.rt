// Leave (5): inside to outside, then a search. Whatever the next ticket is: it has no part in this.
#![tactic(auto)]

ghost use Rattle.std.specs.Prelude.{ℕ, ◌<◌};
ghost use Rattle.rules.specs.Step as rules;
ghost use Rattle.room.specs.Rooms.{arrays_of, Fixed};
ghost use Rattle.room.specs.Kept.{Sound};
ghost use Rattle.room.specs.Steps.{Stepped};
ghost use Rattle.room.specs.Tickets.{with_next};

use fields::refusal::Refusal;
use room::call::call_next;
use room::report::{Outcome, Report, searched};
use room::room::Room;
use room::standing::{INSIDE, OUTSIDE};

pub fn leave(room: &mut Room, job: usize) -> Report
    requires job_bound { job < 32 }
    requires sound { Sound (arrays_of room.old) }
    ensures steps { (next : ℕ) →
        Stepped (with_next (arrays_of room.old) next) (with_next (arrays_of room.new) next) (rules.leave job) result }
    ensures fixed { Fixed room.old room.new }
{
    if room.standing[job] != INSIDE {
        return Err(Refusal::WrongStanding);
    }
    let answer = call_next(
        &mut room.standing,
        &mut room.index,
        &room.shared,
        &room.ticket,
        &room.conditions,
        room.measures,
    );
    room.standing[job] = OUTSIDE;
    searched(Outcome::Done, answer)
}
