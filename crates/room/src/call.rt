// A search over those that wait; the job that it finds is called, and leaves the index. The next ticket has no part in it, whatever it is.
ghost use Rattle.std.specs.Prelude.{◌≡◌, ℕ};
ghost use Rattle.condition.specs.Slots.{now_of};
ghost use Rattle.room.specs.Rooms.{arrays_from};
ghost use Rattle.room.specs.Kept.{Sound};
ghost use Rattle.room.specs.Calls.{CallsNext};

use crate::standing::CALLED;
use condition::slots::{Conditions, Shared};
use index::Index;
use search::{Answer, search};

// Lent the parts of a room that it reads or changes, so that the types say what it leaves alone.
pub fn call_next(
    standing: &mut [u8; 32],
    index: &mut Index,
    shared: &Shared,
    ticket: &[u32; 32],
    conditions: &Conditions,
    measures: usize,
) -> Answer
    requires { Sound (arrays_from shared.now standing.old ticket.now conditions.now index.old measures 0) }
    ensures calls { (next : ℕ) → CallsNext (arrays_from shared.now standing.old ticket.now conditions.now index.old measures next)
        (now_of shared.now) standing.new index.new.entry index.new.homes.places index.new.homes.lengths result }
    ensures ranks { index.new.ranks ≡ index.old.ranks }
{
    let answer = search(index, measures, shared, conditions);
    let Answer::Calls(job, count) = answer else {
        return answer;
    };
    index.part(conditions, ticket, job);
    standing[job] = CALLED;
    Answer::Calls(job, count)
}
