// An event from bytes, at a place: its head is read, of a Wait its numbers too, and then it is done.
#![tactic(auto)]

ghost use Rattle.std.specs.Prelude.{◌≡◌, drop};
ghost use Rattle.wire.specs.Heads.{head_at};
ghost use Rattle.room.specs.Kept.{Kept};
ghost use Rattle.room.specs.Rooms.{arrays_of};
ghost use Rattle.event.specs.Answers.{placed};
ghost use Rattle.event.specs.Takes.{Takes};
ghost use Rattle.event.specs.TakesHead.{wait_head};

use admit::admit;
use fields::refusal::Refusal;
use leave::leave;
use room::arrive::arrive;
use room::assign::assign;
use room::report::Report;
use room::room::Room;
use wait::wait;
use wire::given::Given;
use wire::head::{Kind, read_head};
use wire::wait::read_wait;

// A report, with the place after what was taken.
#[derive(Clone, Copy, Debug, PartialEq, Eq)]
pub struct Taken {
    pub report: Report,
    pub next: usize,
}

// What was taken: a report, with the place after it.
fn placed(report: Report, next: usize) -> Option<Taken>
    ensures { result ≡ placed report next }
{
    Some(Taken { report, next })
}

// A Wait whose head stands at `at`, done if its numbers, from `next` on, are those of a condition. It is a function of its own, so that no
// other kind pays for the slots that they are read into.
fn take_wait(room: &mut Room, bytes: &[u8], at: usize, next: usize, job: usize) -> Option<Taken>
    requires kept { Kept (arrays_of room.old) }
    requires head { head_at bytes.now (drop at bytes.now) ≡ wait_head job next }
    ensures takes { Takes (arrays_of room.old) (arrays_of room.new) bytes.now at result }
    ensures fixed { (room.new.shared.coefficients ≡ room.old.shared.coefficients) × (room.new.measures ≡ room.old.measures) }
{
    let mut given = Given::empty();
    match read_wait(&mut given, bytes, next, room.measures as u8) {
        Ok((count, after)) => {
            let report = wait(room, &given, count as u8, job);
            placed(report, after)
        }
        Err(refusal) => placed(Err(refusal), at),
    }
}

// The event at a place, done if it is one; or that no byte is left. Bytes that are no event are refused, and nothing was done. A `match` and
// no `?`: a `Result` around the answer is moved once more, which took the shortest events as long as all that they do.
pub fn event(room: &mut Room, bytes: &[u8], at: usize) -> Option<Taken>
    requires { Kept (arrays_of room.old) }
    ensures takes { Takes (arrays_of room.old) (arrays_of room.new) bytes.now at result }
    ensures fixed { (room.new.shared.coefficients ≡ room.old.shared.coefficients) × (room.new.measures ≡ room.old.measures) }
{
    let head = match read_head(bytes, at) {
        Ok(Some(head)) => head,
        Ok(None) => return None,
        Err(refusal) => return placed(Err(refusal), at),
    };
    let job = head.job as usize;
    let next = head.next;
    match head.kind {
        Kind::Arrive => placed(arrive(&mut room.standing, job), next),
        Kind::Admit => placed(admit(room, job), next),
        Kind::Set { variable, value } => {
            let report = assign(
                &mut room.shared.values,
                &room.standing,
                job,
                variable as usize,
                value,
            );
            placed(report, next)
        }
        Kind::Wait => take_wait(room, bytes, at, next, job),
        Kind::Leave => placed(leave(room, job), next),
    }
}
