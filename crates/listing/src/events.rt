// The lines of the events of a stream, one after the other up to the last line.
ghost use Rattle.std.specs.Prelude.{◌≡◌, leb};
ghost use Rattle.fields.specs.Refusals.{refusal_number};
ghost use Rattle.room.specs.Kept.{Kept};
ghost use Rattle.room.specs.Rooms.{arrays_of};
ghost use Rattle.listing.specs.Output.{output, Writes};
ghost use Rattle.listing.specs.Turns.{lines_from};

use crate::line::{put_accepted, put_end, put_refused};
use event::event;
use fields::refusal::Refusal;
use room::room::Room;

// Refused with 1 to 4, the bytes were no event, so nothing after them can be read: document 01 says it in numbers.
fn is_last(refusal: Refusal) -> bool
    ensures { result ≡ leb (refusal_number refusal) 4 }
{
    u8::from(refusal) <= 4
}

// The events stand in the input from `from` on. They end where no event is left, so they are counted by hand.
pub fn write_events(out: &mut [u8], room: &mut Room, input: &[u8], from: usize, at: usize) -> usize
    requires { Kept (arrays_of room.old) }
    ensures written { Writes (output out.old at) (output out.new result) (lines_from input.now from 1 0 (arrays_of room.old)) }
    ensures fixed { (room.new.shared.coefficients ≡ room.old.shared.coefficients) × (room.new.measures ≡ room.old.measures) }
{
    let mut place = from;
    let mut next = at;
    let mut number: usize = 1;
    let mut before: usize = 0;
    while let Some(taken) = event(room, input, place) {
        match taken.report {
            Ok(accepted) => {
                next = put_accepted(out, next, number, accepted);
                before += 1;
            }
            Err(refusal) => {
                next = put_refused(out, next, number, refusal);
                if is_last(refusal) {
                    break;
                }
            }
        }
        number += 1;
        place = taken.next;
    }
    put_end(out, next, before)
}
