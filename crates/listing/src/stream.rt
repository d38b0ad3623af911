// An opening and its events: what is listed of an input that is not too long.
ghost use Rattle.rules.specs.Listing.{run};
ghost use Rattle.rules.specs.Record.{opening};
ghost use Rattle.listing.specs.Output.{output, Writes};

use crate::events::write_events;
use crate::line::{put_line, put_refusal};
use opening::open;
use room::room::Room;

pub fn write_stream(out: &mut [u8], input: &[u8]) -> usize
    ensures { Writes (output out.old 0) (output out.new result) (run (opening input.now)) }
{
    let mut room = Room::empty();
    match open(&mut room, input) {
        Ok((measures, from)) => {
            let next = put_line(out, 0, b"open ", measures as usize);
            write_events(out, &mut room, input, from, next)
        }
        Err(refusal) => put_refusal(out, 0, b"open refused ", refusal),
    }
}
