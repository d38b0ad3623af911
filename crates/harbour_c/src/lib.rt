// What a host links, in C or in any language that calls C: each export calls the function of its name in `harbour`, and states its
// clauses. A crate is a library or an archive for C, so the two stand apart.
#![tactic(auto)]

ghost use Rattle.room.specs.Kept.{Kept};
ghost use Rattle.harbour.specs.Rooms.{arrays_of};
ghost use Rattle.harbour.specs.Openings.{OpensRoom};
ghost use Rattle.harbour.specs.Events.{EventTaken};

mod looks;
mod streams;

use harbour::Room;
use harbour::report::{Opened, Report};
use tally::Tally;

// An opening. A refused one makes no room: every number becomes 0, and every job stands outside.
#[unsafe(no_mangle)]
pub extern "C" fn harbour_open(room: &mut Room, bytes: &[u8]) -> Opened
    ensures { OpensRoom bytes.now result (arrays_of room.new) }
{
    harbour::harbour_open(room, bytes)
}

// One event. A refused one, and none left, leave room and tally as they were.
#[unsafe(no_mangle)]
pub extern "C" fn harbour_event(tally: &mut Tally, room: &mut Room, bytes: &[u8]) -> Report
    requires { Kept (arrays_of room.old) }
    ensures { EventTaken room.old room.new tally.old tally.new bytes.now result }
{
    harbour::harbour_event(tally, room, bytes)
}
