// The host's library: one Room and one Tally, lent to each call. A host opens a room from bytes and then gives it events, one string of
// bytes each; every answer is plain numbers.
#![tactic(auto)]

ghost use Rattle.std.specs.Prelude.{◌≡◌};
ghost use Rattle.room.specs.Kept.{Kept};
ghost use Rattle.harbour.specs.Rooms.{arrays_of};
ghost use Rattle.harbour.specs.Openings.{OpensRoom};
ghost use Rattle.harbour.specs.Events.{EventTaken};
ghost use Rattle.harbour.specs.Tallies.{noted_tally};

use tally::Tally;

pub mod arrays;
pub mod looks;
pub mod report;
pub mod streams;

use arrays::{take_event, take_opening};
use report::{Opened, Report};
pub use room::room::Room;

// The tally after a report, in place.
pub fn note(tally: &mut Tally, report: Report)
    ensures { tally.new ≡ noted_tally tally.old report }
{
    *tally = report::noted(*tally, report);
}

// An opening. A refused one makes no room: every number becomes 0, and every job stands outside.
pub fn harbour_open(room: &mut Room, bytes: &[u8]) -> Opened
    ensures { OpensRoom bytes.now result (arrays_of room.new) }
{
    take_opening(room, bytes)
}

// One event. A refused one, and none left, leave room and tally as they were.
pub fn harbour_event(tally: &mut Tally, room: &mut Room, bytes: &[u8]) -> Report
    requires { Kept (arrays_of room.old) }
    ensures { EventTaken room.old room.new tally.old tally.new bytes.now result }
{
    let report = take_event(room, bytes);
    note(tally, report);
    report
}
