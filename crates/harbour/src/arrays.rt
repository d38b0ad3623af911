// An opening and an event of a room, told in a host's numbers: what `harbour_open` and `harbour_event` do, named in docs/PROMISES.md.
ghost use Rattle.std.specs.Prelude.{◌≡◌};
ghost use Rattle.room.specs.Kept.{Kept};
ghost use Rattle.harbour.specs.Rooms.{arrays_of};
ghost use Rattle.harbour.specs.Openings.{OpensRoom};
ghost use Rattle.harbour.specs.Reports.{Reports};

use crate::report::{Opened, Report, told};
use event::event;
use opening::open;
use room::room::Room;

pub fn take_opening(room: &mut Room, bytes: &[u8]) -> Opened
    ensures { OpensRoom bytes.now result (arrays_of room.new) }
{
    open(room, bytes).map_err(u8::from).into()
}

pub fn take_event(room: &mut Room, bytes: &[u8]) -> Report
    requires { Kept (arrays_of room.old) }
    ensures reports { Reports (arrays_of room.old) (arrays_of room.new) bytes.now result }
    ensures fixed { (room.new.shared.coefficients ≡ room.old.shared.coefficients) × (room.new.measures ≡ room.old.measures) }
{
    told(event(room, bytes, 0).map(|taken| (taken.report.map_err(u8::from), taken.next)))
}
