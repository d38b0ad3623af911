// Arrive (1): outside to door.
ghost use Rattle.std.specs.Prelude.{◌≡◌, ◌<◌};
ghost use Rattle.room.specs.Arrives.{arrive_report, arrive_standing};

use crate::report::{Outcome, Report, unsearched};
use crate::standing::{DOOR, OUTSIDE};
use fields::refusal::Refusal;

pub fn arrive(standing: &mut [u8; 32], job: usize) -> Report
    requires { job < 32 }
    ensures { (result ≡ arrive_report standing.old job) × (standing.new ≡ arrive_standing standing.old job) }
{
    if standing[job] != OUTSIDE {
        return Err(Refusal::WrongStanding);
    }
    standing[job] = DOOR;
    unsearched(Outcome::Done)
}
