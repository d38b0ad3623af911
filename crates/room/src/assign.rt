// Set (3): the job inside gives a shared variable a value. No search.
ghost use Rattle.std.specs.Prelude.{◌≡◌, ◌<◌};
ghost use Rattle.rules.specs.Limits.{value_most};
ghost use Rattle.rules.specs.Laws.Bounds.{Within};
ghost use Rattle.room.specs.Assigns.{inside_report, assign_values};

use crate::report::{Outcome, Report, unsearched};
use crate::standing::INSIDE;
use fields::refusal::Refusal;

pub fn assign(
    values: &mut [i64; 8],
    standing: &[u8; 32],
    job: usize,
    variable: usize,
    value: i64,
) -> Report
    requires fact_1 { job < 32 }
    requires fact_2 { variable < 8 }
    requires fact_3 { Within value_most value }
    ensures { (result ≡ inside_report standing.now job) × (values.new ≡ assign_values standing.now values.old job variable value) }
{
    if standing[job] != INSIDE {
        return Err(Refusal::WrongStanding);
    }
    values[variable] = value;
    unsearched(Outcome::Done)
}
