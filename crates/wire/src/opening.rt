// An opening: measure count, 8 coefficients for each measure, 8 values (document 01, "Bytes").
ghost use Rattle.std.specs.Prelude.{◌≡◌, pos, drop, replicate};
ghost use Rattle.rules.specs.Record.{opening};
ghost use Rattle.fields.specs.Answers.{numbered};
ghost use Rattle.wire.specs.Openings.{as_opening, coefficients_of, values_of, ReadsSlots};

use crate::numbers::read_numbers;
use fields::field::read_field;
use fields::refusal::Refusal;

// The numbers of an opening, into slots that are 0; what was stored before a refusal stays.
fn read_slots(
    bytes: &[u8],
    at: usize,
    coefficients: &mut [i64; 128],
    values: &mut [i64; 8],
) -> Result<(u64, usize), Refusal>
    requires { (coefficients.old ≡ replicate 128 (pos 0)) × (values.old ≡ replicate 8 (pos 0)) }
    ensures { ReadsSlots bytes.now at result coefficients.new values.new }
{
    let (count, start) = read_field(bytes, at, Refusal::OutOfRange, 1, 16)?;
    let next = read_numbers(bytes, start, 100, coefficients, 0, count as usize * 8)?;
    let end = read_numbers(bytes, next, 1_000_000, values, 0, 8)?;
    Ok((count, end))
}

// The measure count and the place after the opening; the coefficients of measure m stand from slot 8 * m on. Slots past the count are 0,
// and after a refusal every slot is.
// Two arrays and no struct: `condition::Shared`, which has both, stands above this crate.
pub fn read_opening(
    bytes: &[u8],
    at: usize,
    coefficients: &mut [i64; 128],
    values: &mut [i64; 8],
) -> Result<(u64, usize), Refusal>
    ensures { (numbered result ≡ as_opening bytes.now (opening (drop at bytes.now)))
        × (coefficients.new ≡ coefficients_of (opening (drop at bytes.now)))
        × (values.new ≡ values_of (opening (drop at bytes.now))) }
{
    coefficients.fill(0);
    values.fill(0);
    let result = read_slots(bytes, at, coefficients, values);
    if result.is_err() {
        coefficients.fill(0);
        values.fill(0);
    }
    result
}
