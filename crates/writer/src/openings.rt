// An opening, whole, from the first of the bytes on.
ghost use Rattle.std.specs.Prelude.{◌≤◌, length};
ghost use Rattle.rules.specs.Writer.{write_opening};
ghost use Rattle.condition.specs.From.{from};
ghost use Rattle.writer.specs.Puts.{Puts};
ghost use Rattle.writer.specs.Openings.{row_given, values_given};

use crate::field::put_field;
use crate::numbers::put_numbers;
use fields::refusal::Refusal;

// The coefficients of measure m stand from slot 8 * m on; those of measures that the count does not name are not looked at.
// Coefficients and values apart, as `read_opening` gives them.
pub fn put_opening(
    out: &mut [u8],
    measures: u64,
    coefficients: &[i64; 128],
    values: &[i64; 8],
) -> Result<usize, Refusal>
    requires { 685 ≤ length out.old }
    ensures { Puts (write_opening (from (row_given coefficients.now) measures 0) (values_given values.now)) out.old out.new 0 result }
{
    let after_count = put_field(out, 0, measures, 1, 16, Refusal::OutOfRange)?;
    let rows = &coefficients[..measures as usize * 8];
    let after_rows = put_numbers(out, after_count, rows, 100)?;
    put_numbers(out, after_rows, values, 1_000_000)
}
