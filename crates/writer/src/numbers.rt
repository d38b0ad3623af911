// Rows of signed numbers into the bytes of a record that is being made.
ghost use Rattle.std.specs.Prelude.{◌+◌, ◌*◌, ◌<◌, ◌≤◌, length};
ghost use Rattle.rules.specs.Writer.{all-written, write_signed};
ghost use Rattle.writer.specs.Puts.{Puts};

use crate::field::put_signed;
use fields::refusal::Refusal;

// Each at most so far from 0.
pub fn put_numbers(out: &mut [u8], at: usize, numbers: &[i64], most: u64) -> Result<usize, Refusal>
    requires fact_1 { at + length numbers.now * 5 ≤ length out.old }
    requires fact_2 { most < 2_147_483_648 }
    ensures { Puts (all-written (write_signed most) numbers.now) out.old out.new at result }
{
    let mut next = at;
    for number in numbers {
        next = put_signed(out, next, *number, most)?;
    }
    Ok(next)
}
