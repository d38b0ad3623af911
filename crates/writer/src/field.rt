// Fields of a record that is being made. A number out of its range is refused as the reader refuses it, and nothing is stored.
ghost use Rattle.std.specs.Prelude.{◌+◌, ◌<◌, ◌≤◌, length};
ghost use Rattle.rules.specs.Writer.{write_below, write_signed};
ghost use Rattle.writer.specs.Puts.{Puts, PutsField};

use crate::number::put_number;
use fields::refusal::Refusal;
use integers::unsigned_of;

// A number from low to high; else the refusal given. It may be of any type, a plain number too.
pub fn put_field<E: Drop>(
    out: &mut [u8],
    at: usize,
    n: u64,
    low: u64,
    high: u64,
    refusal: E,
) -> Result<usize, E>
    requires fact_1 { at + 5 ≤ length out.old }
    requires fact_2 { high < 4_294_967_296 }
    ensures { PutsField refusal low high n out.old out.new at result }
{
    if n < low || high < n {
        return Err(refusal);
    }
    Ok(put_number(out, at, n))
}

pub fn put_below(out: &mut [u8], at: usize, n: u64, bound: u64) -> Result<usize, Refusal>
    requires fact_1 { at + 5 ≤ length out.old }
    requires fact_2 { bound < 4_294_967_296 }
    ensures { Puts (write_below bound n) out.old out.new at result }
{
    if bound <= n {
        return Err(Refusal::OutOfRange);
    }
    Ok(put_number(out, at, n))
}

// A signed number at most so far from 0.
pub fn put_signed(out: &mut [u8], at: usize, z: i64, most: u64) -> Result<usize, Refusal>
    requires fact_1 { at + 5 ≤ length out.old }
    requires fact_2 { most < 2_147_483_648 }
    ensures { Puts (write_signed most z) out.old out.new at result }
{
    let n = unsigned_of(z);
    if most < z.unsigned_abs() {
        return Err(Refusal::OutOfRange);
    }
    Ok(put_number(out, at, n))
}
