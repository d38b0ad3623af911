// Fields: a number's bytes are judged first (refusal 1 or 2), then its range (3 or 4). `?` takes each answer apart and hands its refusal
// out.
ghost use Rattle.std.specs.Prelude.{◌≡◌, drop};
ghost use Rattle.rules.specs.Number.{number, below, signed_field};
ghost use Rattle.fields.specs.Answers.{as_answer, numbered, FieldAnswer};

use crate::number::read_number;
use crate::refusal::Refusal;
use integers::signed_of;

// A number from low to high; else the refusal given. It may be of any type that refusals become, a plain number too.
pub fn read_field<E: From<Refusal> + Drop>(
    bytes: &[u8],
    at: usize,
    refusal: E,
    low: u64,
    high: u64,
) -> Result<(u64, usize), E>
    ensures { FieldAnswer E.from_gives bytes.now refusal low high (number (drop at bytes.now)) result }
{
    let (n, next) = read_number(bytes, at)?;
    if n < low || high < n {
        return Err(refusal);
    }
    Ok((n, next))
}

// A number of one of so many things, counted from 0.
pub fn read_below(bytes: &[u8], at: usize, bound: u64) -> Result<(u64, usize), Refusal>
    ensures { numbered result ≡ as_answer bytes.now (below bound (drop at bytes.now)) }
{
    let (n, next) = read_number(bytes, at)?;
    if bound <= n {
        return Err(Refusal::OutOfRange);
    }
    Ok((n, next))
}

// A signed number at most so far from 0. Its distance is half of n, rounded up, so the range is judged before the sign is made.
pub fn read_signed(bytes: &[u8], at: usize, most: u64) -> Result<(i64, usize), Refusal>
    ensures { numbered result ≡ as_answer bytes.now (signed_field most (drop at bytes.now)) }
{
    let (unsigned, next) = read_number(bytes, at)?;
    let size = unsigned / 2 + unsigned % 2;
    if most < size {
        return Err(Refusal::OutOfRange);
    }
    let z = signed_of(unsigned);
    Ok((z, next))
}
