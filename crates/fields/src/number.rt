// Numbers: groups of seven bits, lowest group first; a byte of 128 or more has another after it. At most five groups.
ghost use Rattle.std.specs.Prelude.{◌≡◌, ◌≤◌, drop};
ghost use Rattle.rules.specs.Number.{bad_group, groups, number};
ghost use Rattle.fields.specs.Answers.{as_answer, numbered};
ghost use Rattle.fields.specs.Groups.{Bounded};

use crate::refusal::Refusal;

// Refusal 2: a fifth byte of 16 or more, and a last group of 0 after others.
fn bad_group(place: u64, b: u64) -> bool
    ensures { result ≡ bad_group place b }
{
    (place == 5 && 16 <= b) || (1 < place && b == 0)
}

// The number whose group at this place, counted from 1, comes next. A fifth byte below 16 has none after it.
// It calls itself for the groups after this one, as the rules' `groups` does: a loop would have to carry the weight of each group.
fn read_groups(bytes: &[u8], at: usize, place: u64) -> Result<(u64, usize), Refusal>
    requires { (1 ≤ place) × (place ≤ 5) }
    ensures { (numbered result ≡ as_answer bytes.now (groups place (drop at bytes.now))) × Bounded place result }
{
    if bytes.len() <= at {
        return Err(Refusal::CutShort);
    }
    let b = u64::from(bytes[at]);
    if bad_group(place, b) {
        return Err(Refusal::BadNumber);
    }
    if b < 128 {
        return Ok((b, at + 1));
    }
    let (n, next) = read_groups(bytes, at + 1, place + 1)?;
    Ok((b - 128 + 128 * n, next))
}

// The number at a place, and the place after it; or refusal 1 or 2.
pub fn read_number(bytes: &[u8], at: usize) -> Result<(u64, usize), Refusal>
    ensures { numbered result ≡ as_answer bytes.now (number (drop at bytes.now)) }
{
    read_groups(bytes, at, 1)
}
