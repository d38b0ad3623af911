// Rows of signed numbers, read into lent slots.
ghost use Rattle.std.specs.Prelude.{◌≡◌, ◌+◌, ◌≤◌, length, drop};
ghost use Rattle.rules.specs.Number.{times, signed_field};
ghost use Rattle.fields.specs.Answers.{numbered};
ghost use Rattle.wire.specs.Into.{Into};
ghost use Rattle.wire.specs.Numbers.{put_numbers};

use fields::field::read_signed;
use fields::refusal::Refusal;

// So many signed numbers, each at most so far from 0, into the slots from `first` on, and the place after them. What was stored before a
// refusal stays: the callers clear it.
pub fn read_numbers(
    bytes: &[u8],
    at: usize,
    most: u64,
    out: &mut [i64],
    first: usize,
    count: usize,
) -> Result<usize, Refusal>
    requires { ((count ≡ 0 → at ≤ length bytes.now)) × (first + count ≤ length out.old) }
    ensures { Into (put_numbers first) bytes.now out.old (times count (signed_field most) (drop at bytes.now)) (numbered result) out.new }
{
    let mut next = at;
    for slot in first..first + count {
        let (z, after) = read_signed(bytes, next, most)?;
        out[slot] = z;
        next = after;
    }
    Ok(next)
}
