// A record that was made whole, into the unwritten rest of a lent buffer: its first byte is stored when nothing can be refused any more.
ghost use Rattle.std.specs.Prelude.{◌≡◌, ℕ, ◌≤◌};
ghost use Rattle.std.specs.Fn.{FnOnceReturnsAtMut};
ghost use Rattle.writer.specs.Whole.{Copies, Short, Recorded};

use fields::refusal::Refusal;

// `made` is the place after the bytes that were made, or the refusal.
#[tactic(auto, using(crate::specs::Whole::part_stored))]
fn finish(
    out: &mut [u8],
    at: usize,
    bytes: &[u8; 704],
    made: Result<usize, Refusal>,
) -> Result<usize, Refusal>
    requires { (n : ℕ) → made ≡ Ok n → n ≤ 704 }
    ensures { Copies out.old out.new at bytes.now made result }
{
    let n = made?;
    let size = out.len();
    if size < at || size - at < n {
        return Err(Refusal::NoSpace);
    }
    out[at..at + n].copy_from_slice(&bytes[..n]);
    Ok(at + n)
}

// What `make` puts into bytes of the writer's own, which have room for any record.
pub fn write_record<F: FnOnce(&mut [u8; 704]) -> Result<usize, Refusal>>(
    out: &mut [u8],
    at: usize,
    make: F,
) -> Result<usize, Refusal>
    requires callable { F.IsAlwaysCallable make }
    requires short { Short (FnOnceReturnsAtMut F.FnOnce make) }
    ensures { Recorded (FnOnceReturnsAtMut F.FnOnce make) out.old out.new at result }
{
    let mut bytes = [0; 704];
    let made = make(&mut bytes);
    finish(out, at, &bytes, made)
}
