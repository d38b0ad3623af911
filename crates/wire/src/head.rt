// The head of an event: its kind and its job, and of a Set the rest too. A Wait's numbers stand from the next place on, and are read by
// `read_wait`, so that the other kinds pay nothing for them.
ghost use Rattle.std.specs.Prelude.{◌≡◌, drop};
ghost use Rattle.fields.specs.Answers.{numbered};
ghost use Rattle.wire.specs.Heads.{head_at, set_head};

use fields::field::{read_below, read_field, read_signed};
use fields::refusal::Refusal;

#[derive(Clone, Copy, Debug, PartialEq, Eq)]
pub enum Kind {
    Arrive,
    Admit,
    Set { variable: u64, value: i64 },
    Wait,
    Leave,
}

// A record's kind and job, and the place after what was read.
#[derive(Clone, Copy, Debug, PartialEq, Eq)]
pub struct Head {
    pub kind: Kind,
    pub job: u64,
    pub next: usize,
}

// Set adds variable, value.
fn read_set(bytes: &[u8], at: usize, job: u64) -> Result<Head, Refusal>
    ensures { numbered result ≡ set_head bytes.now job (drop at bytes.now) }
{
    let (variable, next) = read_below(bytes, at, 8)?;
    let (value, after) = read_signed(bytes, next, 1_000_000)?;
    Ok(Head {
        kind: Kind::Set { variable, value },
        job,
        next: after,
    })
}

// The head at a place: kind 1 Arrive, 2 Admit, 3 Set, 4 Wait, 5 Leave. None: no byte is left.
pub fn read_head(bytes: &[u8], at: usize) -> Result<Option<Head>, Refusal>
    ensures { numbered result ≡ head_at bytes.now (drop at bytes.now) }
{
    if bytes.len() <= at {
        return Ok(None);
    }
    let (number, start) = read_field(bytes, at, Refusal::Unknown, 1, 5)?;
    let (job, next) = read_below(bytes, start, 32)?;
    let kind = match number {
        1 => Kind::Arrive,
        2 => Kind::Admit,
        3 => return Ok(Some(read_set(bytes, next, job)?)),
        4 => Kind::Wait,
        _ => Kind::Leave,
    };
    Ok(Some(Head { kind, job, next }))
}
