// Events, each whole, from the first of the bytes on.
ghost use Rattle.std.specs.Prelude.{◌≡◌, ◌≤◌, length};
ghost use Rattle.rules.specs.Step.{assign, wait};
ghost use Rattle.rules.specs.Writer.{write_event};
ghost use Rattle.writer.specs.Puts.{Puts};
ghost use Rattle.writer.specs.Givens.{locals_of, condition_of};
ghost use Rattle.writer.specs.Events.{kind_number, write_head};

use crate::conditions::put_condition;
use crate::field::{put_below, put_signed};
use crate::number::put_number;
use crate::numbers::put_numbers;
use fields::refusal::Refusal;
use wire::given::Given;

// An event's kind, by its number in document 01. Not wire's `Kind`: that carries what a Set adds, which is put after the head.
#[derive(Clone, Copy)]
pub enum Kind {
    Arrive = 1,
    Admit = 2,
    Set = 3,
    Wait = 4,
    Leave = 5,
}

impl From<Kind> for u64 {
    ghost from_gives = { λ kind n. n ≡ kind_number kind };

    fn from(kind: Kind) -> u64 {
        kind as u64
    }
}

// Kind and job, for a room with this many measures; all that an Arrive, an Admit or a Leave has.
pub fn put_head(out: &mut [u8], measures: u64, kind: Kind, job: u64) -> Result<usize, Refusal>
    requires { 10 ≤ length out.old }
    ensures { Puts (write_head measures (kind_number kind) job) out.old out.new 0 result }
{
    if measures < 1 || 16 < measures {
        return Err(Refusal::OutOfRange);
    }
    let number = u64::from(kind);
    let next = put_number(out, 0, number);
    put_below(out, next, job, 32)
}

pub fn put_set(
    out: &mut [u8],
    measures: u64,
    job: u64,
    variable: u64,
    value: i64,
) -> Result<usize, Refusal>
    requires { 20 ≤ length out.old }
    ensures { Puts (write_event measures (assign job variable value)) out.old out.new 0 result }
{
    let after_head = put_head(out, measures, Kind::Set, job)?;
    let after_variable = put_below(out, after_head, variable, 8)?;
    put_signed(out, after_variable, value, 1_000_000)
}

pub fn put_wait(
    out: &mut [u8],
    measures: u64,
    job: u64,
    given: &Given,
    count: u64,
) -> Result<usize, Refusal>
    requires { 615 ≤ length out.old }
    ensures { Puts (write_event measures (wait job (locals_of given.now) (condition_of given.now count))) out.old out.new 0 result }
{
    let after_head = put_head(out, measures, Kind::Wait, job)?;
    let after_locals = put_numbers(out, after_head, &given.locals, 1_000_000)?;
    put_condition(out, after_locals, given, measures, count)
}
