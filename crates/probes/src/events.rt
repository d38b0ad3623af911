// Events: the head, and the numbers of a Wait into lent slots, which begin at the head's next place.
ghost use Rattle.std.specs.Prelude.{◌≡◌, drop};
ghost use Rattle.wire.specs.Heads.{head_at};
ghost use Rattle.wire.specs.WaitSlots.{atom_slots, wait_slots, numbers, as_wait, locals_of, slots_of};
ghost use Rattle.probes.specs.Answers.{plain_answer};
ghost use Rattle.probes.specs.Heads.{plain_head};

use crate::answers::Answer;
use wire::given::Given;
use wire::head::{Head, Kind, read_head};
use wire::wait::read_wait;

// The event's kind as its record has it, its job, of a Set its variable and value, and the next place, with refusal 0; or kind 0 and the
// refusal, which is 0 if no byte is left. What is not named is 0. Numbers for kinds are the C interface.
#[repr(C)]
#[derive(Drop)]
pub struct HeadAnswer {
    pub kind: u8,
    pub refusal: u8,
    pub job: u64,
    pub variable: u64,
    pub value: i64,
    pub next: usize,
}

impl From<Result<Option<Head>, u8>> for HeadAnswer {
    ghost from_gives = { λ read answer. answer ≡ plain_head read };

    fn from(read: Result<Option<Head>, u8>) -> HeadAnswer {
        let mut answer = HeadAnswer {
            kind: 0,
            refusal: 0,
            job: 0,
            variable: 0,
            value: 0,
            next: 0,
        };
        match read {
            Ok(Some(head)) => {
                answer.job = head.job;
                answer.next = head.next;
                match head.kind {
                    Kind::Arrive => answer.kind = 1,
                    Kind::Admit => answer.kind = 2,
                    Kind::Set { variable, value } => {
                        answer.kind = 3;
                        answer.variable = variable;
                        answer.value = value;
                    }
                    Kind::Wait => answer.kind = 4,
                    Kind::Leave => answer.kind = 5,
                }
            }
            Ok(None) => {}
            Err(refusal) => answer.refusal = refusal,
        }
        answer
    }
}

pub fn probe_head(bytes: &[u8], at: usize) -> HeadAnswer
    ensures { result ≡ plain_head (head_at bytes.now (drop at bytes.now)) }
{
    read_head(bytes, at).map_err(u8::from).into()
}

pub fn probe_wait(
    locals: &mut [i64; 4],
    counts: &mut [u8; 4],
    measure: &mut [u8; 16],
    operator: &mut [u8; 16],
    coefficients: &mut [i64; 64],
    constant: &mut [i64; 16],
    bytes: &[u8],
    at: usize,
    measures: u8,
) -> Answer
    ensures { (result ≡ plain_answer (as_wait bytes.now (numbers measures (drop at bytes.now))))
        × (locals.new ≡ locals_of (numbers measures (drop at bytes.now)))
        × (wait_slots counts.new (atom_slots measure.new operator.new coefficients.new constant.new)
        ≡ slots_of (numbers measures (drop at bytes.now))) }
{
    let mut given = Given {
        locals: *locals,
        counts: *counts,
        measure: *measure,
        operator: *operator,
        coefficients: *coefficients,
        constant: *constant,
    };
    let answer = read_wait(&mut given, bytes, at, measures);
    *locals = given.locals;
    *counts = given.counts;
    *measure = given.measure;
    *operator = given.operator;
    *coefficients = given.coefficients;
    *constant = given.constant;
    answer.map_err(u8::from).into()
}
