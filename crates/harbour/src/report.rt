// What an event reports to a host, as plain numbers, and what the tally makes of it.
ghost use Rattle.std.specs.Prelude.{◌≡◌};
ghost use Rattle.rules.specs.Tally.{ones, backs};
ghost use Rattle.room.specs.Codes.{outcome_at, job_at};
ghost use Rattle.harbour.specs.Openings.{told_opening};
ghost use Rattle.harbour.specs.Reports.{told as told_of, PlainAnswer};
ghost use Rattle.harbour.specs.Tallies.{noted_tally};

use room::report::Accepted;
use tally::Tally;

// Outcomes: 0 done, 1 in, 2 waits, 3 on, 4 back, 5 refused, 6 none left. Numbers for outcomes, jobs and refusals are the C interface.
#[repr(C)]
#[derive(Clone, Copy)]
pub struct Report {
    pub outcome: u8,
    // the called job, or 32 for nobody
    pub job: u8,
    // 1 to 7 where the outcome is 5, else 0
    pub refusal: u8,
    // the alternatives evaluated
    pub count: u64,
    // the bytes taken
    pub taken: u64,
}

// The answer to an opening: the refusal, or 0 for a room; its measures; the bytes taken. It is a number and no `Result`: the C interface.
#[repr(C)]
#[derive(Drop)]
pub struct Opened {
    pub refusal: u8,
    pub measures: u64,
    pub taken: u64,
}

impl From<Result<(u64, usize), u8>> for Opened {
    ghost from_gives = { λ answer opened. opened ≡ told_opening answer };

    fn from(answer: Result<(u64, usize), u8>) -> Opened {
        match answer {
            Ok((measures, next)) => Opened {
                refusal: 0,
                measures,
                taken: next as u64,
            },
            Err(number) => Opened {
                refusal: number,
                measures: 0,
                taken: 0,
            },
        }
    }
}

// An answer of `event` in C's numbers. The refusal is a number and no `Refusal`, since any number is handed on, as by `Opened`'s `From`.
// No `From` here: it asks that a called job is one of the 32.
pub fn told(answer: Option<(Result<Accepted, u8>, usize)>) -> Report
    requires { PlainAnswer answer }
    ensures { result ≡ told_of answer }
{
    let Some((report, next)) = answer else {
        return Report {
            outcome: 6,
            job: 32,
            refusal: 0,
            count: 0,
            taken: 0,
        };
    };
    match report {
        Ok(accepted) => Report {
            outcome: u8::from(accepted.outcome),
            job: accepted.called.unwrap_or(32) as u8,
            refusal: 0,
            count: accepted.evaluated as u64,
            taken: next as u64,
        },
        Err(refusal) => Report {
            outcome: 5,
            job: 32,
            refusal,
            count: 0,
            taken: next as u64,
        },
    }
}

// Of C's report again, since `note` may be given any.
fn calls(job: u8) -> u64
    ensures { result ≡ ones (job_at job) }
{
    u64::from(job < 32)
}

fn sent_back(outcome: u8) -> u64
    ensures { result ≡ backs (outcome_at outcome) }
{
    u64::from(outcome == 4)
}

// A refused event, and none left, count nothing.
pub fn noted(tally: Tally, report: Report) -> Tally
    ensures { result ≡ noted_tally tally report }
{
    if 4 < report.outcome {
        return tally;
    }
    let called = calls(report.job);
    let back = sent_back(report.outcome);
    tally.added(called, report.count, back)
}
