// What an event reports: a refusal, or what came of the job, whom a search called, and how many alternatives it evaluated.
ghost use Rattle.std.specs.Prelude.{◌≡◌};
ghost use Rattle.room.specs.Reports.{outcome_number, plain_report, search_report};

use fields::refusal::Refusal;
use search::Answer;

#[derive(Clone, Copy, Debug, PartialEq, Eq, Hash)]
pub enum Outcome {
    Done,
    In,
    Waits,
    On,
    Back,
}

// Its number in the reports of C.
impl From<Outcome> for u8 {
    ghost from_gives = { λ o k. k ≡ outcome_number o };

    fn from(outcome: Outcome) -> u8 {
        match outcome {
            Outcome::Done => 0,
            Outcome::In => 1,
            Outcome::Waits => 2,
            Outcome::On => 3,
            Outcome::Back => 4,
        }
    }
}

#[derive(Clone, Copy, Debug, PartialEq, Eq, Hash)]
pub struct Accepted {
    pub outcome: Outcome,
    pub called: Option<usize>,
    pub evaluated: usize,
}

pub type Report = Result<Accepted, Refusal>;

// The report of an event without a search.
pub fn unsearched(outcome: Outcome) -> Report
    ensures { result ≡ plain_report outcome }
{
    Ok(Accepted {
        outcome,
        called: None,
        evaluated: 0,
    })
}

// The report of an event with a search.
pub fn searched(outcome: Outcome, answer: Answer) -> Report
    ensures { result ≡ search_report outcome answer }
{
    let (called, evaluated) = match answer {
        Answer::Calls(job, count) => (Some(job), count),
        Answer::Nobody(count) => (None, count),
    };
    Ok(Accepted {
        outcome,
        called,
        evaluated,
    })
}
