// The writer of records (document 02, §1), for those who lend a buffer: each record goes into its rest from place `at` on, and the bytes
// before and after it stay. The answer is the place after the record, or the refusal: 4 for a number of measures that no room has, then 3
// or 4 as the reader gives them, in field order, then 9 when the rest is shorter than the record. A refusal leaves every byte as it was.
ghost use Rattle.rules.specs.Step.{arrive, admit, assign, wait, leave};
ghost use Rattle.rules.specs.Writer.{write_event, write_opening};
ghost use Rattle.condition.specs.From.{from};
ghost use Rattle.writer.specs.Givens.{locals_of, condition_of};
ghost use Rattle.writer.specs.Openings.{row_given, values_given};
ghost use Rattle.writer.specs.Whole.{Writes};

use crate::events::{Kind, put_head, put_set, put_wait};
use crate::openings::put_opening;
use crate::whole::write_record;
use fields::refusal::Refusal;
use wire::given::Given;

pub fn write_opening(
    out: &mut [u8],
    at: usize,
    measures: u64,
    coefficients: &[i64; 128],
    values: &[i64; 8],
) -> Result<usize, Refusal>
    ensures { Writes (write_opening (from (row_given coefficients.now) measures 0) (values_given values.now)) out.old out.new at result }
{
    write_record(
        out,
        at,
        |bytes| put_opening(bytes, measures, coefficients, values),
    )
}

// This, Admit and Leave differ in their kind alone. They are three, since hosts call them by name; each is one call of `write_record`.
pub fn write_arrive(out: &mut [u8], at: usize, measures: u64, job: u64) -> Result<usize, Refusal>
    ensures { Writes (write_event measures (arrive job)) out.old out.new at result }
{
    write_record(
        out,
        at,
        |bytes| put_head(bytes, measures, Kind::Arrive, job),
    )
}

pub fn write_admit(out: &mut [u8], at: usize, measures: u64, job: u64) -> Result<usize, Refusal>
    ensures { Writes (write_event measures (admit job)) out.old out.new at result }
{
    write_record(out, at, |bytes| put_head(bytes, measures, Kind::Admit, job))
}

pub fn write_set(
    out: &mut [u8],
    at: usize,
    measures: u64,
    job: u64,
    variable: u64,
    value: i64,
) -> Result<usize, Refusal>
    ensures { Writes (write_event measures (assign job variable value)) out.old out.new at result }
{
    write_record(
        out,
        at,
        |bytes| put_set(bytes, measures, job, variable, value),
    )
}

pub fn write_wait(
    out: &mut [u8],
    at: usize,
    measures: u64,
    job: u64,
    given: &Given,
    count: u64,
) -> Result<usize, Refusal>
    ensures { Writes (write_event measures (wait job (locals_of given.now) (condition_of given.now count))) out.old out.new at result }
{
    write_record(
        out,
        at,
        |bytes| put_wait(bytes, measures, job, given, count),
    )
}

pub fn write_leave(out: &mut [u8], at: usize, measures: u64, job: u64) -> Result<usize, Refusal>
    ensures { Writes (write_event measures (leave job)) out.old out.new at result }
{
    write_record(out, at, |bytes| put_head(bytes, measures, Kind::Leave, job))
}
