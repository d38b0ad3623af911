// The lines of a listing.
ghost use Rattle.std.specs.Prelude.{[], ◌++◌};
ghost use Rattle.rules.specs.Listing.{decimal, line};
ghost use Rattle.fields.specs.Refusals.{refusal_number};
ghost use Rattle.room.specs.Reports.{outcome_of, job_in};
ghost use Rattle.listing.specs.Output.{output, Writes};
ghost use Rattle.listing.specs.Lines.{outcome_text, job_text, line_of, refused_line, end_line};

use crate::put::{put, put_decimal, put_text};
use fields::refusal::Refusal;
use room::report::{Accepted, Outcome};

// The outcome's word, with a space before and after it.
fn put_outcome(out: &mut [u8], at: usize, outcome: Outcome) -> usize
    ensures { Writes (output out.old at) (output out.new result) (outcome_text (outcome_of outcome)) }
{
    match outcome {
        Outcome::Done => put_text(out, at, b" done "),
        Outcome::In => put_text(out, at, b" in "),
        Outcome::Waits => put_text(out, at, b" waits "),
        Outcome::On => put_text(out, at, b" on "),
        Outcome::Back => put_text(out, at, b" back "),
    }
}

// The called job, or `-`.
fn put_job(out: &mut [u8], at: usize, called: Option<usize>) -> usize
    ensures { Writes (output out.old at) (output out.new result) (job_text (job_in called)) }
{
    match called {
        Some(job) => put_decimal(out, at, job),
        None => put(out, at, b'-'),
    }
}

// A line of some words and a number.
pub fn put_line(out: &mut [u8], at: usize, words: &[u8], n: usize) -> usize
    ensures { Writes (output out.old at) (output out.new result) (line (words.now ++ decimal n) []) }
{
    let after_words = put_text(out, at, words);
    let after_number = put_decimal(out, after_words, n);
    put(out, after_number, b'\n')
}

// The same with a refusal's number.
pub fn put_refusal(out: &mut [u8], at: usize, words: &[u8], refusal: Refusal) -> usize
    ensures { Writes (output out.old at) (output out.new result) (line (words.now ++ decimal (refusal_number refusal)) []) }
{
    put_line(out, at, words, usize::from(u8::from(refusal)))
}

pub fn put_accepted(out: &mut [u8], at: usize, number: usize, accepted: Accepted) -> usize
    ensures { Writes (output out.old at) (output out.new result) (line_of number accepted) }
{
    let after_number = put_decimal(out, at, number);
    let after_outcome = put_outcome(out, after_number, accepted.outcome);
    let after_job = put_job(out, after_outcome, accepted.called);
    put_line(out, after_job, b" ", accepted.evaluated)
}

pub fn put_refused(out: &mut [u8], at: usize, number: usize, refusal: Refusal) -> usize
    ensures { Writes (output out.old at) (output out.new result) (refused_line number (refusal_number refusal)) }
{
    let after_number = put_decimal(out, at, number);
    put_refusal(out, after_number, b" refused ", refusal)
}

pub fn put_end(out: &mut [u8], at: usize, before: usize) -> usize
    ensures { Writes (output out.old at) (output out.new result) (end_line before) }
{
    put_line(out, at, b"end ", before)
}
