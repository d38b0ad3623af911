// Numbers and fields.
ghost use Rattle.std.specs.Prelude.{◌≡◌, drop};
ghost use Rattle.rules.specs.Number.{number, field, below, signed, signed_field};
ghost use Rattle.fields.specs.Answers.{as_answer};
ghost use Rattle.probes.specs.Answers.{plain_answer, plain_signed};

use crate::answers::{Answer, SignedAnswer};
use fields::field::{read_below, read_field, read_signed};
use fields::number::read_number;
use integers::signed_of;

pub fn probe_number(bytes: &[u8], at: usize) -> Answer
    ensures { result ≡ plain_answer (as_answer bytes.now (number (drop at bytes.now))) }
{
    read_number(bytes, at).map_err(u8::from).into()
}

// Any number may be the refusal to hand out, so it is read at the type of such a number and not at `Refusal`.
pub fn probe_field(bytes: &[u8], at: usize, refusal: u8, low: u64, high: u64) -> Answer
    ensures { result ≡ plain_answer (as_answer bytes.now (field refusal low high (drop at bytes.now))) }
{
    read_field(bytes, at, refusal, low, high).into()
}

pub fn probe_below(bytes: &[u8], at: usize, bound: u64) -> Answer
    ensures { result ≡ plain_answer (as_answer bytes.now (below bound (drop at bytes.now))) }
{
    read_below(bytes, at, bound).map_err(u8::from).into()
}

pub fn probe_signed(bytes: &[u8], at: usize, most: u64) -> SignedAnswer
    ensures { result ≡ plain_signed (as_answer bytes.now (signed_field most (drop at bytes.now))) }
{
    read_signed(bytes, at, most).map_err(u8::from).into()
}

pub fn probe_signed_of(n: u64) -> i64
    ensures { result ≡ signed n }
{
    signed_of(n)
}
