// The exports over `probes::numbers`.
ghost use Rattle.std.specs.Prelude.{◌≡◌, drop};
ghost use Rattle.rules.specs.Number.{number, field, below, signed, signed_field};
ghost use Rattle.fields.specs.Answers.{as_answer};
ghost use Rattle.probes.specs.Answers.{plain_answer, plain_signed};

use probes::answers::{Answer, SignedAnswer};

#[unsafe(no_mangle)]
pub extern "C" fn probe_number(bytes: &[u8], at: usize) -> Answer
    ensures { result ≡ plain_answer (as_answer bytes.now (number (drop at bytes.now))) }
{
    probes::numbers::probe_number(bytes, at)
}

#[unsafe(no_mangle)]
pub extern "C" fn probe_field(bytes: &[u8], at: usize, refusal: u8, low: u64, high: u64) -> Answer
    ensures { result ≡ plain_answer (as_answer bytes.now (field refusal low high (drop at bytes.now))) }
{
    probes::numbers::probe_field(bytes, at, refusal, low, high)
}

#[unsafe(no_mangle)]
pub extern "C" fn probe_below(bytes: &[u8], at: usize, bound: u64) -> Answer
    ensures { result ≡ plain_answer (as_answer bytes.now (below bound (drop at bytes.now))) }
{
    probes::numbers::probe_below(bytes, at, bound)
}

#[unsafe(no_mangle)]
pub extern "C" fn probe_signed(bytes: &[u8], at: usize, most: u64) -> SignedAnswer
    ensures { result ≡ plain_signed (as_answer bytes.now (signed_field most (drop at bytes.now))) }
{
    probes::numbers::probe_signed(bytes, at, most)
}

#[unsafe(no_mangle)]
pub extern "C" fn probe_signed_of(n: u64) -> i64
    ensures { result ≡ signed n }
{
    probes::numbers::probe_signed_of(n)
}
