// Openings, into lent slots.
ghost use Rattle.std.specs.Prelude.{◌≡◌, drop};
ghost use Rattle.rules.specs.Record.{opening};
ghost use Rattle.wire.specs.Openings.{as_opening, coefficients_of, values_of};
ghost use Rattle.probes.specs.Answers.{plain_answer};

use crate::answers::Answer;
use wire::opening::read_opening;

pub fn probe_opening(
    bytes: &[u8],
    at: usize,
    coefficients: &mut [i64; 128],
    values: &mut [i64; 8],
) -> Answer
    ensures { (result ≡ plain_answer (as_opening bytes.now (opening (drop at bytes.now))))
        × (coefficients.new ≡ coefficients_of (opening (drop at bytes.now)))
        × (values.new ≡ values_of (opening (drop at bytes.now))) }
{
    read_opening(bytes, at, coefficients, values)
        .map_err(u8::from)
        .into()
}
