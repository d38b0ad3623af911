// The exports over `probes::openings`.
ghost use Rattle.std.specs.Prelude.{◌≡◌, drop};
ghost use Rattle.rules.specs.Record.{opening};
ghost use Rattle.wire.specs.Openings.{as_opening, coefficients_of, values_of};
ghost use Rattle.probes.specs.Answers.{plain_answer};

use probes::answers::Answer;

#[unsafe(no_mangle)]
pub extern "C" fn probe_opening(
    bytes: &[u8],
    at: usize,
    coefficients: &mut [i64; 128],
    values: &mut [i64; 8],
) -> Answer
    ensures { (result ≡ plain_answer (as_opening bytes.now (opening (drop at bytes.now))))
        × (coefficients.new ≡ coefficients_of (opening (drop at bytes.now)))
        × (values.new ≡ values_of (opening (drop at bytes.now))) }
{
    probes::openings::probe_opening(bytes, at, coefficients, values)
}
