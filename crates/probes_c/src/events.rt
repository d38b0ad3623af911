// The exports over `probes::events`.
ghost use Rattle.std.specs.Prelude.{◌≡◌, drop};
ghost use Rattle.wire.specs.Heads.{head_at};
ghost use Rattle.wire.specs.WaitSlots.{atom_slots, wait_slots, numbers, as_wait, locals_of, slots_of};
ghost use Rattle.probes.specs.Answers.{plain_answer};
ghost use Rattle.probes.specs.Heads.{plain_head};

use probes::answers::Answer;
use probes::events::HeadAnswer;

#[unsafe(no_mangle)]
pub extern "C" fn probe_head(bytes: &[u8], at: usize) -> HeadAnswer
    ensures { result ≡ plain_head (head_at bytes.now (drop at bytes.now)) }
{
    probes::events::probe_head(bytes, at)
}

#[unsafe(no_mangle)]
pub extern "C" fn probe_wait(
    locals: &mut [i64; 4],
    counts: &mut [u8; 4],
    measure: &mut [u8; 16],
    operator: &mut [u8; 16],
    coefficients: &mut [i64; 64],
    constant: &mut [i64; 16],
    bytes: &[u8],
    at: usize,
    measures: u8,
) -> Answer
    ensures { (result ≡ plain_answer (as_wait bytes.now (numbers measures (drop at bytes.now))))
        × (locals.new ≡ locals_of (numbers measures (drop at bytes.now)))
        × (wait_slots counts.new (atom_slots measure.new operator.new coefficients.new constant.new)
        ≡ slots_of (numbers measures (drop at bytes.now))) }
{
    probes::events::probe_wait(
        locals,
        counts,
        measure,
        operator,
        coefficients,
        constant,
        bytes,
        at,
        measures,
    )
}
