// The exports over `probes::closures`.
ghost use Rattle.std.specs.Prelude.{◌≡◌, ◌<◌};
ghost use Rattle.rules.specs.Limits.{coefficient_most, value_most};
ghost use Rattle.condition.specs.Measures.{AllIn};
ghost use Rattle.condition.specs.Closing.{closed_slots, given_slots, put_closed};

#[unsafe(no_mangle)]
pub extern "C" fn probe_close(
    alternatives: &mut [u8; 32],
    atoms: &mut [u8; 128],
    measure: &mut [u8; 512],
    operator: &mut [u8; 512],
    key: &mut [i64; 512],
    counts: &[u8; 4],
    given_measure: &[u8; 16],
    given_operator: &[u8; 16],
    coefficients: &[i64; 64],
    constant: &[i64; 16],
    locals: &[i64; 4],
    count: u8,
    job: usize,
)
    requires { (job < 32)
        × ((AllIn coefficient_most coefficients.now) × ((AllIn value_most locals.now) × (AllIn value_most constant.now))) }
    ensures { closed_slots alternatives.new atoms.new measure.new operator.new key.new
        ≡ put_closed job (closed_slots alternatives.old atoms.old measure.old operator.old key.old)
        (given_slots count counts.now given_measure.now given_operator.now coefficients.now constant.now locals.now) }
{
    probes::closures::probe_close(
        alternatives,
        atoms,
        measure,
        operator,
        key,
        counts,
        given_measure,
        given_operator,
        coefficients,
        constant,
        locals,
        count,
        job,
    )
}
