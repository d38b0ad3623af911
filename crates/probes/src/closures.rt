// Closure, of a Wait's slots into those of a job.
ghost use Rattle.std.specs.Prelude.{◌≡◌, ◌<◌};
ghost use Rattle.rules.specs.Limits.{coefficient_most, value_most};
ghost use Rattle.condition.specs.Measures.{AllIn};
ghost use Rattle.condition.specs.Closing.{closed_slots, given_slots, put_closed};

use crate::lent::conditions_of;
use closing::close;
use wire::given::Given;

pub fn probe_close(
    alternatives: &mut [u8; 32],
    atoms: &mut [u8; 128],
    measure: &mut [u8; 512],
    operator: &mut [u8; 512],
    key: &mut [i64; 512],
    counts: &[u8; 4],
    given_measure: &[u8; 16],
    given_operator: &[u8; 16],
    coefficients: &[i64; 64],
    constant: &[i64; 16],
    locals: &[i64; 4],
    count: u8,
    job: usize,
)
    requires { (job < 32)
        × ((AllIn coefficient_most coefficients.now) × ((AllIn value_most locals.now) × (AllIn value_most constant.now))) }
    ensures { closed_slots alternatives.new atoms.new measure.new operator.new key.new
        ≡ put_closed job (closed_slots alternatives.old atoms.old measure.old operator.old key.old)
        (given_slots count counts.now given_measure.now given_operator.now coefficients.now constant.now locals.now) }
{
    let mut conditions = conditions_of(alternatives, atoms, measure, operator, key);
    let given = Given {
        locals: *locals,
        counts: *counts,
        measure: *given_measure,
        operator: *given_operator,
        coefficients: *coefficients,
        constant: *constant,
    };
    close(&mut conditions, &given, count, job);
    *alternatives = conditions.alternatives;
    *atoms = conditions.atoms;
    *measure = conditions.measure;
    *operator = conditions.operator;
    *key = conditions.key;
}
